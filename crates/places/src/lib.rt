#![tactic(auto)]
// Where things lie in the lent buffers. A place is a row of 11 floats and a row of 8 words; beside a node, a row of floats
// holds one record of a root and its distance. Only these functions know the numbers of the cells.

ghost use Rattle.std.specs.Prelude.{◌≡◌, ◌+◌, ◌*◌, ◌≤◌, length};
ghost use Rattle.counts.specs.Counts.{below};
ghost use Rattle.queue.specs.Words.{column};
ghost use Rattle.places.specs.Layout.{f_cell, floats_per_place, words_per_place, work_of, places_in, interval_in, left_in, node_in, step_in, parent_in};
ghost use Rattle.places.specs.Layout.{depth_in, number_in, put_floats, put_words, record_root, record_distance, record_for, record_put, distance_put};

use point::{Point, Segment};
use route::{Step, kind_of};
use steps::Node;

// Floats and words in a row.
pub const FLOATS: usize = 11;

pub const WORDS: usize = 8;

// Words of the queue for a place.
pub const QUEUE_WORDS: usize = 2;

// The cell of a row of floats in which f stands.
pub const F_AT: usize = 7;

// The seed's kind; a step's is the number in its record.
pub const SEED: u32 = 1;

// The most places that are used.
pub const MOST_PLACES: usize = 4096;

// How many nodes the lent work buffers hold.
#[tactic(auto, unfolding(crate::specs::Layout::places_in))]
pub fn places_in(floats: &[f32], words: &[u32], queue: &[u32]) -> usize
    ensures { result ≡ places_in (work_of floats.now words.now queue.now) }
{
    let rows = (floats.len() / FLOATS).min(words.len() / WORDS);
    rows.min(queue.len() / QUEUE_WORDS).min(MOST_PLACES)
}

// Stores the floats of the node at place i.
#[tactic(auto, unfolding(crate::specs::Layout::put_floats, crate::specs::Layout::puts))]
pub fn put_floats(floats: &mut [f32], i: usize, node: Node, f: f32)
    requires { (i + 1) * floats_per_place ≤ length floats.old }
    ensures { floats.new ≡ put_floats floats.old i node f }
{
    let row = i * FLOATS;
    let interval = node.interval;
    let right = interval.0;
    let left = interval.1;
    let root = node.root;
    floats[row + 0] = right.x;
    floats[row + 1] = right.y;
    floats[row + 2] = left.x;
    floats[row + 3] = left.y;
    floats[row + 4] = root.x;
    floats[row + 5] = root.y;
    floats[row + 6] = node.length;
    floats[row + 7] = f;
}

// Stores the words of the node at place i: how it was entered, from which place, after how many steps, and which record its
// root has.
#[tactic(auto, unfolding(crate::specs::Layout::put_words, crate::specs::Layout::puts))]
pub fn put_words(
    words: &mut [u32],
    i: usize,
    kind: u32,
    node: Node,
    parent: u32,
    depth: u32,
    number: u32,
)
    requires { (i + 1) * words_per_place ≤ length words.old }
    ensures { words.new ≡ put_words words.old i kind node parent depth number }
{
    let row = i * WORDS;
    words[row + 0] = kind;
    words[row + 1] = node.polygon;
    words[row + 2] = node.first;
    words[row + 3] = node.second;
    words[row + 4] = parent;
    words[row + 5] = node.points;
    words[row + 6] = depth;
    words[row + 7] = number;
}

// The interval of the node at place i.
#[tactic(auto, unfolding(crate::specs::Layout::interval_in, crate::specs::Layout::float_at))]
fn interval_at(floats: &[f32], i: usize) -> Segment
    requires { (i + 1) * floats_per_place ≤ length floats.now }
    ensures { result ≡ interval_in floats.now i }
{
    let row = i * FLOATS;
    let right = Point::new(floats[row + 0], floats[row + 1]);
    let left = Point::new(floats[row + 2], floats[row + 3]);
    Segment(right, left)
}

// The place from which the node at place i was entered.
#[tactic(auto, unfolding(crate::specs::Layout::parent_in, crate::specs::Layout::word_at))]
pub fn parent_at(words: &[u32], i: usize) -> u32
    requires { (i + 1) * words_per_place ≤ length words.now }
    ensures { result ≡ parent_in words.now i }
{
    words[i * WORDS + 4]
}

// The polygon of that place, which was left for the node's own.
#[tactic(auto, unfolding(crate::specs::Layout::left_in, crate::specs::Layout::word_at))]
fn left_at(words: &[u32], i: usize) -> u32
    requires { ((i + 1) * words_per_place ≤ length words.now) × ((parent_in words.now i + 1) * words_per_place ≤ length words.now) }
    ensures { result ≡ left_in words.now i }
{
    let parent = parent_at(words, i) as usize;
    words[parent * WORDS + 1]
}

// The node at place i, of which another place is the parent.
#[tactic(auto, unfolding(crate::specs::Layout::node_in, crate::specs::Layout::float_at, crate::specs::Layout::word_at))]
pub fn node_at(floats: &[f32], words: &[u32], i: usize) -> Node
    requires { ((i + 1) * floats_per_place ≤ length floats.now) × ((i + 1) * words_per_place ≤ length words.now)
        × ((parent_in words.now i + 1) * words_per_place ≤ length words.now) }
    ensures { result ≡ node_in floats.now words.now i }
{
    let interval = interval_at(floats, i);
    let left = left_at(words, i);
    let row = i * FLOATS;
    let root = Point::new(floats[row + 4], floats[row + 5]);
    let length = floats[row + 6];
    let row = i * WORDS;
    Node {
        seed: words[row + 0] == SEED,
        left,
        polygon: words[row + 1],
        first: words[row + 2],
        second: words[row + 3],
        interval,
        root,
        length,
        points: words[row + 5],
    }
}

// The step by which the node at place i was entered.
#[tactic(auto, unfolding(crate::specs::Layout::step_in, crate::specs::Layout::word_at))]
pub fn step_at(floats: &[f32], words: &[u32], i: usize) -> Step
    requires { ((i + 1) * floats_per_place ≤ length floats.now) × ((i + 1) * words_per_place ≤ length words.now) }
    ensures { result ≡ step_in floats.now words.now i }
{
    let interval = interval_at(floats, i);
    let row = i * WORDS;
    let kind = kind_of(words[row + 0]);
    Step {
        kind,
        polygon: words[row + 1],
        first: words[row + 2],
        second: words[row + 3],
        interval,
    }
}

// The f of the node at place i.
#[tactic(auto, unfolding(queue::specs::Words::column))]
pub fn f_at(floats: &[f32], i: usize) -> f32
    requires { (i + 1) * floats_per_place ≤ length floats.now }
    ensures { result ≡ column floats.now floats_per_place f_cell i }
{
    floats[i * FLOATS + F_AT]
}

// How many steps led to the node at place i.
#[tactic(auto, unfolding(crate::specs::Layout::depth_in, crate::specs::Layout::word_at))]
pub fn depth_at(words: &[u32], i: usize) -> u32
    requires { (i + 1) * words_per_place ≤ length words.now }
    ensures { result ≡ depth_in words.now i }
{
    words[i * WORDS + 6]
}

// The number of the record that the root of the node at place i has.
#[tactic(auto, unfolding(crate::specs::Layout::number_in, crate::specs::Layout::word_at))]
pub fn number_at(words: &[u32], i: usize) -> u32
    requires { (i + 1) * words_per_place ≤ length words.now }
    ensures { result ≡ number_in words.now i }
{
    words[i * WORDS + 7]
}

// The root of record r.
#[tactic(auto, unfolding(crate::specs::Layout::record_root, crate::specs::Layout::float_at))]
fn record_root(floats: &[f32], r: usize) -> Point
    requires { (r + 1) * floats_per_place ≤ length floats.now }
    ensures { result ≡ record_root floats.now r }
{
    let row = r * FLOATS;
    Point::new(floats[row + 8], floats[row + 9])
}

// The distance of record r.
#[tactic(auto, unfolding(crate::specs::Layout::record_distance, crate::specs::Layout::float_at))]
pub fn record_distance(floats: &[f32], r: usize) -> f32
    requires { (r + 1) * floats_per_place ≤ length floats.now }
    ensures { result ≡ record_distance floats.now r }
{
    floats[r * FLOATS + 10]
}

// The first of so many records whose root is this one by ==, if there is one.
pub fn record_for(floats: &[f32], records: usize, root: Point) -> Option<usize>
    requires { records * floats_per_place ≤ length floats.now }
    ensures { result ≡ below records (record_for floats.now records root) }
{
    for r in 0..records {
        if record_root(floats, r) == root {
            return Some(r);
        }
    }
    None
}

// Makes record r.
#[tactic(auto, unfolding(crate::specs::Layout::record_put, crate::specs::Layout::puts))]
pub fn put_record(floats: &mut [f32], r: usize, root: Point, distance: f32)
    requires { (r + 1) * floats_per_place ≤ length floats.old }
    ensures { floats.new ≡ record_put floats.old r root distance }
{
    let row = r * FLOATS;
    floats[row + 8] = root.x;
    floats[row + 9] = root.y;
    floats[row + 10] = distance;
}

// Changes the distance of record r.
#[tactic(auto, unfolding(crate::specs::Layout::distance_put))]
pub fn put_distance(floats: &mut [f32], r: usize, distance: f32)
    requires { (r + 1) * floats_per_place ≤ length floats.old }
    ensures { floats.new ≡ distance_put floats.old r distance }
{
    floats[r * FLOATS + 10] = distance;
}
