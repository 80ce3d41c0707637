#![tactic(auto)]
// The winner tree: which place is popped next. It stands in the first of the lent words, two for each of the n places: word
// n + i is place i's own, and each word k from 1 below n is the better of words 2k and 2k + 1. So word 1 is the least queued
// place. A place's f stands in a column of lent floats.

ghost use Rattle.std.specs.Prelude.{◌≡◌, Bool, true, false, ℕ, ◌+◌, ◌*◌, ◌≤◌, ◌<◌, Float, length, get_or};
ghost use Rattle.queue.specs.Queue.{none, lone_of, own_of, place_named, put, least_of, NoNan, Tree};
ghost use Rattle.queue.specs.Words.{Room, queued_in, cleared, queue_of};
ghost use Rattle.queue.specs.Column.{f_of};
ghost use Rattle.queue.specs.Climb.{repaired, stays, climbed, path_repaired};

mod column;

pub use column::Column;

// The word that stands for no place.
pub const NONE: u32 = 0xFFFF_FFFF;

// Of two words of which one at most is a place, that one.
#[tactic(auto, unfolding(crate::specs::Queue::lone_of))]
fn lone(n: usize, a: u32, b: u32) -> u32
    ensures { result ≡ lone_of n a b }
{
    if n <= a as usize {
        return b;
    }
    a
}

// Makes word k the better of its two, and answers whether it stays what it was.
#[tactic(auto, using(crate::proofs::Ways::repair_words, crate::proofs::Ways::repair_stays))]
fn repair(tree: &mut [u32], column: &Column, k: usize) -> bool
    requires { (2 * column.now.places ≤ length tree.old) × (k < column.now.places) }
    ensures words { tree.new ≡ repaired (f_of column.now) column.now.places k tree.old }
    ensures answer { result ≡ stays (f_of column.now) column.now.places k tree.old }
{
    let a = tree[2 * k];
    let b = tree[2 * k + 1];
    let w = column.better(a, b);
    let was = tree[k];
    tree[k] = w;
    w == was
}

// Repairs word k, then the one above it, up to word 1. It ends at a word that stays what it was: every word above that is right as it is.
#[tactic(auto, using(crate::proofs::Ways::climb_begins, crate::proofs::Ways::climb_long, crate::proofs::Ways::climb_on, crate::proofs::Ways::climb_over))]
fn climb(tree: &mut [u32], column: &Column, from: usize)
    requires { (2 * column.now.places ≤ length tree.old) × (from < column.now.places) }
    ensures { tree.new ≡ climbed (f_of column.now) column.now.places from from tree.old }
{
    let mut k = from;
    while 0 < k {
        if repair(tree, column, k) {
            return;
        }
        k = k / 2;
    }
}

// Place i's own word: the place if it is queued.
#[tactic(auto, unfolding(crate::specs::Queue::own_of))]
fn own(i: usize, queued: bool) -> u32
    requires { i < none }
    ensures { result ≡ own_of i queued }
{
    if queued {
        return i as u32;
    }
    NONE
}

// Says at place i's own word whether it is queued, and repairs the path above it.
#[tactic(auto, using(crate::proofs::Ways::path_told))]
fn place(tree: &mut [u32], column: &Column, i: usize, queued: bool)
    requires room { Room column.now.places tree.old }
    requires i_lt_n { i < column.now.places }
    ensures { tree.new ≡ path_repaired (f_of column.now) column.now.places i queued tree.old }
{
    let n = column.places;
    tree[n + i] = own(i, queued);
    climb(tree, column, (n + i) / 2);
}

// Queues place i. The words are the tree of the places that they say are queued; then they are that of these and i.
#[tactic(auto, using(crate::proofs::Ways::place_told))]
pub fn push(tree: &mut [u32], column: &Column, i: usize)
    requires room { Room column.now.places tree.old }
    requires i_lt_n { i < column.now.places }
    requires tree { Tree (f_of column.now) column.now.places (queued_in column.now.places tree.old) tree.old }
    ensures { let n = column.now.places in
        tree.new ≡ queue_of (f_of column.now) n (put (queued_in n tree.old) i true) tree.old }
{
    place(tree, column, i, true);
}

// Takes place i out of the queue, likewise.
#[tactic(auto, using(crate::proofs::Ways::place_told))]
pub fn remove(tree: &mut [u32], column: &Column, i: usize)
    requires room { Room column.now.places tree.old }
    requires i_lt_n { i < column.now.places }
    requires tree { Tree (f_of column.now) column.now.places (queued_in column.now.places tree.old) tree.old }
    ensures { let n = column.now.places in
        tree.new ≡ queue_of (f_of column.now) n (put (queued_in n tree.old) i false) tree.old }
{
    place(tree, column, i, false);
}

// Makes the first m words NONE. Two for each place are the tree of no queued place.
pub fn clear(words: &mut [u32], m: usize)
    requires { m ≤ length words.old }
    ensures { words.new ≡ cleared m words.old }
{
    for k in 0..m {
        words[k] = NONE;
    }
}

// The place that a word stands for, if it stands for one.
fn named(word: u32) -> Option<usize>
    ensures { result ≡ place_named word }
{
    if word == NONE {
        return None;
    }
    Some(word as usize)
}

// The queued place of least f, of equal f the lowest, or none where nothing is queued.
pub fn least(tree: &[u32]) -> Option<usize>
    requires { 1 < length tree.now }
    ensures word { result ≡ place_named (get_or tree.now 1 0) }
    ensures queue { (f : ℕ → Float) (n : ℕ) (q : ℕ → Bool) → 0 < n → n ≤ none → NoNan f n q → Tree f n q tree.now
        → result ≡ place_named (least_of f n q) }
{
    named(tree[1])
}
