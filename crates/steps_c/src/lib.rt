#![tactic(auto)]
// The permitted steps for C, and for the harness that compares them with the Rust. A slice goes to C as its pointer and its
// length. The function takes any bytes and any words.

ghost use Rattle.std.specs.Prelude.{◌≡◌};
ghost use Rattle.edges.specs.AcceptedFloor.{the_floor};
ghost use Rattle.steps_c.specs.declared.Unasked.TheVariants.{Refused};
ghost use Rattle.steps_c.specs.Ask.{node_of, answer_on, answer_of, answer_number, answer_written};

use edges::AcceptedFloor;
use floor::Refusal;
use plan::Plan;
use point::{Point, Segment};
use records::Record;
use route::Step;
use steps::Node;
use told::Told;

mod kth;
mod stand;

// Why a step can't be asked for.
#[derive(Clone, Copy)]
enum Unasked {
    // The node does not stand on the floor.
    Nowhere,
    // The floor is refused.
    Refused(Refusal),
}

impl From<Refusal> for Unasked {
    ghost from_gives = { λ r u. u ≡ Refused r };

    fn from(refusal: Refusal) -> Unasked {
        Unasked::Refused(refusal)
    }
}

// The node that ten words stand for: 1 for the seed, polygon, first, second, the bit patterns of the interval's four
// coordinates and of the root's two. Which polygon was left and how long the way to it is decide no step.
fn node_of(words: &[u32; 10]) -> Node
    ensures { result ≡ node_of words.now }
{
    let right = Point::from_bits(words[4], words[5]);
    let left = Point::from_bits(words[6], words[7]);
    let root = Point::from_bits(words[8], words[9]);
    Node {
        seed: words[0] == 1,
        left: words[1],
        polygon: words[1],
        first: words[2],
        second: words[3],
        interval: Segment(right, left),
        root,
        length: 0.0,
        points: 0,
    }
}

// Step k out of a node, or none where the node has no step with this number.
#[tactic(auto, unfolding(crate::specs::Ask::answer_on))]
fn answer_on(
    floor: &AcceptedFloor,
    goal: u32,
    node: Node,
    k: usize,
) -> Result<Option<Step>, Unasked>
    ensures { result ≡ answer_on (the_floor floor.now) goal node k }
{
    if !stand::is_on(floor.polygons, floor.plan, node) {
        return Err(Unasked::Nowhere);
    }
    Ok(kth::kth_step(floor, goal, node, k))
}

#[tactic(auto, unfolding(crate::specs::Ask::answer_of))]
fn ask(
    vertices: &[u8],
    polygons: &[u8],
    goal: u32,
    node: Node,
    k: usize,
) -> Result<Option<Step>, Unasked>
    ensures { result ≡ answer_of vertices.now polygons.now goal node k }
{
    let mut plan = Plan::new();
    floor::look_at_floor(vertices, polygons, &mut plan)?;
    let floor = AcceptedFloor {
        vertices,
        polygons,
        plan: &plan,
    };
    answer_on(&floor, goal, node, k)
}

// The step with number k, counted from 0, out of a node, where the goal is in this polygon: 1, and its record's eight words
// in out. Otherwise out is unchanged: 0 where the node has no such step, document 01's number from 2 to 6 where the floor is
// refused, and 100, which is none of document 01's, where the node does not stand on the floor.
#[tactic(auto, unfolding(crate::specs::Ask::answer_number, crate::specs::Ask::answer_written, records::specs::Records::step_record))]
pub fn steps_step(
    vertices: &[u8],
    polygons: &[u8],
    goal: u32,
    node: &[u32; 10],
    k: usize,
    out: &mut [u32; 8],
) -> u32
    ensures value { result ≡ answer_number (answer_of vertices.now polygons.now goal (node_of node.now) k) }
    ensures out_after { out.new ≡ answer_written (answer_of vertices.now polygons.now goal (node_of node.now) k)
        out.old }
{
    let asked = node_of(node);
    match ask(vertices, polygons, goal, asked, k) {
        Ok(Some(step)) => {
            let record = Record::step(step);
            let words = record.words;
            *out = words;
            1
        }
        Ok(None) => 0,
        Err(Unasked::Nowhere) => 100,
        Err(Unasked::Refused(refusal)) => Told::from(refusal).number(),
    }
}
