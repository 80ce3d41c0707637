#![tactic(auto)]
// What a search answers, and the route's bytes: the seed, the steps down the chain of parents, and the end. They are written
// from the end backwards, as the chain is walked.

ghost use Rattle.std.specs.Prelude.{◌≡◌, List, ℕ, ◌+◌, ◌*◌, ◌≤◌, ◌<◌, ◌^◌, length};
ghost use Rattle.records.specs.Records.{end_record};
ghost use Rattle.steps.specs.World.{ending_of};
ghost use Rattle.places.specs.Layout.{work_of};
ghost use Rattle.machine.specs.Search.{state_of, ending};
ghost use Rattle.writing.specs.Answers.{answer_told, answer_steps};
ghost use Rattle.writing.specs.Delivered.{written, route_bytes, straight_bytes, delivered};
ghost use Rattle.writing.specs.Writing.{put_chain, ChainLies, Tellable, Tells};

use floor::Refusal;
use machine::{Ended, Finish};
use places::{depth_at, node_at, parent_at, step_at};
use point::Point;
use records::Record;
use steps::{Node, Trip};
use told::Told;

// What a search answers. Each but Refused and NoPlaces has the counted steps, which are 0 for those two.
#[derive(Clone, Copy)]
pub enum Answer {
    // 0: the route stands in the first so many bytes of the output.
    Found { steps: usize, bytes: usize },
    // 1: no route.
    NotFound { steps: usize },
    // 2 to 9: the floor or the question was refused.
    Refused(Refusal),
    // 10: the lent work buffers hold no node.
    NoPlaces,
    // 11: a node needed a place and none was left.
    Full { steps: usize },
    // 12: the budget was spent.
    Spent { steps: usize },
    // 13: the route is longer than the output.
    Short { steps: usize },
    // 14: a node needed an entry of the table and every one was used.
    TableFull { steps: usize },
}

// The record of the end after a node.
fn end_after(goal: Point, node: Node) -> Record
    requires { node.points + 2 < 2 ^ 32 }
    ensures { result ≡ end_record (ending_of goal node).points goal (ending_of goal node).length }
{
    let ending = node.ending(goal);
    Record::end(ending.points, goal, ending.length)
}

// Writes the steps of the chain that ends at place i, the last one as record `depth`.
#[tactic(auto, using(crate::proofs::Chaining::chaining_goes_on, crate::proofs::Chaining::chaining_ends))]
fn write_chain(floats: &[f32], words: &[u32], i: usize, depth: usize, out: &mut [u8])
    requires { ChainLies floats.now words.now depth i × ((depth + 1) * 32 ≤ length out.old) }
    ensures { out.new ≡ put_chain floats.now words.now depth i out.old }
{
    let mut place = i;
    for k in (1..=depth).rev() {
        let step = step_at(floats, words, place);
        Record::step(step).write(out, k);
        place = parent_at(words, place) as usize;
    }
}

// Writes the route of this trip that ends at place i, if there is room.
fn write_route(
    trip: Trip,
    i: usize,
    steps: usize,
    floats: &[f32],
    words: &[u32],
    out: &mut [u8],
) -> Answer
    requires { Tellable floats.now words.now i }
    ensures answer { let work = work_of floats.now words.now in
        ((queue : List ℕ) → result ≡ (written (route_bytes (work queue) trip i) steps out.old).answer) }
    ensures out_after { let work = work_of floats.now words.now in
        ((queue : List ℕ) → out.new ≡ (written (route_bytes (work queue) trip i) steps out.old).out) }
{
    let depth = depth_at(words, i) as usize;
    let bytes = (depth + 2) * Record::BYTES;
    if out.len() < bytes {
        return Answer::Short { steps };
    }
    let node = node_at(floats, words, i);
    end_after(trip.goal, node).write(out, depth + 1);
    write_chain(floats, words, i, depth, out);
    Record::seed(trip.from, trip.start).write(out, 0);
    Answer::Found { steps, bytes }
}

// Writes the route of no steps.
pub fn write_straight(trip: Trip, out: &mut [u8]) -> Answer
    ensures value { result ≡ (written (straight_bytes trip) 0 out.old).answer }
    ensures out_after { out.new ≡ (written (straight_bytes trip) 0 out.old).out }
{
    let bytes = 2 * Record::BYTES;
    if out.len() < bytes {
        return Answer::Short { steps: 0 };
    }
    let seed = Node::seed(trip.start, trip.from);
    end_after(trip.goal, seed).write(out, 1);
    Record::seed(trip.from, trip.start).write(out, 0);
    Answer::Found { steps: 0, bytes }
}

// Tells how the search ended, and writes the route if it arrived.
pub fn tell(trip: Trip, ended: Ended, floats: &[f32], words: &[u32], out: &mut [u8]) -> Answer
    requires { Tells floats.now words.now ended.finish }
    ensures answer { let work = work_of floats.now words.now in
        let finish = ended.finish in
        ((queue : List ℕ) → result ≡ (delivered trip (ending (state_of (work queue) ended.counts) finish) out.old).answer) }
    ensures out_after { let work = work_of floats.now words.now in
        let finish = ended.finish in
        ((queue : List ℕ) → out.new ≡ (delivered trip (ending (state_of (work queue) ended.counts) finish) out.old).out) }
{
    let counts = ended.counts;
    let steps = counts.pops;
    let finish = ended.finish;
    match finish {
        Finish::Arrived(i) => write_route(trip, i, steps, floats, words, out),
        Finish::Emptied => Answer::NotFound { steps },
        Finish::Filled => Answer::Full { steps },
        Finish::Stopped => Answer::Spent { steps },
        Finish::Crowded => Answer::TableFull { steps },
    }
}

// The number in document 01's table, and the bytes written or the record at fault.
#[tactic(auto, unfolding(crate::specs::Answers::answer_told))]
impl From<Answer> for Told {
    ghost from_gives = { λ answer told. told ≡ answer_told answer };

    fn from(answer: Answer) -> Told {
        match answer {
            Answer::Found { bytes, .. } => Told::WithCount(0, bytes),
            Answer::NotFound { .. } => Told::Alone(1),
            Answer::Refused(refusal) => Told::from(refusal),
            Answer::NoPlaces => Told::Alone(10),
            Answer::Full { .. } => Told::Alone(11),
            Answer::Spent { .. } => Told::Alone(12),
            Answer::Short { .. } => Told::Alone(13),
            Answer::TableFull { .. } => Told::Alone(14),
        }
    }
}

impl Answer {
    // The counted steps, 0 for 2 to 10.
    #[tactic(auto, unfolding(crate::specs::Answers::answer_steps))]
    pub fn steps(self) -> usize
        ensures { result ≡ answer_steps self }
    {
        match self {
            Answer::Found { steps, .. } => steps,
            Answer::NotFound { steps } => steps,
            Answer::Refused(_) => 0,
            Answer::NoPlaces => 0,
            Answer::Full { steps } => steps,
            Answer::Spent { steps } => steps,
            Answer::Short { steps } => steps,
            Answer::TableFull { steps } => steps,
        }
    }
}
