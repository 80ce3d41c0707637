#![tactic(auto)]
// What a search is asked, what it counts, and how its steps and it itself end. All by value.

pub use buffers::Buffers;
use steps::{Node, Trip};

mod buffers;

// What is asked, and how many places there are for nodes.
#[derive(Clone, Copy)]
pub struct Task {
    pub trip: Trip,
    pub places: usize,
}

// How many places are taken, how many roots have a distance on record, and how many steps were counted.
#[derive(Clone, Copy)]
pub struct Counts {
    pub taken: usize,
    pub records: usize,
    pub pops: usize,
}

// "last_f, a count of pops since it last rose, and recording once that count is above 512."
#[derive(Clone, Copy)]
pub struct Stall {
    pub last_f: f32,
    pub count: u32,
    pub recording: bool,
}

// Where steps are made from: a place, how many steps led to it, the number of its root's record, and its node.
#[derive(Clone, Copy)]
pub struct Origin {
    pub place: usize,
    pub depth: u32,
    pub number: usize,
    pub node: Node,
}

// The counters after nodes were made, and whether one found no place.
#[derive(Clone, Copy)]
pub struct Made {
    pub counts: Counts,
    pub full: bool,
}

// How a search ends.
#[derive(Clone, Copy)]
pub enum Finish {
    // The node at this place is in the goal polygon.
    Arrived(usize),
    // The queue is empty.
    Emptied,
    // A node needs a place and none is left.
    Filled,
    // The queue is not empty and the budget is spent.
    Stopped,
    // A node needs an entry of the table and every one is used.
    Crowded,
}

// The counters after a step, and how the search ends, if it does.
#[derive(Clone, Copy)]
pub struct Stepped {
    pub counts: Counts,
    pub outcome: Option<Finish>,
}

// The counters after the last step, and how the search ended.
#[derive(Clone, Copy)]
pub struct Ended {
    pub counts: Counts,
    pub finish: Finish,
}
