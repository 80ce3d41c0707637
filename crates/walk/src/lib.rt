#![tactic(auto)]
// The port of edges_between of vleue/polyanya's src/instance.rs, the general walk alone: into which intervals a node's two
// rays divide an edge of the polygon that it enters, and how each is seen.

ghost use Rattle.std.specs.Prelude.{◌≡◌, ◌∷◌};
ghost use Rattle.walk.specs.Walk.{part_of, one_of, two_of, three_of, walked_of, held, left_of, rest_by, walk_edge_of};

use cut::{Cut, SuccessorType};
use point::{Point, Segment};

mod round;

pub use round::Round;

// A part of an edge, and how it is seen.
#[derive(Clone, Copy)]
pub struct Part {
    pub interval: Segment,
    pub kind: SuccessorType,
}

// A part of an edge, by the edge's number round its polygon.
#[derive(Clone, Copy)]
pub struct Successor {
    pub edge: usize,
    pub part: Part,
}

// What an edge yields: its first count parts, in order from its start to its end, and the kind to go on with. Whoever reads the
// parts goes to the count; what stands behind it is no part.
#[derive(Clone, Copy)]
pub struct Walked {
    pub parts: [Part; 3],
    pub count: usize,
    pub kind: SuccessorType,
}

impl Part {
    #[tactic(auto, unfolding(crate::specs::Walk::part_of))]
    fn new(start: Point, end: Point, kind: SuccessorType) -> Part
        ensures { result ≡ part_of start end kind }
    {
        Part {
            interval: Segment(start, end),
            kind,
        }
    }
}

impl Walked {
    #[tactic(auto, unfolding(crate::specs::Walk::one_of))]
    fn one(a: Part, kind: SuccessorType) -> Walked
        ensures { result ≡ one_of a kind }
    {
        Walked {
            parts: [a, a, a],
            count: 1,
            kind,
        }
    }

    #[tactic(auto, unfolding(crate::specs::Walk::two_of))]
    fn two(a: Part, b: Part, kind: SuccessorType) -> Walked
        ensures { result ≡ two_of a b kind }
    {
        Walked {
            parts: [a, b, b],
            count: 2,
            kind,
        }
    }

    #[tactic(auto, unfolding(crate::specs::Walk::three_of))]
    fn three(a: Part, b: Part, c: Part, kind: SuccessorType) -> Walked
        ensures { result ≡ three_of a b c kind }
    {
        Walked {
            parts: [a, b, c],
            count: 3,
            kind,
        }
    }
}

// What the right ray leaves of an edge: what is behind its cut, or all of it.
#[tactic(auto, unfolding(crate::specs::Walk::left_of))]
fn left_of(at: Option<Point>, edge: Segment) -> Segment
    ensures { result ≡ left_of at edge }
{
    Segment(at.unwrap_or(edge.0), edge.1)
}

// The parts of an edge that the right ray has not cut, by what the left ray does to it.
fn uncut(second: Cut, edge: Segment, kind: SuccessorType) -> Walked
    ensures { result ≡ walked_of (rest_by second edge kind) }
{
    let at = second.at;
    let next = second.kind;
    match at {
        Some(cut) => {
            let between = Part::new(edge.0, cut, kind);
            let behind = Part::new(cut, edge.1, next);
            Walked::two(between, behind, next)
        }
        None => Walked::one(Part::new(edge.0, edge.1, kind), next),
    }
}

// The same of what the right ray has left of an edge, with the part before its cut.
fn cut_before(before: Part, second: Cut, edge: Segment, kind: SuccessorType) -> Walked
    ensures { result ≡ held (before ∷ (rest_by second edge kind).parts) (rest_by second edge kind).kind }
{
    let at = second.at;
    let next = second.kind;
    match at {
        Some(cut) => {
            let between = Part::new(edge.0, cut, kind);
            let behind = Part::new(cut, edge.1, next);
            Walked::three(before, between, behind, next)
        }
        None => Walked::two(before, Part::new(edge.0, edge.1, kind), next),
    }
}

// The parts of one edge, seen from the root through the interval, where kind is what the edge before it left.
pub fn walk_edge(root: Point, interval: Segment, edge: Segment, kind: SuccessorType) -> Walked
    ensures { result ≡ walked_of (walk_edge_of root interval edge kind) }
{
    let interval0 = interval.0;
    let interval1 = interval.1;
    let right = Segment(root, interval0);
    let left = Segment(root, interval1);
    let first = cut::first_cut(right, edge, kind);
    let at = first.at;
    let seen = first.kind;
    let rest = left_of(at, edge);
    let second = cut::second_cut(left, right, rest, seen);
    match at {
        Some(cut) => {
            let before = Part::new(edge.0, cut, kind);
            cut_before(before, second, rest, seen)
        }
        None => uncut(second, rest, seen),
    }
}
