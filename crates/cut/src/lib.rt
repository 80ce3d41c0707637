#![tactic(auto)]
// The cuts of edges_between of vleue/polyanya's src/instance.rs: where a node's two rays cut an edge, and how what comes
// behind a cut is seen.

ghost use Rattle.std.specs.Prelude.{◌≡◌};
ghost use Rattle.cut.specs.Cut.{told_apart_of, apart_from_both_of, cut_if_of, seen_if_of, nowhere_of, first_crossing_of, seen_from_right_of, unless_right_of};
ghost use Rattle.cut.specs.Cut.{first_cut_of, second_cut_of};

use point::{EdgeSide, Point, Segment};

// How an interval is seen from the root.
#[derive(Clone, Copy)]
pub enum SuccessorType {
    LeftNonObservable,
    Observable,
    RightNonObservable,
}

// Where a ray cuts an edge, if it does, and the kind from there on.
#[derive(Clone, Copy)]
pub struct Cut {
    pub at: Option<Point>,
    pub kind: SuccessorType,
}

impl Cut {
    #[tactic(auto, unfolding(crate::specs::Cut::nowhere_of))]
    fn nowhere(kind: SuccessorType) -> Cut
        ensures { result ≡ nowhere_of kind }
    {
        Cut { at: None, kind }
    }
}

// Whether a cut is far enough from an end of the edge to count.
#[tactic(auto, unfolding(crate::specs::Cut::told_apart_of))]
fn told_apart(cut: Point, end: Point) -> bool
    ensures { result ≡ told_apart_of cut end }
{
    cut.distance_squared(end) > Point::APART
}

#[tactic(auto, unfolding(crate::specs::Cut::apart_from_both_of))]
fn apart_from_both(cut: Point, edge: Segment) -> bool
    ensures { result ≡ apart_from_both_of cut edge }
{
    told_apart(cut, edge.0) && told_apart(cut, edge.1)
}

#[tactic(auto, unfolding(crate::specs::Cut::cut_if_of))]
fn cut_if(apart: bool, cut: Point) -> Option<Point>
    ensures { result ≡ cut_if_of apart cut }
{
    apart.then_some(cut)
}

#[tactic(auto, unfolding(crate::specs::Cut::seen_if_of))]
fn seen_if(apart: bool, kind: SuccessorType) -> SuccessorType
    ensures { result ≡ seen_if_of apart kind }
{
    if apart {
        return SuccessorType::Observable;
    }
    kind
}

// Where the right ray meets an edge. Only a cut apart from both ends makes an interval; what comes behind it is seen all
// the same, unless the cut is at the end.
#[tactic(auto, unfolding(crate::specs::Cut::first_crossing_of))]
fn first_crossing(intersect: Point, edge: Segment, kind: SuccessorType) -> Cut
    ensures { result ≡ first_crossing_of intersect edge kind }
{
    let at = cut_if(apart_from_both(intersect, edge), intersect);
    let kind = seen_if(told_apart(intersect, edge.1), kind);
    Cut { at, kind }
}

// An edge that starts to the left of the right ray is no longer to the right of what is seen.
#[tactic(auto, unfolding(crate::specs::Cut::seen_from_right_of))]
fn seen_from_right(kind: SuccessorType) -> SuccessorType
    ensures { result ≡ seen_from_right_of kind }
{
    match kind {
        SuccessorType::RightNonObservable => SuccessorType::Observable,
        SuccessorType::LeftNonObservable | SuccessorType::Observable => kind,
    }
}

#[tactic(auto, unfolding(crate::specs::Cut::unless_right_of))]
fn unless_right(side: EdgeSide, then: SuccessorType, kind: SuccessorType) -> SuccessorType
    ensures { result ≡ unless_right_of side then kind }
{
    match side {
        EdgeSide::Edge | EdgeSide::Left => then,
        EdgeSide::Right => kind,
    }
}

// What the right ray does to an edge.
#[tactic(auto, unfolding(crate::specs::Cut::first_cut_of))]
pub fn first_cut(right: Segment, edge: Segment, kind: SuccessorType) -> Cut
    ensures { result ≡ first_cut_of right edge kind }
{
    match edge.0.side(right) {
        EdgeSide::Right => match helpers::line_intersect_segment(right, edge) {
            Some(intersect) => first_crossing(intersect, edge, kind),
            None => Cut::nowhere(kind),
        },
        EdgeSide::Left => Cut::nowhere(seen_from_right(kind)),
        EdgeSide::Edge => {
            let end_side = edge.1.side(right);
            Cut::nowhere(unless_right(end_side, SuccessorType::Observable, kind))
        }
    }
}

// What the left ray does to what the first cut leaves of an edge.
#[tactic(auto, unfolding(crate::specs::Cut::second_cut_of))]
pub fn second_cut(left: Segment, right: Segment, edge: Segment, kind: SuccessorType) -> Cut
    ensures { result ≡ second_cut_of left right edge kind }
{
    match edge.1.side(left) {
        EdgeSide::Left => match helpers::line_intersect_segment(left, edge) {
            Some(intersect) => {
                let at = cut_if(told_apart(intersect, edge.1), intersect);
                let kind = SuccessorType::LeftNonObservable;
                Cut { at, kind }
            }
            None => Cut::nowhere(kind),
        },
        EdgeSide::Edge => {
            let end_side = edge.1.side(right);
            Cut::nowhere(unless_right(end_side, SuccessorType::LeftNonObservable, kind))
        }
        EdgeSide::Right => Cut::nowhere(kind),
    }
}
