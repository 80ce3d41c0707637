#![tactic(auto)]
// The port of vleue/polyanya's src/helpers.rs, under its own names: where a line meets a segment, and how far it is to the
// goal through an interval. Its methods of a point, and min and max, are in the crate `point`.

ghost use Rattle.std.specs.Prelude.{◌≡◌};
ghost use Rattle.helpers.specs.Helpers.{goal_beyond_of, heuristic_of, turning_point_of, intersection_time_of, crosses_of, clamp_of, line_intersect_segment_of};

use point::{EdgeSide, Point, Segment};

// If the goal is on the same side of the interval with the root, then we mirror it.
#[tactic(auto, unfolding(crate::specs::Helpers::goal_beyond_of, point::specs::Sides::same_side_of))]
fn goal_beyond(root: Point, goal: Point, interval: Segment) -> Point
    ensures { result ≡ goal_beyond_of root goal interval }
{
    if root.side(interval) == goal.side(interval) {
        return goal.mirror(interval);
    }
    goal
}

// Computes heuristic distance from a search node represented by the given root and interval to the goal.
#[tactic(auto, unfolding(crate::specs::Helpers::heuristic_of))]
pub fn heuristic(root: Point, goal: Point, interval: Segment) -> f32
    ensures { result ≡ heuristic_of root goal interval }
{
    let goal = goal_beyond(root, goal, interval);
    // Filter out the trivial cases.
    if interval.ends_at(root) {
        return root.distance(goal);
    }
    // If the point is not in the estimated "line of sight", then the heuristic will
    // be an approximated taut path length, otherwise it will be the exact distance
    // between the root and the goal.
    let time = intersection_time(Segment(root, goal), interval);
    if time < 0.0 {
        return root.distance(interval.0) + interval.0.distance(goal);
    }
    if time > 1.0 {
        return root.distance(interval.1) + interval.1.distance(goal);
    }
    root.distance(goal)
}

// Returns the point at which the path between the given root and goal should turn, if any: none where it goes straight on.
#[tactic(auto, unfolding(crate::specs::Helpers::turning_point_of, point::specs::Point::same_of, point::specs::Sides::same_side_of))]
pub fn turning_point(root: Point, goal: Point, interval: Segment) -> Option<Point>
    ensures { result ≡ turning_point_of root goal interval }
{
    let goal = goal_beyond(root, goal, interval);
    let right = interval.0;
    let left = interval.1;
    if root == right {
        return None;
    }
    if goal.side(Segment(root, right)) == EdgeSide::Right {
        return Some(right);
    }
    if goal.side(Segment(root, left)) == EdgeSide::Left {
        return Some(left);
    }
    None
}

// Returns intersection time (which is the ratio of the supposed
// intersection-defined segment "part" to the total segment length)
// at which the given segment will be intersected by the given line.
#[tactic(auto, unfolding(crate::specs::Helpers::intersection_time_of))]
pub fn intersection_time(line: Segment, segment: Segment) -> f32
    ensures { result ≡ intersection_time_of line segment }
{
    // A "partial" area, line end to segment end by full line, is divided by the "total" area, full line by full segment.
    // If the ratio is bigger than 1, then the line does not intersect the segment but intersects the line on which the segment lies.
    let local_line = line.0.minus(line.1);
    line.0.minus(segment.0).perp_dot(local_line) / local_line.perp_dot(segment.0.minus(segment.1))
}

// Whether an intersection time is on the segment. The bounds are deliberately a little wider than the segment, so that a
// line passing within a hair of an end still counts as crossing it.
#[tactic(auto, unfolding(crate::specs::Helpers::crosses_of))]
fn crosses(time: f32) -> bool
    ensures { result ≡ crosses_of time }
{
    -Point::EPSILON <= time && time <= 1.0 + Point::EPSILON
}

// Rust's clamp to 0..1: -0.0 stays.
#[tactic(auto, unfolding(crate::specs::Helpers::clamp_of))]
fn clamp(x: f32) -> f32
    ensures { result ≡ clamp_of x }
{
    if x < 0.0 {
        return 0.0;
    }
    if x > 1.0 {
        return 1.0;
    }
    x
}

// Returns the intersection point of the given line and segment, if it exists: none if the time is NaN or outside
// -EPSILON to 1 + EPSILON, else the point at the time clamped to 0..1.
#[tactic(auto, unfolding(crate::specs::Helpers::line_intersect_segment_of))]
pub fn line_intersect_segment(line: Segment, segment: Segment) -> Option<Point>
    ensures { result ≡ line_intersect_segment_of line segment }
{
    let time = intersection_time(line, segment);
    if crosses(time) {
        // The point handed back has to be on the segment all the same: callers use it as an interval bound, and a
        // bound sitting just past the end makes the interval run backwards. A backwards interval reads as a wide
        // cone instead of an empty one, which lets the search see through walls.
        let along = segment.1.minus(segment.0);
        let clamped = clamp(time);
        return Some(segment.0.plus(along.times(clamped)));
    }
    None
}
