#![tactic(auto)]
// The read-out: judges, then lists the points of an accepted route, walking its records a second time.

ghost use Rattle.std.specs.Prelude.{◌≡◌, ◌+◌, ◌*◌, ◌≤◌, ◌<◌, false, length, Result};
ghost use Rattle.std.proofs.lemmas.List.Edits.{sets};
ghost use Rattle.point.specs.Point.{same_of};
ghost use Rattle.plan.specs.Plan.{polygon_count_in};
ghost use Rattle.stored.specs.Stored.{vertices_of};
ghost use Rattle.edges.specs.AcceptedFloor.{the_floor};
ghost use Rattle.route.specs.Judge.{judge_of};
ghost use Rattle.steps.specs.World.{world_in};
ghost use Rattle.judge.specs.Verdict.{read_as};
ghost use Rattle.judge.specs.declared.Unaccepted.TheVariants.{Refused, Untrue};
ghost use Rattle.readout.specs.declared.Unlisted.TheVariants.{Unaccepted as NotAccepted};
ghost use Rattle.readout.specs.Points.{last_points, points_of};
ghost use Rattle.readout.specs.ReadOff.{points_read, Readable};
ghost use Rattle.readout.specs.Readout.{floats_of, put_point, put_root, listed, listing, answer_if, out_if};
ghost use Rattle.readout.specs.Readout.{readout_of, written_of, unlisted_told, readout_told};

use edges::AcceptedFloor;
use floor::Refusal;
use judge::{Unaccepted, judge_route};
use plan::Plan;
use point::Point;
use records::{Record, RouteRecord};
use route::Fault;
use steps::{Node, Trip};
use told::Told;

// Why no points are listed.
#[derive(Clone, Copy)]
pub enum Unlisted {
    // 2 to 9, or 20 to 23: what the judge says, where it does not accept.
    Unaccepted(Unaccepted),
    // 13: the slice has no room for the points, two floats each.
    Short,
}

impl From<Refusal> for Unlisted {
    ghost from_gives = { λ refusal unlisted. unlisted ≡ NotAccepted (Refused refusal) };

    fn from(refusal: Refusal) -> Unlisted {
        Unlisted::Unaccepted(Unaccepted::Refused(refusal))
    }
}

impl From<Fault> for Unlisted {
    ghost from_gives = { λ fault unlisted. unlisted ≡ NotAccepted (Untrue fault) };

    fn from(fault: Fault) -> Unlisted {
        Unlisted::Unaccepted(Unaccepted::Untrue(fault))
    }
}

// Point k, x then y.
#[tactic(auto, unfolding(crate::specs::Readout::put_point))]
fn put_point(points: &mut [f32], k: usize, point: Point)
    requires { k * 2 + 2 ≤ length points.old }
    ensures { points.new ≡ put_point points.old k point }
{
    points[k * 2] = point.x;
    points[k * 2 + 1] = point.y;
}

// The new root, if it is another one.
#[tactic(auto, unfolding(point::specs::Point::same_of, crate::specs::Readout::put_root))]
fn put_root(points: &mut [f32], node: Node, next: Node)
    requires { same_of next.root node.root ≡ false → node.points * 2 + 2 ≤ length points.old }
    ensures { points.new ≡ put_root points.old node next }
{
    let root = next.root;
    if root == node.root {
        return;
    }
    put_point(points, node.points as usize, root);
}

// The turning point, if there is one, and the goal.
fn put_last(points: &mut [f32], node: Node, goal: Point)
    requires { (node.points + length (last_points goal node)) * 2 ≤ length points.old }
    ensures { points.new ≡ sets points.old (node.points * 2) (floats_of (last_points goal node)) }
{
    let k = node.points as usize;
    if node.seed {
        put_point(points, k, goal);
        return;
    }
    let root = node.root;
    let interval = node.interval;
    match helpers::turning_point(root, goal, interval) {
        Some(point) => {
            put_point(points, k, point);
            put_point(points, k + 1, goal);
        }
        None => put_point(points, k, goal),
    }
}

// The points of a route that was accepted, for which there is room. The judge has found every middle record to be a step, so the step is
// read off it.
#[tactic(auto, using(route::proofs::Turns::length_gives))]
fn list_points(vertices: &[u8], trip: Trip, route: &[u8], points: &mut [f32])
    requires readable { Readable (vertices_of vertices.now) trip route.now }
    requires route_in_bounds { length (points_read (vertices_of vertices.now) trip route.now) * 2 ≤ length points.old }
    ensures { let route-points = points_read (vertices_of vertices.now) trip route.now in
        points.new ≡ sets points.old 0 (floats_of route-points) }
{
    let last = route.len() / Record::BYTES - 1;
    let mut node = Node::seed(trip.start, trip.from);
    for i in 1..last {
        let step = RouteRecord { route, number: i }.step();
        let next = node.enter(vertices, step);
        put_root(points, node, next);
        node = next;
    }
    put_last(points, node, trip.goal);
}

// Lists the points of a route that was accepted, unless the slice is too short, and says how many they are. Its end record has that
// number: the judge has compared it.
#[tactic(auto, unfolding(route::specs::Record::records))]
fn list_route(
    vertices: &[u8],
    trip: Trip,
    route: &[u8],
    points: &mut [f32],
) -> Result<usize, Unlisted>
    requires { Readable (vertices_of vertices.now) trip route.now }
    ensures result_value { let route-points = points_read (vertices_of vertices.now) trip route.now in
        result ≡ listed route-points points.old }
    ensures points_after { let route-points = points_read (vertices_of vertices.now) trip route.now in
        points.new ≡ listing route-points points.old }
{
    let last = route.len() / Record::BYTES - 1;
    let end = RouteRecord {
        route,
        number: last,
    };
    let count = end.points() as usize;
    if points.len() < count * 2 {
        return Err(Unlisted::Short);
    }
    list_points(vertices, trip, route, points);
    Ok(count)
}

// Judges the route of this trip, then lists its points.
fn read_route(
    floor: &AcceptedFloor,
    trip: Trip,
    route: &[u8],
    points: &mut [f32],
) -> Result<usize, Unlisted>
    requires { trip.from < polygon_count_in floor.now.plan.now }
    ensures result_value { let w = world_in (the_floor floor.now) trip in
        let file = route.now in
        result ≡ answer_if (read_as (judge_of w file)) (points_of w trip.goal file) points.old }
    ensures points_after { let w = world_in (the_floor floor.now) trip in
        let file = route.now in
        points.new ≡ out_if (read_as (judge_of w file)) (points_of w trip.goal file) points.old }
{
    judge_route(floor, trip, route)?;
    list_route(floor.vertices, trip, route, points)
}

// Judges, then lists the points of an accepted route into the slice, x and y of each, and says how many they are. Exactly their places
// change, and nothing where the answer is another than 0.
pub fn read_out(
    vertices: &[u8],
    polygons: &[u8],
    question: &[u8],
    route: &[u8],
    points: &mut [f32],
) -> Result<usize, Unlisted>
    ensures value { result ≡ readout_of 8 vertices.now polygons.now question.now route.now
        points.old }
    ensures points_after { let before = points.old in
        points.new ≡ written_of 8 vertices.now polygons.now question.now route.now before }
{
    let mut plan = Plan::new();
    let inside = floor::look_with(vertices, polygons, question, &mut plan)?;
    let floor = AcceptedFloor {
        vertices,
        polygons,
        plan: &plan,
    };
    let trip = Trip::of(question, inside.start as u32, inside.goal as u32);
    read_route(&floor, trip, route, points)
}

// The number in document 01's table, and the record at fault where there is one.
impl From<Unlisted> for Told {
    ghost from_gives = { λ unlisted told. told ≡ unlisted_told unlisted };

    #[tactic(auto, unfolding(crate::specs::Readout::unlisted_told))]
    fn from(unlisted: Unlisted) -> Told {
        match unlisted {
            Unlisted::Unaccepted(unaccepted) => Told::from(unaccepted),
            Unlisted::Short => Told::Alone(13),
        }
    }
}

// The same of an answer: 0 and how many points are listed, where they are.
#[tactic(auto, unfolding(crate::specs::Readout::readout_told))]
pub fn told(readout: Result<usize, Unlisted>) -> Told
    ensures { result ≡ readout_told readout }
{
    match readout {
        Ok(count) => Told::WithCount(0, count),
        Err(unlisted) => Told::from(unlisted),
    }
}
