#![tactic(auto)]
// The judge: reads a route file against a floor and a question before a cart moves. Nothing is lent to it but what it reads;
// it holds one node, what one edge of its polygon yields and the plan of the floor.

ghost use Rattle.std.specs.Prelude.{◌≡◌, ◌+◌, ◌<◌, ◌^◌, Result};
ghost use Rattle.plan.specs.Plan.{polygon_count_in};
ghost use Rattle.edges.specs.AcceptedFloor.{the_floor};
ghost use Rattle.route.specs.Judge.{judge_of};
ghost use Rattle.steps.specs.World.{world_in};
ghost use Rattle.judge.specs.declared.Unaccepted.TheVariants.{Refused, Untrue};
ghost use Rattle.judge.specs.Verdict.{end_of, read_as, verdict_of, unaccepted_told, verdict_told};

use edges::AcceptedFloor;
use floor::Refusal;
use plan::Plan;
use records::{Record, RouteRecord};
use route::Fault;
use steps::{Node, Trip};
use told::Told;

// Why the judge does not accept.
#[derive(Clone, Copy)]
pub enum Unaccepted {
    // 2 to 9: the floor or the question is refused, and the route file was not read.
    Refused(Refusal),
    // 20 to 23: the route file is not a true route.
    Untrue(Fault),
}

impl From<Refusal> for Unaccepted {
    ghost from_gives = { λ refusal unaccepted. unaccepted ≡ Refused refusal };

    fn from(refusal: Refusal) -> Unaccepted {
        Unaccepted::Refused(refusal)
    }
}

impl From<Fault> for Unaccepted {
    ghost from_gives = { λ fault unaccepted. unaccepted ≡ Untrue fault };

    fn from(fault: Fault) -> Unaccepted {
        Unaccepted::Untrue(fault)
    }
}

// The last record: the true end of a route whose last step led to this node, which is in the goal polygon.
fn judge_end(trip: Trip, node: Node, on_file: RouteRecord) -> Result<(), Fault>
    requires { node.points + 2 < 2 ^ 32 }
    ensures { result ≡ end_of trip node on_file.entry.route.now on_file.entry.number }
{
    if node.polygon == trip.to {
        let goal = trip.goal;
        let ending = node.ending(goal);
        let end = Record::end(ending.points, goal, ending.length);
        if on_file.is(end) {
            return Ok(());
        }
        return Err(Fault::NotEnd(on_file.number));
    }
    Err(Fault::NotEnd(on_file.number))
}

// 20, then the records in order: the route of this trip.
#[tactic(auto, unfolding(steps::specs::World::world_in))]
pub fn judge_route(floor: &AcceptedFloor, trip: Trip, route: &[u8]) -> Result<(), Fault>
    requires { trip.from < polygon_count_in floor.now.plan.now }
    ensures { result ≡ judge_of (world_in (the_floor floor.now) trip) route.now }
{
    if !records::length_right(route) {
        return Err(Fault::Length);
    }
    let seed = Record::seed(trip.from, trip.start);
    if !reader::begins_with(route, seed) {
        return Err(Fault::NotSeed);
    }
    let last = route.len() / Record::BYTES - 1;
    let mut node = Node::seed(trip.start, trip.from);
    for i in 1..last {
        let on_file = RouteRecord { route, number: i };
        if !seek::is_step(floor, node, trip.to, on_file) {
            return Err(Fault::NotStep(i));
        }
        let step = on_file.step();
        node = node.enter(floor.vertices, step);
    }
    judge_end(
        trip,
        node,
        RouteRecord {
            route,
            number: last,
        },
    )
}

// The same as a verdict. It stands in a function of its own, since what the look at the floor holds is done with by then, and its
// room is free.
fn read_route(floor: &AcceptedFloor, trip: Trip, route: &[u8]) -> Result<(), Unaccepted>
    requires { trip.from < polygon_count_in floor.now.plan.now }
    ensures { result ≡ read_as (judge_of (world_in (the_floor floor.now) trip) route.now) }
{
    judge_route(floor, trip, route)?;
    Ok(())
}

// 2 to 9, then 20, then the records in order. Nothing is asked of the caller. Ok alone is acceptance.
pub fn judge(
    vertices: &[u8],
    polygons: &[u8],
    question: &[u8],
    route: &[u8],
) -> Result<(), Unaccepted>
    ensures { result ≡ verdict_of 8 vertices.now polygons.now question.now route.now }
{
    let mut plan = Plan::new();
    let inside = floor::look_with(vertices, polygons, question, &mut plan)?;
    let floor = AcceptedFloor {
        vertices,
        polygons,
        plan: &plan,
    };
    let trip = Trip::of(question, inside.start as u32, inside.goal as u32);
    read_route(&floor, trip, route)
}

// The number in document 01's table, and the record at fault where there is one.
impl From<Unaccepted> for Told {
    ghost from_gives = { λ unaccepted told. told ≡ unaccepted_told unaccepted };

    #[tactic(auto, unfolding(crate::specs::Verdict::unaccepted_told, route::specs::Judge::judged_told))]
    fn from(unaccepted: Unaccepted) -> Told {
        match unaccepted {
            Unaccepted::Refused(refusal) => Told::from(refusal),
            Unaccepted::Untrue(fault) => route::told(Err(fault)),
        }
    }
}

// The same of a verdict: 0 for what is accepted.
#[tactic(auto, unfolding(crate::specs::Verdict::verdict_told, route::specs::Judge::judged_told))]
pub fn told(verdict: Result<(), Unaccepted>) -> Told
    ensures { result ≡ verdict_told verdict }
{
    match verdict {
        Ok(()) => route::told(Ok(())),
        Err(unaccepted) => Told::from(unaccepted),
    }
}
