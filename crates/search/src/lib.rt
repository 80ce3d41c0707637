#![tactic(auto)]
// The search from end to end: the tests, the search, and the route that is written.

ghost use Rattle.std.specs.Prelude.{◌≡◌, true, ◌≤◌, ◌<◌};
ghost use Rattle.point.specs.Point.{same_of};
ghost use Rattle.plan.specs.Plan.{polygon_count_in};
ghost use Rattle.edges.specs.AcceptedFloor.{the_floor};
ghost use Rattle.places.specs.Layout.{work_of, places_in, Room};
ghost use Rattle.machine.specs.Buffers.{work_in, state_in, SameBuffers};
ghost use Rattle.machine.specs.Search.{ending};
ghost use Rattle.writing.specs.Delivered.{delivered};
ghost use Rattle.writing.specs.Writing.{Tells};
ghost use Rattle.search.specs.Whole.{lent_of, searched_of, routed, between_of, asked_of, search_of};

use edges::AcceptedFloor;
use machine::{Buffers, Ended, Task};
use plan::Plan;
use popping::search_from;
use steps::Trip;
pub use writing::Answer;
use writing::{tell, write_straight};

// The steps of a search without a budget.
pub const DEFAULT_BUDGET: usize = 4096;

// How many places were lent.
fn places_of(work: &Buffers) -> usize
    ensures { result ≡ places_in (work_in work.now) }
{
    places::places_in(work.floats, work.words, work.queue)
}

// Tells how the search ended, by the rows of floats and of words.
fn tell_by(trip: Trip, ended: Ended, work: &Buffers, out: &mut [u8]) -> Answer
    requires { Tells work.now.floats.now work.now.words.now ended.finish }
    ensures answer { let end = ending (state_in work.now ended.counts) ended.finish in
        result ≡ (delivered trip end out.old).answer }
    ensures out_after { let end = ending (state_in work.now ended.counts) ended.finish in
        out.new ≡ (delivered trip end out.old).out }
{
    tell(trip, ended, work.floats, work.words, out)
}

// The task's trip: start and goal in one polygon, or a search.
fn route_from(
    floor: &AcceptedFloor,
    task: Task,
    budget: usize,
    work: &mut Buffers,
    table: &mut [u32],
    out: &mut [u8],
) -> Answer
    requires ground { task.trip.from < polygon_count_in floor.now.plan.now }
    requires room { Room task.places (work_in work.old) × (1 ≤ task.places) }
    requires start_value { same_of task.trip.start task.trip.start ≡ true }
    ensures searched { let f = the_floor floor.now in
        let before = lent_of (work_in work.old) table.old in
        let after = lent_of (work_in work.new) table.new in
        searched_of result after out.new ≡ routed f task budget before out.old }
    ensures buffers { SameBuffers work.old work.new }
{
    let trip = task.trip;
    if trip.from == trip.to {
        return write_straight(trip, out);
    }
    let ended = search_from(floor, task, budget, work, table);
    tell_by(trip, ended, work, out)
}

// The trip with as many places as were lent.
fn route_between(
    floor: &AcceptedFloor,
    trip: Trip,
    budget: usize,
    work: &mut Buffers,
    table: &mut [u32],
    out: &mut [u8],
) -> Answer
    requires { (trip.from < polygon_count_in floor.now.plan.now) × (same_of trip.start trip.start ≡ true) }
    ensures searched { let f = the_floor floor.now in
        let before = lent_of (work_in work.old) table.old in
        let after = lent_of (work_in work.new) table.new in
        searched_of result after out.new ≡ between_of f trip budget before out.old }
    ensures buffers { SameBuffers work.old work.new }
{
    let places = places_of(work);
    if places == 0 {
        return Answer::NoPlaces;
    }
    let task = Task { trip, places };
    route_from(floor, task, budget, work, table, out)
}

// One question of a floor that was accepted.
pub fn search_on(
    floor: &AcceptedFloor,
    question: &[u8],
    budget: usize,
    floats: &mut [f32],
    words: &mut [u32],
    tree: &mut [u32],
    table: &mut [u32],
    out: &mut [u8],
) -> Answer
    ensures { let f = the_floor floor.now in
        let before = lent_of (work_of floats.old words.old tree.old) table.old in
        let after = lent_of (work_of floats.new words.new tree.new) table.new in
        searched_of result after out.new ≡ asked_of f question.now budget before out.old }
{
    let inside = match floor::ask(floor, question) {
        Ok(inside) => inside,
        Err(refusal) => return Answer::Refused(refusal),
    };
    let trip = Trip::of(question, inside.start as u32, inside.goal as u32);
    let mut work = Buffers {
        floats,
        words,
        queue: tree,
    };
    route_between(floor, trip, budget, &mut work, table, out)
}

// The search of document 01. Nothing is asked of the caller.
pub fn search(
    vertices: &[u8],
    polygons: &[u8],
    question: &[u8],
    budget: usize,
    floats: &mut [f32],
    words: &mut [u32],
    tree: &mut [u32],
    table: &mut [u32],
    out: &mut [u8],
) -> Answer
    ensures { let before = lent_of (work_of floats.old words.old tree.old) table.old in
        let after = lent_of (work_of floats.new words.new tree.new) table.new in
        searched_of result after out.new
        ≡ search_of 8 vertices.now polygons.now question.now budget before out.old }
{
    let mut plan = Plan::new();
    if let Err(refusal) = floor::look_at_floor(vertices, polygons, &mut plan) {
        return Answer::Refused(refusal);
    }
    let floor = AcceptedFloor {
        vertices,
        polygons,
        plan: &plan,
    };
    search_on(&floor, question, budget, floats, words, tree, table, out)
}

// The search with the budget of document 01, 4,096 steps.
pub fn search_default(
    vertices: &[u8],
    polygons: &[u8],
    question: &[u8],
    floats: &mut [f32],
    words: &mut [u32],
    tree: &mut [u32],
    table: &mut [u32],
    out: &mut [u8],
) -> Answer
    ensures { let before = lent_of (work_of floats.old words.old tree.old) table.old in
        let after = lent_of (work_of floats.new words.new tree.new) table.new in
        searched_of result after out.new
        ≡ search_of 8 vertices.now polygons.now question.now 4096 before out.old }
{
    search(
        vertices,
        polygons,
        question,
        DEFAULT_BUDGET,
        floats,
        words,
        tree,
        table,
        out,
    )
}
