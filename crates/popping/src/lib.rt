#![tactic(auto)]
// The search as steps: each pops the least node, and either arrives, or makes that node's steps.

ghost use Rattle.std.specs.Prelude.{◌≡◌, ℕ, Bool, Float, true, false, ◌+◌, ◌*◌, ◌≤◌, ◌<◌, ◌^◌, length};
ghost use Rattle.stored.specs.Stored.{Floor};
ghost use Rattle.edges.specs.AcceptedFloor.{the_floor};
ghost use Rattle.queue.specs.Queue.{none, place_named, least_of, NoNan, Tree};
ghost use Rattle.queue.specs.Words.{column};
ghost use Rattle.places.specs.Layout.{floats_per_place, words_per_place, f_cell, parent_in, record_distance, Room, least_in};
ghost use Rattle.seen.specs.Kept.{Records};
ghost use Rattle.machine.specs.declared.Stall.{Stall};
ghost use Rattle.machine.specs.Buffers.{work_in, state_in, SameBuffers};
ghost use Rattle.machine.specs.Search.{making, stepping, ending, searching, turning, rest_of, rest_in, origin_at, pursued, popped, planted, outset};
ghost use Rattle.machine.specs.Search.{patience, calm, noticed, table_after, visited, run, searched_from};
ghost use Rattle.machine.specs.Sound.{Begins, SoundFrom};

use edges::AcceptedFloor;
use machine::{Buffers, Counts, Ended, Finish, Made, Origin, Stall, Stepped, Task};
use making::{by_f, make_steps};
use places::{
    QUEUE_WORDS, SEED, depth_at, f_at, node_at, number_at, put_floats, put_record, put_words,
    record_distance,
};
use seen::Entry;
use steps::Node;

// Pops since f last rose, above which the search records.
const PATIENCE: u32 = 512;

// Before the first pop: last_f is below every f.
fn calm() -> Stall
    ensures { result ≡ calm }
{
    Stall {
        last_f: f32::NEG_INFINITY,
        count: 0,
        recording: false,
    }
}

// The pop of a node with this f: last_f and the count are brought up to date. While recording they stay.
fn noticed(stall: Stall, f: f32) -> Stall
    requires { stall.recording ≡ false → stall.count ≤ patience }
    ensures { result ≡ noticed stall f }
{
    if stall.recording {
        return stall;
    }
    if stall.last_f < f {
        return Stall {
            last_f: f,
            count: 0,
            recording: false,
        };
    }
    let count = stall.count + 1;
    Stall {
        count,
        recording: PATIENCE < count,
        ..stall
    }
}

// The pop of place i is noticed, and the table is laid out where recording begins.
fn watch(stall: Stall, work: &Buffers, i: usize, table: &mut [u32]) -> Stall
    requires { (stall.recording ≡ false → stall.count ≤ patience) × ((i + 1) * floats_per_place ≤ length work.now.floats.now) }
    ensures value { result ≡ noticed stall (column work.now.floats.now floats_per_place f_cell i) }
    ensures table_after { table.new ≡ table_after stall result table.old }
{
    if stall.recording {
        return stall;
    }
    let stall = noticed(stall, f_at(work.floats, i));
    if stall.recording {
        seen::lay_out(table);
        return stall;
    }
    stall
}

// Looks at a node that is new: it has arrived, or its steps are made.
fn pursue(
    floor: &AcceptedFloor,
    task: Task,
    counts: Counts,
    from: Origin,
    work: &mut Buffers,
) -> Stepped
    requires sound_from { let g = floor.now in
        SoundFrom g.plan.now g.vertices.now g.polygons.now task (state_in work.old counts) }
    requires place_lt_taken { (from.place < counts.taken) × (from ≡ origin_at (work_in work.old) from.place) }
    ensures outcome { let f = the_floor floor.now in
        let before = state_in work.old counts in
        let after = state_in work.new result.counts in
        stepping after result.outcome ≡ pursued f task before from.place }
    ensures buffers { SameBuffers work.old work.new }
{
    let node = from.node;
    if node.polygon == task.trip.to {
        return Stepped {
            counts,
            outcome: Some(Finish::Arrived(from.place)),
        };
    }
    let made = make_steps(floor, task, counts, from, work);
    let counts = made.counts;
    if made.full {
        return Stepped {
            counts,
            outcome: Some(Finish::Filled),
        };
    }
    Stepped {
        counts,
        outcome: None,
    }
}

// Where place i's steps are made from. The number of its root's record was kept with it.
#[tactic(auto, unfolding(machine::specs::Search::origin_at))]
fn origin_of(work: &Buffers, i: usize) -> Origin
    requires { ((i + 1) * floats_per_place ≤ length work.now.floats.now) × ((i + 1) * words_per_place ≤ length work.now.words.now)
        × ((parent_in work.now.words.now i + 1) * words_per_place ≤ length work.now.words.now) }
    ensures { result ≡ origin_at (work_in work.now) i }
{
    Origin {
        place: i,
        depth: depth_at(work.words, i),
        number: number_at(work.words, i) as usize,
        node: node_at(work.floats, work.words, i),
    }
}

// The distance on the record with this number.
fn distance_of(work: &Buffers, number: usize) -> f32
    requires { (number + 1) * floats_per_place ≤ length work.now.floats.now }
    ensures { result ≡ record_distance work.now.floats.now number }
{
    record_distance(work.floats, number)
}

// Looks at the node that was popped: it is dropped, or no entry is left for it, or the search goes on from it.
fn visit(
    floor: &AcceptedFloor,
    task: Task,
    counts: Counts,
    recording: bool,
    i: usize,
    work: &mut Buffers,
    table: &mut [u32],
) -> Stepped
    requires sound_from { let g = floor.now in
        SoundFrom g.plan.now g.vertices.now g.polygons.now task (state_in work.old counts) }
    requires i_lt_taken { (i < counts.taken) × (recording ≡ true → Records table.old) }
    ensures outcome { let f = the_floor floor.now in
        let before = state_in work.old counts in
        let after = state_in work.new result.counts in
        ((stall : Stall) → stall.recording ≡ recording
        → turning (searching after stall table.new) result.outcome ≡ visited f task (searching before stall table.old) i) }
    ensures buffers { SameBuffers work.old work.new }
{
    let from = origin_of(work, i);
    if distance_of(work, from.number) < from.node.length {
        return Stepped {
            counts,
            outcome: None,
        };
    }
    match seen::remember(recording, table, from.node) {
        Entry::Seen => Stepped {
            counts,
            outcome: None,
        },
        Entry::NoRoom => Stepped {
            counts,
            outcome: Some(Finish::Crowded),
        },
        Entry::New => pursue(floor, task, counts, from, work),
    }
}

// Takes the least place out of the queue, counts one, and looks at it.
#[tactic(auto, unfolding(machine::specs::Search::counted))]
fn pop(
    floor: &AcceptedFloor,
    task: Task,
    counts: Counts,
    recording: bool,
    i: usize,
    work: &mut Buffers,
    table: &mut [u32],
) -> Stepped
    requires sound_from { let g = floor.now in
        SoundFrom g.plan.now g.vertices.now g.polygons.now task (state_in work.old counts) }
    requires i_value { (i ≡ least_in task.places (work_in work.old)) × (i ≡ none → ⊥) }
    requires records { (recording ≡ true → Records table.old) × (counts.pops + 1 < 2 ^ 64) }
    ensures outcome { let f = the_floor floor.now in
        let before = state_in work.old counts in
        let after = state_in work.new result.counts in
        let without = popped f task before i in
        ((stall : Stall) → stall.recording ≡ recording
        → turning (searching after stall table.new) result.outcome ≡ visited f task (searching without stall table.old) i) }
    ensures buffers { SameBuffers work.old work.new }
{
    let floats = &mut *work.floats;
    let queue = &mut *work.queue;
    queue::remove(queue, &by_f(floats, task.places), i);
    let counts = Counts {
        pops: counts.pops + 1,
        ..counts
    };
    visit(floor, task, counts, recording, i, work, table)
}

// The least place that is queued, or none where nothing is.
fn least(work: &Buffers) -> Option<usize>
    requires { 1 < length work.now.queue.now }
    ensures { (f : ℕ → Float) (n : ℕ) (q : ℕ → Bool) → 0 < n → n ≤ none → NoNan f n q → Tree f n q work.now.queue.now
        → result ≡ place_named (least_of f n q) }
{
    queue::least(work.queue)
}

// Steps until the search ends, or the budget is spent. A step pops the least node. The stall is known here alone: who looks at a node
// only asks whether the search records.
fn run(
    floor: &AcceptedFloor,
    task: Task,
    counts: Counts,
    budget: usize,
    work: &mut Buffers,
    table: &mut [u32],
) -> Ended
    requires sound_from { let g = floor.now in
        SoundFrom g.plan.now g.vertices.now g.polygons.now task (state_in work.old counts) }
    requires budget_bound { counts.pops + budget < 2 ^ 64 }
    ensures rest { let f = the_floor floor.now in
        let before = state_in work.old counts in
        let after = state_in work.new result.counts in
        rest_of (ending after result.finish) table.new ≡ rest_in (run f task budget (searching before calm table.old)) }
    ensures buffers { SameBuffers work.old work.new }
{
    let mut counts = counts;
    let mut stall = calm();
    for _ in 0..budget {
        let Some(i) = least(work) else {
            return Ended {
                counts,
                finish: Finish::Emptied,
            };
        };
        stall = watch(stall, work, i, table);
        let recording = stall.recording;
        let stepped = pop(floor, task, counts, recording, i, work, table);
        counts = stepped.counts;
        if let Some(finish) = stepped.outcome {
            return Ended { counts, finish };
        }
    }
    if least(work).is_none() {
        return Ended {
            counts,
            finish: Finish::Emptied,
        };
    }
    Ended {
        counts,
        finish: Finish::Stopped,
    }
}

// The seed takes place 0, and its root is on record with distance 0.
#[tactic(auto, unfolding(machine::specs::Search::planted))]
fn plant(task: Task, seed: Node, work: &mut Buffers)
    requires { Room task.places (work_in work.old) × (1 ≤ task.places) }
    ensures planted { let before = work_in work.old in
        let after = work_in work.new in
        ((f : Floor) → after ≡ planted f task seed before) }
    ensures buffers { SameBuffers work.old work.new }
{
    queue::clear(work.queue, QUEUE_WORDS * task.places);
    put_floats(work.floats, 0, seed, 0.0);
    put_words(work.words, 0, SEED, seed, 0, 0, 0);
    put_record(work.floats, 0, seed.root, 0.0);
}

// Plants the seed and makes its steps. It stands in a function of its own, since what it holds is done with when the search goes on, and
// its room is free.
fn set_out(floor: &AcceptedFloor, task: Task, work: &mut Buffers) -> Made
    requires { let g = floor.now in Begins g.plan.now g.vertices.now g.polygons.now task (work_in work.old) }
    ensures made { let f = the_floor floor.now in
        let before = work_in work.old in
        let after = state_in work.new result.counts in
        making after result.full ≡ outset f task before }
    ensures buffers { SameBuffers work.old work.new }
{
    let trip = task.trip;
    let seed = Node::seed(trip.start, trip.from);
    plant(task, seed, work);
    let counts = Counts {
        taken: 1,
        records: 1,
        pops: 0,
    };
    let from = Origin {
        place: 0,
        depth: 0,
        number: 0,
        node: seed,
    };
    make_steps(floor, task, counts, from, work)
}

// Searches from the trip's start, whose polygon is not the goal's.
pub fn search_from(
    floor: &AcceptedFloor,
    task: Task,
    budget: usize,
    work: &mut Buffers,
    table: &mut [u32],
) -> Ended
    requires { let g = floor.now in Begins g.plan.now g.vertices.now g.polygons.now task (work_in work.old) }
    ensures rest { let f = the_floor floor.now in
        let before = work_in work.old in
        let after = state_in work.new result.counts in
        rest_of (ending after result.finish) table.new ≡ rest_in (searched_from f task budget before table.old) }
    ensures buffers { SameBuffers work.old work.new }
{
    let made = set_out(floor, task, work);
    let counts = made.counts;
    if made.full {
        return Ended {
            counts,
            finish: Finish::Filled,
        };
    }
    run(floor, task, counts, budget, work, table)
}
