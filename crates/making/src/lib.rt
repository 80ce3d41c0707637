#![tactic(auto)]
// Making nodes: each permitted step out of a node leads to one, which takes a place and, unless its root was reached by a
// shorter way, is queued.

ghost use Rattle.std.specs.Prelude.{◌≡◌, false, ◌*◌, ◌≤◌, ◌<◌, eqb, length};
ghost use Rattle.walk.specs.Walk.{parts_of};
ghost use Rattle.walk.specs.Round.{successors_on};
ghost use Rattle.walk.specs.Turns.{is_over_of, edge_number_of, next_of};
ghost use Rattle.plan.specs.Plan.{is_marked};
ghost use Rattle.stored.specs.Stored.{vertex_count, vertices_of, record_in};
ghost use Rattle.edges.specs.AcceptedFloor.{the_floor};
ghost use Rattle.steps.specs.Steps.{step_of, steps_over, steps_from};
ghost use Rattle.view.specs.View.{view_of};
ghost use Rattle.going.specs.Going.{walked_on, Goes};
ghost use Rattle.queue.specs.Queue.{Tree};
ghost use Rattle.queue.specs.Column.{f_of};
ghost use Rattle.queue.specs.Words.{column, queued_in};
ghost use Rattle.places.specs.Layout.{record_for};
ghost use Rattle.machine.specs.Buffers.{state_in, SameBuffers};
ghost use Rattle.machine.specs.Search.{making, kept, taken, made, made_if, made_all};
ghost use Rattle.machine.specs.Sound.{Fit, OnRecord, Leaving, Leaves};

use edges::AcceptedFloor;
use machine::{Buffers, Counts, Made, Origin, Task};
use places::{
    F_AT, FLOATS, put_distance, put_floats, put_record, put_words, record_distance, record_for,
};
use point::Point;
use queue::Column;
use route::Step;
use steps::Node;
use stored::StoredPolygon;
use view::View;
use walk::{Round, Successor};

// The number of the record that a root has, or is the next to have. One that is the old root by == has the old root's; only
// another one is looked for.
#[tactic(auto, using(crate::proofs::Keeping::keeps_number, places::proofs::Records::number_found), unfolding(point::specs::Point::same_of))]
fn number_for(floats: &[f32], records: usize, old: Point, number: usize, root: Point) -> usize
    requires { (records * 11 ≤ length floats.now) × (record_for floats.now records old ≡ number) }
    ensures { result ≡ record_for floats.now records root }
{
    if root == old {
        return number;
    }
    record_for(floats, records, root).unwrap_or(records)
}

// The column in which the f of each place stands, which the queue goes by.
pub fn by_f(floats: &[f32], places: usize) -> Column
    requires { places * 11 ≤ length floats.now }
    ensures f_value { f_of result ≡ column floats.now 11 7 }
    ensures places { result.places ≡ places }
{
    Column {
        floats,
        stride: FLOATS,
        at: F_AT,
        places,
    }
}

// Drops the node at place i if its root, whose record's number is r, has a strictly smaller distance on record, else that
// record becomes its own and the node is queued.
fn keep(task: Task, counts: Counts, i: usize, node: Node, r: usize, work: &mut Buffers) -> Counts
    requires fact { let n = task.places in
        (n * 11 ≤ length work.old.floats.now) × (2 * n ≤ length work.old.queue.now) × (n ≤ 4096) × (i < n) × (counts.records < n) }
    requires r_value { r ≡ record_for work.old.floats.now counts.records node.root }
    requires tree { let queue = work.old.queue.now in
        Tree (column work.old.floats.now 11 7) task.places (queued_in task.places queue) queue }
    ensures state_after { state_in work.new result ≡ kept task.places (state_in work.old counts) i node }
    ensures buffers { SameBuffers work.old work.new }
{
    let floats = &mut *work.floats;
    let queue = &mut *work.queue;
    let records = counts.records;
    let distance = node.length;
    if r < records {
        if record_distance(floats, r) < distance {
            return counts;
        }
        put_distance(floats, r, distance);
        queue::push(queue, &by_f(floats, task.places), i);
        return counts;
    }
    put_record(floats, r, node.root, distance);
    queue::push(queue, &by_f(floats, task.places), i);
    Counts {
        records: records + 1,
        ..counts
    }
}

// The node takes the next place.
fn take(
    task: Task,
    counts: Counts,
    from: Origin,
    kind: u32,
    node: Node,
    f: f32,
    work: &mut Buffers,
) -> Counts
    requires fit { Fit task (state_in work.old counts) }
    requires fact { let before = state_in work.old counts in
        (counts.taken < task.places) × (from.place ≤ 4096) × (from.depth ≤ 4096) × OnRecord before from.node.root from.number }
    ensures state_after { state_in work.new result ≡ taken task.places (state_in work.old counts) from kind node f }
    ensures buffers { SameBuffers work.old work.new }
{
    let i = counts.taken;
    let floats = &mut *work.floats;
    let old = from.node;
    let number = number_for(floats, counts.records, old.root, from.number, node.root);
    put_floats(floats, i, node, f);
    put_words(
        work.words,
        i,
        kind,
        node,
        from.place as u32,
        from.depth + 1,
        number as u32,
    );
    let counts = Counts {
        taken: i + 1,
        ..counts
    };
    keep(task, counts, i, node, number, work)
}

// Makes the node that a step leads to. NaN in its distance or its heuristic makes nothing.
#[tactic(auto, using(crate::proofs::Keeping::makes_none, crate::proofs::Keeping::makes_nothing, crate::proofs::Keeping::makes_full, crate::proofs::Keeping::makes_one))]
fn make(
    vertices: &[u8],
    task: Task,
    counts: Counts,
    from: Origin,
    step: Step,
    work: &mut Buffers,
) -> Made
    requires fit { Fit task (state_in work.old counts) }
    requires leaving { Leaving (state_in work.old counts) from }
    requires first_bound { (from.node.first < vertex_count vertices.now) × (from.node.second < vertex_count vertices.now) }
    ensures state_after { let before = state_in work.old counts in
        let after = state_in work.new result.counts in
        making after result.full ≡ made (vertices_of vertices.now) task before from step }
    ensures buffers { SameBuffers work.old work.new }
{
    let old = from.node;
    let node = old.enter(vertices, step);
    let distance = node.length;
    let trip = task.trip;
    let heuristic = helpers::heuristic(node.root, trip.goal, node.interval);
    if distance.is_nan() {
        return Made {
            counts,
            full: false,
        };
    }
    if heuristic.is_nan() {
        return Made {
            counts,
            full: false,
        };
    }
    if task.places <= counts.taken {
        return Made { counts, full: true };
    }
    let kind = step.kind;
    let kind = route::kind_number(kind);
    let f = distance + heuristic;
    let counts = take(task, counts, from, kind, node, f, work);
    Made {
        counts,
        full: false,
    }
}

// What was made of an edge: the counters, whether a node found no place, and the round behind it.
#[derive(Clone, Copy)]
struct Edged {
    counts: Counts,
    full: bool,
    next: Round,
}

// Makes the node behind a part of an edge, if a step leads over it.
fn make_part(
    floor: &AcceptedFloor,
    polygon: &StoredPolygon,
    task: Task,
    counts: Counts,
    from: Origin,
    view: View,
    successor: Successor,
    work: &mut Buffers,
) -> Made
    requires fit { Fit task (state_in work.old counts) }
    requires leaves { let g = floor.now in
        Leaves g.plan.now g.vertices.now g.polygons.now (state_in work.old counts) from }
    requires polygon_value { let g = floor.now in
        (polygon.now ≡ record_in g.plan.now g.polygons.now from.node.polygon) × (successor.edge < length polygon.now.corners) }
    requires view_value { let g = floor.now in view ≡ view_of (vertices_of g.vertices.now) (is_marked g.plan.now) from.node }
    ensures state_after { let f = the_floor floor.now in
        let before = state_in work.old counts in
        let after = state_in work.new result.counts in
        making after result.full ≡ made_if f task before from (step_of f from.node successor) }
    ensures buffers { SameBuffers work.old work.new }
{
    match view.step(polygon, successor) {
        Some(step) => make(floor.vertices, task, counts, from, step, work),
        None => Made {
            counts,
            full: false,
        },
    }
}

// Walks the round's edge and makes the nodes behind its parts, until one finds no place. What the walk yields stays in here, since
// what a call takes is copied.
fn make_edge(
    floor: &AcceptedFloor,
    polygon: &StoredPolygon,
    task: Task,
    counts: Counts,
    from: Origin,
    view: View,
    round: Round,
    work: &mut Buffers,
) -> Edged
    requires fit { Fit task (state_in work.old counts) }
    requires leaves { let g = floor.now in
        Leaves g.plan.now g.vertices.now g.polygons.now (state_in work.old counts) from }
    requires polygon_value { let g = floor.now in polygon.now ≡ record_in g.plan.now g.polygons.now from.node.polygon }
    requires view_value { let g = floor.now in view ≡ view_of (vertices_of g.vertices.now) (is_marked g.plan.now) from.node }
    requires goes { let g = floor.now in
        Goes (record_in g.plan.now g.polygons.now from.node.polygon) from.node round × (is_over_of round ≡ false) }
    ensures full_after { let f = the_floor floor.now in
        let before = state_in work.old counts in
        let after = state_in work.new result.counts in
        let parts = parts_of (walked_on f from.node round) in
        making after result.full ≡ made_all f task before from (steps_over f from.node (successors_on (edge_number_of round) parts)) }
    ensures next_value { let f = the_floor floor.now in
        result.next ≡ next_of round (walked_on f from.node round).kind }
    ensures buffers { SameBuffers work.old work.new }
{
    let node = from.node;
    let edge = round.edge();
    let kind = round.kind;
    let walked = going::walk(floor.vertices, polygon, node, edge, kind);
    let kind = walked.kind;
    let next = round.next(kind);
    let mut counts = counts;
    for k in 0..walked.count {
        let part = walked.parts[k];
        let successor = Successor { edge, part };
        let made = make_part(floor, polygon, task, counts, from, view, successor, work);
        counts = made.counts;
        let full = made.full;
        if full {
            return Edged { counts, full, next };
        }
    }
    Edged {
        counts,
        full: false,
        next,
    }
}

// Makes all the steps out of a node, until one finds no place.
pub fn make_steps(
    floor: &AcceptedFloor,
    task: Task,
    counts: Counts,
    from: Origin,
    work: &mut Buffers,
) -> Made
    requires fit { Fit task (state_in work.old counts) }
    requires leaves { let g = floor.now in
        Leaves g.plan.now g.vertices.now g.polygons.now (state_in work.old counts) from }
    requires apart { eqb from.node.polygon task.trip.to ≡ false }
    ensures state_after { let f = the_floor floor.now in
        let before = state_in work.old counts in
        let after = state_in work.new result.counts in
        making after result.full ≡ made_all f task before from (steps_from f task.trip.to from.node) }
    ensures buffers { SameBuffers work.old work.new }
{
    let node = from.node;
    let view = View::new(floor.vertices, floor.plan, node);
    let polygon = floor.polygon(node.polygon as usize);
    let mut round = going::begin(&polygon, node);
    let mut counts = counts;
    while !round.is_over() {
        let edged = make_edge(floor, &polygon, task, counts, from, view, round, work);
        counts = edged.counts;
        let full = edged.full;
        if full {
            return Made { counts, full };
        }
        round = edged.next;
    }
    Made {
        counts,
        full: false,
    }
}
