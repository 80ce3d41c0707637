#![tactic(auto)]
// Whether a record of the route is a step out of a node: one walk round the node's polygon, an edge at a time. Nothing is made of a
// step but what its record has to say, so that no step is kept beside the record.

ghost use Rattle.std.specs.Prelude.{◌≡◌, false, ◌<◌, length, Option};
ghost use Rattle.walk.specs.Walk.{parts_of};
ghost use Rattle.walk.specs.Round.{successors_on};
ghost use Rattle.walk.specs.Turns.{is_over_of, edge_number_of, next_of};
ghost use Rattle.plan.specs.Plan.{vertex_count_in, is_marked};
ghost use Rattle.stored.specs.Stored.{vertices_of, record_in};
ghost use Rattle.edges.specs.AcceptedFloor.{the_floor};
ghost use Rattle.steps.specs.Steps.{is_allowed, clipped, steps_over, steps_from};
ghost use Rattle.going.specs.Going.{walked_on, Stands, Goes};
ghost use Rattle.seek.specs.Seek.{edge_stands, ends_at, turns_at, part_stands, is_among};

use cut::SuccessorType;
use edges::AcceptedFloor;
use point::{Point, Segment};
use records::RouteRecord;
use route::kind_number;
use steps::Node;
use stored::StoredPolygon;
use walk::{Part, Round};

// Whether the record is of a step over this edge of the polygon, as far as the edge says: no wall, its vertices, the neighbour.
#[tactic(auto, unfolding(crate::specs::Seek::edge_stands))]
fn is_over(polygon: &StoredPolygon, edge: usize, on_file: RouteRecord) -> bool
    requires { edge < length polygon.now.corners }
    ensures { result ≡ edge_stands polygon.now edge on_file.entry.route.now on_file.entry.number }
{
    let Some(neighbour) = polygon.across(edge) else {
        return false;
    };
    on_file.first() == polygon.corner(edge)
        && (on_file.second() == polygon.corner_after(edge) && on_file.polygon() == neighbour)
}

// Whether what is seen is an interval to step over, and the record's.
#[tactic(auto, unfolding(crate::specs::Seek::ends_at))]
fn ends_there(seen: Option<Segment>, on_file: RouteRecord) -> bool
    ensures { result ≡ ends_at seen on_file.entry.route.now on_file.entry.number }
{
    match seen {
        Some(interval) => view::is_interval(interval) && on_file.has_interval(interval),
        None => false,
    }
}

// The way may turn at a turn vertex that the interval's end lands on.
#[tactic(auto, unfolding(crate::specs::Seek::turns_at))]
fn turns_at(floor: &AcceptedFloor, v: u32, end: Point, root: Point) -> bool
    requires { v < vertex_count_in floor.now.plan.now }
    ensures { result ≡ turns_at (vertices_of floor.now.vertices.now) (is_marked floor.now.plan.now) v end root }
{
    let at = stored::used_vertex(floor.vertices, v as usize);
    cone::lands_on(end, at, root) && floor.plan.turns(v as usize)
}

// Whether a step of this kind may be taken out of the node.
#[tactic(auto, unfolding(steps::specs::Steps::is_allowed, crate::specs::Seek::turns_at))]
fn allows(floor: &AcceptedFloor, node: Node, kind: SuccessorType) -> bool
    requires { (node.first < vertex_count_in floor.now.plan.now) × (node.second < vertex_count_in floor.now.plan.now) }
    ensures { result ≡ is_allowed (vertices_of floor.now.vertices.now) (is_marked floor.now.plan.now) node kind }
{
    let root = node.root;
    let right = node.interval.0;
    let left = node.interval.1;
    match kind {
        SuccessorType::Observable => true,
        SuccessorType::RightNonObservable => turns_at(floor, node.first, right, root),
        SuccessorType::LeftNonObservable => turns_at(floor, node.second, left, root),
    }
}

// What the node sees of an interval of this kind.
#[tactic(auto, unfolding(steps::specs::Steps::clipped, point::specs::Point::same_of))]
fn see(floor: &AcceptedFloor, node: Node, kind: SuccessorType, interval: Segment) -> Option<Segment>
    requires { (node.first < vertex_count_in floor.now.plan.now) × (node.second < vertex_count_in floor.now.plan.now) }
    ensures { result ≡ clipped (vertices_of floor.now.vertices.now) node kind interval }
{
    if node.seed {
        return Some(interval);
    }
    let root = node.root;
    let next = node.root_after(floor.vertices, kind);
    if next == root {
        let cone = node.interval;
        return cone::clip_to_cone(root, cone, interval);
    }
    Some(interval)
}

// Whether the record is of a step over this part of an edge, as far as the part says.
#[tactic(auto, unfolding(crate::specs::Seek::part_stands))]
fn is_part(floor: &AcceptedFloor, node: Node, part: Part, on_file: RouteRecord) -> bool
    requires { (node.first < vertex_count_in floor.now.plan.now) × (node.second < vertex_count_in floor.now.plan.now) }
    ensures { let vs = vertices_of floor.now.vertices.now in
        result ≡ part_stands vs (is_marked floor.now.plan.now) node part on_file.entry.route.now on_file.entry.number }
{
    let kind = part.kind;
    let interval = part.interval;
    on_file.kind() == kind_number(kind)
        && (allows(floor, node, kind) && ends_there(see(floor, node, kind, interval), on_file))
}

// What came of an edge: whether the record is a step over one of its parts, and the round behind it.
#[derive(Clone, Copy)]
struct Looked {
    found: bool,
    next: Round,
}

// Walks the round's edge and looks for the record among the steps over its parts, where it is of a step over that edge at all. The parts
// are asked one by one, not in a loop, so that they need not lie in memory and the stack stays small.
fn look_on_edge(
    floor: &AcceptedFloor,
    polygon: &StoredPolygon,
    node: Node,
    round: Round,
    on_file: RouteRecord,
) -> Looked
    requires stands { Stands floor.now.plan.now floor.now.vertices.now floor.now.polygons.now node }
    requires its { polygon.now ≡ record_in floor.now.plan.now floor.now.polygons.now node.polygon }
    requires goes { Goes (record_in floor.now.plan.now floor.now.polygons.now node.polygon) node round × (is_over_of round ≡ false) }
    ensures found_value { let f = the_floor floor.now in
        let walked = walked_on f node round in
        result.found ≡ is_among (steps_over f node (successors_on (edge_number_of round) (parts_of walked))) on_file.entry.route.now on_file.entry.number }
    ensures next_value { result.next ≡ next_of round (walked_on (the_floor floor.now) node round).kind }
{
    let edge = round.edge();
    let over = is_over(polygon, edge, on_file);
    let kind = round.kind;
    let walked = going::walk(floor.vertices, polygon, node, edge, kind);
    let kind = walked.kind;
    let next = round.next(kind);
    if !over {
        return Looked { found: false, next };
    }
    if walked.count < 1 {
        return Looked { found: false, next };
    }
    let one = walked.parts[0];
    if is_part(floor, node, one, on_file) {
        return Looked { found: true, next };
    }
    if walked.count < 2 {
        return Looked { found: false, next };
    }
    let two = walked.parts[1];
    if is_part(floor, node, two, on_file) {
        return Looked { found: true, next };
    }
    if walked.count < 3 {
        return Looked { found: false, next };
    }
    let three = walked.parts[2];
    let found = is_part(floor, node, three, on_file);
    Looked { found, next }
}

// Whether the record is a step out of the node. Nothing steps out of the goal polygon.
pub fn is_step(floor: &AcceptedFloor, node: Node, goal: u32, on_file: RouteRecord) -> bool
    requires { Stands floor.now.plan.now floor.now.vertices.now floor.now.polygons.now node }
    ensures { result ≡ is_among (steps_from (the_floor floor.now) goal node) on_file.entry.route.now on_file.entry.number }
{
    if node.polygon == goal {
        return false;
    }
    let polygon = floor.polygon(node.polygon as usize);
    let mut round = going::begin(&polygon, node);
    while !round.is_over() {
        let looked = look_on_edge(floor, &polygon, node, round, on_file);
        let found = looked.found;
        if found {
            return true;
        }
        round = looked.next;
    }
    false
}
