#![tactic(auto)]
// The walk round a node's polygon, an edge at a time: where it begins, and what it yields on an edge. The seed's walk goes over
// every edge whole.

ghost use Rattle.std.specs.Prelude.{◌≡◌, ◌≤◌, ◌<◌, length};
ghost use Rattle.counts.specs.Counts.{below};
ghost use Rattle.stored.specs.Stored.{vertex_count, vertices_of, edge_of};
ghost use Rattle.edges.specs.Where.{HasEdge};
ghost use Rattle.steps.specs.Steps.{place_of};
ghost use Rattle.going.specs.Going.{whole_of, walk_by, entry_for, count_for, begin_round};

use cut::SuccessorType;
use point::Segment;
use steps::Node;
use stored::StoredPolygon;
use walk::{Part, Round, Walked};

// The edge as one part, seen.
#[tactic(auto, unfolding(crate::specs::Going::whole_of, walk::specs::Walk::one_of))]
fn whole(edge: Segment) -> Walked
    ensures { result ≡ whole_of edge }
{
    let kind = SuccessorType::Observable;
    let part = Part {
        interval: edge,
        kind,
    };
    Walked {
        parts: [part, part, part],
        count: 1,
        kind,
    }
}

// What the walk yields on an edge: from the seed the edge whole.
#[tactic(auto, unfolding(crate::specs::Going::walk_by))]
fn walk_by(node: Node, edge: Segment, kind: SuccessorType) -> Walked
    ensures { result ≡ walk_by node edge kind }
{
    if node.seed {
        return whole(edge);
    }
    let root = node.root;
    let interval = node.interval;
    walk::walk_edge(root, interval, edge, kind)
}

// The place of the corner v among n, or none.
#[tactic(auto, unfolding(steps::specs::Steps::place_of))]
pub fn place_of(polygon: &StoredPolygon, n: usize, v: u32) -> Option<usize>
    requires { n ≤ length polygon.now.corners }
    ensures { result ≡ below n (place_of polygon.now n v) }
{
    for i in 0..n {
        if polygon.corner(i) == v {
            return Some(i);
        }
    }
    None
}

// What the walk yields on edge i, where kind is what the edge before it left.
pub fn walk(
    vertices: &[u8],
    polygon: &StoredPolygon,
    node: Node,
    i: usize,
    kind: SuccessorType,
) -> Walked
    requires { HasEdge (vertex_count vertices.now) polygon.now i }
    ensures { result ≡ walk_by node (edge_of (vertices_of vertices.now) polygon.now i) kind }
{
    let edge = edges::edge(vertices, polygon, i);
    walk_by(node, edge, kind)
}

// The walk begins behind the edge that was entered by, the seed's at the first edge. Up to the entry edge every slot is a corner's, so
// that the corners are counted on from there.
pub fn begin(polygon: &StoredPolygon, node: Node) -> Round
    requires { entry_for polygon.now node < count_for polygon.now node }
    ensures { result ≡ begin_round polygon.now node }
{
    let slots = polygon.slots();
    if node.seed {
        let n = polygon.corner_count();
        return Round::begin(n, n + 1);
    }
    let entry = place_of(polygon, slots, node.second).unwrap();
    let n = polygon.count_on(entry);
    Round::begin(entry, n)
}
