#![tactic(auto)]
// The edges of an accepted floor: which polygon a point is in, by the side of each edge that it is on, and which vertices turn,
// by being on a wall edge.

ghost use Rattle.std.specs.Prelude.{◌≡◌, length};
ghost use Rattle.counts.specs.Counts.{below};
ghost use Rattle.point.specs.declared.EdgeSide.TheVariants.{Right};
ghost use Rattle.point.specs.Sides.{side_of, same_side_of};
ghost use Rattle.stored.specs.Stored.{vertex_count, vertices_of, edge_of};
ghost use Rattle.faults.specs.Accepted.{Corners};
ghost use Rattle.edges.specs.Where.{HasEdge, contains_in, polygon_of};
ghost use Rattle.edges.specs.AcceptedFloor.{the_floor};

pub use accepted::AcceptedFloor;
use point::{EdgeSide, Point, Segment};
use stored::{StoredPolygon, UNUSED};

mod accepted;
pub mod turns;

// Edge i of a polygon, from corner to corner.
pub fn edge(vertices: &[u8], polygon: &StoredPolygon, i: usize) -> Segment
    requires { HasEdge (vertex_count vertices.now) polygon.now i }
    ensures { result ≡ edge_of (vertices_of vertices.now) polygon.now i }
{
    let start = stored::used_vertex(vertices, polygon.corner(i) as usize);
    let end = stored::used_vertex(vertices, polygon.corner_after(i) as usize);
    Segment(start, end)
}

// Whether a point is Right of edge i of a polygon.
#[tactic(auto, unfolding(point::specs::Sides::same_side_of))]
fn is_right(vertices: &[u8], polygon: &StoredPolygon, i: usize, point: Point) -> bool
    requires { HasEdge (vertex_count vertices.now) polygon.now i }
    ensures { result ≡ same_side_of (side_of point (edge_of (vertices_of vertices.now) polygon.now i)) Right }
{
    point.side(edge(vertices, polygon, i)) == EdgeSide::Right
}

// A polygon contains a point that is Right of none of its edges. Nearly every polygon has one of the first edges on the wrong side, so
// its corners are not counted before.
#[tactic(auto, using(crate::proofs::Containing::none_yet, crate::proofs::Containing::is_out, crate::proofs::Containing::in_here, crate::proofs::Containing::none_more))]
pub fn contains(vertices: &[u8], polygon: &StoredPolygon, point: Point) -> bool
    requires { Corners (vertex_count vertices.now) polygon.now }
    ensures { result ≡ contains_in (vertices_of vertices.now) polygon.now point }
{
    let slots = polygon.slots();
    for i in 0..slots {
        if is_right(vertices, polygon, i, point) {
            return false;
        }
        if i + 1 < slots && polygon.corner(i + 1) == UNUSED {
            return true;
        }
    }
    true
}

// The lowest-numbered polygon that contains a point.
#[tactic(auto, using(crate::proofs::Held::ground, crate::proofs::Inside::corners_of, crate::proofs::Finding::found_here))]
pub fn polygon_of(floor: &AcceptedFloor, point: Point) -> Option<usize>
    ensures { let f = the_floor floor.now in
        result ≡ below (length f.polygons) (polygon_of f point) }
{
    for p in 0..floor.plan.polygon_count() {
        if contains(floor.vertices, &floor.polygon(p), point) {
            return Some(p);
        }
    }
    None
}
