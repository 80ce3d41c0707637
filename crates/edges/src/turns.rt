// The turn vertices, marked in the plan once a look has found every corner right: the ends of each wall.

ghost use Rattle.std.specs.Prelude.{◌≡◌, ℕ, ◌≤◌, ◌<◌};
ghost use Rattle.plan.specs.Plan.{most_vertices, vertex_count_in, polygon_count_in};
ghost use Rattle.stored.specs.Stored.{record_in, polygons_in, corner_count, PolygonsPlanned};
ghost use Rattle.faults.specs.Accepted.{Corners};
ghost use Rattle.edges.specs.Where.{HasEdge, mark_edge, mark_edges, turns_marked};

use plan::Plan;
use stored::{StoredPolygon, UNUSED};

// Marks both ends of edge i of a polygon, if it is a wall.
#[tactic(auto, unfolding(crate::specs::Where::mark_edge))]
fn mark_edge(polygon: &StoredPolygon, i: usize, marks: &mut Plan)
    requires { HasEdge most_vertices polygon.now i }
    ensures { marks.new ≡ mark_edge polygon.now i marks.old }
{
    if polygon.across(i).is_none() {
        let a = polygon.corner(i) as usize;
        let b = polygon.corner_after(i) as usize;
        marks.mark(a);
        marks.mark(b);
    }
}

// Marks the ends of a polygon's walls. It goes to the first unused slot, so that the corners are not counted before.
#[tactic(auto, unfolding(crate::specs::Where::mark_edges), using(stored::proofs::Records::upto_none, stored::proofs::Records::ends_here, stored::proofs::Records::upto_more))]
fn mark_edges(polygon: &StoredPolygon, marks: &mut Plan)
    requires { Corners most_vertices polygon.now }
    ensures { marks.new ≡ mark_edges polygon.now (corner_count polygon.now) marks.old }
{
    for i in 0..polygon.slots() {
        if polygon.corner(i) == UNUSED {
            return;
        }
        mark_edge(polygon, i, marks);
    }
}

// Marks the ends of the walls of every polygon.
#[tactic(auto, unfolding(crate::specs::Where::mark_polygons, crate::specs::Where::turns_marked), using(stored::proofs::Records::lies, stored::proofs::Records::polygon_read, stored::proofs::Records::polygons_counted))]
fn mark_polygons(polygons: &[u8], plan: &Plan, marks: &mut Plan)
    requires polygons_planned { PolygonsPlanned plan.now polygons.now × (vertex_count_in plan.now ≤ most_vertices) }
    requires by_index { (p : ℕ) → p < polygon_count_in plan.now → Corners (vertex_count_in plan.now) (record_in plan.now polygons.now p) }
    ensures { marks.new ≡ turns_marked (polygons_in plan.now polygons.now) marks.old }
{
    for p in 0..plan.polygon_count() {
        mark_edges(&StoredPolygon::at(polygons, plan, p), marks);
    }
}

// The plan with its floor's turn vertices. It is read as it was laid.
pub fn mark_turns(polygons: &[u8], plan: &mut Plan)
    requires polygons_planned { PolygonsPlanned plan.old polygons.now × (vertex_count_in plan.old ≤ most_vertices) }
    requires by_index { (p : ℕ) → p < polygon_count_in plan.old → Corners (vertex_count_in plan.old) (record_in plan.old polygons.now p) }
    ensures { plan.new ≡ turns_marked (polygons_in plan.old polygons.now) plan.old }
{
    let laid = *plan;
    mark_polygons(polygons, &laid, plan);
}
