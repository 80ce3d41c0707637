// Whether a node stands on an accepted floor: what the steps ask of it.

ghost use Rattle.std.specs.Prelude.{◌≡◌};
ghost use Rattle.plan.specs.Plan.{vertex_count_in};
ghost use Rattle.stored.specs.Stored.{polygons_in, PolygonsPlanned};
ghost use Rattle.steps_c.specs.Ask.{is_entered, is_on};

use plan::Plan;
use steps::Node;
use stored::StoredPolygon;

// Whether the edge that the node was entered by is one of the polygon's. The seed was entered by none.
#[tactic(auto, unfolding(crate::specs::Ask::is_entered))]
fn is_entered(polygon: &StoredPolygon, node: Node) -> bool
    ensures { result ≡ is_entered polygon.now node }
{
    if node.seed {
        return true;
    }
    let n = polygon.corner_count();
    going::place_of(polygon, n, node.second).is_some()
}

// The polygon is listed, and so are both vertices of the entry edge, which is one of the polygon's.
pub fn is_on(polygons: &[u8], plan: &Plan, node: Node) -> bool
    requires { PolygonsPlanned plan.now polygons.now }
    ensures { result ≡ is_on (vertex_count_in plan.now) (polygons_in plan.now polygons.now) node }
{
    let count = plan.vertex_count();
    let p = node.polygon as usize;
    if p < plan.polygon_count() {
        let polygon = StoredPolygon::at(polygons, plan, p);
        return (node.first as usize) < count
            && ((node.second as usize) < count && is_entered(&polygon, node));
    }
    false
}
