// An accepted floor: its two lists and its plan, with what a look has found of them. Whatever walks on a floor asks for this and for
// nothing else.

ghost use Rattle.std.specs.Prelude.{◌≡◌, ◌<◌};
ghost use Rattle.plan.specs.Plan.{polygon_count_in};
ghost use Rattle.stored.specs.Stored.{polygon};
ghost use Rattle.edges.specs.Ground.{Ground};

use plan::Plan;
use stored::StoredPolygon;

#[derive(Clone, Copy)]
pub struct AcceptedFloor<'a> {
    pub vertices: &'a [u8],
    pub polygons: &'a [u8],
    pub plan: &'a Plan,
    pub ghost accepted: { ∥ Ground plan.now vertices.now polygons.now ∥₁ },
}

impl<'a> AcceptedFloor<'a> {
    ghost use Rattle.edges.specs.AcceptedFloor.{the_floor};

    // Polygon p, where it lies.
    #[tactic(auto, using(crate::proofs::Held::ground, stored::proofs::Records::polygon_read))]
    pub fn polygon(&self, p: usize) -> StoredPolygon<'a>
        requires { p < polygon_count_in self.now.plan.now }
        ensures { result ≡ polygon (the_floor self.now) p }
    {
        StoredPolygon::at(self.polygons, self.plan, p)
    }
}
