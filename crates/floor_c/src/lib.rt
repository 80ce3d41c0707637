#![tactic(auto)]
// The look at a stored floor for C, as far as its cost is measured (oracle/bench_floor). A slice goes to C as its pointer and
// its length. Each function takes any bytes and changes none.

ghost use Rattle.std.specs.Prelude.{◌≡◌};
ghost use Rattle.plan.specs.Plan.{is_marked};
ghost use Rattle.stored.specs.Stored.{floor_of};
ghost use Rattle.floor.specs.Look.{floor_look_of};
ghost use Rattle.floor_c.specs.Numbers.{marks_of, look_number, mark_number, turn_number};

use plan::Plan;
use told::Told;

// Document 01's number: 0 where the floor is accepted, else 2 to 6.
#[tactic(auto, unfolding(crate::specs::Numbers::look_number))]
pub fn floor_look(vertices: &[u8], polygons: &[u8]) -> u32
    ensures { result ≡ look_number (floor_look_of 8 vertices.now polygons.now) }
{
    let mut plan = Plan::new();
    match floor::look_at_floor(vertices, polygons, &mut plan) {
        Ok(()) => 0,
        Err(refusal) => Told::from(refusal).number(),
    }
}

// Whether vertex v turns, by the plan: 1 or 0. A number that no vertex has turns nowhere.
#[tactic(auto, unfolding(crate::specs::Numbers::mark_number))]
fn mark(plan: &Plan, v: usize) -> u32
    ensures { result ≡ mark_number (is_marked plan.now) v }
{
    u32::from(v < 1024 && plan.turns(v))
}

// The same, with the look at the floor before it: document 01's number from 2 to 6 where it is refused.
#[tactic(auto, unfolding(crate::specs::Numbers::turn_number))]
pub fn floor_turn(vertices: &[u8], polygons: &[u8], v: usize) -> u32
    ensures { result ≡ turn_number (floor_look_of 8 vertices.now polygons.now)
        (mark_number (marks_of (floor_of 8 vertices.now polygons.now)) v) }
{
    let mut plan = Plan::new();
    match floor::look_at_floor(vertices, polygons, &mut plan) {
        Ok(()) => mark(&plan, v),
        Err(refusal) => Told::from(refusal).number(),
    }
}
