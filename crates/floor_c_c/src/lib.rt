#![tactic(auto)]
// What C links of the look at a floor: each function of `floor_c` under its own name. A library is no static library, so these stand apart.

ghost use Rattle.std.specs.Prelude.{◌≡◌};
ghost use Rattle.stored.specs.Stored.{floor_of};
ghost use Rattle.floor.specs.Look.{floor_look_of};
ghost use Rattle.floor_c.specs.Numbers.{marks_of, look_number, mark_number, turn_number};

// Document 01's number: 0 where the floor is accepted, else 2 to 6.
#[unsafe(no_mangle)]
pub extern "C" fn floor_look(vertices: &[u8], polygons: &[u8]) -> u32
    ensures { result ≡ look_number (floor_look_of 8 vertices.now polygons.now) }
{
    floor_c::floor_look(vertices, polygons)
}

// The same, with the look at the floor before it: document 01's number from 2 to 6 where it is refused.
#[unsafe(no_mangle)]
pub extern "C" fn floor_turn(vertices: &[u8], polygons: &[u8], v: usize) -> u32
    ensures { result ≡ turn_number (floor_look_of 8 vertices.now polygons.now)
        (mark_number (marks_of (floor_of 8 vertices.now polygons.now)) v) }
{
    floor_c::floor_turn(vertices, polygons, v)
}
