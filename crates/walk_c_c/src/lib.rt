#![tactic(auto)]
// What C links of the walk of one edge: each function of `walk_c` under its own name. A library is no static library, so these stand apart.

ghost use Rattle.std.specs.Prelude.{◌≡◌};
ghost use Rattle.point.specs.Point.{from_bits_of};
ghost use Rattle.patterns.specs.Patterns.{segment_of};
ghost use Rattle.walk_c.specs.Walk.{kind_asked_of, walk_number, walk_written};

// The number of intervals, 1 to 3, or 0 with out unchanged when kind is none of 0 LeftNonObservable, 1 Observable and 2
// RightNonObservable. Words 5 * i to 5 * i + 3 of out are the bit patterns of interval i (start x, y, end x, y) and word
// 5 * i + 4 its kind, for i below the answer; word 15 is the kind to go on with; every other word stays as it was.
#[unsafe(no_mangle)]
pub extern "C" fn geometry_walk_edge(
    rx: u32,
    ry: u32,
    i0x: u32,
    i0y: u32,
    i1x: u32,
    i1y: u32,
    ax: u32,
    ay: u32,
    bx: u32,
    by: u32,
    kind: u32,
    out: &mut [u32; 16],
) -> u32
    ensures value { result ≡ walk_number (from_bits_of rx ry) (segment_of i0x i0y i1x i1y) (segment_of ax ay bx by) (kind_asked_of kind) }
    ensures out_after { out.new ≡ walk_written (from_bits_of rx ry) (segment_of i0x i0y i1x i1y) (segment_of ax ay bx by) (kind_asked_of kind)
        out.old }
{
    walk_c::geometry_walk_edge(rx, ry, i0x, i0y, i1x, i1y, ax, ay, bx, by, kind, out)
}
