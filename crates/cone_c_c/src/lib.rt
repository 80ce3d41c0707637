#![tactic(auto)]
// What C links of the clip and the landing on a vertex: each function of `cone_c` under its own name. A library is no static library, so these stand apart.

ghost use Rattle.std.specs.Prelude.{◌≡◌};
ghost use Rattle.point.specs.Point.{from_bits_of};
ghost use Rattle.cone.specs.Cone.{clip_to_cone_of};
ghost use Rattle.cone.specs.Landing.{lands_on_of};
ghost use Rattle.patterns.specs.Patterns.{segment_of, truth_number};
ghost use Rattle.cone_c.specs.Clip.{clipped_number, clipped_written};

// 1 and the segment that is seen, or 0 and out is unchanged.
#[unsafe(no_mangle)]
pub extern "C" fn geometry_clip_to_cone(
    rx: u32,
    ry: u32,
    c0x: u32,
    c0y: u32,
    c1x: u32,
    c1y: u32,
    s0x: u32,
    s0y: u32,
    s1x: u32,
    s1y: u32,
    out: &mut [u32; 4],
) -> u32
    ensures value { result ≡ clipped_number (clip_to_cone_of (from_bits_of rx ry) (segment_of c0x c0y c1x c1y) (segment_of s0x s0y s1x s1y)) }
    ensures out_after { out.new ≡ clipped_written (clip_to_cone_of (from_bits_of rx ry) (segment_of c0x c0y c1x c1y) (segment_of s0x s0y s1x s1y))
        out.old }
{
    cone_c::geometry_clip_to_cone(rx, ry, c0x, c0y, c1x, c1y, s0x, s0y, s1x, s1y, out)
}

#[unsafe(no_mangle)]
pub extern "C" fn geometry_lands_on(cx: u32, cy: u32, vx: u32, vy: u32, rx: u32, ry: u32) -> u32
    ensures { result ≡ truth_number (lands_on_of (from_bits_of cx cy) (from_bits_of vx vy) (from_bits_of rx ry)) }
{
    cone_c::geometry_lands_on(cx, cy, vx, vy, rx, ry)
}
