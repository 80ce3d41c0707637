#![tactic(auto)]
// What C links of the geometry: each function of `geometry_c` under its own name. A library is no static library, so these stand apart.

ghost use Rattle.std.specs.Prelude.{◌≡◌};
ghost use Rattle.std.specs.Float.{binary32};
ghost use Rattle.std.specs.Float.Ieee.{of_bits, to_bits};
ghost use Rattle.root.specs.Root.{root_of};
ghost use Rattle.point.specs.Point.{from_bits_of, dot_of, perp_dot_of, length_of, distance_of, project_onto_of};
ghost use Rattle.point.specs.Sides.{side_of, mirror_of, on_segment_of, in_bounding_box_of, min_of, max_of};
ghost use Rattle.helpers.specs.Helpers.{heuristic_of, turning_point_of, intersection_time_of, line_intersect_segment_of};
ghost use Rattle.patterns.specs.Patterns.{segment_of, truth_number};
ghost use Rattle.geometry_c.specs.Export.{side_number, turn_number, crossing_number, point_bits, turn_written, crossing_written};

#[unsafe(no_mangle)]
pub extern "C" fn geometry_root(x: u32) -> u32
    ensures { result ≡ to_bits binary32 (root_of (of_bits binary32 x)) }
{
    geometry_c::geometry_root(x)
}

#[unsafe(no_mangle)]
pub extern "C" fn geometry_min(x: u32, y: u32) -> u32
    ensures { result ≡ to_bits binary32 (min_of (of_bits binary32 x) (of_bits binary32 y)) }
{
    geometry_c::geometry_min(x, y)
}

#[unsafe(no_mangle)]
pub extern "C" fn geometry_max(x: u32, y: u32) -> u32
    ensures { result ≡ to_bits binary32 (max_of (of_bits binary32 x) (of_bits binary32 y)) }
{
    geometry_c::geometry_max(x, y)
}

// 0 is Left, 1 is Right, 2 is Edge.
#[unsafe(no_mangle)]
pub extern "C" fn geometry_side(px: u32, py: u32, l0x: u32, l0y: u32, l1x: u32, l1y: u32) -> u32
    ensures { result ≡ side_number (side_of (from_bits_of px py) (segment_of l0x l0y l1x l1y)) }
{
    geometry_c::geometry_side(px, py, l0x, l0y, l1x, l1y)
}

#[unsafe(no_mangle)]
pub extern "C" fn geometry_on_segment(
    px: u32,
    py: u32,
    s0x: u32,
    s0y: u32,
    s1x: u32,
    s1y: u32,
) -> u32
    ensures { result ≡ truth_number (on_segment_of (from_bits_of px py) (segment_of s0x s0y s1x s1y)) }
{
    geometry_c::geometry_on_segment(px, py, s0x, s0y, s1x, s1y)
}

#[unsafe(no_mangle)]
pub extern "C" fn geometry_in_bounding_box(
    px: u32,
    py: u32,
    s0x: u32,
    s0y: u32,
    s1x: u32,
    s1y: u32,
) -> u32
    ensures { result ≡ truth_number (in_bounding_box_of (from_bits_of px py) (segment_of s0x s0y s1x s1y)) }
{
    geometry_c::geometry_in_bounding_box(px, py, s0x, s0y, s1x, s1y)
}

#[unsafe(no_mangle)]
pub extern "C" fn geometry_mirror(
    px: u32,
    py: u32,
    l0x: u32,
    l0y: u32,
    l1x: u32,
    l1y: u32,
    out: &mut [u32; 2],
)
    ensures { out.new ≡ point_bits (mirror_of (from_bits_of px py) (segment_of l0x l0y l1x l1y)) }
{
    geometry_c::geometry_mirror(px, py, l0x, l0y, l1x, l1y, out)
}

#[unsafe(no_mangle)]
pub extern "C" fn geometry_heuristic(
    rx: u32,
    ry: u32,
    gx: u32,
    gy: u32,
    i0x: u32,
    i0y: u32,
    i1x: u32,
    i1y: u32,
) -> u32
    ensures { result ≡ to_bits binary32 (heuristic_of (from_bits_of rx ry) (from_bits_of gx gy) (segment_of i0x i0y i1x i1y)) }
{
    geometry_c::geometry_heuristic(rx, ry, gx, gy, i0x, i0y, i1x, i1y)
}

#[unsafe(no_mangle)]
pub extern "C" fn geometry_turning_point(
    rx: u32,
    ry: u32,
    gx: u32,
    gy: u32,
    i0x: u32,
    i0y: u32,
    i1x: u32,
    i1y: u32,
    out: &mut [u32; 2],
) -> u32
    ensures value { result ≡ turn_number (turning_point_of (from_bits_of rx ry) (from_bits_of gx gy) (segment_of i0x i0y i1x i1y)) }
    ensures out_after { out.new ≡ turn_written (turning_point_of (from_bits_of rx ry) (from_bits_of gx gy) (segment_of i0x i0y i1x i1y))
        out.old }
{
    geometry_c::geometry_turning_point(rx, ry, gx, gy, i0x, i0y, i1x, i1y, out)
}

#[unsafe(no_mangle)]
pub extern "C" fn geometry_intersection_time(
    l0x: u32,
    l0y: u32,
    l1x: u32,
    l1y: u32,
    s0x: u32,
    s0y: u32,
    s1x: u32,
    s1y: u32,
) -> u32
    ensures { result ≡ to_bits binary32 (intersection_time_of (segment_of l0x l0y l1x l1y) (segment_of s0x s0y s1x s1y)) }
{
    geometry_c::geometry_intersection_time(l0x, l0y, l1x, l1y, s0x, s0y, s1x, s1y)
}

#[unsafe(no_mangle)]
pub extern "C" fn geometry_line_intersect_segment(
    l0x: u32,
    l0y: u32,
    l1x: u32,
    l1y: u32,
    s0x: u32,
    s0y: u32,
    s1x: u32,
    s1y: u32,
    out: &mut [u32; 2],
) -> u32
    ensures value { result ≡ crossing_number (line_intersect_segment_of (segment_of l0x l0y l1x l1y) (segment_of s0x s0y s1x s1y)) }
    ensures out_after { out.new ≡ crossing_written (line_intersect_segment_of (segment_of l0x l0y l1x l1y) (segment_of s0x s0y s1x s1y))
        out.old }
{
    geometry_c::geometry_line_intersect_segment(l0x, l0y, l1x, l1y, s0x, s0y, s1x, s1y, out)
}

#[unsafe(no_mangle)]
pub extern "C" fn geometry_distance(ax: u32, ay: u32, bx: u32, by: u32) -> u32
    ensures { result ≡ to_bits binary32 (distance_of (from_bits_of ax ay) (from_bits_of bx by)) }
{
    geometry_c::geometry_distance(ax, ay, bx, by)
}

#[unsafe(no_mangle)]
pub extern "C" fn geometry_length(x: u32, y: u32) -> u32
    ensures { result ≡ to_bits binary32 (length_of (from_bits_of x y)) }
{
    geometry_c::geometry_length(x, y)
}

#[unsafe(no_mangle)]
pub extern "C" fn geometry_dot(ax: u32, ay: u32, bx: u32, by: u32) -> u32
    ensures { result ≡ to_bits binary32 (dot_of (from_bits_of ax ay) (from_bits_of bx by)) }
{
    geometry_c::geometry_dot(ax, ay, bx, by)
}

#[unsafe(no_mangle)]
pub extern "C" fn geometry_perp_dot(ax: u32, ay: u32, bx: u32, by: u32) -> u32
    ensures { result ≡ to_bits binary32 (perp_dot_of (from_bits_of ax ay) (from_bits_of bx by)) }
{
    geometry_c::geometry_perp_dot(ax, ay, bx, by)
}

#[unsafe(no_mangle)]
pub extern "C" fn geometry_project_onto(x: u32, y: u32, rx: u32, ry: u32, out: &mut [u32; 2])
    ensures { out.new ≡ point_bits (project_onto_of (from_bits_of x y) (from_bits_of rx ry)) }
{
    geometry_c::geometry_project_onto(x, y, rx, ry, out)
}
