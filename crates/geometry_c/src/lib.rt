#![tactic(auto)]
// The geometry on f32 bit patterns, for C and for the harness that compares it with the Rust. A NaN pattern of any kind
// stands for NaN, and NaN comes back as 0x7FC00000. Each function takes every pattern.

ghost use Rattle.std.specs.Prelude.{◌≡◌};
ghost use Rattle.std.specs.Float.{binary32};
ghost use Rattle.std.specs.Float.Ieee.{of_bits, to_bits};
ghost use Rattle.root.specs.Root.{root_of};
ghost use Rattle.point.specs.Point.{from_bits_of, dot_of, perp_dot_of, length_of, distance_of, project_onto_of};
ghost use Rattle.point.specs.Sides.{side_of, mirror_of, on_segment_of, in_bounding_box_of, min_of, max_of};
ghost use Rattle.helpers.specs.Helpers.{heuristic_of, turning_point_of, intersection_time_of, line_intersect_segment_of};
ghost use Rattle.patterns.specs.Patterns.{segment_of, truth_number};
ghost use Rattle.geometry_c.specs.Export.{side_number, turn_number, crossing_number, point_bits, turn_written, crossing_written, point_number, point_written};

use patterns::{segment, truth_number};
use point::{EdgeSide, Point};

#[tactic(auto, unfolding(crate::specs::Export::side_number))]
fn side_number(side: EdgeSide) -> u32
    ensures { result ≡ side_number side }
{
    match side {
        EdgeSide::Left => 0,
        EdgeSide::Right => 1,
        EdgeSide::Edge => 2,
    }
}

// Writes the bit patterns of a point's coordinates.
#[tactic(auto, unfolding(crate::specs::Export::point_bits))]
fn put(out: &mut [u32; 2], point: Point)
    ensures { out.new ≡ point_bits point }
{
    *out = [float::to_bits(point.x), float::to_bits(point.y)];
}

// 1 and the point, or 0 and out is unchanged.
#[tactic(auto, unfolding(crate::specs::Export::point_number, crate::specs::Export::point_written))]
fn put_if(out: &mut [u32; 2], found: Option<Point>) -> u32
    ensures value { result ≡ point_number found }
    ensures out_after { out.new ≡ point_written found out.old }
{
    match found {
        Some(point) => {
            put(out, point);
            1
        }
        None => 0,
    }
}

pub fn geometry_root(x: u32) -> u32
    ensures { result ≡ to_bits binary32 (root_of (of_bits binary32 x)) }
{
    float::to_bits(root::root(float::from_bits(x)))
}

pub fn geometry_min(x: u32, y: u32) -> u32
    ensures { result ≡ to_bits binary32 (min_of (of_bits binary32 x) (of_bits binary32 y)) }
{
    float::to_bits(point::min(float::from_bits(x), float::from_bits(y)))
}

pub fn geometry_max(x: u32, y: u32) -> u32
    ensures { result ≡ to_bits binary32 (max_of (of_bits binary32 x) (of_bits binary32 y)) }
{
    float::to_bits(point::max(float::from_bits(x), float::from_bits(y)))
}

// 0 is Left, 1 is Right, 2 is Edge.
pub fn geometry_side(px: u32, py: u32, l0x: u32, l0y: u32, l1x: u32, l1y: u32) -> u32
    ensures { result ≡ side_number (side_of (from_bits_of px py) (segment_of l0x l0y l1x l1y)) }
{
    side_number(Point::from_bits(px, py).side(segment(l0x, l0y, l1x, l1y)))
}

pub fn geometry_on_segment(px: u32, py: u32, s0x: u32, s0y: u32, s1x: u32, s1y: u32) -> u32
    ensures { result ≡ truth_number (on_segment_of (from_bits_of px py) (segment_of s0x s0y s1x s1y)) }
{
    truth_number(Point::from_bits(px, py).on_segment(segment(s0x, s0y, s1x, s1y)))
}

pub fn geometry_in_bounding_box(px: u32, py: u32, s0x: u32, s0y: u32, s1x: u32, s1y: u32) -> u32
    ensures { result ≡ truth_number (in_bounding_box_of (from_bits_of px py) (segment_of s0x s0y s1x s1y)) }
{
    truth_number(Point::from_bits(px, py).in_bounding_box(segment(s0x, s0y, s1x, s1y)))
}

pub fn geometry_mirror(px: u32, py: u32, l0x: u32, l0y: u32, l1x: u32, l1y: u32, out: &mut [u32; 2])
    ensures { out.new ≡ point_bits (mirror_of (from_bits_of px py) (segment_of l0x l0y l1x l1y)) }
{
    let mirrored = Point::from_bits(px, py).mirror(segment(l0x, l0y, l1x, l1y));
    put(out, mirrored);
}

pub fn geometry_heuristic(
    rx: u32,
    ry: u32,
    gx: u32,
    gy: u32,
    i0x: u32,
    i0y: u32,
    i1x: u32,
    i1y: u32,
) -> u32
    ensures { result ≡ to_bits binary32 (heuristic_of (from_bits_of rx ry) (from_bits_of gx gy) (segment_of i0x i0y i1x i1y)) }
{
    let root = Point::from_bits(rx, ry);
    let goal = Point::from_bits(gx, gy);
    float::to_bits(helpers::heuristic(root, goal, segment(i0x, i0y, i1x, i1y)))
}

// 1 and the point, or 0 and out is unchanged.
pub fn geometry_turning_point(
    rx: u32,
    ry: u32,
    gx: u32,
    gy: u32,
    i0x: u32,
    i0y: u32,
    i1x: u32,
    i1y: u32,
    out: &mut [u32; 2],
) -> u32
    ensures value { result ≡ turn_number (turning_point_of (from_bits_of rx ry) (from_bits_of gx gy) (segment_of i0x i0y i1x i1y)) }
    ensures out_after { out.new ≡ turn_written (turning_point_of (from_bits_of rx ry) (from_bits_of gx gy) (segment_of i0x i0y i1x i1y))
        out.old }
{
    let root = Point::from_bits(rx, ry);
    let goal = Point::from_bits(gx, gy);
    let turn = helpers::turning_point(root, goal, segment(i0x, i0y, i1x, i1y));
    put_if(out, turn)
}

pub fn geometry_intersection_time(
    l0x: u32,
    l0y: u32,
    l1x: u32,
    l1y: u32,
    s0x: u32,
    s0y: u32,
    s1x: u32,
    s1y: u32,
) -> u32
    ensures { result ≡ to_bits binary32 (intersection_time_of (segment_of l0x l0y l1x l1y) (segment_of s0x s0y s1x s1y)) }
{
    float::to_bits(helpers::intersection_time(
        segment(l0x, l0y, l1x, l1y),
        segment(s0x, s0y, s1x, s1y),
    ))
}

// 1 and the point, or 0 and out is unchanged.
pub fn geometry_line_intersect_segment(
    l0x: u32,
    l0y: u32,
    l1x: u32,
    l1y: u32,
    s0x: u32,
    s0y: u32,
    s1x: u32,
    s1y: u32,
    out: &mut [u32; 2],
) -> u32
    ensures value { result ≡ crossing_number (line_intersect_segment_of (segment_of l0x l0y l1x l1y) (segment_of s0x s0y s1x s1y)) }
    ensures out_after { out.new ≡ crossing_written (line_intersect_segment_of (segment_of l0x l0y l1x l1y) (segment_of s0x s0y s1x s1y))
        out.old }
{
    let crossing = helpers::line_intersect_segment(
        segment(l0x, l0y, l1x, l1y),
        segment(s0x, s0y, s1x, s1y),
    );
    put_if(out, crossing)
}

pub fn geometry_distance(ax: u32, ay: u32, bx: u32, by: u32) -> u32
    ensures { result ≡ to_bits binary32 (distance_of (from_bits_of ax ay) (from_bits_of bx by)) }
{
    float::to_bits(Point::from_bits(ax, ay).distance(Point::from_bits(bx, by)))
}

pub fn geometry_length(x: u32, y: u32) -> u32
    ensures { result ≡ to_bits binary32 (length_of (from_bits_of x y)) }
{
    float::to_bits(Point::from_bits(x, y).length())
}

pub fn geometry_dot(ax: u32, ay: u32, bx: u32, by: u32) -> u32
    ensures { result ≡ to_bits binary32 (dot_of (from_bits_of ax ay) (from_bits_of bx by)) }
{
    float::to_bits(Point::from_bits(ax, ay).dot(Point::from_bits(bx, by)))
}

pub fn geometry_perp_dot(ax: u32, ay: u32, bx: u32, by: u32) -> u32
    ensures { result ≡ to_bits binary32 (perp_dot_of (from_bits_of ax ay) (from_bits_of bx by)) }
{
    float::to_bits(Point::from_bits(ax, ay).perp_dot(Point::from_bits(bx, by)))
}

pub fn geometry_project_onto(x: u32, y: u32, rx: u32, ry: u32, out: &mut [u32; 2])
    ensures { out.new ≡ point_bits (project_onto_of (from_bits_of x y) (from_bits_of rx ry)) }
{
    let projected = Point::from_bits(x, y).project_onto(Point::from_bits(rx, ry));
    put(out, projected);
}
