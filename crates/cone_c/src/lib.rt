#![tactic(auto)]
// The clip to a cone and the landing on a vertex for C, on f32 bit patterns, as geometry_c has the rest of the geometry.

ghost use Rattle.std.specs.Prelude.{◌≡◌};
ghost use Rattle.point.specs.Point.{from_bits_of};
ghost use Rattle.cone.specs.Cone.{clip_to_cone_of};
ghost use Rattle.cone.specs.Landing.{lands_on_of};
ghost use Rattle.patterns.specs.Patterns.{segment_of, truth_number};
ghost use Rattle.cone_c.specs.Clip.{segment_bits, clipped_number, clipped_written};

use patterns::{segment, truth_number};
use point::{Point, Segment};

// Writes the bit patterns of the coordinates of a segment's start, and then of its end.
#[tactic(auto, unfolding(crate::specs::Clip::segment_bits))]
fn put_segment(out: &mut [u32; 4], segment: Segment)
    ensures { out.new ≡ segment_bits segment }
{
    *out = [
        float::to_bits(segment.0.x),
        float::to_bits(segment.0.y),
        float::to_bits(segment.1.x),
        float::to_bits(segment.1.y),
    ];
}

// 1 and the segment that is seen, or 0 and out is unchanged.
#[tactic(auto, unfolding(crate::specs::Clip::clipped_number, crate::specs::Clip::clipped_written))]
pub fn geometry_clip_to_cone(
    rx: u32,
    ry: u32,
    c0x: u32,
    c0y: u32,
    c1x: u32,
    c1y: u32,
    s0x: u32,
    s0y: u32,
    s1x: u32,
    s1y: u32,
    out: &mut [u32; 4],
) -> u32
    ensures value { result ≡ clipped_number (clip_to_cone_of (from_bits_of rx ry) (segment_of c0x c0y c1x c1y) (segment_of s0x s0y s1x s1y)) }
    ensures out_after { out.new ≡ clipped_written (clip_to_cone_of (from_bits_of rx ry) (segment_of c0x c0y c1x c1y) (segment_of s0x s0y s1x s1y))
        out.old }
{
    let root = Point::from_bits(rx, ry);
    let clipped = cone::clip_to_cone(
        root,
        segment(c0x, c0y, c1x, c1y),
        segment(s0x, s0y, s1x, s1y),
    );
    match clipped {
        Some(seen) => {
            put_segment(out, seen);
            1
        }
        None => 0,
    }
}

pub fn geometry_lands_on(cx: u32, cy: u32, vx: u32, vy: u32, rx: u32, ry: u32) -> u32
    ensures { result ≡ truth_number (lands_on_of (from_bits_of cx cy) (from_bits_of vx vy) (from_bits_of rx ry)) }
{
    let computed = Point::from_bits(cx, cy);
    let vertex = Point::from_bits(vx, vy);
    let root = Point::from_bits(rx, ry);
    truth_number(cone::lands_on(computed, vertex, root))
}
