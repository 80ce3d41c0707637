#![tactic(auto)]
// What a bit pattern or a number stands for wherever C calls: a segment comes as four patterns, and a truth goes back as a number.

ghost use Rattle.std.specs.Prelude.{◌≡◌};
ghost use Rattle.patterns.specs.Patterns.{segment_of, truth_number};

use point::{Point, Segment};

// The segment between two points, each coordinate a bit pattern.
#[tactic(auto, unfolding(crate::specs::Patterns::segment_of))]
pub fn segment(ax: u32, ay: u32, bx: u32, by: u32) -> Segment
    ensures { result ≡ segment_of ax ay bx by }
{
    let a = Point::from_bits(ax, ay);
    let b = Point::from_bits(bx, by);
    Segment(a, b)
}

// 1 where it is true, else 0.
#[tactic(auto, unfolding(crate::specs::Patterns::truth_number))]
pub fn truth_number(truth: bool) -> u32
    ensures { result ≡ truth_number truth }
{
    u32::from(truth)
}
