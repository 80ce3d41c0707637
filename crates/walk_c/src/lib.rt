#![tactic(auto)]
// The walk of one edge for C, on f32 bit patterns, as geometry_c has the geometry.

ghost use Rattle.std.specs.Prelude.{◌≡◌, ◌*◌, ◌<◌, ◌≤◌};
ghost use Rattle.std.proofs.lemmas.List.Edits.{sets};
ghost use Rattle.point.specs.Point.{from_bits_of};
ghost use Rattle.patterns.specs.Patterns.{segment_of};
ghost use Rattle.walk_c.specs.Walk.{kind_number, kind_asked_of, part_words, parts_written, walk_number, walk_written};

use cut::SuccessorType;
use patterns::segment;
use point::Point;
use walk::Part;

#[tactic(auto, unfolding(crate::specs::Walk::kind_number))]
fn kind_number(kind: SuccessorType) -> u32
    ensures { result ≡ kind_number kind }
{
    match kind {
        SuccessorType::LeftNonObservable => 0,
        SuccessorType::Observable => 1,
        SuccessorType::RightNonObservable => 2,
    }
}

// The kind that a number stands for, or none.
#[tactic(auto, unfolding(crate::specs::Walk::kind_asked_of))]
fn kind_asked(number: u32) -> Option<SuccessorType>
    ensures { result ≡ kind_asked_of number }
{
    match number {
        0 => Some(SuccessorType::LeftNonObservable),
        1 => Some(SuccessorType::Observable),
        2 => Some(SuccessorType::RightNonObservable),
        _ => None,
    }
}

// Writes a part into words 5 * i to 5 * i + 4.
#[tactic(auto, unfolding(crate::specs::Walk::part_words))]
fn put_part(out: &mut [u32; 16], i: usize, part: Part)
    requires { i < 3 }
    ensures { out.new ≡ sets out.old (5 * i) (part_words part) }
{
    let at = 5 * i;
    let kind = part.kind;
    out[at] = float::to_bits(part.interval.0.x);
    out[at + 1] = float::to_bits(part.interval.0.y);
    out[at + 2] = float::to_bits(part.interval.1.x);
    out[at + 3] = float::to_bits(part.interval.1.y);
    out[at + 4] = kind_number(kind);
}

#[tactic(auto, unfolding(crate::specs::Walk::parts_written))]
fn put_parts(out: &mut [u32; 16], parts: [Part; 3], count: usize)
    requires { count ≤ 3 }
    ensures { out.new ≡ parts_written parts count out.old }
{
    for i in 0..count {
        put_part(out, i, parts[i]);
    }
}

// The number of intervals, 1 to 3, or 0 with out unchanged when kind is none of 0 LeftNonObservable, 1 Observable and 2
// RightNonObservable. Words 5 * i to 5 * i + 3 of out are the bit patterns of interval i (start x, y, end x, y) and word
// 5 * i + 4 its kind, for i below the answer; word 15 is the kind to go on with; every other word stays as it was.
#[tactic(auto, unfolding(crate::specs::Walk::walk_number, crate::specs::Walk::walk_written))]
pub fn geometry_walk_edge(
    rx: u32,
    ry: u32,
    i0x: u32,
    i0y: u32,
    i1x: u32,
    i1y: u32,
    ax: u32,
    ay: u32,
    bx: u32,
    by: u32,
    kind: u32,
    out: &mut [u32; 16],
) -> u32
    ensures value { result ≡ walk_number (from_bits_of rx ry) (segment_of i0x i0y i1x i1y) (segment_of ax ay bx by) (kind_asked_of kind) }
    ensures out_after { out.new ≡ walk_written (from_bits_of rx ry) (segment_of i0x i0y i1x i1y) (segment_of ax ay bx by) (kind_asked_of kind)
        out.old }
{
    let asked = kind_asked(kind);
    let Some(kind) = asked else {
        return 0;
    };
    let root = Point::from_bits(rx, ry);
    let interval = segment(i0x, i0y, i1x, i1y);
    let walked = walk::walk_edge(root, interval, segment(ax, ay, bx, by), kind);
    put_parts(out, walked.parts, walked.count);
    out[15] = kind_number(walked.kind);
    walked.count as u32
}
