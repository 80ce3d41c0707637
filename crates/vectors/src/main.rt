#![tactic(auto)]
// Runs document 01's examples of the geometry and a list of IEEE 754 square roots. Each line says what came out; the
// last lines count what was as it should be.

use point::{EdgeSide, Point, Segment};
use std::io;

// Patterns and the patterns of their roots: zeros, the least and the largest subnormals and normal numbers, exact squares
// and their neighbours, infinities, NaN and numbers below zero. Each root was worked out in whole numbers, as the pattern
// whose two midpoints enclose it (docs/DECISIONS.md says how).
const ROOTS: [(u32, u32); 51] = [
    (0x00000000, 0x00000000),
    (0x80000000, 0x80000000),
    (0x00000001, 0x1A3504F3),
    (0x00000002, 0x1A800000),
    (0x00000003, 0x1A9CC471),
    (0x000116C2, 0x1E3CE4E7),
    (0x00400000, 0x1FB504F3),
    (0x007FFFFF, 0x1FFFFFFF),
    (0x00800000, 0x20000000),
    (0x00800001, 0x20000000),
    (0x00FFFFFF, 0x203504F3),
    (0x01000000, 0x203504F3),
    (0x1A3504F3, 0x2CD744FD),
    (0x33800000, 0x39800000),
    (0x3727C5AC, 0x3B4F3E37),
    (0x38D1B717, 0x3C23D70A),
    (0x3A83126F, 0x3D0186E3),
    (0x3DCCCCCD, 0x3EA1E89B),
    (0x3E800000, 0x3F000000),
    (0x3F000000, 0x3F3504F3),
    (0x3F7FFFFE, 0x3F7FFFFF),
    (0x3F7FFFFF, 0x3F7FFFFF),
    (0x3F800000, 0x3F800000),
    (0x3F800001, 0x3F800000),
    (0x3F800002, 0x3F800001),
    (0x3F800003, 0x3F800001),
    (0x3FFFFFFF, 0x3FB504F3),
    (0x40000000, 0x3FB504F3),
    (0x40000001, 0x3FB504F4),
    (0x40400000, 0x3FDDB3D7),
    (0x407FFFFF, 0x3FFFFFFF),
    (0x40800000, 0x40000000),
    (0x40800001, 0x40000000),
    (0x40800002, 0x40000001),
    (0x41100000, 0x40400000),
    (0x41200000, 0x404A62C2),
    (0x42C80000, 0x41200000),
    (0x461C4000, 0x42C80000),
    (0x46800000, 0x43000000),
    (0x4B7FFFFF, 0x457FFFFF),
    (0x4B800000, 0x45800000),
    (0x7F000000, 0x5F3504F3),
    (0x7F7FFFFF, 0x5F7FFFFF),
    (0x7F800000, 0x7F800000),
    (0x7F800001, 0x7FC00000),
    (0x7FC00000, 0x7FC00000),
    (0x80000001, 0x7FC00000),
    (0xBF800000, 0x7FC00000),
    (0xFF7FFFFF, 0x7FC00000),
    (0xFF800000, 0x7FC00000),
    (0xFFFFFFFF, 0x7FC00000),
];

fn main(rt: HostRuntime) -> io::Result<()> {
    sides(&rt)?;
    crossings(&rt)?;
    ways_to_the_goal(&rt)?;
    clips(&rt)?;
    roots(&rt)
}

// A line's first words, then the side.
fn say_side(rt: &impl Print, words: &str, side: EdgeSide) -> io::Result<()> {
    match side {
        EdgeSide::Left => println!(rt; "{words}Left"),
        EdgeSide::Right => println!(rt; "{words}Right"),
        EdgeSide::Edge => println!(rt; "{words}Edge"),
    }
}

// A float by its bits, eight hexadecimal digits.
fn say_float(rt: &impl Print, words: &str, x: f32) -> io::Result<()> {
    let bits = float::to_bits(x);
    println!(rt; "{words}{bits:08x}")
}

fn say_point(rt: &impl Print, words: &str, point: Point) -> io::Result<()> {
    let x = float::to_bits(point.x);
    let y = float::to_bits(point.y);
    println!(rt; "{words}{x:08x} {y:08x}")
}

// A point where there is one, and what is said where there is none.
fn say_found(rt: &impl Print, words: &str, found: Option<Point>, none: &str) -> io::Result<()> {
    match found {
        Some(point) => say_point(rt, words, point),
        None => println!(rt; "{words}{none}"),
    }
}

fn sides(rt: &impl Print) -> io::Result<()> {
    let line = Segment(Point::new(0.0, 0.0), Point::new(1.0, 0.0));
    say_side(
        rt,
        "side of (0,1) to (0,0)-(1,0): ",
        Point::new(0.0, 1.0).side(line),
    )?;
    say_side(
        rt,
        "side of (0,1e-4): ",
        Point::new(0.0, Point::EPSILON).side(line),
    )?;
    let below = Point::from_bits(0, 0x38D1_B716);
    say_side(rt, "side of (0,the float below 1e-4): ", below.side(line))?;
    let missing = Point::from_bits(0, 0x7FC0_0000);
    say_side(rt, "side of (0,NaN): ", missing.side(line))
}

fn crossings(rt: &impl Print) -> io::Result<()> {
    let line = Segment(Point::new(0.0, 0.0), Point::new(2.0, 2.0));
    let other = Segment(Point::new(2.0, 0.0), Point::new(0.0, 2.0));
    say_found(
        rt,
        "(0,0)-(2,2) meets (2,0)-(0,2): ",
        helpers::line_intersect_segment(line, other),
        "nowhere",
    )?;
    say_float(
        rt,
        "  at the time ",
        helpers::intersection_time(line, other),
    )?;
    let flat = Segment(Point::new(0.0, 0.0), Point::new(1.0, 0.0));
    say_found(
        rt,
        "(0,0)-(1,0) meets itself: ",
        helpers::line_intersect_segment(flat, flat),
        "nowhere",
    )
}

fn ways_to_the_goal(rt: &impl Print) -> io::Result<()> {
    let root = Point::new(0.0, 0.0);
    let interval = Segment(Point::new(1.0, 2.0), Point::new(-1.0, 2.0));
    println!(rt; "interval (1,2),(-1,2), root (0,0)")?;
    say_float(
        rt,
        "  heuristic to (0,4): ",
        helpers::heuristic(root, Point::new(0.0, 4.0), interval),
    )?;
    say_float(
        rt,
        "  heuristic to (0,1): ",
        helpers::heuristic(root, Point::new(0.0, 1.0), interval),
    )?;
    say_found(
        rt,
        "  turning point for (4,4): ",
        helpers::turning_point(root, Point::new(4.0, 4.0), interval),
        "none",
    )
}

fn clips(rt: &impl Print) -> io::Result<()> {
    let root = Point::new(0.0, 0.0);
    let interval = Segment(Point::new(1.0, 0.0), Point::new(0.0, 1.0));
    let segment = Segment(Point::new(2.0, -3.0), Point::new(3.0, -3.0));
    println!(rt; "root (0,0), cone (1,0),(0,1)")?;
    let words = "  clip of (2,-3),(3,-3): ";
    match cone::clip_to_cone(root, interval, segment) {
        Some(seen) => {
            say_point(rt, words, seen.0)?;
            say_point(rt, "", seen.1)
        }
        None => println!(rt; "{words}none"),
    }
}

fn roots(rt: &impl Print) -> io::Result<()> {
    let right = right_roots(rt);
    let count = ROOTS.len();
    println!(rt; "{right} roots right of {count}")
}

// Says each root, and answers how many are as they should be.
fn right_roots(rt: &impl Print) -> usize {
    let mut right: usize = 0;
    for (x, expected) in ROOTS {
        if say_root(rt, x, expected) {
            right += 1;
        }
    }
    right
}

// Says the root of a pattern, and whether it is as it should be.
fn say_root(rt: &impl Print, x: u32, expected: u32) -> bool {
    let got = geometry_c::geometry_root(x);
    let _ = print!(rt; "root of {x:08x} is {got:08x}");
    if got == expected {
        let _ = println!(rt);
        return true;
    }
    let _ = println!(rt; ", and should be {expected:08x}");
    false
}
