#![tactic(auto)]
// Replays a fixed list of the Rust's answers, with no Rust at hand: oracle/sample wrote the file `answers`, and
// oracle/README.md says how. A record is 12 words: the function's number, eight bit patterns that go in, and the answer's
// number and two bit patterns that come out.

ghost use Rattle.std.specs.Prelude.{◌<◌};

use std::fs::File;
use std::io;
use std::io::Read;

const RECORD: usize = 48;

// What a function answers: a number where it is a choice, and bit patterns where it is one float or a point.
#[derive(Clone, Copy, PartialEq, Eq)]
struct Answer {
    choice: u32,
    x: u32,
    y: u32,
}

// How many records there were, and how many got another answer than the Rust's.
#[derive(Clone, Copy)]
struct Count {
    records: u64,
    differ: u64,
}

fn main(rt: HostRuntime) -> io::Result<()> {
    let path = "answers";
    match File::open(&rt, path) {
        Ok(mut file) => {
            let Count { records, differ } = replayed(&rt, &mut file)?;
            println!(rt; "{records} answers of the Rust replayed, {differ} differ")
        }
        Err(e) => Err(console::fail(&rt, path, e)),
    }
}

// Reads record after record, up to a million, and stops at the end of the file.
fn replayed<R: Read>(rt: &impl Print, file: &mut R) -> io::Result<Count> {
    let mut count = Count {
        records: 0,
        differ: 0,
    };
    let mut bytes = [0u8; RECORD];
    for number in 0..1_000_000u64 {
        if !console::fills(file, &mut bytes)? {
            break;
        }
        if differs(rt, &bytes, number) {
            count.differ += 1;
        }
        count.records = number + 1;
    }
    Ok(count)
}

// Whether our answer is not the Rust's. It names the record where it is not.
fn differs(rt: &impl Print, record: &[u8; RECORD], number: u64) -> bool {
    let rusts = Answer {
        choice: word_of(record, 9),
        x: word_of(record, 10),
        y: word_of(record, 11),
    };
    if ours(record) == rusts {
        return false;
    }
    let _ = println!(rt; "record {number} differs");
    true
}

// Word k of a record.
fn word_of(record: &[u8; RECORD], k: usize) -> u32
    requires { k < 12 }
{
    word::read(record, 4 * k)
}

fn chosen(choice: u32) -> Answer {
    Answer { choice, x: 0, y: 0 }
}

fn valued(x: u32) -> Answer {
    Answer { choice: 0, x, y: 0 }
}

fn written(choice: u32, out: [u32; 2]) -> Answer {
    let [x, y] = out;
    Answer { choice, x, y }
}

// Our answer to the question in a record. The functions have oracle/README.md's numbers.
fn ours(record: &[u8; RECORD]) -> Answer {
    let function = word_of(record, 0);
    match function {
        5 => valued(geometry_c::geometry_min(word_of(record, 1), word_of(record, 2))),
        6 => valued(geometry_c::geometry_max(word_of(record, 1), word_of(record, 2))),
        11 => valued(geometry_c::geometry_root(word_of(record, 1))),
        _ => of_a_point(record, function),
    }
}

// The functions of a point and a segment.
fn of_a_point(record: &[u8; RECORD], function: u32) -> Answer {
    let px = word_of(record, 1);
    let py = word_of(record, 2);
    let ax = word_of(record, 3);
    let ay = word_of(record, 4);
    let bx = word_of(record, 5);
    let by = word_of(record, 6);
    match function {
        1 => chosen(geometry_c::geometry_side(px, py, ax, ay, bx, by)),
        2 => {
            let mut out = [0u32; 2];
            geometry_c::geometry_mirror(px, py, ax, ay, bx, by, &mut out);
            written(0, out)
        }
        3 => chosen(geometry_c::geometry_on_segment(px, py, ax, ay, bx, by)),
        4 => chosen(geometry_c::geometry_in_bounding_box(px, py, ax, ay, bx, by)),
        _ => of_two_segments(record, function),
    }
}

// The functions of four points. A number that is no function's gets an answer that is nobody's.
fn of_two_segments(record: &[u8; RECORD], function: u32) -> Answer {
    let ax = word_of(record, 1);
    let ay = word_of(record, 2);
    let bx = word_of(record, 3);
    let by = word_of(record, 4);
    let cx = word_of(record, 5);
    let cy = word_of(record, 6);
    let dx = word_of(record, 7);
    let dy = word_of(record, 8);
    let mut out = [0u32; 2];
    match function {
        7 => valued(geometry_c::geometry_heuristic(ax, ay, bx, by, cx, cy, dx, dy)),
        8 => {
            let choice = geometry_c::geometry_turning_point(
                ax, ay, bx, by, cx, cy, dx, dy, &mut out,
            );
            written(choice, out)
        }
        9 => valued(geometry_c::geometry_intersection_time(ax, ay, bx, by, cx, cy, dx, dy)),
        10 => {
            let choice = geometry_c::geometry_line_intersect_segment(
                ax, ay, bx, by, cx, cy, dx, dy, &mut out,
            );
            written(choice, out)
        }
        _ => chosen(0xFFFF_FFFF),
    }
}
