#![tactic(auto)]
// Looks at stored floors and questions, good and damaged: the file `cases`. A case is three lengths, each a little-endian
// u32, and then the vertex list, the polygon list and the question, in as many bytes. A line each says what came out, as
// "5 1" for corners of polygon 1 at fault, or "inside 0 1" for the polygons of start and goal.

use floor::{Inside, Refusal};
use std::fs::File;
use std::io;
use std::io::Read;
use told::Told;

// A vertex more than the most, a polygon more than the most, and a question twice too long.
const MOST_VERTEX_BYTES: usize = 8208;

const MOST_POLYGON_BYTES: usize = 32896;

const MOST_QUESTION_BYTES: usize = 32;

const MOST_CASES: u64 = 100_000;

fn main(rt: HostRuntime) -> io::Result<()> {
    let path = "cases";
    match File::open(&rt, path) {
        Ok(mut file) => {
            let cases = looked_at_all(&rt, &mut file)?;
            println!(rt; "{cases} cases")
        }
        Err(e) => Err(console::fail(&rt, path, e)),
    }
}

// Looks at case after case, up to a hundred thousand, and answers how many there were.
fn looked_at_all<R: Read>(rt: &impl Print, file: &mut R) -> io::Result<u64> {
    for cases in 0..MOST_CASES {
        if !looked(rt, file)? {
            return Ok(cases);
        }
    }
    Ok(MOST_CASES)
}

// Reads a case, looks at it and says what came out; false at the end of the file.
fn looked<R: Read>(rt: &impl Print, file: &mut R) -> io::Result<bool> {
    let mut lengths = [0u8; 12];
    if !console::fills(file, &mut lengths)? {
        return Ok(false);
    }
    let mut vertices = console::room::<MOST_VERTEX_BYTES>();
    let mut polygons = console::room::<MOST_POLYGON_BYTES>();
    let mut question = console::room::<MOST_QUESTION_BYTES>();
    let v = console::read_part(file, word::read(&lengths, 0) as usize, &mut vertices);
    let p = console::read_part(file, word::read(&lengths, 4) as usize, &mut polygons);
    let q = console::read_part(file, word::read(&lengths, 8) as usize, &mut question);
    say(
        rt,
        floor::look_at(&vertices[..v], &polygons[..p], &question[..q]),
    )?;
    Ok(true)
}

fn say(rt: &impl Print, look: Result<Inside, Refusal>) -> io::Result<()> {
    match look {
        Ok(Inside { start, goal }) => println!(rt; "inside {start} {goal}"),
        Err(refusal) => say_told(rt, Told::from(refusal)),
    }
}

fn say_told(rt: &impl Print, told: Told) -> io::Result<()> {
    match told {
        Told::AtRecord(number, record) => println!(rt; "{number} {record}"),
        _ => {
            let number = told.number();
            println!(rt; "{number}")
        }
    }
}
