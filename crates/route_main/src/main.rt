#![tactic(auto)]
// Finds a route. It reads the floor from the files floor.vtx and floor.ply and the question from standard input, and writes
// the route's bytes to standard output. On another number than 0 nothing goes there, and one plain line goes to standard
// error, as "8: the start is in no polygon" or "5 at record 1: a polygon's corners are wrong". A route that standard output
// does not take whole is told there too.

use search::Answer;
use std::rt::Files;
use told::Told;

// 2,047 nodes: 11 floats, 8 words and 2 words of the queue each.
const FLOATS: usize = 22_517;

const WORDS: usize = 16_376;

const QUEUE: usize = 4_094;

// 2,047 nodes that a stalled search has met, ten words each: with as many as there are nodes 14 never comes (`never_14`).
const TABLE: usize = 20_470;

const OUTPUT: usize = 65_536;

fn main(rt: HostRuntime) {
    let mut vertices = console::room::<{ console::VERTICES }>();
    let mut polygons = console::room::<{ console::POLYGONS }>();
    let mut question = console::room::<{ console::QUESTION }>();
    let mut out = console::room::<OUTPUT>();
    find(&rt, &mut vertices, &mut polygons, &mut question, &mut out);
}

fn find<R: Files + Input + Print + Eprint>(
    rt: &R,
    vertices: &mut [u8],
    polygons: &mut [u8],
    question: &mut [u8],
    out: &mut [u8],
) {
    let v = console::read_file(rt, b"floor.vtx", vertices);
    let p = console::read_file(rt, b"floor.ply", polygons);
    let q = console::read_input(rt, question);
    let answer = search_files(&vertices[..v], &polygons[..p], &question[..q], out);
    let told = Told::from(answer);
    let Told::WithCount(_, bytes) = told else {
        console::complain(rt, told);
        return;
    };
    // A route that was found fits the output: that is a law (`found_fits`), and the test here never fails.
    if let Some(route) = out.get(..bytes) {
        console::write_out(rt, route);
    }
}

// The search with the room of this program.
fn search_files(vertices: &[u8], polygons: &[u8], question: &[u8], out: &mut [u8]) -> Answer {
    let mut floats = console::room_of::<f32, FLOATS>(0.0);
    let mut words = console::room_of::<u32, WORDS>(0);
    let mut queue = console::room_of::<u32, QUEUE>(0);
    let mut table = console::room_of::<u32, TABLE>(0);
    search::search_default(
        vertices,
        polygons,
        question,
        &mut floats,
        &mut words,
        &mut queue,
        &mut table,
        out,
    )
}
