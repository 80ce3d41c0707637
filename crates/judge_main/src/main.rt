#![tactic(auto)]
// Judges a route before a cart moves. It reads the floor from the files floor.vtx and floor.ply, the question from the file
// question, and the route from standard input, and writes one line: document 01's number, the record where there is one,
// and plain words, as "0 accepted" or "22 at record 3: not a permitted step". Where the line does not go through, standard
// error says so.

use std::rt::Files;

fn main(rt: HostRuntime) {
    let mut vertices = console::room::<{ console::VERTICES }>();
    let mut polygons = console::room::<{ console::POLYGONS }>();
    let mut question = console::room::<{ console::QUESTION }>();
    let mut route = console::room::<{ console::ROUTE }>();
    judge_files(&rt, &mut vertices, &mut polygons, &mut question, &mut route);
}

fn judge_files<R: Files + Input + Print + Eprint>(
    rt: &R,
    vertices: &mut [u8],
    polygons: &mut [u8],
    question: &mut [u8],
    route: &mut [u8],
) {
    let v = console::read_file(rt, b"floor.vtx", vertices);
    let p = console::read_file(rt, b"floor.ply", polygons);
    let q = console::read_file(rt, b"question", question);
    let r = console::read_input(rt, route);
    let verdict = judge::judge(&vertices[..v], &polygons[..p], &question[..q], &route[..r]);
    console::say(rt, judge::told(verdict));
}
