#![tactic(auto)]
// Damages the route file `route` in every small way and judges each: as it is, each byte one more, cut after each byte, and
// a byte longer. A line each says what was done and what the judge says of it. The floor and the question are files too, as
// for judge_main: a route of your own, with its floor and its question, is judged likewise.

ghost use Rattle.std.specs.Prelude.{◌≡◌, ◌+◌, ◌%◌, ◌≤◌, ◌<◌, length};

use std::io;
use std::rt::Files;

// What a route is judged against: the floor's two lists and the question.
#[derive(Clone, Copy)]
struct Asked<'a> {
    vertices: &'a [u8],
    polygons: &'a [u8],
    question: &'a [u8],
}

fn main(rt: HostRuntime) -> io::Result<()> {
    let mut vertices = console::room::<{ console::VERTICES }>();
    let mut polygons = console::room::<{ console::POLYGONS }>();
    let mut question = console::room::<{ console::QUESTION }>();
    let mut route = console::room::<{ console::ROUTE }>();
    judge_files(&rt, &mut vertices, &mut polygons, &mut question, &mut route)
}

fn judge_files<R: Files + Print + Eprint>(
    rt: &R,
    vertices: &mut [u8],
    polygons: &mut [u8],
    question: &mut [u8],
    route: &mut [u8],
) -> io::Result<()> {
    let v = console::read_file(rt, b"floor.vtx", vertices);
    let p = console::read_file(rt, b"floor.ply", polygons);
    let q = console::read_file(rt, b"question", question);
    let n = console::read_file(rt, b"route", route);
    let asked = Asked {
        vertices: &vertices[..v],
        polygons: &polygons[..p],
        question: &question[..q],
    };
    asked.judge_all(rt, route, n)
}

impl Asked<'_> {
    fn judge_all<R: Print + Eprint>(self, rt: &R, route: &mut [u8], n: usize) -> io::Result<()>
        requires { n ≤ length route.old }
    {
        print!(rt; "as it is: ")?;
        self.say(rt, &route[..n]);
        self.judge_changed(rt, &mut route[..n])?;
        self.judge_cut(rt, &route[..n])?;
        self.judge_longer(rt, route, n)
    }

    // What the judge says of a route, as the rest of a line.
    fn say<R: Print + Eprint>(self, rt: &R, route: &[u8]) {
        let verdict = judge::judge(self.vertices, self.polygons, self.question, route);
        console::say(rt, judge::told(verdict));
    }

    // Each byte one more, 255 becoming 0, and then as it was again.
    fn judge_changed<R: Print + Eprint>(self, rt: &R, route: &mut [u8]) -> io::Result<()>
        ensures { route.new ≡ route.old }
    {
        for i in 0..route.len() {
            self.judge_with(rt, route, i)?;
        }
        Ok(())
    }

    fn judge_with<R: Print + Eprint>(self, rt: &R, route: &mut [u8], i: usize) -> io::Result<()>
        requires { i < length route.old }
        ensures { route.new ≡ route.old }
    {
        print!(rt; "byte {i} one more: ")?;
        let before = route[i];
        route[i] = one_more(before);
        self.say(rt, route);
        route[i] = before;
        Ok(())
    }

    // The front of the route, from none of its bytes to all but the last.
    fn judge_cut<R: Print + Eprint>(self, rt: &R, route: &[u8]) -> io::Result<()> {
        for i in 0..route.len() {
            print!(rt; "cut to {i} bytes: ")?;
            self.say(rt, &route[..i]);
        }
        Ok(())
    }

    // A zero byte behind the route, if there is room for one.
    fn judge_longer<R: Print + Eprint>(self, rt: &R, route: &mut [u8], n: usize) -> io::Result<()> {
        if n < route.len() {
            route[n] = 0;
            print!(rt; "one zero byte longer: ")?;
            self.say(rt, &route[..n + 1]);
        }
        Ok(())
    }
}

fn one_more(byte: u8) -> u8
    ensures { result ≡ (byte + 1) % 256 }
{
    byte.wrapping_add(1)
}
