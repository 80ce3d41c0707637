#![tactic(auto)]
// Searches stored floors for stored routes: the file `cases`. A case is eleven little-endian words: the bytes of its name, of the
// vertex list, the polygon list and the question; the places, the entries of the table, the budget and the bytes of room that are
// lent; the number, the counted steps and the route's bytes that must come back. Then the name, the two lists, the question and the
// route follow.
// A line each says what came out, whether it is what is stored, and what the judge says of the bytes that were written.

ghost use Rattle.std.specs.Prelude.{◌≡◌};
ghost use Rattle.routes.specs.Stored.{holds_of, byte_of};

use search::Answer;
use std::fs::File;
use std::io;
use std::io::Read;
use told::Told;

// How many bytes each part of a case has.
#[derive(Clone, Copy)]
struct Parts {
    name: usize,
    vertices: usize,
    polygons: usize,
    question: usize,
    route: usize,
}

// What the search gets beside floor and question.
#[derive(Clone, Copy)]
struct Lent {
    places: usize,
    entries: usize,
    budget: usize,
    room: usize,
}

// What must come back beside the route.
#[derive(Clone, Copy)]
struct Stored {
    number: u32,
    steps: usize,
}

// A case, with the bytes of its parts.
#[derive(Clone, Copy)]
struct Case<'a> {
    lent: Lent,
    stored: Stored,
    vertices: &'a [u8],
    polygons: &'a [u8],
    question: &'a [u8],
    route: &'a [u8],
}

// What the output is lent full of, so that a byte that is written where none should be shows.
const UNWRITTEN: u8 = 255;

const HEADER_BYTES: usize = 44;

const MOST_NAME_BYTES: usize = 64;

const MOST_CASES: u64 = 100_000;

// The longest route.
const OUTPUT: usize = 131_104;

// 4,096 nodes: 11 floats, 8 words and 2 words of the queue each; and as many that a stalled search has met, ten words each.
const FLOATS: usize = 45_056;

const WORDS: usize = 32_768;

const QUEUE: usize = 8_192;

const TABLE: usize = 40_960;

fn main(rt: HostRuntime) -> io::Result<()> {
    let path = "cases";
    match File::open(&rt, path) {
        Ok(mut file) => {
            let cases = tried_all(&rt, &mut file)?;
            println!(rt; "{cases} cases")
        }
        Err(e) => Err(console::fail(&rt, path, e)),
    }
}

// Case after case, and how many there were.
fn tried_all<R: Read>(rt: &(impl Print + Eprint), file: &mut R) -> io::Result<u64> {
    for cases in 0..MOST_CASES {
        if !tried(rt, file)? {
            return Ok(cases);
        }
    }
    Ok(MOST_CASES)
}

// Reads a case, searches and says what came out; false at the end of the file.
fn tried<R: Read>(rt: &(impl Print + Eprint), file: &mut R) -> io::Result<bool> {
    let mut header = [0u8; HEADER_BYTES];
    if !console::fills(file, &mut header)? {
        return Ok(false);
    }
    let parts = Parts::of(&header);
    say_name(rt, file, parts.name)?;
    read_and_try(rt, file, parts, Lent::of(&header), Stored::of(&header))?;
    Ok(true)
}

impl Parts {
    fn of(header: &[u8; HEADER_BYTES]) -> Parts {
        Parts {
            name: word::read(header, 0) as usize,
            vertices: word::read(header, 4) as usize,
            polygons: word::read(header, 8) as usize,
            question: word::read(header, 12) as usize,
            route: word::read(header, 40) as usize,
        }
    }
}

impl Lent {
    fn of(header: &[u8; HEADER_BYTES]) -> Lent {
        Lent {
            places: word::read(header, 16) as usize,
            entries: word::read(header, 20) as usize,
            budget: word::read(header, 24) as usize,
            room: word::read(header, 28) as usize,
        }
    }
}

impl Stored {
    fn of(header: &[u8; HEADER_BYTES]) -> Stored {
        Stored {
            number: word::read(header, 32),
            steps: word::read(header, 36) as usize,
        }
    }
}

fn say_name<R: Read>(rt: &impl Print, file: &mut R, n: usize) -> io::Result<()> {
    let mut room = [0u8; MOST_NAME_BYTES];
    let n = console::read_part(file, n, &mut room);
    rt.write_all(&room[..n])?;
    print!(rt; ": ")
}

fn read_and_try<R: Read>(
    rt: &(impl Print + Eprint),
    file: &mut R,
    parts: Parts,
    lent: Lent,
    stored: Stored,
) -> io::Result<()> {
    let mut vertices = console::room::<{ console::VERTICES }>();
    let mut polygons = console::room::<{ console::POLYGONS }>();
    let mut question = console::room::<{ console::QUESTION }>();
    let mut route = console::room::<{ console::ROUTE }>();
    let v = console::read_part(file, parts.vertices, &mut vertices);
    let p = console::read_part(file, parts.polygons, &mut polygons);
    let q = console::read_part(file, parts.question, &mut question);
    let r = console::read_part(file, parts.route, &mut route);
    let case = Case {
        lent,
        stored,
        vertices: &vertices[..v],
        polygons: &polygons[..p],
        question: &question[..q],
        route: &route[..r],
    };
    case.try_out(rt)
}

impl Case<'_> {
    fn try_out(&self, rt: &(impl Print + Eprint)) -> io::Result<()> {
        let mut out = console::room_of::<u8, OUTPUT>(UNWRITTEN);
        let room = self.lent.room.min(out.len());
        self.try_with(rt, &mut out[..room])
    }

    fn try_with(&self, rt: &(impl Print + Eprint), out: &mut [u8]) -> io::Result<()> {
        let answer = self.search_with(out);
        let told = Told::from(answer);
        let steps = answer.steps();
        say(rt, told, steps)?;
        say_whether(rt, self.is_as_stored(told, steps, out))?;
        self.judge_found(rt, told, out)
    }

    // The search with as many places and entries, as many steps and as much room as is lent.
    fn search_with(&self, out: &mut [u8]) -> Answer {
        let mut floats = console::room_of::<f32, FLOATS>(0.0);
        let mut words = console::room_of::<u32, WORDS>(0);
        let mut queue = console::room_of::<u32, QUEUE>(0);
        let mut table = console::room_of::<u32, TABLE>(0);
        let n = self.lent.places.min(places::MOST_PLACES);
        let m = self.lent.entries.min(places::MOST_PLACES);
        search::search(
            self.vertices,
            self.polygons,
            self.question,
            self.lent.budget,
            &mut floats[..n * 11],
            &mut words[..n * 8],
            &mut queue[..n * 2],
            &mut table[..m * 10],
            out,
        )
    }

    fn is_as_stored(&self, told: Told, steps: usize, out: &[u8]) -> bool {
        told.number() == self.stored.number
            && steps == self.stored.steps
            && bytes_of(told) == self.route.len()
            && holds(out, self.route)
    }

    // What the judge says of a route that was found, and the end of the line. A route that was found fits the output: that is a
    // law (`found_fits`), and the test here never fails.
    fn judge_found(&self, rt: &(impl Print + Eprint), told: Told, out: &[u8]) -> io::Result<()> {
        let Told::WithCount(_, bytes) = told else {
            return println!(rt);
        };
        if let Some(route) = out.get(..bytes) {
            print!(rt; ", judged ")?;
            let verdict = judge::judge(self.vertices, self.polygons, self.question, route);
            console::say(rt, judge::told(verdict));
        }
        Ok(())
    }
}

// The number, the words, the counted steps and the bytes, as "1 no route was found, steps 18, bytes 0".
fn say(rt: &(impl Print + Eprint), told: Told, steps: usize) -> io::Result<()> {
    let number = told.number();
    print!(rt; "{number} ")?;
    say_words(rt, number)?;
    let bytes = bytes_of(told);
    print!(rt; ", steps {steps}, bytes {bytes}")
}

// Of a search 0 says found; the judge's word for it is accepted.
fn say_words(rt: &(impl Print + Eprint), number: u32) -> io::Result<()> {
    if number == 0 {
        return print!(rt; "found");
    }
    console::say_words(rt, number);
    Ok(())
}

fn say_whether(rt: &impl Print, same: bool) -> io::Result<()> {
    if same {
        return print!(rt; ", as stored");
    }
    print!(rt; ", NOT AS STORED")
}

// The bytes that were written.
fn bytes_of(told: Told) -> usize {
    let Told::WithCount(_, bytes) = told else {
        return 0;
    };
    bytes
}

// Whether the output begins with the route and is unwritten behind it.
fn holds(out: &[u8], route: &[u8]) -> bool
    ensures { result ≡ holds_of out.now route.now }
{
    for (i, byte) in out.iter().enumerate() {
        if *byte != byte_of(route, i) {
            return false;
        }
    }
    true
}

#[tactic(auto, unfolding(crate::specs::Stored::byte_of))]
fn byte_of(route: &[u8], i: usize) -> u8
    ensures { result ≡ byte_of route.now i }
{
    route.get(i).copied().unwrap_or(UNWRITTEN)
}
