#![tactic(auto)]
// What the programs share: room for each file, a file or standard input read whole into it, a verdict, or a search with no
// route, said in one line, and standard output that says when it fails.

ghost use Rattle.std.specs.Prelude.{◌≡◌, ◌≤◌, min, length, replicate, IfOk, OnErr, IsTrue};
ghost use Rattle.std.specs.Io.KnownBytes.{Consumes};
ghost use Rattle.io.specs.Counts.{IsPrefixLen};
ghost use Rattle.says.specs.Words.{words_of};
ghost use Rattle.line.specs.Line.{line_of};

use std::fmt;
use std::fs::File;
use std::io::{Error, ErrorKind, Read, Result, Write};
use std::rt::Files;
use told::Told;

// How long the room for each file is: a byte more than the longest that is allowed (proofs/Rooms), so that a file that is too long
// has a wrong length here too.
pub const VERTICES: usize = 8193;

pub const POLYGONS: usize = 32769;

pub const QUESTION: usize = 17;

pub const ROUTE: usize = 131105;

// Room full of one value. The length is said beside it, since lending an array as a slice asks for it.
pub fn room_of<T: Copy, const N: usize>(fill: T) -> [T; N]
    ensures value { result ≡ replicate N fill }
    ensures len { N ≡ length result }
{
    [fill; N]
}

// Room full of zeros.
pub fn room<const N: usize>() -> [u8; N]
    ensures value { result ≡ replicate N 0 }
    ensures len { N ≡ length result }
{
    room_of(0)
}

// Reads the file to the front of the room and answers how many bytes it has: none where it cannot be opened or read. A file
// that is as long as the room, or longer, fills it: lend a byte more than the longest file may have, and its length is wrong.
pub fn read_file<R: Files + Eprint>(rt: &R, path: &[u8], room: &mut [u8]) -> usize
    ensures { IsPrefixLen result room.new }
{
    let Ok(path) = str::from_utf8(path) else {
        let _ = eprintln!(rt; "a file whose name is no text cannot be read");
        return 0;
    };
    match File::open(rt, path) {
        Ok(mut file) => read_whole(rt, &mut file, path, room),
        Err(e) => {
            let _ = fail(rt, path, e);
            0
        }
    }
}

// The same of standard input.
pub fn read_input<R: Input + Eprint>(rt: &R, room: &mut [u8]) -> usize
    ensures { IsPrefixLen result room.new }
{
    let mut input = rt.reader();
    read_whole(rt, &mut input, "standard input", room)
}

// A read that failed may have left the front of a file, which is another file: it is answered as none.
fn read_whole<R: Read>(rt: &impl Eprint, from: &mut R, name: &str, room: &mut [u8]) -> usize
    ensures { IsPrefixLen result room.new }
{
    match read_full(from, room) {
        Ok(n) => {
            if n == room.len() {
                let _ = eprintln!(rt; "{name} is too long");
            }
            n
        }
        Err(e) => {
            let _ = fail(rt, name, e);
            0
        }
    }
}

// Reads until the room is full or a read says that nothing is left, and answers how many bytes there are.
fn read_full<R: Read>(from: &mut R, room: &mut [u8]) -> Result<usize>
    ensures { IfOk result (λ n. IsPrefixLen n room.new) }
{
    let mut done = 0;
    while done < room.len() {
        let n = from.read(&mut room[done..])?;
        if n == 0 {
            break;
        }
        done += n;
    }
    Ok(done)
}

// Reads the next n bytes to the front of the room, or as many as it has room for, and answers how many were wanted.
pub fn read_part<R: Read>(from: &mut R, n: usize, room: &mut [u8]) -> usize
    ensures value { result ≡ min n (length room.new) }
    ensures prefix_len { IsPrefixLen result room.new }
{
    let n = n.min(room.len());
    let _ = read_full(from, &mut room[..n]);
    n
}

// Reads as many bytes as there is room for: false where fewer are left.
pub fn fills<R: Read>(from: &mut R, room: &mut [u8]) -> Result<bool>
    ensures ok { IfOk result (λ filled. IsTrue filled
        → Consumes (R.remaining from.old) (R.remaining from.new) room.new) }
    ensures err { OnErr result (length room.new ≡ length room.old) }
{
    match from.read_exact(room) {
        Ok(()) => Ok(true),
        Err(e) => {
            if e.kind() == ErrorKind::UnexpectedEof {
                Ok(false)
            } else {
                Err(e)
            }
        }
    }
}

// Bytes of ASCII, as text to print.
#[derive(Clone, Copy)]
struct Ascii<'a>(&'a [u8]);

impl fmt::Display for Ascii<'_> {
    fn fmt<W: fmt::Write>(&self, f: &mut fmt::Formatter<W>) -> fmt::Result {
        for b in self.0 {
            f.write_char(char::from(*b))?;
        }
        Ok(())
    }
}

// A line on standard error says what failed and why, as "floor.vtx: No such file or directory". The error is handed back.
pub fn fail(rt: &impl Eprint, what: &str, error: Error) -> Error
    ensures { result ≡ error }
{
    let mut room = [0u8; 256];
    let mut rest = &mut room[..];
    let _ = write!(rest, "{error}");
    let why = Ascii(reason(&room));
    let _ = eprintln!(rt; "{what}: {why}");
    error
}

// An error's words without the system's number, which stands behind them, and without the zeros of what is left of the room.
fn reason(text: &[u8]) -> &[u8] {
    for (i, b) in text.iter().enumerate() {
        if *b == 0 || text[i..].starts_with(b" (os error ") {
            return &text[..i];
        }
    }
    text
}

// What is said is a definition, and each function answers how many bytes it has. That they reach the stream can be stated of no
// function: a stream may be closed or full.

// Writes the bytes to standard output and answers how many they are. If not all go through, a line on standard error says so
// and why: the program's status is given by what it says there (night/start).
pub fn write_out<R: Print + Eprint>(rt: &R, bytes: &[u8]) -> usize
    ensures { result ≡ length bytes.now }
{
    let Err(e) = rt.write_all(bytes) else {
        return bytes.len();
    };
    let _ = fail(rt, "standard output could not be written", e);
    bytes.len()
}

// The line of what is told on standard output, as "22 at record 3: not a permitted step".
pub fn say<R: Print + Eprint>(rt: &R, told: Told) -> usize
    ensures { result ≡ length (line_of told) }
{
    let mut room = [0u8; 128];
    let n = line::lay(told, &mut room);
    write_out(rt, &room[..n])
}

// The same line on standard error.
pub fn complain(rt: &impl Eprint, told: Told) -> usize
    ensures { result ≡ length (line_of told) }
{
    let mut room = [0u8; 128];
    let n = line::lay(told, &mut room);
    let _ = rt.eprint(Ascii(&room[..n]));
    n
}

// The words for a number on standard output, with no line end.
pub fn say_words<R: Print + Eprint>(rt: &R, number: u32) -> usize
    ensures { result ≡ length (words_of number) }
{
    let mut text = [0u8; 64];
    let n = says::words(number, &mut text);
    write_out(rt, &text[..n])
}
