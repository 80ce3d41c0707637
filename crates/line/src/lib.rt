#![tactic(auto)]
// The lines that the programs say, each laid whole at the front of lent room, so that what a person reads is a definition.

ghost use Rattle.std.specs.Prelude.{◌≡◌, ◌+◌, ◌≤◌, length};
ghost use Rattle.io.specs.Counts.{IsPrefixLen};
ghost use Rattle.says.specs.Words.{words_of, laid};
ghost use Rattle.line.specs.Decimal.{decimal_of};
ghost use Rattle.line.specs.Line.{record_part, gap_of, line_of};
ghost use Rattle.line.specs.Put.{Put};

use told::Told;

// The line of what is told, as "22 at record 3: not a permitted step", and how many bytes it takes, its end among them. The
// longest has 20, 31, 2, 64 and 1 bytes.
#[tactic(auto, unfolding(crate::specs::Line::line_of, says::specs::Words::bytes_of))]
pub fn lay(told: Told, room: &mut [u8; 128]) -> usize
    ensures value { result ≡ length (line_of told) }
    ensures room_after { room.new ≡ laid (line_of told) room.old }
    ensures prefix_len { IsPrefixLen result room.new }
{
    let number = told.number();
    let n = put_decimal(number as u64, room, 0);
    let n = put_record(told, room, n);
    let n = put_gap(number, room, n);
    let n = put_words(number, room, n);
    put(b"\n", room, n)
}

#[tactic(auto, unfolding(crate::specs::Line::record_part, says::specs::Words::bytes_of))]
fn put_record(told: Told, room: &mut [u8], from: usize) -> usize
    requires { from + 31 ≤ length room.old }
    ensures put { Put from (record_part told) room.old result room.new }
    ensures upper_bound { result ≤ from + 31 }
{
    match told {
        Told::Alone(_) => from,
        Told::AtRecord(_, lowest) => {
            let n = put(b" at record ", room, from);
            put_decimal(lowest as u64, room, n)
        }
        Told::WithCount(_, _) => from,
    }
}

#[tactic(auto, unfolding(crate::specs::Line::gap_of, says::specs::Words::bytes_of))]
fn put_gap(number: u32, room: &mut [u8], from: usize) -> usize
    requires { from + 2 ≤ length room.old }
    ensures put { Put from (gap_of number) room.old result room.new }
    ensures upper_bound { result ≤ from + 2 }
{
    if number == 0 {
        return put(b" ", room, from);
    }
    put(b": ", room, from)
}

fn put_words(number: u32, room: &mut [u8], from: usize) -> usize
    requires { from + 64 ≤ length room.old }
    ensures put { Put from (words_of number) room.old result room.new }
    ensures upper_bound { result ≤ from + 64 }
{
    let mut words = [0u8; 64];
    let n = says::words(number, &mut words);
    put(&words[..n], room, from)
}

fn put_decimal(number: u64, room: &mut [u8], from: usize) -> usize
    requires { from + 20 ≤ length room.old }
    ensures put { Put from (decimal_of number) room.old result room.new }
    ensures upper_bound { result ≤ from + 20 }
{
    let mut digits = [0u8; 20];
    let n = io::decimal(number, &mut digits);
    put(&digits[..n], room, from)
}

// The text from this place on, and the place behind it.
fn put(text: &[u8], room: &mut [u8], from: usize) -> usize
    requires { from + length text.now ≤ length room.old }
    ensures { Put from text.now room.old result room.new }
{
    let n = text.len();
    room[from..from + n].copy_from_slice(text);
    from + n
}
