#![tactic(auto)]
// Plain words for document 01's numbers. Every program and the firmware take them from here, so that the people who read them at
// 5:20 meet the same words everywhere.

ghost use Rattle.std.specs.Prelude.{◌≡◌, ◌≤◌, length};
ghost use Rattle.says.specs.Words.{words_of, floor_words_of, route_words_of, laid};

// The words for a number of document 01, at the front of the room, and how many bytes they take. The table stands in three functions,
// which are proved in half the time of one.
#[tactic(auto, unfolding(crate::specs::Words::words_of, crate::specs::Words::bytes_of))]
pub fn words(number: u32, room: &mut [u8; 64]) -> usize
    ensures value { result ≡ length (words_of number) }
    ensures room_after { room.new ≡ laid (words_of number) room.old }
    ensures upper_bound { result ≤ length room.new }
{
    match number {
        0 => copy(b"accepted", room),
        1 => copy(b"no route was found", room),
        10 => copy(b"no room was lent for a node", room),
        11 => copy(b"the room for nodes is used up", room),
        12 => copy(b"the budget of steps is spent", room),
        13 => copy(b"the output is too short", room),
        14 => copy(b"the search stalled, and its table is full", room),
        _ => floor_words(number, room),
    }
}

// Those for a refused floor or question.
#[tactic(auto, unfolding(crate::specs::Words::floor_words_of, crate::specs::Words::bytes_of))]
fn floor_words(number: u32, room: &mut [u8; 64]) -> usize
    ensures value { result ≡ length (floor_words_of number) }
    ensures room_after { room.new ≡ laid (floor_words_of number) room.old }
    ensures upper_bound { result ≤ length room.new }
{
    match number {
        2 => copy(b"the vertex list has a wrong length", room),
        3 => copy(b"the polygon list has a wrong length", room),
        4 => copy(b"a vertex coordinate is not finite or beyond 16,384", room),
        5 => copy(b"a polygon's corners are wrong", room),
        6 => copy(b"a polygon's neighbours are wrong", room),
        7 => copy(b"the question is not 16 bytes or out of range", room),
        8 => copy(b"the start is in no polygon", room),
        9 => copy(b"the goal is in no polygon", room),
        _ => route_words(number, room),
    }
}

// Those for a refused route.
#[tactic(auto, unfolding(crate::specs::Words::route_words_of, crate::specs::Words::bytes_of))]
fn route_words(number: u32, room: &mut [u8; 64]) -> usize
    ensures value { result ≡ length (route_words_of number) }
    ensures room_after { room.new ≡ laid (route_words_of number) room.old }
    ensures upper_bound { result ≤ length room.new }
{
    match number {
        20 => copy(b"not 2 to 4,097 records of 32 bytes", room),
        21 => copy(b"not the true start", room),
        22 => copy(b"not a permitted step", room),
        23 => copy(b"not the true end", room),
        _ => copy(b"a number with no meaning", room),
    }
}

// The text at the front of the room, and how many bytes it takes.
#[tactic(auto, unfolding(crate::specs::Words::laid))]
pub fn copy(text: &[u8], room: &mut [u8]) -> usize
    requires { length text.now ≤ length room.old }
    ensures value { result ≡ length text.now }
    ensures room_after { room.new ≡ laid text.now room.old }
{
    room[..text.len()].copy_from_slice(text);
    text.len()
}
