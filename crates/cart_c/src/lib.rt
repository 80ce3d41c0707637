#![tactic(auto)]
// The search, the judge and the read-out for a controller's firmware. A slice goes to C as its pointer and its length, a `&mut`
// as a pointer; the header include/cart.h has a word on each function. Each takes any bytes, keeps nothing between calls and
// calls nothing outside.

ghost use Rattle.std.specs.Prelude.{◌≡◌, length};
ghost use Rattle.told.specs.Told.{values_of};
ghost use Rattle.judge.specs.Verdict.{verdict_of, verdict_number, verdict_record};
ghost use Rattle.readout.specs.Readout.{readout_of, written_of, readout_number, readout_values};
ghost use Rattle.says.specs.Words.{words_of, laid};
ghost use Rattle.places.specs.Layout.{work_of};
ghost use Rattle.search.specs.Whole.{lent_of, search_of};
ghost use Rattle.cart_c.specs.Handed.{handed_of, handed_by};
ghost use Rattle.cart_c.specs.Written.{value_written, at_of, record_written};

use told::Told;

// Writes what comes with a number: the record at fault, how many points are listed, or how long the route is. Where nothing comes,
// what stood there stays.
#[tactic(auto, unfolding(crate::specs::Written::value_written, crate::specs::Written::record_written, crate::specs::Written::at_of, told::specs::Told::values_of))]
fn put(place: &mut usize, told: Told)
    ensures { place.new ≡ value_written (values_of told) place.old }
{
    match told {
        Told::Alone(_) => {}
        Told::AtRecord(_, lowest) => *place = lowest,
        Told::WithCount(_, count) => *place = count,
    }
}

// Document 01's number: 0 where the route is accepted, else 2 to 9 or 20 to 23, and the record of 4, 5, 6, 21, 22 and 23.
#[tactic(auto, unfolding(crate::specs::Written::value_written))]
pub fn cart_judge(
    vertices: &[u8],
    polygons: &[u8],
    question: &[u8],
    route: &[u8],
    fault: &mut usize,
) -> u32
    ensures value { result ≡ verdict_number (verdict_of 8 vertices.now polygons.now question.now route.now) }
    ensures fault_after { let verdict = verdict_of 8 vertices.now polygons.now question.now route.now in
        fault.new ≡ record_written (at_of (verdict_record verdict)) fault.old }
{
    let told = judge::told(judge::judge(vertices, polygons, question, route));
    put(fault, told);
    told.number()
}

// Judges, then lists the points of an accepted route, x and y of each. Document 01's number: as cart_judge, or 13 where the
// slice has no room for them. Other than 0, the slice stays as it was.
pub fn cart_read_out(
    vertices: &[u8],
    polygons: &[u8],
    question: &[u8],
    route: &[u8],
    points: &mut [f32],
    value: &mut usize,
) -> u32
    ensures result_value { let before = points.old in
        let readout = readout_of 8 vertices.now polygons.now question.now route.now before in
        result ≡ readout_number readout }
    ensures points_after { let before = points.old in
        points.new ≡ written_of 8 vertices.now polygons.now question.now route.now before }
    ensures value_after { let before = points.old in
        let readout = readout_of 8 vertices.now polygons.now question.now route.now before in
        value.new ≡ value_written (readout_values readout) value.old }
{
    let told = readout::told(readout::read_out(vertices, polygons, question, route, points));
    put(value, told);
    told.number()
}

// The words for a number at the front of the room, and how many bytes they take.
pub fn cart_words(number: u32, room: &mut [u8; 64]) -> usize
    ensures value { result ≡ length (words_of number) }
    ensures room_after { room.new ≡ laid (words_of number) room.old }
{
    says::words(number, room)
}

// The search. Document 01's number: 0 where a route was found, else 1 to 14; the counted steps; and on 0 the bytes written, with
// 4, 5 and 6 the record at fault.
pub fn cart_search(
    vertices: &[u8],
    polygons: &[u8],
    question: &[u8],
    budget: usize,
    floats: &mut [f32],
    words: &mut [u32],
    tree: &mut [u32],
    table: &mut [u32],
    out: &mut [u8],
    steps: &mut usize,
    value: &mut usize,
) -> u32
    ensures { let before = lent_of (work_of floats.old words.old tree.old) table.old in
        let after = lent_of (work_of floats.new words.new tree.new) table.new in
        let search = search_of 8 vertices.now polygons.now question.now budget before out.old in
        handed_of result after out.new steps.new value.new ≡ handed_by search value.old }
{
    let answer = search::search(
        vertices, polygons, question, budget, floats, words, tree, table, out,
    );
    *steps = answer.steps();
    let told = Told::from(answer);
    put(value, told);
    told.number()
}
