#![tactic(auto)]
// The records by value: made, compared with the bytes of a lent file, and written into lent bytes. Nothing is allocated.

ghost use Rattle.std.specs.Prelude.{◌≡◌, ◌+◌, ◌*◌, ◌≤◌, length};
ghost use Rattle.word.specs.Word.{word_at};
ghost use Rattle.route.specs.Record.{record_at, put_record};
ghost use Rattle.route.specs.Judge.{same_bytes, length_right};
ghost use Rattle.records.specs.Records.{record_bytes, seed_record, step_record, end_record, kind_word, polygon_word};
ghost use Rattle.records.specs.Records.{first_word, second_word, points_word, point_in, point_stands, interval_stands, step_in};

use cut::SuccessorType;
use point::{Point, Segment};
use route::{Step, kind_number, kind_of};

// A record of the route file: eight words, 32 bytes little-endian.
#[derive(Clone, Copy)]
pub struct Record {
    pub words: [u32; 8],
}

// Where the words of a step's record stand: its kind, the polygon entered, the edge's two vertices, the two ends of the interval.
const KIND: usize = 0;

const POLYGON: usize = 4;

const FIRST: usize = 8;

const SECOND: usize = 12;

const RIGHT: usize = 16;

const LEFT: usize = 24;

// Where the end record has the number of points.
const POINTS: usize = 4;

// The most records of a route file.
const MOST_RECORDS: usize = 4097;

impl Record {
    // How many bytes a record is.
    pub const BYTES: usize = 32;

    // Where every route begins: in this polygon, at this point.
    #[tactic(auto, unfolding(crate::specs::Records::seed_record, route::specs::Record::seed_words))]
    pub fn seed(polygon: u32, start: Point) -> Record
        ensures { result ≡ seed_record polygon start }
    {
        Record {
            words: [
                1,
                polygon,
                float::to_bits(start.x),
                float::to_bits(start.y),
                0,
                0,
                0,
                0,
            ],
        }
    }

    // How a route ends: how many points it has, where the last of them is, and how long it is.
    #[tactic(auto, unfolding(crate::specs::Records::end_record, route::specs::Record::end_words))]
    pub fn end(points: u32, goal: Point, length: f32) -> Record
        ensures { result ≡ end_record points goal length }
    {
        Record {
            words: [
                5,
                points,
                float::to_bits(goal.x),
                float::to_bits(goal.y),
                float::to_bits(length),
                0,
                0,
                0,
            ],
        }
    }

    // A step.
    #[tactic(auto, unfolding(crate::specs::Records::step_record, route::specs::Record::step_words))]
    pub fn step(step: Step) -> Record
        ensures { result ≡ step_record step }
    {
        let kind = step.kind;
        let right = step.interval.0;
        let left = step.interval.1;
        Record {
            words: [
                kind_number(kind),
                step.polygon,
                step.first,
                step.second,
                float::to_bits(right.x),
                float::to_bits(right.y),
                float::to_bits(left.x),
                float::to_bits(left.y),
            ],
        }
    }

    // Stores the record's bytes as the one with this number.
    #[tactic(auto, unfolding(route::specs::Record::words_bytes, route::specs::Record::put_record, crate::specs::Records::record_bytes))]
    pub fn write(self, out: &mut [u8], i: usize)
        requires { (i + 1) * 32 ≤ length out.old }
        ensures { out.new ≡ put_record out.old i (record_bytes self) }
    {
        for k in 0..8 {
            word::write(out, i * Record::BYTES + k * 4, self.words[k]);
        }
    }
}

// A record in a lent file: the route's bytes, and the number of a record that stands in them.
#[derive(Clone, Copy)]
pub struct RouteRecord<'a> {
    pub route: &'a [u8],
    pub number: usize,
    ghost inside: { (number + 1) * 32 ≤ length route.now },
}

impl<'a> RouteRecord<'a> {
    // The route's bytes.
    pub fn bytes(self) -> &'a [u8]
        ensures { result ≡ self.entry.route }
    {
        self.route
    }

    // The word that stands so many bytes behind the record's first.
    fn word(self, at: usize) -> u32
        requires { at + 4 ≤ 32 }
        ensures { result ≡ word_at self.entry.route.now (self.entry.number * 32 + at) }
    {
        word::read(self.route, self.number * Record::BYTES + at)
    }

    // The point whose two coordinates stand there.
    #[tactic(auto, unfolding(crate::specs::Records::point_in))]
    fn point(self, at: usize) -> Point
        requires { at + 8 ≤ 32 }
        ensures { result ≡ point_in self.entry.route.now (self.entry.number * 32 + at) }
    {
        let x = float::from_bits(self.word(at));
        let y = float::from_bits(self.word(at + 4));
        Point { x, y }
    }

    // The number of the kind, where the record is a step.
    pub fn kind(self) -> u32
        ensures { result ≡ kind_word self.entry.route.now self.entry.number }
    {
        self.word(KIND)
    }

    // The polygon that it enters.
    pub fn polygon(self) -> u32
        ensures { result ≡ polygon_word self.entry.route.now self.entry.number }
    {
        self.word(POLYGON)
    }

    // The first vertex of the edge that it leads over.
    pub fn first(self) -> u32
        ensures { result ≡ first_word self.entry.route.now self.entry.number }
    {
        self.word(FIRST)
    }

    // The second one.
    pub fn second(self) -> u32
        ensures { result ≡ second_word self.entry.route.now self.entry.number }
    {
        self.word(SECOND)
    }

    // How many points the route has, where the record is its end.
    pub fn points(self) -> u32
        ensures { result ≡ points_word self.entry.route.now self.entry.number }
    {
        self.word(POINTS)
    }

    // Whether a point's two words stand there.
    #[tactic(auto, unfolding(crate::specs::Records::point_stands))]
    fn is_point(self, point: Point, at: usize) -> bool
        requires { at + 8 ≤ 32 }
        ensures { result ≡ point_stands point self.entry.route.now (self.entry.number * 32 + at) }
    {
        self.word(at) == float::to_bits(point.x) && self.word(at + 4) == float::to_bits(point.y)
    }

    // Whether the step that it is has this interval.
    #[tactic(auto, unfolding(crate::specs::Records::interval_stands))]
    pub fn has_interval(self, interval: Segment) -> bool
        ensures { result ≡ interval_stands interval self.entry.route.now self.entry.number }
    {
        self.is_point(interval.0, RIGHT) && self.is_point(interval.1, LEFT)
    }

    // The step that it is, where it is one: so a step need not be handed on beside its record.
    #[tactic(auto, unfolding(crate::specs::Records::step_in))]
    pub fn step(self) -> Step
        ensures { result ≡ step_in self.entry.route.now self.entry.number }
    {
        let kind = kind_of(self.kind());
        let right = self.point(RIGHT);
        let left = self.point(LEFT);
        Step {
            kind,
            polygon: self.polygon(),
            first: self.first(),
            second: self.second(),
            interval: Segment(right, left),
        }
    }

    // Whether it is this record, byte for byte.
    #[tactic(auto, unfolding(counts::specs::Counts::every))]
    pub fn is(self, sought: Record) -> bool
        ensures { result ≡ same_bytes (record_at self.entry.route.now self.entry.number) (record_bytes sought) }
    {
        let route = self.bytes();
        for j in 0..8 {
            if word::read(route, self.number * Record::BYTES + j * 4) != sought.words[j] {
                return false;
            }
        }
        true
    }
}

// 20: whole records, from 2 to 4,097.
#[tactic(auto, unfolding(route::specs::Judge::length_right, route::specs::Record::records))]
pub fn length_right(route: &[u8]) -> bool
    ensures { result ≡ length_right route.now }
{
    let count = route.len() / Record::BYTES;
    route.len() % Record::BYTES == 0 && (2 <= count && count <= MOST_RECORDS)
}
