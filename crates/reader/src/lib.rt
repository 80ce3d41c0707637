#![tactic(auto)]
// A reader of a route file: the caller's route bytes and the number of a record in them. It walks them one record at a time.
// Whoever has plain bytes calls `begins_with`.

ghost use Rattle.std.specs.Prelude.{◌≡◌};
ghost use Rattle.reader.specs.Reading.{is_record, records_from, first_of, next_of};

use records::{Record, RouteRecord};

// The caller's route bytes, and the number of the record at which the reader stands.
#[derive(Clone, Copy)]
pub struct Reader<'a> {
    route: &'a [u8],
    number: usize,
}

impl<'a> Reader<'a> {
    // A reader at the first record.
    pub fn new(route: &'a [u8]) -> Reader<'a>
        ensures { result ≡ first_of route.entry }
    {
        Reader { route, number: 0 }
    }

    // How many whole records there are from here on.
    #[tactic(auto, unfolding(crate::specs::Reading::records_from, route::specs::Record::records))]
    pub fn left(self) -> usize
        ensures { result ≡ records_from self.entry.route.now self.entry.number }
    {
        (self.route.len() / Record::BYTES).saturating_sub(self.number)
    }

    // Whether the record here is this one, byte for byte. Where no record is left, none is.
    #[tactic(auto, unfolding(crate::specs::Reading::is_record))]
    pub fn is_at(self, sought: Record) -> bool
        ensures { result ≡ is_record self.entry.route.now self.entry.number sought }
    {
        if self.left() == 0 {
            return false;
        }
        let here = RouteRecord {
            route: self.route,
            number: self.number,
        };
        here.is(sought)
    }

    // The reader at the next record. Behind the last one it stays, so that its number never wraps.
    #[tactic(auto, using(crate::proofs::Passed::one_here, crate::proofs::Passed::goes_on, crate::proofs::Passed::stays))]
    pub fn next(self) -> Reader<'a>
        ensures { result ≡ next_of self.entry }
    {
        if self.left() == 0 {
            return self;
        }
        Reader {
            route: self.route,
            number: self.number + 1,
        }
    }
}

// Whether the first record of these bytes is this one.
pub fn begins_with(route: &[u8], sought: Record) -> bool
    ensures { result ≡ is_record route.now 0 sought }
{
    Reader::new(route).is_at(sought)
}
