#![tactic(auto)]
// The route file: what a step is in it, and what the judge may say of it.

ghost use Rattle.std.specs.Prelude.{◌≡◌};
ghost use Rattle.route.specs.Step.{kind_number, kind_of};
ghost use Rattle.route.specs.Judge.{fault_told, judged_told};

use cut::SuccessorType;
use point::Segment;
use told::Told;

// A step as the route file has it: how the interval is seen, the polygon that is entered, the two vertices of the edge as
// the polygon that is left has it, and the interval from its right end to its left end.
#[derive(Clone, Copy)]
pub struct Step {
    pub kind: SuccessorType,
    pub polygon: u32,
    pub first: u32,
    pub second: u32,
    pub interval: Segment,
}

// What the judge finds wrong in a route file. It says Ok where the file is a true route.
#[derive(Clone, Copy)]
pub enum Fault {
    // 20: the file is not 2 to 4,097 records of 32 bytes.
    Length,
    // 21: record 0 is not the seed.
    NotSeed,
    // 22: this middle record is not a permitted step; it is the lowest such record.
    NotStep(usize),
    // 23: this record, the last, is not the true end, or the one before it is not in the goal polygon.
    NotEnd(usize),
}

// The number of a step's kind in its record.
#[tactic(auto, unfolding(crate::specs::Step::kind_number))]
pub fn kind_number(kind: SuccessorType) -> u32
    ensures { result ≡ kind_number kind }
{
    match kind {
        SuccessorType::LeftNonObservable => 4,
        SuccessorType::Observable => 2,
        SuccessorType::RightNonObservable => 3,
    }
}

// The kind that a number stands for. Whoever reads it has to know that it stands for one.
#[tactic(auto, unfolding(crate::specs::Step::kind_of))]
pub fn kind_of(number: u32) -> SuccessorType
    ensures { result ≡ kind_of number }
{
    match number {
        2 => SuccessorType::Observable,
        3 => SuccessorType::RightNonObservable,
        _ => SuccessorType::LeftNonObservable,
    }
}

// The number in document 01's table, and the record at fault where there is one.
impl From<Fault> for Told {
    ghost from_gives = { λ fault told. told ≡ fault_told fault };

    #[tactic(auto, unfolding(crate::specs::Judge::fault_told))]
    fn from(fault: Fault) -> Told {
        match fault {
            Fault::Length => Told::Alone(20),
            Fault::NotSeed => Told::AtRecord(21, 0),
            Fault::NotStep(i) => Told::AtRecord(22, i),
            Fault::NotEnd(i) => Told::AtRecord(23, i),
        }
    }
}

// The same of all that the judge says of a route file: 0 for a true route.
#[tactic(auto, unfolding(crate::specs::Judge::judged_told))]
pub fn told(judged: Result<(), Fault>) -> Told
    ensures { result ≡ judged_told judged }
{
    match judged {
        Ok(()) => Told::Alone(0),
        Err(fault) => Told::from(fault),
    }
}
