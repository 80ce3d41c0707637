#![tactic(auto)]
// What is told of an answer: document 01's number, and what comes with it. Each enum of answers has one function `told`, beside its
// type; whoever says an answer, writes it or hands it to C takes what that gives, and knows no other variant.

ghost use Rattle.std.specs.Prelude.{◌≡◌};
ghost use Rattle.told.specs.Told.{number_of};

// A number, and what comes with it. The counted steps of a search come with every number, and stand apart.
#[derive(Clone, Copy)]
pub enum Told {
    Alone(u32),
    // 4, 5, 6, 21, 22, 23: with the lowest record at fault.
    AtRecord(u32, usize),
    // 0: with the bytes that a search wrote, or how many points a read-out lists.
    WithCount(u32, usize),
}

impl Told {
    #[tactic(auto, unfolding(crate::specs::Told::number_of))]
    pub fn number(self) -> u32
        ensures { result ≡ number_of self }
    {
        match self {
            Told::Alone(number) => number,
            Told::AtRecord(number, _) => number,
            Told::WithCount(number, _) => number,
        }
    }
}
