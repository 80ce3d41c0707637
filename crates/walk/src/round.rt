// Round a polygon: the edges after the one that was entered by, each in its turn, and the kind that goes from one to the
// next.

ghost use Rattle.std.specs.Prelude.{◌≡◌, ◌<◌};
ghost use Rattle.walk.specs.Turns.{begin_of, is_over_of, edge_number_of, next_of};

use cut::SuccessorType;

// Of a polygon's count edges, taken have been walked since the entry edge; kind is what the last one left.
#[derive(Clone, Copy)]
pub struct Round {
    pub entry: usize,
    pub count: usize,
    pub taken: usize,
    pub kind: SuccessorType,
}

impl Round {
    #[tactic(auto, unfolding(crate::specs::Turns::begin_of))]
    pub fn begin(entry: usize, count: usize) -> Round
        ensures { result ≡ begin_of entry count }
    {
        Round {
            entry,
            count,
            taken: 0,
            kind: SuccessorType::RightNonObservable,
        }
    }

    // Whether every edge but the entry edge has been walked.
    #[tactic(auto, unfolding(crate::specs::Turns::is_over_of))]
    pub fn is_over(self) -> bool
        requires { self.taken < self.count }
        ensures { result ≡ is_over_of self }
    {
        self.count <= self.taken + 1
    }

    // The number of the edge to walk now, from 0, wrapped round the polygon.
    #[tactic(auto, unfolding(crate::specs::Turns::edge_number_of))]
    pub fn edge(self) -> usize
        requires { (self.entry < self.count) × (self.taken < self.count) }
        ensures { result ≡ edge_number_of self }
    {
        let left = self.count - self.entry - 1;
        if self.taken < left {
            return self.entry + 1 + self.taken;
        }
        self.taken - left
    }

    // After that edge, which left this kind.
    #[tactic(auto, unfolding(crate::specs::Turns::next_of))]
    pub fn next(self, kind: SuccessorType) -> Round
        requires { self.taken < self.count }
        ensures { result ≡ next_of self kind }
    {
        Round {
            entry: self.entry,
            count: self.count,
            taken: self.taken + 1,
            kind,
        }
    }
}
