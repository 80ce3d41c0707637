ghost use Rattle.std.specs.Prelude.{◌≡◌, ◌+◌, ◌*◌, ◌<◌, length};
ghost use Rattle.queue.specs.Words.{Rows};

// Where the f of so many places stands: in lent floats, rows of `stride`, a row a place, at number `at` of the row.
#[derive(Clone, Copy)]
pub struct Column<'a> {
    pub floats: &'a [f32],
    pub stride: usize,
    pub at: usize,
    pub places: usize,
    ghost rows: { Rows places stride at floats.now },
}

impl<'a> Column<'a> {
    ghost use Rattle.queue.specs.Queue.{before, better};
    ghost use Rattle.queue.specs.Column.{f_of};

    // Whether place i comes before place j: its f is smaller, or equal and its number lower.
    #[tactic(auto, unfolding(crate::specs::Queue::before, crate::specs::Words::column))]
    fn before(&self, i: usize, j: usize) -> bool
        requires { let row = self.now.stride in
            (i * row + self.now.at < length self.now.floats.now) × (j * row + self.now.at < length self.now.floats.now) }
        ensures { result ≡ before (f_of self.now) i j }
    {
        let x = self.floats[i * self.stride + self.at];
        let y = self.floats[j * self.stride + self.at];
        x < y || (x == y && i < j)
    }

    // The better of two words. One that is no place, as NONE, loses. One test asks whether both are places, and none asks which of them
    // is: that could not be foreseen.
    #[tactic(auto, using(crate::proofs::Ways::one_at_most, crate::proofs::Ways::left_inside, crate::proofs::Ways::right_inside, crate::proofs::Ways::left_better, crate::proofs::Ways::right_better))]
    pub(crate) fn better(&self, a: u32, b: u32) -> u32
        ensures { result ≡ better (f_of self.now) self.now.places a b }
    {
        let i = a as usize;
        let j = b as usize;
        if self.places <= i.max(j) {
            return crate::lone(self.places, a, b);
        }
        if self.before(i, j) {
            return a;
        }
        b
    }
}
