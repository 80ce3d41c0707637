#![tactic(auto)]
// The plan of a floor: what a look learns of it, worked out once and lent to whatever comes after. It goes by reference, as so many
// words: how many slots a polygon's record has for corners, how many layers the floor has, of the layer where its vertices and its
// polygons begin, how many they are and by what it is moved, and a bit for each vertex that turns. Only these functions know
// where a word stands.

ghost use Rattle.std.specs.Prelude.{◌≡◌, ◌≤◌, ◌<◌, ℕ, List, get_or, replicate};
ghost use Rattle.plan.specs.Plan.{most_vertices, most_polygons, most_slots, plan_words, slots_in, vertex_count_in, polygon_count_in, is_marked, marked, laid};

use std::marker::Model;

// The words of a plan: 2, 6 of the layer, and 32 of marks.
pub const PLAN: usize = 40;

const SLOTS: usize = 0;

const LAYERS: usize = 1;

const VERTICES: usize = 3;

const POLYGONS: usize = 5;

const MARKS: usize = 8;

// Clauses see a plan as the list of its words. Any so many words are one, and each can be read.
#[derive(Clone, Copy)]
pub struct Plan {
    pub words: [u32; PLAN],
}

impl Model for Plan {
    ghost Value = { List ℕ };

    ghost view = { λ plan. plan.words };

    ghost inverse = { λ words. record { words = words } };
}

impl Plan {
    // A plan of no floor yet.
    pub fn new() -> Plan
        ensures { result ≡ replicate plan_words 0 }
    {
        Plan { words: [0; PLAN] }
    }

    // A word, as a number that is known to fit one.
    fn word(&self, k: usize) -> u32
        requires { k < plan_words }
        ensures { result ≡ get_or self.now k 0 }
    {
        self.words[k]
    }

    // How many corners a polygon's record has room for, and how many neighbours.
    #[tactic(auto, unfolding(crate::specs::Plan::slots_in))]
    pub fn slots(&self) -> usize
        ensures { result ≡ slots_in self.now }
    {
        self.word(SLOTS) as usize
    }

    #[tactic(auto, unfolding(crate::specs::Plan::vertex_count_in))]
    pub fn vertex_count(&self) -> usize
        ensures { result ≡ vertex_count_in self.now }
    {
        self.word(VERTICES) as usize
    }

    #[tactic(auto, unfolding(crate::specs::Plan::polygon_count_in))]
    pub fn polygon_count(&self) -> usize
        ensures { result ≡ polygon_count_in self.now }
    {
        self.word(POLYGONS) as usize
    }

    // Whether vertex v turns.
    #[tactic(auto, unfolding(crate::specs::Plan::is_marked))]
    pub fn turns(&self, v: usize) -> bool
        requires { v < most_vertices }
        ensures { result ≡ is_marked self.now v }
    {
        (self.words[MARKS + v / 32] >> (v % 32)) % 2 == 1
    }

    // Marks vertex v as one that turns.
    #[tactic(auto, unfolding(crate::specs::Plan::marked))]
    pub fn mark(&mut self, v: usize)
        requires { v < most_vertices }
        ensures { self.new ≡ marked self.old v }
    {
        let word = MARKS + v / 32;
        self.words[word] |= 1 << (v % 32);
    }

    // The plan of one layer that is not moved, before a vertex is marked.
    #[tactic(auto, unfolding(crate::specs::Plan::laid))]
    pub fn lay(&mut self, slots: usize, vertices: usize, polygons: usize)
        requires { (slots ≤ most_slots) × (vertices ≤ most_vertices) × (polygons ≤ most_polygons) }
        ensures { self.new ≡ laid slots vertices polygons }
    {
        self.words = [0; PLAN];
        self.words[SLOTS] = slots as u32;
        self.words[LAYERS] = 1;
        self.words[VERTICES] = vertices as u32;
        self.words[POLYGONS] = polygons as u32;
    }
}
