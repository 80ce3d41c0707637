#![tactic(auto)]
// The records of a stored floor, read where they lie. Only these functions know where a record's bytes are.

ghost use Rattle.std.specs.Prelude.{◌≡◌, ◌+◌, ◌*◌, ◌/◌, ◌≤◌, ◌<◌, ◌++◌, length, get_or};
ghost use Rattle.point.specs.Point.{plus_of};
ghost use Rattle.plan.specs.Plan.{most_slots};
ghost use Rattle.stored.specs.Stored.{unused, vertex_count, origin, vertex_at, record_in, question_of, corner, neighbour, across, corner_count};
ghost use Rattle.stored.specs.Stored.{corner_after, Lies};

use plan::Plan;
use point::Point;
use std::marker::Model;

// No vertex and no polygon has this number: an unused slot, or a wall.
pub const UNUSED: u32 = 0xFFFF_FFFF;

// A vertex as it is stored.
#[tactic(auto, unfolding(crate::specs::Stored::vertex_at))]
pub fn stored_vertex(vertices: &[u8], v: usize) -> Point
    requires { v < vertex_count vertices.now }
    ensures { result ≡ vertex_at vertices.now v }
{
    Point::from_bits(word::read(vertices, v * 8), word::read(vertices, v * 8 + 4))
}

// A vertex as it is used: its coordinates plus 0.0, so that -0.0 becomes +0.0.
pub fn used_vertex(vertices: &[u8], v: usize) -> Point
    requires { v < vertex_count vertices.now }
    ensures { result ≡ plus_of (vertex_at vertices.now v) origin }
{
    stored_vertex(vertices, v).plus(Point::new(0.0, 0.0))
}

// A polygon's record where it lies. Clauses see the polygon that it stands for.
#[derive(Drop)]
pub struct StoredPolygon<'a> {
    polygons: &'a [u8],
    plan: &'a Plan,
    number: usize,
}

impl<'a> Model for StoredPolygon<'a> {
    ghost use Rattle.stored.specs.Stored.{Polygon, record_in, Lies};

    ghost Value = { Polygon };

    ghost view = { λ at. record_in at.plan.now at.polygons.now at.number };

    ghost invariant = { λ at. Lies at.plan.now at.polygons.now at.number };
}

impl<'a> StoredPolygon<'a> {
    pub fn at(polygons: &'a [u8], plan: &'a Plan, number: usize) -> StoredPolygon<'a>
        requires { Lies plan.now polygons.now number }
        ensures { result ≡ record_in plan.now polygons.now number }
    {
        StoredPolygon {
            polygons,
            plan,
            number,
        }
    }

    // How many corners its record has room for, and as many neighbours.
    pub fn slots(&self) -> usize
        ensures { (result ≡ length self.now.corners) × (result ≡ length self.now.neighbours) × (result ≤ most_slots) }
    {
        self.plan.slots()
    }

    // The number in a slot of the record: the corners' slots come first, then the neighbours'.
    pub fn slot(&self, i: usize) -> u32
        requires { i < length self.now.corners + length self.now.neighbours }
        ensures { result ≡ get_or (self.now.corners ++ self.now.neighbours) i unused }
    {
        word::read(self.polygons, self.number * (self.plan.slots() * 8) + i * 4)
    }

    // The vertex number in a corner's slot.
    pub fn corner(&self, i: usize) -> u32
        requires { i < length self.now.corners }
        ensures { result ≡ corner self.now i }
    {
        self.slot(i)
    }

    // The polygon number in a neighbour's slot.
    pub fn neighbour(&self, i: usize) -> u32
        requires { i < length self.now.corners }
        ensures { result ≡ neighbour self.now i }
    {
        self.slot(self.slots() + i)
    }

    // The polygon across edge i, or none at a wall.
    #[tactic(auto, unfolding(crate::specs::Stored::across))]
    pub fn across(&self, i: usize) -> Option<u32>
        requires { i < length self.now.corners }
        ensures { result ≡ across self.now i }
    {
        let number = self.neighbour(i);
        if number == UNUSED {
            return None;
        }
        Some(number)
    }

    // How many corners it has, counted on from the first so many, which are known to be some.
    pub fn count_on(&self, known: usize) -> usize
        requires { known ≤ corner_count self.now }
        ensures { (result ≡ corner_count self.now) × (result ≤ length self.now.corners) }
    {
        let slots = self.slots();
        for i in known..slots {
            if self.corner(i) == UNUSED {
                return i;
            }
        }
        slots
    }

    // How many corners it has: those before the first unused slot.
    pub fn corner_count(&self) -> usize
        ensures { (result ≡ corner_count self.now) × (result ≤ length self.now.corners) }
    {
        self.count_on(0)
    }

    // The corner behind corner i, and the first one behind the last.
    #[tactic(auto, unfolding(crate::specs::Stored::corner_after))]
    pub fn corner_after(&self, i: usize) -> u32
        requires { i < length self.now.corners }
        ensures { result ≡ corner_after self.now i }
    {
        if self.slots() <= i + 1 {
            return self.corner(0);
        }
        let next = self.corner(i + 1);
        if next == UNUSED {
            return self.corner(0);
        }
        next
    }
}

// What is asked of a floor: the way from one point to another.
#[derive(Clone, Copy)]
pub struct Question {
    pub start: Point,
    pub goal: Point,
}

impl Question {
    // The question that 16 bytes stand for.
    #[tactic(auto, unfolding(crate::specs::Stored::question_of))]
    pub fn read(bytes: &[u8]) -> Question
        requires { length bytes.now ≡ 16 }
        ensures { result ≡ question_of bytes.now }
    {
        Question {
            start: Point::from_bits(word::read(bytes, 0), word::read(bytes, 4)),
            goal: Point::from_bits(word::read(bytes, 8), word::read(bytes, 12)),
        }
    }
}
