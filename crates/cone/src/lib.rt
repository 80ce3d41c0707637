#![tactic(auto)]
// The port of clip_to_cone and lands_on of vleue/polyanya's src/instance.rs: what a node sees of a segment behind its
// interval, and whether an interval's end is a vertex.

ghost use Rattle.std.specs.Prelude.{◌≡◌};
ghost use Rattle.cone.specs.Cone.{ray_of, cone_of, has_short_ray_of, from_right_of, from_left_of, both_outside_of, fraction_of, cut_of};
ghost use Rattle.cone.specs.Cone.{part_inside_of, part_of, clip_of, clip_to_cone_of};
ghost use Rattle.cone.specs.Landing.{lands_on_of};

use point::{Point, Segment};

// The way from a root to an end of its interval. Its length is worked out once.
#[derive(Clone, Copy)]
pub struct Ray {
    pub along: Point,
    pub length: f32,
}

// What a root sees through its interval, between the rays to the interval's ends. One cone serves every segment that is
// clipped to it.
#[derive(Clone, Copy)]
pub struct Cone {
    pub root: Point,
    pub right: Ray,
    pub left: Ray,
}

// A part of a segment, from one fraction of it to another.
#[derive(Clone, Copy)]
struct Part {
    lo: f32,
    hi: f32,
}

impl Ray {
    #[tactic(auto, unfolding(crate::specs::Cone::ray_of))]
    pub fn new(root: Point, end: Point) -> Ray
        ensures { result ≡ ray_of root end }
    {
        let along = end.minus(root);
        let length = along.length();
        Ray { along, length }
    }
}

impl Cone {
    #[tactic(auto, unfolding(crate::specs::Cone::cone_of))]
    pub fn new(root: Point, interval: Segment) -> Cone
        ensures { result ≡ cone_of root interval }
    {
        let right = Ray::new(root, interval.0);
        let left = Ray::new(root, interval.1);
        Cone { root, right, left }
    }

    // A root sitting on one end of its own interval has no wedge: the ray to that end has no direction, and what it can see
    // is a half plane rather than a slice. There is nothing to clip against, and dividing by that ray's length only
    // manufactures noise.
    #[tactic(auto, unfolding(crate::specs::Cone::has_short_ray_of))]
    fn has_short_ray(self) -> bool
        ensures { result ≡ has_short_ray_of self }
    {
        self.right.length < Point::SLACK || self.left.length < Point::SLACK
    }

    // How far a point sits to the left of the right ray, as a distance rather than a signed area, so that one slack means
    // the same thing whatever the lengths involved. The slack is generous because this runs at every polygon along a path:
    // interval ends that miss a corner by a thousandth of a unit wander further on a long way, and a tighter clip would eat
    // the wedge a little at each step.
    #[tactic(auto, unfolding(crate::specs::Cone::from_right_of))]
    fn from_right(self, point: Point) -> f32
        ensures { result ≡ from_right_of self point }
    {
        self.right.along.perp_dot(point.minus(self.root)) / self.right.length + Point::SLACK
    }

    // How far a point sits to the right of the left ray, with the same slack.
    #[tactic(auto, unfolding(crate::specs::Cone::from_left_of))]
    fn from_left(self, point: Point) -> f32
        ensures { result ≡ from_left_of self point }
    {
        -self.left.along.perp_dot(point.minus(self.root)) / self.left.length + Point::SLACK
    }

    // What the right ray and then the left ray leave of a segment.
    #[tactic(auto, unfolding(crate::specs::Cone::part_inside_of))]
    fn part_inside(self, segment: Segment) -> Option<Part>
        ensures { result ≡ part_inside_of self segment }
    {
        let whole = Part { lo: 0.0, hi: 1.0 };
        let part = whole.cut(self.from_right(segment.0), self.from_right(segment.1))?;
        part.cut(self.from_left(segment.0), self.from_left(segment.1))
    }

    // Narrows a segment to the part of it that lies in the cone. Where a ray is too short there is no cone, and the segment
    // comes back as it is. None where nothing of it is seen.
    #[tactic(auto, unfolding(crate::specs::Cone::clip_of))]
    pub fn clip(self, segment: Segment) -> Option<Segment>
        ensures { result ≡ clip_of self segment }
    {
        if self.has_short_ray() {
            return Some(segment);
        }
        let part = self.part_inside(segment)?;
        if part.lo > part.hi {
            return None;
        }
        Some(part.of(segment))
    }
}

impl Part {
    // What a ray leaves of the part, where the segment's start and end sit so far inside it. lo moves up to a fraction above it, hi down
    // to one below it; a NaN moves neither, and a zero of the other sign does not move lo.
    #[tactic(auto, unfolding(crate::specs::Cone::cut_of, crate::specs::Cone::raised_of, crate::specs::Cone::lowered_of, point::specs::Sides::max_of, point::specs::Sides::min_of))]
    fn cut(self, start: f32, end: f32) -> Option<Part>
        ensures { result ≡ cut_of self start end }
    {
        if both_outside(start, end) {
            return None;
        }
        if start < 0.0 {
            let lo = point::max(fraction(start, end), self.lo);
            return Some(Part { lo, hi: self.hi });
        }
        if end < 0.0 {
            let hi = point::min(fraction(start, end), self.hi);
            return Some(Part { lo: self.lo, hi });
        }
        Some(self)
    }

    // The part's own ends. They are worked out even at 0 and 1: what comes out at 1 need not be segment.1.
    #[tactic(auto, unfolding(crate::specs::Cone::part_of))]
    fn of(self, segment: Segment) -> Segment
        ensures { result ≡ part_of self segment }
    {
        let from = segment.0;
        let to = segment.1;
        let along = to.minus(from);
        let start = from.plus(along.times(self.lo));
        let end = from.plus(along.times(self.hi));
        Segment(start, end)
    }
}

// Whether a segment is wholly on the wrong side of a ray.
#[tactic(auto, unfolding(crate::specs::Cone::both_outside_of))]
fn both_outside(start: f32, end: f32) -> bool
    ensures { result ≡ both_outside_of start end }
{
    start < 0.0 && end < 0.0
}

// Where a segment crosses a ray, as a fraction along it.
#[tactic(auto, unfolding(crate::specs::Cone::fraction_of))]
fn fraction(start: f32, end: f32) -> f32
    ensures { result ≡ fraction_of start end }
{
    start / (start - end)
}

// Narrows a successor's interval to the part of it that its parent could actually see: a successor that keeps its parent's
// root sees through the parent's wedge. Whoever has many segments for one cone keeps a Cone.
#[tactic(auto, unfolding(crate::specs::Cone::clip_to_cone_of))]
pub fn clip_to_cone(root: Point, cone: Segment, segment: Segment) -> Option<Segment>
    ensures { result ≡ clip_to_cone_of root cone segment }
{
    Cone::new(root, cone).clip(segment)
}

// Did a computed interval end land on the vertex that it was meant to? On the bundled meshes the ends that should have been
// corners missed by 1.0 to 1.4 thousandths of a unit. The Rust allows more where the vertex is far from the root: document 01
// does not, and the root is not looked at.
#[tactic(auto, unfolding(crate::specs::Landing::lands_on_of))]
pub fn lands_on(computed: Point, vertex: Point, root: Point) -> bool
    ensures { result ≡ lands_on_of computed vertex root }
{
    computed.distance_squared(vertex) < Point::LANDING * Point::LANDING
}
