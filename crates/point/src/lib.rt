#![tactic(auto)]
// Points: what glam's Vec2 gives polyanya (sums, products and lengths), and what its src/helpers.rs adds to it under its own
// names: on which side of a line a point is, mirrored across it, on a segment, in its box. Each f32 operation is in document 01's order.

ghost use Rattle.std.specs.Prelude.{◌≡◌};
ghost use Rattle.point.specs.Point.{point_of, from_bits_of, minus_of, plus_of, times_of, same_of, dot_of, perp_dot_of, length_of, distance_of};
ghost use Rattle.point.specs.Point.{distance_squared_of, project_onto_of, ends_at_of};
ghost use Rattle.point.specs.Sides.{magnitude_of, side_of, same_side_of, mirror_of, on_segment_of, between_of, in_bounding_box_of, min_of, max_of};

// A point is two f32. It is also the way from one point to another. Two are == as Rust has it: 0.0 and -0.0 are the same, and a
// NaN is the same as nothing.
#[derive(Clone, Copy, PartialEq)]
pub struct Point {
    pub x: f32,
    pub y: f32,
}

// Two points in an order: a line through both, or what lies between them.
#[derive(Clone, Copy)]
pub struct Segment(pub Point, pub Point);

// Where a point is, seen along a line.
#[derive(Clone, Copy, PartialEq, Eq)]
pub enum EdgeSide {
    Left,
    Right,
    Edge,
}

impl Point {
    // The largest magnitude of a stored coordinate.
    pub const LIMIT: f32 = 16384.0;

    // An area nearer to zero than this is on the line; a crossing may miss its segment by this part of it.
    pub const EPSILON: f32 = 1e-4;

    // How far a bounding box reaches past its segment.
    pub const BOX_EPSILON: f32 = 1e-6;

    // The slack of a cone, and the length below which its rays are none.
    pub const SLACK: f32 = 0.01;

    // An interval's end lands on a vertex that is nearer than this.
    pub const LANDING: f32 = 0.002;

    // A cut of an edge at this squared distance of its end or nearer is passed over.
    pub const APART: f32 = 1e-6;

    #[tactic(auto, unfolding(crate::specs::Point::point_of))]
    pub fn new(x: f32, y: f32) -> Point
        ensures { result ≡ point_of x y }
    {
        Point { x, y }
    }

    // The point whose coordinates have these bit patterns.
    #[tactic(auto, unfolding(crate::specs::Point::from_bits_of))]
    pub fn from_bits(x: u32, y: u32) -> Point
        ensures { result ≡ from_bits_of x y }
    {
        Point::new(float::from_bits(x), float::from_bits(y))
    }

    #[tactic(auto, unfolding(crate::specs::Point::minus_of))]
    pub fn minus(self, other: Point) -> Point
        ensures { result ≡ minus_of self other }
    {
        Point {
            x: self.x - other.x,
            y: self.y - other.y,
        }
    }

    #[tactic(auto, unfolding(crate::specs::Point::plus_of))]
    pub fn plus(self, other: Point) -> Point
        ensures { result ≡ plus_of self other }
    {
        Point {
            x: self.x + other.x,
            y: self.y + other.y,
        }
    }

    // Rust's v * by, and by * v: which operand stands first shows nowhere.
    #[tactic(auto, unfolding(crate::specs::Point::times_of))]
    pub fn times(self, by: f32) -> Point
        ensures { result ≡ times_of self by }
    {
        Point {
            x: self.x * by,
            y: self.y * by,
        }
    }

    // Whether two points are ==.
    #[tactic(auto, unfolding(crate::specs::Point::same_of))]
    pub fn same(self, other: Point) -> bool
        ensures { result ≡ same_of self other }
    {
        self == other
    }

    #[tactic(auto, unfolding(crate::specs::Point::dot_of))]
    pub fn dot(self, other: Point) -> f32
        ensures { result ≡ dot_of self other }
    {
        self.x * other.x + self.y * other.y
    }

    // Twice the area of the triangle that the two span, above zero where other is to the left of self.
    #[tactic(auto, unfolding(crate::specs::Point::perp_dot_of))]
    pub fn perp_dot(self, other: Point) -> f32
        ensures { result ≡ perp_dot_of self other }
    {
        self.x * other.y - self.y * other.x
    }

    #[tactic(auto, unfolding(crate::specs::Point::length_of))]
    pub fn length(self) -> f32
        ensures { result ≡ length_of self }
    {
        root::root(self.dot(self))
    }

    #[tactic(auto, unfolding(crate::specs::Point::distance_of))]
    pub fn distance(self, other: Point) -> f32
        ensures { result ≡ distance_of self other }
    {
        self.minus(other).length()
    }

    #[tactic(auto, unfolding(crate::specs::Point::distance_squared_of))]
    pub fn distance_squared(self, other: Point) -> f32
        ensures { result ≡ distance_squared_of self other }
    {
        let way = self.minus(other);
        way.dot(way)
    }

    // The part of self that lies along other.
    #[tactic(auto, unfolding(crate::specs::Point::project_onto_of))]
    pub fn project_onto(self, other: Point) -> Point
        ensures { result ≡ project_onto_of self other }
    {
        other.times(self.dot(other)).times(1.0 / other.dot(other))
    }

    // Determines where relative to the given line the point is: Edge if the area is within EPSILON of zero, else Left if
    // it is positive, else Right. NaN is Right.
    #[tactic(auto, unfolding(crate::specs::Sides::side_of))]
    pub fn side(self, line: Segment) -> EdgeSide
        ensures { result ≡ side_of self line }
    {
        let local_point = self.minus(line.0);
        let local_line = line.1.minus(line.0);
        let area = local_line.perp_dot(local_point);
        if magnitude(area) < Point::EPSILON {
            return EdgeSide::Edge;
        }
        if area > 0.0 {
            return EdgeSide::Left;
        }
        EdgeSide::Right
    }

    // Mirrors a point across a line defined by two points.
    #[tactic(auto, unfolding(crate::specs::Sides::mirror_of))]
    pub fn mirror(self, line: Segment) -> Point
        ensures { result ≡ mirror_of self line }
    {
        let local_point = self.minus(line.0);
        let local_line = line.1.minus(line.0);
        let local_reflect_point = local_point
            .project_onto(local_line)
            .times(2.0)
            .minus(local_point);
        line.0.plus(local_reflect_point)
    }

    // Determines if a point lies on a line segment. Being on the line is not enough: the point can be
    // outside the segment but still be on the line.
    #[tactic(auto, unfolding(crate::specs::Sides::on_segment_of, crate::specs::Sides::same_side_of))]
    pub fn on_segment(self, segment: Segment) -> bool
        ensures { result ≡ on_segment_of self segment }
    {
        self.in_bounding_box(segment) && self.side(segment) == EdgeSide::Edge
    }

    // Determines if a point is in a bounding box.
    #[tactic(auto, unfolding(crate::specs::Sides::in_bounding_box_of))]
    pub fn in_bounding_box(self, segment: Segment) -> bool
        ensures { result ≡ in_bounding_box_of self segment }
    {
        between(self.x, segment.0.x, segment.1.x) && between(self.y, segment.0.y, segment.1.y)
    }
}

impl Segment {
    // Whether a point is one of the two, by ==.
    #[tactic(auto, unfolding(crate::specs::Point::ends_at_of, crate::specs::Point::same_of))]
    pub fn ends_at(self, point: Point) -> bool
        ensures { result ≡ ends_at_of self point }
    {
        point == self.0 || point == self.1
    }
}

// Whether two sides are ==.
#[tactic(auto, unfolding(crate::specs::Sides::same_side_of))]
pub fn same_side(a: EdgeSide, b: EdgeSide) -> bool
    ensures { result ≡ same_side_of a b }
{
    a == b
}

// The magnitude of x, as far as a comparison can tell: -0.0 stays, and no comparison knows it from 0.0.
#[tactic(auto, unfolding(crate::specs::Sides::magnitude_of))]
fn magnitude(x: f32) -> f32
    ensures { result ≡ magnitude_of x }
{
    if x < 0.0 {
        return -x;
    }
    x
}

// Whether x is between a and b in either order, or at most Point::BOX_EPSILON past them. NaN is in no range.
#[tactic(auto, unfolding(crate::specs::Sides::between_of))]
fn between(x: f32, a: f32, b: f32) -> bool
    ensures { result ≡ between_of x a b }
{
    min(a, b) - Point::BOX_EPSILON <= x && x <= max(a, b) + Point::BOX_EPSILON
}

// The second operand unless the comparison holds: so min(-0.0, 0.0) is 0.0, and a NaN comes back only as the second.
#[tactic(auto, unfolding(crate::specs::Sides::min_of))]
pub fn min(x: f32, y: f32) -> f32
    ensures { result ≡ min_of x y }
{
    if x < y {
        return x;
    }
    y
}

// The second operand unless the comparison holds.
#[tactic(auto, unfolding(crate::specs::Sides::max_of))]
pub fn max(x: f32, y: f32) -> f32
    ensures { result ≡ max_of x y }
{
    if x > y {
        return x;
    }
    y
}
