#![tactic(auto)]
// What a node allows and sees, worked out once a node, and the step over a part of an edge.

ghost use Rattle.std.specs.Prelude.{◌≡◌, ◌<◌, length};
ghost use Rattle.plan.specs.Plan.{vertex_count_in, is_marked};
ghost use Rattle.stored.specs.Stored.{vertices_of, VerticesPlanned};
ghost use Rattle.steps.specs.Steps.{is_finite, is_interval};
ghost use Rattle.view.specs.View.{corner_on, view_of, allows_of, keeps_by, clips_by, neighbour_by, clip_if, over_by, step_by};

use cone::Cone;
use cut::SuccessorType;
use plan::Plan;
use point::{Point, Segment};
use route::Step;
use steps::Node;
use stored::StoredPolygon;
use walk::Successor;

// A vertex of the entry edge: whether the way may turn there, and whether that keeps the root.
#[derive(Clone, Copy)]
pub struct Corner {
    pub allowed: bool,
    pub keeps: bool,
}

// Of a node's polygon: whether a part may be stepped over, and through which cone it is seen. A step over a part that is seen keeps
// the root, unless the root is NaN.
#[derive(Clone, Copy)]
pub struct View {
    pub seed: bool,
    pub keeps: bool,
    pub cone: Cone,
    pub right: Corner,
    pub left: Corner,
}

// The largest finite f32.
const LARGEST: f32 = 3.4028235e38;

impl Corner {
    // The way may turn at a vertex that the interval's end lands on and that is a turn vertex.
    #[tactic(auto, unfolding(crate::specs::View::corner_on, point::specs::Point::same_of), using(stored::proofs::Records::vertex_used))]
    fn new(vertices: &[u8], plan: &Plan, v: u32, end: Point, root: Point) -> Corner
        requires { VerticesPlanned plan.now vertices.now × (v < vertex_count_in plan.now) }
        ensures { result ≡ corner_on (vertices_of vertices.now) (is_marked plan.now) v end root }
    {
        let at = stored::used_vertex(vertices, v as usize);
        let turns = plan.turns(v as usize);
        let lands = cone::lands_on(end, at, root);
        let keeps = at == root;
        Corner {
            allowed: lands && turns,
            keeps,
        }
    }
}

impl View {
    // What a node allows and sees, on the floor of this plan.
    #[tactic(auto, unfolding(crate::specs::View::view_of, point::specs::Point::same_of))]
    pub fn new(vertices: &[u8], plan: &Plan, node: Node) -> View
        requires { VerticesPlanned plan.now vertices.now × (node.first < vertex_count_in plan.now) × (node.second < vertex_count_in plan.now) }
        ensures { result ≡ view_of (vertices_of vertices.now) (is_marked plan.now) node }
    {
        let root = node.root;
        let interval = node.interval;
        let right = Corner::new(vertices, plan, node.first, interval.0, root);
        let left = Corner::new(vertices, plan, node.second, interval.1, root);
        let keeps = root == root;
        let cone = Cone::new(root, interval);
        View {
            seed: node.seed,
            keeps,
            cone,
            right,
            left,
        }
    }

    // Whether a part of this kind may be stepped over, and whether a step over it keeps the root.
    #[tactic(auto, unfolding(crate::specs::View::allows_of, crate::specs::View::keeps_by))]
    fn corner(self, kind: SuccessorType) -> Corner
        ensures { result ≡ record { allowed = allows_of self kind; keeps = keeps_by self kind } }
    {
        match kind {
            SuccessorType::Observable => Corner {
                allowed: true,
                keeps: self.keeps,
            },
            SuccessorType::RightNonObservable => self.right,
            SuccessorType::LeftNonObservable => self.left,
        }
    }

    // Whether the node sees a part of this kind through its interval. It does where it keeps its root; the seed has no interval.
    #[tactic(auto, unfolding(crate::specs::View::clips_by))]
    fn clips(self, kind: SuccessorType) -> bool
        ensures { result ≡ clips_by self kind }
    {
        if self.seed {
            return false;
        }
        self.corner(kind).keeps
    }

    // The neighbour that a part of this kind of an edge may be stepped over to. At a wall, and where the kind is not allowed,
    // there is none.
    #[tactic(auto, unfolding(crate::specs::View::neighbour_by))]
    fn neighbour(self, polygon: &StoredPolygon, edge: usize, kind: SuccessorType) -> Option<u32>
        requires { edge < length polygon.now.corners }
        ensures { result ≡ neighbour_by polygon.now self edge kind }
    {
        if self.corner(kind).allowed {
            return polygon.across(edge);
        }
        None
    }

    // The step over a part of an edge of the node's polygon, or none. It is asked for in two, the neighbour first: at a wall, and
    // where the kind is not allowed, nothing is laid out for the clip.
    #[tactic(auto, unfolding(crate::specs::View::step_by, crate::specs::View::neighbour_by, stored::specs::Stored::across))]
    pub fn step(self, polygon: &StoredPolygon, successor: Successor) -> Option<Step>
        requires { successor.edge < length polygon.now.corners }
        ensures { result ≡ step_by polygon.now self successor }
    {
        let kind = successor.part.kind;
        let neighbour = self.neighbour(polygon, successor.edge, kind)?;
        let clips = self.clips(kind);
        over(polygon, neighbour, successor, clips, self.cone)
    }
}

// What is seen of an interval, through the cone or not.
#[tactic(auto, unfolding(crate::specs::View::clip_if))]
fn clip_if(clips: bool, cone: Cone, interval: Segment) -> Option<Segment>
    ensures { result ≡ clip_if clips cone interval }
{
    if clips {
        return cone.clip(interval);
    }
    Some(interval)
}

// The step from a polygon to this neighbour over a part of their edge, or none. It takes the cone and no whole view, since
// what a call takes is copied.
#[tactic(auto, unfolding(crate::specs::View::over_by))]
fn over(
    polygon: &StoredPolygon,
    neighbour: u32,
    successor: Successor,
    clips: bool,
    cone: Cone,
) -> Option<Step>
    requires { successor.edge < length polygon.now.corners }
    ensures { result ≡ over_by polygon.now neighbour successor clips cone }
{
    let edge = successor.edge;
    let part = successor.part;
    let interval = clip_if(clips, cone, part.interval)?;
    if !is_interval(interval) {
        return None;
    }
    let first = polygon.corner(edge);
    let second = polygon.corner_after(edge);
    Some(Step {
        kind: part.kind,
        polygon: neighbour,
        first,
        second,
        interval,
    })
}

// A point of which neither coordinate is infinite or NaN.
#[tactic(auto, unfolding(steps::specs::Steps::is_finite))]
fn is_finite(point: Point) -> bool
    ensures { result ≡ is_finite point }
{
    let x = point.x;
    let y = point.y;
    -LARGEST <= x && (x <= LARGEST && (-LARGEST <= y && y <= LARGEST))
}

// Equal ends, or an end that is not finite, are no interval to step over.
#[tactic(auto, unfolding(steps::specs::Steps::is_interval, point::specs::Point::same_of))]
pub fn is_interval(interval: Segment) -> bool
    ensures { result ≡ is_interval interval }
{
    let right = interval.0;
    let left = interval.1;
    if right == left {
        return false;
    }
    is_finite(right) && is_finite(left)
}
