#![tactic(auto)]
// The permitted steps out of a node, in the walk's order, for the search and the judge alike.

ghost use Rattle.std.specs.Prelude.{◌≡◌, ◌+◌, ◌/◌, ◌<◌, ◌^◌, length};
ghost use Rattle.stored.specs.Stored.{vertex_count, vertices_of, question_of};
ghost use Rattle.steps.specs.Steps.{seed_node, root_after, enter};
ghost use Rattle.steps.specs.World.{ending_of, trip_of};

use cut::SuccessorType;
use point::{Point, Segment};
use route::Step;
use stored::Question;

// What is asked of a floor: from a start in this polygon to a goal in that one.
#[derive(Clone, Copy)]
pub struct Trip {
    pub start: Point,
    pub goal: Point,
    pub from: u32,
    pub to: u32,
}

// Where steps lead to: the polygon, the edge and the interval that it was entered by, the root, which is the last point where the
// way turned, how long the way to it is and how many points it has, and the polygon that was left for it. The seed, where every
// route begins, was entered by nothing and has left no other polygon than its own. What was left comes last: behind the flag, which
// takes one byte, it would be copied in pieces.
#[derive(Clone, Copy)]
pub struct Node {
    pub seed: bool,
    pub polygon: u32,
    pub first: u32,
    pub second: u32,
    pub interval: Segment,
    pub root: Point,
    pub length: f32,
    pub points: u32,
    pub left: u32,
}

// How a route ends that goes on straight to the goal: how many points it has in all, and how long it is.
#[derive(Clone, Copy)]
pub struct Ending {
    pub points: u32,
    pub length: f32,
}

impl Trip {
    // What a question asks, once it is known in which polygons its start and its goal are.
    pub fn of(question: &[u8], from: u32, to: u32) -> Trip
        requires { length question.now ≡ 16 }
        ensures { result ≡ trip_of (question_of question.now) from to }
    {
        let asked = Question::read(question);
        Trip {
            start: asked.start,
            goal: asked.goal,
            from,
            to,
        }
    }
}

impl Node {
    #[tactic(auto, unfolding(crate::specs::Steps::seed_node))]
    pub fn seed(start: Point, polygon: u32) -> Node
        ensures { result ≡ seed_node start polygon }
    {
        Node {
            seed: true,
            left: polygon,
            polygon,
            first: 0,
            second: 0,
            interval: Segment(start, start),
            root: start,
            length: 0.0,
            points: 0,
        }
    }

    // The root after a step of this kind: the vertex that the way turns at, if it turns.
    #[tactic(auto, unfolding(crate::specs::Steps::root_after), using(stored::proofs::Records::vertex_used))]
    pub fn root_after(self, vertices: &[u8], kind: SuccessorType) -> Point
        requires { (self.first < vertex_count vertices.now) × (self.second < vertex_count vertices.now) }
        ensures { result ≡ root_after (vertices_of vertices.now) self kind }
    {
        match kind {
            SuccessorType::Observable => self.root,
            SuccessorType::RightNonObservable => {
                stored::used_vertex(vertices, self.first as usize)
            }
            SuccessorType::LeftNonObservable => {
                stored::used_vertex(vertices, self.second as usize)
            }
        }
    }

    // Where a step leads to. Where the root is another one, the way has one more point and one more leg.
    #[tactic(auto, unfolding(crate::specs::Steps::enter, point::specs::Point::same_of))]
    pub fn enter(self, vertices: &[u8], step: Step) -> Node
        requires { (self.first < vertex_count vertices.now) × (self.second < vertex_count vertices.now) × (self.points + 1 < 2 ^ 32) }
        ensures { result ≡ enter (vertices_of vertices.now) self step }
    {
        let root = self.root_after(vertices, step.kind);
        let old = self.root;
        if root == old {
            return Node {
                seed: false,
                left: self.polygon,
                polygon: step.polygon,
                first: step.first,
                second: step.second,
                interval: step.interval,
                root,
                length: self.length,
                points: self.points,
            };
        }
        Node {
            seed: false,
            left: self.polygon,
            polygon: step.polygon,
            first: step.first,
            second: step.second,
            interval: step.interval,
            root,
            length: self.length + old.distance(root),
            points: self.points + 1,
        }
    }

    // The way from the last root to the goal, round the interval's end if it has to turn there. Without a step in the chain
    // the goal is the only point.
    #[tactic(auto, unfolding(crate::specs::World::ending_of))]
    pub fn ending(self, goal: Point) -> Ending
        requires { self.points + 2 < 2 ^ 32 }
        ensures { result ≡ ending_of goal self }
    {
        let root = self.root;
        if self.seed {
            return Ending {
                points: self.points + 1,
                length: self.length + root.distance(goal),
            };
        }
        match helpers::turning_point(root, goal, self.interval) {
            Some(point) => Ending {
                points: self.points + 2,
                length: self.length + root.distance(point) + point.distance(goal),
            },
            None => Ending {
                points: self.points + 1,
                length: self.length + root.distance(goal),
            },
        }
    }
}
