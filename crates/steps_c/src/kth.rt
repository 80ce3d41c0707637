// The step with a number, by one walk round the node's polygon, an edge at a time.

ghost use Rattle.std.specs.Prelude.{◌≡◌, ◌<◌, length};
ghost use Rattle.walk.specs.Walk.{parts_of};
ghost use Rattle.edges.specs.AcceptedFloor.{the_floor};
ghost use Rattle.steps.specs.Steps.{steps_from};
ghost use Rattle.going.specs.Going.{Stands, Yielded};
ghost use Rattle.steps_c.specs.Kth.{kth, counted_of, counted_on};

use edges::AcceptedFloor;
use route::Step;
use steps::Node;
use stored::StoredPolygon;
use view::View;
use walk::{Successor, Walked};

// Step k of those that begin with this one, if it is one; else which of those behind it.
#[tactic(auto, unfolding(crate::specs::Kth::counted_of))]
fn count_off(permitted: Option<Step>, k: usize) -> Result<Step, usize>
    ensures { result ≡ counted_of permitted k }
{
    match permitted {
        Some(step) => {
            if k == 0 {
                return Ok(step);
            }
            Err(k - 1)
        }
        None => Err(k),
    }
}

// Step k of those that begin with the steps over an edge's parts, if it is one of these; else which of those behind them.
fn count_on_edge(
    polygon: &StoredPolygon,
    view: View,
    edge: usize,
    walked: Walked,
    k: usize,
) -> Result<Step, usize>
    requires { (edge < length polygon.now.corners) × Yielded walked }
    ensures { result ≡ counted_on polygon.now view edge (parts_of walked) k }
{
    let mut rest = k;
    for j in 0..walked.count {
        let part = walked.parts[j];
        let permitted = view.step(polygon, Successor { edge, part });
        match count_off(permitted, rest) {
            Ok(step) => return Ok(step),
            Err(behind) => rest = behind,
        }
    }
    Err(rest)
}

// Step k out of the node, counted from 0. Nothing steps out of the goal polygon. It is the search's own way round the polygon,
// and the search's own steps.
pub fn kth_step(floor: &AcceptedFloor, goal: u32, node: Node, k: usize) -> Option<Step>
    requires { Stands floor.now.plan.now floor.now.vertices.now floor.now.polygons.now node }
    ensures { result ≡ kth (steps_from (the_floor floor.now) goal node) k }
{
    if node.polygon == goal {
        return None;
    }
    let polygon = floor.polygon(node.polygon as usize);
    let view = View::new(floor.vertices, floor.plan, node);
    let mut round = going::begin(&polygon, node);
    let mut left = k;
    while !round.is_over() {
        let edge = round.edge();
        let kind = round.kind;
        let walked = going::walk(floor.vertices, &polygon, node, edge, kind);
        match count_on_edge(&polygon, view, edge, walked, left) {
            Ok(step) => return Some(step),
            Err(rest) => {
                left = rest;
                round = round.next(walked.kind);
            }
        }
    }
    None
}
