#![tactic(auto)]
// The look at a floor and a question: the tests 2 to 9 in table order. A floor is two lists of records and the number of corner
// slots in a polygon's; a list holds at most as many records as document 01 says.

ghost use Rattle.std.specs.Prelude.{◌≡◌, ℕ, ◌/◌, ◌≤◌, ◌<◌, get_or};
ghost use Rattle.plan.specs.Plan.{most_vertices, vertex_count_in, polygon_count_in};
ghost use Rattle.stored.specs.Stored.{vertex_count, origin, vertices_of, record_in, polygons_in, floor_in, VerticesPlanned, PolygonsPlanned};
ghost use Rattle.faults.specs.Tests.{point_right, question_right};
ghost use Rattle.faults.specs.Accepted.{Corners};
ghost use Rattle.edges.specs.Where.{turns_marked};
ghost use Rattle.edges.specs.AcceptedFloor.{the_floor};
ghost use Rattle.floor.specs.Look.{vertices_look_of, polygons_look_of, records_look_of, corners_look_of, links_look_of, floor_look_of};
ghost use Rattle.floor.specs.Look.{laid_after, plan_if, plan_after, ask_of, look_of, refusal_told};

use edges::AcceptedFloor;
use plan::Plan;
use stored::{Question, StoredPolygon};
use told::Told;

// How many corners a polygon's record has room for.
pub const SLOTS: usize = 8;

// The most records of each list.
const MOST_VERTICES: usize = 1024;

const MOST_POLYGONS: usize = 512;

// Why a floor or a question is refused, with the lowest record at fault where there is one.
#[derive(Clone, Copy)]
pub enum Refusal {
    // 2: the vertex list is not 1 to 1,024 whole records.
    VertexLength,
    // 3: the polygon list is not 1 to 512 whole records.
    PolygonLength,
    // 4: a coordinate of this vertex is not finite, or beyond the limit.
    Vertex(usize),
    // 5: the corners of this polygon.
    Corners(usize),
    // 6: a link or a neighbour's slot of this polygon.
    Links(usize),
    // 7: the question is not 16 bytes, or a coordinate of it is out of range.
    Question,
    // 8: the start is in no polygon.
    StartOutside,
    // 9: the goal is in no polygon.
    GoalOutside,
}

// The polygons in which the start and the goal of a question are.
#[derive(Clone, Copy)]
pub struct Inside {
    pub start: usize,
    pub goal: usize,
}

// 4: vertex v.
#[tactic(auto, using(crate::proofs::Ways::vertex_told))]
fn vertex_right(vertices: &[u8], v: usize) -> bool
    requires { v < vertex_count vertices.now }
    ensures { result ≡ point_right (get_or (vertices_of vertices.now) v origin) }
{
    faults::point_right(stored::stored_vertex(vertices, v))
}

// 4: each vertex, and the lowest at fault is told.
#[tactic(auto, using(crate::proofs::Ways::vertex_wrong_told))]
fn look_at_vertices(vertices: &[u8], plan: &Plan) -> Result<(), Refusal>
    requires { vertex_count_in plan.now ≡ vertex_count vertices.now }
    ensures { result ≡ vertices_look_of (vertices_of vertices.now) }
{
    for v in 0..plan.vertex_count() {
        if !vertex_right(vertices, v) {
            return Err(Refusal::Vertex(v));
        }
    }
    Ok(())
}

// 5: each polygon by itself, and the lowest at fault is told.
#[tactic(auto, using(crate::proofs::Ways::asked_not, crate::proofs::Ways::right_more, crate::proofs::Ways::polygon_told))]
fn look_at_polygons(polygons: &[u8], plan: &Plan) -> Result<(), Refusal>
    requires { PolygonsPlanned plan.now polygons.now }
    ensures { result ≡ polygons_look_of (vertex_count_in plan.now) (polygons_in plan.now polygons.now) }
{
    let vertices = plan.vertex_count();
    for p in 0..plan.polygon_count() {
        if !faults::corners_right(&StoredPolygon::at(polygons, plan, p), vertices) {
            return Err(Refusal::Corners(p));
        }
    }
    Ok(())
}

// 6: the links of each polygon, and the lowest at fault is told.
#[tactic(auto, using(crate::proofs::Ways::link_wrong_told))]
fn look_at_neighbours(polygons: &[u8], plan: &Plan) -> Result<(), Refusal>
    requires { PolygonsPlanned plan.now polygons.now }
    ensures { result ≡ links_look_of (polygons_in plan.now polygons.now) }
{
    for p in 0..plan.polygon_count() {
        if !faults::links_right(polygons, plan, p) {
            return Err(Refusal::Links(p));
        }
    }
    Ok(())
}

// 4 and 5, each over all records before the next.
#[tactic(auto, using(crate::proofs::Ways::records_fault, crate::proofs::Ways::records_rest))]
fn look_at_records(vertices: &[u8], polygons: &[u8], plan: &Plan) -> Result<(), Refusal>
    requires { VerticesPlanned plan.now vertices.now × PolygonsPlanned plan.now polygons.now }
    ensures { result ≡ records_look_of (floor_in plan.now vertices.now polygons.now) }
{
    look_at_vertices(vertices, plan)?;
    look_at_polygons(polygons, plan)
}

// 2 to 5, and the plan is laid: what comes after may lean on the corners.
#[tactic(auto, using(crate::proofs::Ways::few_of, crate::proofs::Ways::vertices_short, crate::proofs::Ways::vertices_unlaid, crate::proofs::Ways::polygons_short, crate::proofs::Ways::polygons_unlaid))]
pub fn look_at_corners(vertices: &[u8], polygons: &[u8], plan: &mut Plan) -> Result<(), Refusal>
    ensures value { result ≡ corners_look_of 8 vertices.now polygons.now }
    ensures plan_after { plan.new ≡ laid_after 8 vertices.now polygons.now plan.old }
{
    if !faults::length_right(vertices, 8, MOST_VERTICES) {
        return Err(Refusal::VertexLength);
    }
    if !faults::length_right(polygons, SLOTS * 8, MOST_POLYGONS) {
        return Err(Refusal::PolygonLength);
    }
    plan.lay(SLOTS, vertices.len() / 8, polygons.len() / (SLOTS * 8));
    look_at_records(vertices, polygons, plan)
}

// 6, of a floor whose corners are right, and the turn vertices of one that is accepted.
#[tactic(auto, using(crate::proofs::Ways::links_plan, crate::proofs::Ways::turns_plan))]
fn look_at_links(polygons: &[u8], plan: &mut Plan) -> Result<(), Refusal>
    requires polygons_planned { PolygonsPlanned plan.old polygons.now × (vertex_count_in plan.old ≤ most_vertices) }
    requires by_index { (p : ℕ) → p < polygon_count_in plan.old → Corners (vertex_count_in plan.old) (record_in plan.old polygons.now p) }
    ensures value { result ≡ links_look_of (polygons_in plan.old polygons.now) }
    ensures plan_after { let before = plan.old in
        let listed = polygons_in before polygons.now in
        plan.new ≡ plan_if (links_look_of listed) (turns_marked listed before) before }
{
    look_at_neighbours(polygons, plan)?;
    edges::turns::mark_turns(polygons, plan);
    Ok(())
}

// 2 to 6, in table order, each over all records before the next. Of a floor that is accepted the plan is filled.
#[tactic(auto, using(crate::proofs::Planned::vertices_few_now, crate::proofs::Planned::polygons_now, crate::proofs::Planned::corners_now, crate::proofs::Planned::links_told, crate::proofs::Planned::plan_told, crate::proofs::Planned::fault_told, crate::proofs::Planned::fault_plan))]
pub fn look_at_floor(vertices: &[u8], polygons: &[u8], plan: &mut Plan) -> Result<(), Refusal>
    ensures value { result ≡ floor_look_of 8 vertices.now polygons.now }
    ensures plan_after { plan.new ≡ plan_after 8 vertices.now polygons.now plan.old }
{
    look_at_corners(vertices, polygons, plan)?;
    look_at_links(polygons, plan)
}

// 7: the question's bytes and coordinates.
#[tactic(auto, using(crate::proofs::Ways::question_short, crate::proofs::Ways::start_wrong, crate::proofs::Ways::goal_told))]
fn question_right(question: &[u8]) -> bool
    ensures { result ≡ question_right question.now }
{
    if question.len() == 16 {
        let asked = Question::read(question);
        return faults::point_right(asked.start) && faults::point_right(asked.goal);
    }
    false
}

// 7 to 9, of a floor that was accepted.
#[tactic(auto, using(crate::proofs::Ways::question_long, crate::proofs::Ways::question_wrong, crate::proofs::Ways::start_outside, crate::proofs::Ways::goal_outside, crate::proofs::Ways::both_inside))]
pub fn ask(floor: &AcceptedFloor, question: &[u8]) -> Result<Inside, Refusal>
    ensures { result ≡ ask_of (the_floor floor.now) question.now }
{
    if !question_right(question) {
        return Err(Refusal::Question);
    }
    let asked = Question::read(question);
    let start = edges::polygon_of(floor, asked.start).ok_or(Refusal::StartOutside)?;
    let goal = edges::polygon_of(floor, asked.goal).ok_or(Refusal::GoalOutside)?;
    Ok(Inside { start, goal })
}

// 2 to 9: the floor, then the question. Of a floor that is accepted the plan is filled.
#[tactic(auto, using(crate::proofs::Asking::looked_held, crate::proofs::Ways::fault_looked, crate::proofs::Ways::asked_looked))]
pub fn look_with(
    vertices: &[u8],
    polygons: &[u8],
    question: &[u8],
    plan: &mut Plan,
) -> Result<Inside, Refusal>
    ensures value { result ≡ look_of 8 vertices.now polygons.now question.now }
    ensures plan_after { plan.new ≡ plan_after 8 vertices.now polygons.now plan.old }
{
    look_at_floor(vertices, polygons, plan)?;
    let floor = AcceptedFloor {
        vertices,
        polygons,
        plan,
    };
    ask(&floor, question)
}

// The same for who wants no plan. Nothing is asked of the caller, and nothing that is lent is changed.
pub fn look_at(vertices: &[u8], polygons: &[u8], question: &[u8]) -> Result<Inside, Refusal>
    ensures { result ≡ look_of 8 vertices.now polygons.now question.now }
{
    let mut plan = Plan::new();
    look_with(vertices, polygons, question, &mut plan)
}

// The number in document 01's table, and the record at fault where there is one.
impl From<Refusal> for Told {
    ghost from_gives = { λ refusal told. told ≡ refusal_told refusal };

    #[tactic(auto, unfolding(crate::specs::Look::refusal_told))]
    fn from(refusal: Refusal) -> Told {
        match refusal {
            Refusal::VertexLength => Told::Alone(2),
            Refusal::PolygonLength => Told::Alone(3),
            Refusal::Vertex(v) => Told::AtRecord(4, v),
            Refusal::Corners(p) => Told::AtRecord(5, p),
            Refusal::Links(p) => Told::AtRecord(6, p),
            Refusal::Question => Told::Alone(7),
            Refusal::StartOutside => Told::Alone(8),
            Refusal::GoalOutside => Told::Alone(9),
        }
    }
}
