#![tactic(auto)]
// The tests 2 to 7, each of one list, one record or the question. 7 is defined here; its code is `question_right` in the crate floor,
// which asks `point_right` of start and goal.

ghost use Rattle.std.specs.Prelude.{◌≡◌, ◌+◌, ◌/◌, ◌≤◌, ◌<◌, ◌++◌, length, get_or};
ghost use Rattle.plan.specs.Plan.{slots_in, polygon_count_in};
ghost use Rattle.stored.specs.Stored.{unused, polygons_in, corner_count, PolygonsPlanned};
ghost use Rattle.faults.specs.Tests.{length_right, coordinate_right, point_right, rest_unused, unlike_earlier, distinct, corners_listed, corners_right};
ghost use Rattle.faults.specs.Tests.{is_back, names_back, link_right, links_right};

use plan::Plan;
use point::Point;
use stored::{StoredPolygon, UNUSED};

// 2 and 3: whole records of a size, from 1 to a limit.
#[tactic(auto, unfolding(crate::specs::Tests::length_right))]
pub fn length_right(bytes: &[u8], size: usize, most: usize) -> bool
    requires { 0 < size }
    ensures { result ≡ length_right size most bytes.now }
{
    let count = bytes.len() / size;
    bytes.len() % size == 0 && (1 <= count && count <= most)
}

// 4: finite, of magnitude at most the limit.
#[tactic(auto, unfolding(crate::specs::Tests::coordinate_right))]
pub fn coordinate_right(x: f32) -> bool
    ensures { result ≡ coordinate_right x }
{
    -Point::LIMIT <= x && x <= Point::LIMIT
}

#[tactic(auto, unfolding(crate::specs::Tests::point_right))]
pub fn point_right(point: Point) -> bool
    ensures { result ≡ point_right point }
{
    coordinate_right(point.x) && coordinate_right(point.y)
}

// 5 and 6: of the slots of one kind, which begin at a slot, every one from the n-th on is unused.
fn rest_unused(polygon: &StoredPolygon, begin: usize, n: usize) -> bool
    requires { begin ≤ length polygon.now.neighbours }
    ensures { result ≡ rest_unused (λ i. get_or (polygon.now.corners ++ polygon.now.neighbours) (begin + i) unused) (length polygon.now.corners) n }
{
    for i in n..polygon.slots() {
        if polygon.slot(begin + i) != UNUSED {
            return false;
        }
    }
    true
}

// Corner j is none of the corners before it.
fn unlike_earlier(polygon: &StoredPolygon, j: usize) -> bool
    requires { j < length polygon.now.corners }
    ensures { result ≡ unlike_earlier polygon.now j }
{
    let last = polygon.corner(j);
    for i in 0..j {
        if polygon.corner(i) == last {
            return false;
        }
    }
    true
}

// 5: the n corners are distinct, by number.
fn corners_distinct(polygon: &StoredPolygon, n: usize) -> bool
    requires { (n ≤ length polygon.now.corners) × (n ≡ corner_count polygon.now) }
    ensures { result ≡ distinct polygon.now }
{
    for j in 0..n {
        if !unlike_earlier(polygon, j) {
            return false;
        }
    }
    true
}

// 5: each of the n corners is below the vertex count.
fn corners_listed(polygon: &StoredPolygon, vertices: usize, n: usize) -> bool
    requires { (n ≤ length polygon.now.corners) × (n ≡ corner_count polygon.now) }
    ensures { result ≡ corners_listed vertices polygon.now }
{
    for i in 0..n {
        if vertices <= polygon.corner(i) as usize {
            return false;
        }
    }
    true
}

// 5: from 3 corners on, the unused slots behind them, distinct, each below the vertex count.
pub fn corners_right(polygon: &StoredPolygon, vertices: usize) -> bool
    ensures { result ≡ corners_right vertices polygon.now }
{
    let n = polygon.corner_count();
    3 <= n
        && (rest_unused(polygon, 0, n)
            && (corners_distinct(polygon, n) && corners_listed(polygon, vertices, n)))
}

// Edge j of a polygon runs from b to a and has p across it.
#[tactic(auto, unfolding(crate::specs::Tests::is_back))]
fn is_back(polygon: &StoredPolygon, p: u32, a: u32, b: u32, j: usize) -> bool
    requires { j < length polygon.now.corners }
    ensures { result ≡ is_back polygon.now p a b j }
{
    polygon.corner(j) == b && (polygon.corner_after(j) == a && polygon.neighbour(j) == p)
}

// 6: one of a polygon's edges runs from b to a and has p across it. The look ends at the first unused slot, so that the
// corners are not counted for every link.
fn names_back(polygon: &StoredPolygon, p: u32, a: u32, b: u32) -> bool
    ensures { result ≡ names_back polygon.now p a b }
{
    for j in 0..polygon.slots() {
        if polygon.corner(j) == UNUSED {
            return false;
        }
        if is_back(polygon, p, a, b, j) {
            return true;
        }
    }
    false
}

// 6: across edge i of polygon p stands a wall, or another listed polygon that names p back.
fn link_right(polygons: &[u8], plan: &Plan, p: usize, i: usize) -> bool
    requires { PolygonsPlanned plan.now polygons.now × (p < polygon_count_in plan.now) × (i < slots_in plan.now) }
    ensures { result ≡ link_right (polygons_in plan.now polygons.now) p i }
{
    let here = StoredPolygon::at(polygons, plan, p);
    let Some(q) = here.across(i) else {
        return true;
    };
    let q = q as usize;
    if q == p {
        return false;
    }
    if plan.polygon_count() <= q {
        return false;
    }
    let other = StoredPolygon::at(polygons, plan, q);
    names_back(&other, p as u32, here.corner(i), here.corner_after(i))
}

// 6: every link, and no neighbour in a slot that has no corner. The look comes to the first unused slot by itself, so that the corners are not
// counted once more.
pub fn links_right(polygons: &[u8], plan: &Plan, p: usize) -> bool
    requires { PolygonsPlanned plan.now polygons.now × (p < polygon_count_in plan.now) }
    ensures { result ≡ links_right (polygons_in plan.now polygons.now) p }
{
    let here = StoredPolygon::at(polygons, plan, p);
    let slots = here.slots();
    for i in 0..slots {
        if here.corner(i) == UNUSED {
            return rest_unused(&here, slots, i);
        }
        if !link_right(polygons, plan, p, i) {
            return false;
        }
    }
    true
}
