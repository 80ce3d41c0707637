#![tactic(auto)]
// What C links of the permitted steps: each function of `steps_c` under its own name. A library is no static library, so these stand apart.

ghost use Rattle.std.specs.Prelude.{◌≡◌};
ghost use Rattle.steps_c.specs.Ask.{node_of, answer_of, answer_number, answer_written};

// The step with number k, counted from 0, out of a node, where the goal is in this polygon: 1, and its record's eight words
// in out. Otherwise out is unchanged: 0 where the node has no such step, document 01's number from 2 to 6 where the floor is
// refused, and 100, which is none of document 01's, where the node does not stand on the floor.
#[unsafe(no_mangle)]
pub extern "C" fn steps_step(
    vertices: &[u8],
    polygons: &[u8],
    goal: u32,
    node: &[u32; 10],
    k: usize,
    out: &mut [u32; 8],
) -> u32
    ensures value { result ≡ answer_number (answer_of vertices.now polygons.now goal (node_of node.now) k) }
    ensures out_after { out.new ≡ answer_written (answer_of vertices.now polygons.now goal (node_of node.now) k)
        out.old }
{
    steps_c::steps_step(vertices, polygons, goal, node, k, out)
}
