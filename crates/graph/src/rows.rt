// Joining the nodes of a graph row by row. (That there are as many trees as nodes is asked: as a type's fact it would tie the trees to a graph, of which they know nothing.)
ghost use Rattle.std.specs.Prelude.{◌≡◌, ◌+◌, ◌<◌, length};
ghost use Rattle.network.specs.Network.{rows};
ghost use Rattle.graph.specs.Joined.{second_node, Joined, JoinedBelow};
ghost use Rattle.graph.specs.Outcome.{node_count};
ghost use Rattle.graph.specs.inner.Forest.{Spans};

use crate::forest::Trees;
use network::graph::Graph;
use network::links::Ends;

// The second node of a row: points come after the n cameras.
fn second_node(e: &Ends<'_>, row: usize) -> usize
    requires { row < rows e.now.shape }
    ensures { (result ≡ second_node e.now.shape e.now.ends row) × (result < e.now.shape.cameras + e.now.shape.points) }
{
    let s = e.shape();
    if row < s.bearings {
        s.cameras + e.point(row)
    } else {
        e.target(row)
    }
}

// Joins the nodes of one row, if its weight is above 0.
fn join_row(g: &Graph<'_>, row: usize, trees: &mut Trees<'_>)
    requires row_bound { (row < rows g.now.shape) × (length trees.old ≡ node_count g.now) }
    requires spans { Spans (JoinedBelow g.now row) trees.old }
    ensures spans { Spans (JoinedBelow g.now (row + 1)) trees.new }
    ensures len { length trees.new ≡ length trees.old }
{
    if g.weight(row) > 0.0 {
        let ends = g.ends();
        let first = ends.camera(row);
        let second = second_node(ends, row);
        trees.join(first, second);
    }
}

// Joins the nodes of every row whose weight is above 0: the two loops of the Rust's `active_graph_is_connected`.
pub(crate) fn join_rows<'a>(g: &Graph<'_>, nodes: &'a mut [usize]) -> Trees<'a>
    requires { length nodes.old ≡ node_count g.now }
    ensures spans { Spans (Joined g.now) result }
    ensures len { length result ≡ node_count g.now }
{
    let mut trees = Trees::singletons(nodes);
    let s = g.ends().shape();
    for row in 0..s.bearings + s.directions {
        join_row(g, row, &mut trees);
    }
    trees
}
