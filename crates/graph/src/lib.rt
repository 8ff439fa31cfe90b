// Which cameras of a graph are connected (document 01, connectivity and parts listing; the Rust's `active_graph_is_connected`).
#![tactic(auto)]

mod checks;
mod forest;
mod rows;

ghost use Rattle.std.specs.Prelude.{◌≡◌, ◌+◌, ◌≤◌, length};
ghost use Rattle.network.specs.Network.{graph};
ghost use Rattle.std.specs.Prelude.{Ok};
ghost use Rattle.graph.specs.Joined.{Connected};
ghost use Rattle.graph.specs.Distinct.{distinct};
ghost use Rattle.graph.specs.Outcome.{node_count, nodes_after, Labelled, ConnectivityCall, ListingCall};
ghost use Rattle.graph.specs.inner.Forest.{Decides};

use checks::{check_connectivity, check_listing};
use field::clear;
use network::graph::Graph;
use network::{Refusal, Shape};
use rows::join_rows;

// Whether the graph is connected, with n + m node numbers to work in.
fn connected_in(g: &Graph<'_>, nodes: &mut [usize]) -> bool
    requires { length nodes.old ≡ node_count g.now }
    ensures { Decides result (Connected g.now) }
{
    let mut trees = join_rows(g, nodes);
    trees.all_roots_zero(g.ends().shape().cameras)
}

// The labels and their number, with n + m node numbers to work in.
fn parts_in(g: &Graph<'_>, nodes: &mut [usize], labels: &mut [usize]) -> usize
    requires { (length nodes.old ≡ node_count g.now) × (length labels.old ≡ g.now.shape.cameras) }
    ensures labelled { Labelled g.now labels.new }
    ensures value { result ≡ distinct labels.new }
{
    let mut trees = join_rows(g, nodes);
    trees.list_labels(labels)
}

// The yes or no, once nothing is refused. (One function for this and the next would take the work as a closure: its contract, on what the closure asks
// and leaves of the nodes and the labels, would be longer than the three lines that they share.)
fn decide(g: &Graph<'_>, nodes: &mut [usize]) -> bool
    requires { node_count g.now ≤ length nodes.old }
    ensures decided { Decides result (Connected g.now) }
    ensures nodes_after { nodes.new ≡ nodes_after g.now (Ok tt) nodes.old }
{
    let count = node_count(g);
    let connected = connected_in(g, &mut nodes[..count]);
    clear(nodes, count, 0);
    connected
}

// The labels and their number, once nothing is refused.
fn list_parts(g: &Graph<'_>, nodes: &mut [usize], labels: &mut [usize]) -> usize
    requires { (node_count g.now ≤ length nodes.old) × (length labels.old ≡ g.now.shape.cameras) }
    ensures labelled { Labelled g.now labels.new }
    ensures value { result ≡ distinct labels.new }
    ensures nodes_after { nodes.new ≡ nodes_after g.now (Ok tt) nodes.old }
{
    let size = node_count(g);
    let parts = parts_in(g, &mut nodes[..size], labels);
    clear(nodes, size, 0);
    parts
}

// n + m
fn node_count(g: &Graph<'_>) -> usize
    ensures { result ≡ node_count g.now }
{
    let s = g.ends().shape();
    s.cameras + s.points
}

// Whether a walk of joined nodes leads from camera 0 to every camera.
pub fn is_connected(
    s: Shape,
    ends: &[usize],
    weights: &[f64],
    nodes: &mut [usize],
) -> Result<bool, Refusal>
    ensures { ConnectivityCall (graph s ends.now weights.now) result nodes.old nodes.new }
{
    check_connectivity(s, ends, weights, nodes.len())?;
    Ok(decide(&Graph::new(s, ends, weights), nodes))
}

// Labels each camera with the lowest camera that it reaches, and counts the labels.
pub fn parts(
    s: Shape,
    ends: &[usize],
    weights: &[f64],
    nodes: &mut [usize],
    labels: &mut [usize],
) -> Result<usize, Refusal>
    ensures { ListingCall (graph s ends.now weights.now) result nodes.old nodes.new
        labels.old labels.new }
{
    check_listing(s, ends, weights, nodes.len(), labels.len())?;
    Ok(list_parts(&Graph::new(s, ends, weights), nodes, labels))
}
