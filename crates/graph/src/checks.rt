// The tests of the two calls, stage after stage: 1 and 2, then 3, then 4, 5 and the weight part of 7.
// Shape, ends and weights go on as they came: `network::graph::Graph` stands for tested ones, and a type for these would be made by the two calls alone.
// (One function for both calls, with the labels as an `Option`, would match on it in its contract: the calls' tests are two definitions.)
ghost use Rattle.std.specs.Prelude.{◌≡◌};
ghost use Rattle.network.specs.Network.{graph};
ghost use Rattle.network.specs.Refusals.{verdict};
ghost use Rattle.network.specs.inner.Sound.{ShapeSound};
ghost use Rattle.graph.specs.Outcome.{connectivity_fits, connectivity_tests, listing_fits, listing_tests};

use network::lengths::{check_lengths, ends_fit};
use network::{Refusal, Shape, check_counts, check_graph_rows};

// Whether the rows' ends and weights have their lengths, and there is room for the nodes.
fn connectivity_fits(s: Shape, ends: &[usize], weights: &[f64], nodes: usize) -> bool
    requires { ShapeSound s }
    ensures { result ≡ connectivity_fits (graph s ends.now weights.now) nodes }
{
    ends_fit(s, ends, weights) & (s.cameras + s.points <= nodes)
}

// The same, and just n labels.
fn listing_fits(s: Shape, ends: &[usize], weights: &[f64], nodes: usize, labels: usize) -> bool
    requires { ShapeSound s }
    ensures { result ≡ listing_fits (graph s ends.now weights.now) nodes labels }
{
    connectivity_fits(s, ends, weights, nodes) & (labels == s.cameras)
}

pub(crate) fn check_connectivity(
    s: Shape,
    ends: &[usize],
    weights: &[f64],
    nodes: usize,
) -> Result<(), Refusal>
    ensures { result ≡ verdict (connectivity_tests (graph s ends.now weights.now) nodes) }
{
    check_counts(s)?;
    check_lengths(connectivity_fits(s, ends, weights, nodes))?;
    check_graph_rows(s, ends, weights)
}

pub(crate) fn check_listing(
    s: Shape,
    ends: &[usize],
    weights: &[f64],
    nodes: usize,
    labels: usize,
) -> Result<(), Refusal>
    ensures { result ≡ verdict (listing_tests (graph s ends.now weights.now) nodes labels) }
{
    check_counts(s)?;
    check_lengths(listing_fits(s, ends, weights, nodes, labels))?;
    check_graph_rows(s, ends, weights)
}
