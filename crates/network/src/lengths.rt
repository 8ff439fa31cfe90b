// 3: the lengths of the slices. The counts have been tested, so no product wraps.
ghost use Rattle.std.specs.Prelude.{◌≡◌, ◌≤◌, length};
ghost use Rattle.network.specs.Network.{rows};
ghost use Rattle.network.specs.Refusals.{verdict, ends_fit, rays_fit, vectors_fit, lists_fit, content_fits, network_fits, length_tests};
ghost use Rattle.network.specs.inner.Sound.{ShapeSound};

use crate::answers::refused_if;
use crate::lent::{Content, Network};
use crate::{Cause, Refusal, Shape};

// The ends and weights of the rows, one by one as in a graph call.
pub fn ends_fit(s: Shape, ends: &[usize], weights: &[f64]) -> bool
    requires { ShapeSound s }
    ensures { result ≡ ends_fit (rows s) ends.now weights.now }
{
    let count = s.bearings + s.directions;
    (ends.len() == 2 * count) & (weights.len() == count)
}

// The rays and scales of the rows. (Like the function above but for the slices' types and the three: one for both would be told more than it tests.)
fn rays_fit(c: &Content<'_>) -> bool
    requires { ShapeSound c.now.shape }
    ensures { result ≡ rays_fit (rows c.now.shape) c.now.rays c.now.scales }
{
    let s = c.shape;
    let count = s.bearings + s.directions;
    (c.rays.len() == 3 * count) & (c.scales.len() == count)
}

// n vectors.
pub fn vectors_fit(n: usize, l: &[f64]) -> bool
    requires { n ≤ 65536 }
    ensures { result ≡ vectors_fit n l.now }
{
    l.len() == 3 * n
}

// The point lists.
fn lists_fit(net: &Network<'_>) -> bool
    requires { ShapeSound net.now.shape }
    ensures { let n = net.now in result ≡ lists_fit n.shape.points n.shape.bearings n.offsets n.listed }
{
    let s = net.shape;
    (net.offsets.len() == s.points + 1) & (net.listed.len() == s.bearings)
}

// Every slice of a network but its point lists.
pub fn content_fits(c: &Content<'_>) -> bool
    requires { ShapeSound c.now.shape }
    ensures { let n = c.now in result ≡ content_fits n.shape n.ends n.rays n.weights n.scales n.positions }
{
    let s = c.shape;
    ends_fit(s, c.ends, c.weights) & rays_fit(c) & vectors_fit(s.points, c.points)
}

// Every slice of a network.
pub fn network_fits(net: &Network<'_>) -> bool
    requires { ShapeSound net.now.shape }
    ensures { result ≡ network_fits net.now }
{
    content_fits(&net.content()) & lists_fit(net)
}

// 3, where `fit` says that every slice which the call is lent has its length.
pub fn check_lengths(fit: bool) -> Result<(), Refusal>
    ensures { result ≡ verdict (length_tests fit) }
{
    refused_if(Cause::Lengths, !fit)
}
