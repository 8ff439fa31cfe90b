// Checks 1 to 8 of a solve.
// The lengths, the route and its limit go one by one, as the definitions and the calls of network and system take them: a struct would lengthen each
// contract. So do the clauses of what 3 has shown (`NetworkLengths`, the marks' length), which network's `check_network_rows` asks for itself.
ghost use Rattle.std.specs.Prelude.{◌≡◌, ◌&&◌, [], ◌++◌, length};
ghost use Rattle.network.specs.Refusals.{end_tests, length_tests, marks_after, network_fits, network_row_tests, route_tests, verdict};
ghost use Rattle.network.specs.inner.Sound.{NetworkLengths, ShapeSound};
ghost use Rattle.placement.specs.Routes.{buffers_fit, early_verdict, submission, submission_verdict};

use network::lengths::{check_lengths, network_fits};
use network::lent::Network;
use network::route::check_route;
use network::{Refusal, Shape, check_counts, check_network_rows};
use system::work::work_needed;

// 3: the lengths of the marks, the outputs and the work buffer.
fn buffers_fit(
    s: Shape,
    marks: usize,
    route: usize,
    limit: usize,
    work: usize,
    cameras: usize,
    placed: usize,
) -> bool
    requires { ShapeSound s }
    ensures { result ≡ buffers_fit s marks route limit work cameras placed }
{
    (marks == s.bearings)
        & (cameras == 3 * s.cameras)
        & (placed == 3 * s.points)
        & (work_needed(s, route, limit) <= work)
}

// 3, of every slice that the call is lent. (recover has its like: each contract names the buffers of its own call.)
fn check_all_lengths(
    net: &Network<'_>,
    marks: usize,
    route: usize,
    limit: usize,
    work: usize,
    cameras: usize,
    placed: usize,
) -> Result<(), Refusal>
    requires { ShapeSound net.now.shape }
    ensures { result ≡ verdict (length_tests (network_fits
        net.now
        && buffers_fit net.now.shape marks route limit work cameras placed)) }
{
    let network_ok = network_fits(net);
    let buffers_ok = buffers_fit(net.shape(), marks, route, limit, work, cameras, placed);
    check_lengths(network_ok & buffers_ok)
}

// 4 to 8. Once 6 has been tested, the marks are all zero.
fn check_rows(
    net: &Network<'_>,
    marks: &mut [usize],
    route: usize,
    limit: usize,
) -> Result<(), Refusal>
    requires shape_sound { ShapeSound net.now.shape }
    requires network_lengths { NetworkLengths net.now }
    requires marks_len { length marks.old ≡ net.now.shape.bearings }
    ensures value { result ≡ verdict (network_row_tests
        net.now
        [] ++ route_tests route limit) }
    ensures marks_after { marks.new ≡ marks_after (verdict (end_tests net.now.shape net.now.ends)) net.now.shape.bearings marks.old }
{
    check_network_rows(net, marks)?;
    check_route(route, limit)
}

// 1 to 8. Once 6 has been tested, the marks are all zero.
pub(crate) fn check(
    net: &Network<'_>,
    marks: &mut [usize],
    route: usize,
    limit: usize,
    work: usize,
    cameras: usize,
    placed: usize,
) -> Result<(), Refusal>
    ensures value { result ≡ submission_verdict (submission
        net.now
        (length marks.old) route limit work cameras placed) }
    ensures marks_after { marks.new ≡ marks_after (early_verdict (submission
        net.now
        (length marks.old) route limit work cameras placed)) net.now.shape.bearings marks.old }
{
    check_counts(net.shape())?;
    check_all_lengths(net, marks.len(), route, limit, work, cameras, placed)?;
    check_rows(net, marks, route, limit)
}
