// The tests of a solve, stage after stage.
use network::lengths::{check_lengths, network_fits};
use network::lent::Network;
use network::route::check_route;
use network::{Refusal, check_counts, check_network_rows};

// 1 to 7.
pub(crate) fn check_step(net: &Network<'_>, marks: &mut [usize]) -> Result<(), Refusal> {
    let s = net.shape();
    check_counts(s)?;
    check_lengths(network_fits(net))?;
    check_lengths(marks.len() == s.bearings)?;
    check_network_rows(net, marks)
}

// 1 to 8.
pub(crate) fn check_solve(
    net: &Network<'_>,
    marks: &mut [usize],
    route: usize,
    limit: usize,
) -> Result<(), Refusal> {
    check_step(net, marks)?;
    check_route(route, limit)
}
