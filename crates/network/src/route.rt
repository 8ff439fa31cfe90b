// 8: the route and its dense limit, as the numbers that a call is lent. (An enum would have to be made before 8 is tested; a struct of the two
// would be opened in each contract, since the definitions take the numbers.)
ghost use Rattle.std.specs.Prelude.{◌≡◌, ◌≤◌};
ghost use Rattle.network.specs.Refusals.{verdict, bad_route, dense_rows, route_tests};

use crate::answers::refused_if;
use crate::{Cause, Refusal};

fn bad_route(route: usize, limit: usize) -> bool
    ensures { result ≡ bad_route route limit }
{
    (route < 1) | (3 < route) | (256 < limit)
}

pub fn check_route(route: usize, limit: usize) -> Result<(), Refusal>
    ensures { result ≡ verdict (route_tests route limit) }
{
    refused_if(Cause::Route, bad_route(route, limit))
}

// The rows of the dense system, 0 where the route may not go dense within the limit.
pub fn dense_rows(n: usize, route: usize, limit: usize) -> usize
    requires { 1 ≤ n }
    ensures { (result ≡ dense_rows n route limit) × (result ≤ 256) }
{
    if bad_route(route, limit) | (route == 2) | (limit < n - 1) {
        0
    } else {
        n - 1
    }
}
