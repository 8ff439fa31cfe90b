// The routes, over the system that is formed in the work buffer.
// The work buffer stays beside the links (see system, src/work.rt), so that it has room for the route is asked where it is read. Route and limit go
// beside it as 8 and the length of the work buffer (network, system) take them.
ghost use Rattle.std.specs.Prelude.{◌≡◌, ◌≤◌, ◌<◌, leb, length};
ghost use Rattle.system.specs.Work.{work_length};
ghost use Rattle.dense.specs.Dense.{dimension};
ghost use Rattle.placement.specs.Routes.{broken, by_iterative, dense_or, failing, fall_back, routed_by};
ghost use Rattle.placement.specs.declared.routes.Route.TheVariants.{Iterative};
ghost use Rattle.placement.specs.inner.Routing.{RouteReady, Routed, dense_in, iterative_in, route_number};

use cholesky::Breakdown;
use dense::solve_dense;
use iterative::solve_iterative;
use network::links::Links;
use network::{Cause, Refusal};

// The routes, by their numbers.
#[derive(Clone, Copy)]
pub(crate) enum Route {
    Dense = 1,
    Iterative = 2,
    // iterative, then dense if that refused and n - 1 is within the dense limit
    IterativeThenDense = 3,
}

impl Route {
    // The route of a number that 8 does not refuse. (No `TryFrom`: 8 has been tested, so its error would be a case that no call meets.)
    pub(crate) fn of(number: usize) -> Route
        requires { (1 ≤ number) × (number ≤ 3) }
        ensures { route_number result ≡ number }
    {
        match number {
            1 => Route::Dense,
            2 => Route::Iterative,
            _ => Route::IterativeThenDense,
        }
    }

    // (No `From`: at its one call `usize::from` would say less.)
    pub(crate) fn number(self) -> usize
        ensures { result ≡ route_number self }
    {
        self as usize
    }
}

// How a route that is not refused ends: the answering route and its rounds, 0 where dense answered. (No rounds in a case of an enum: a report has both
// numbers on every route.)
#[derive(Clone, Copy)]
pub(crate) struct Finish {
    pub(crate) route: Route,
    pub(crate) rounds: usize,
}

impl Finish {
    fn iterative(rounds: usize) -> Finish
        ensures { result ≡ record { route = Iterative; rounds = rounds } }
    {
        Finish {
            route: Route::Iterative,
            rounds: rounds,
        }
    }
}

// The refusal of a dense solve that breaks down. (No `From`: both types are of other crates.)
fn refusal(breakdown: Breakdown) -> Refusal
    ensures { result ≡ broken breakdown }
{
    match breakdown {
        Breakdown::Pivot(row) => Refusal::At {
            cause: Cause::Pivot,
            place: row,
        },
        Breakdown::Factor(row) => Refusal::At {
            cause: Cause::Factor,
            place: row,
        },
        Breakdown::Solution(row) => Refusal::At {
            cause: Cause::Solution,
            place: row,
        },
    }
}

// Dense within the limit (the Rust's `dense_fits`), answering as the route that is named; else the refusal.
fn go_dense(
    links: &Links<'_>,
    anchor: usize,
    route: Route,
    limit: usize,
    otherwise: Refusal,
    work: &mut [f64],
) -> Result<Finish, Refusal>
    requires route_ready { RouteReady links.now.shape anchor (route_number route) limit (length work.old) }
    requires not_iterative { route_number route ≡ 2 → ⊥ }
    ensures { let s = links.now.shape in
        Routed s (work_length s (route_number route) limit)
        (dense_or (leb (dimension s) limit) (route_number route) (dense_in links.now anchor work.old) (failing otherwise))
        work.old work.new result }
{
    if links.shape().cameras - 1 > limit {
        return Err(otherwise);
    }
    match solve_dense(links, anchor, work) {
        Ok(()) => Ok(Finish { route, rounds: 0 }),
        Err(breakdown) => Err(refusal(breakdown)),
    }
}

// Route 2.
fn go_iterative(
    links: &Links<'_>,
    anchor: usize,
    limit: usize,
    work: &mut [f64],
) -> Result<Finish, Refusal>
    requires { RouteReady links.now.shape anchor 2 limit (length work.old) }
    ensures { let s = links.now.shape in
        Routed s (work_length s 2 limit) (by_iterative (iterative_in links.now anchor work.old) failing)
        work.old work.new result }
{
    let rounds = solve_iterative(links, anchor, work)?;
    Ok(Finish::iterative(rounds))
}

// Route 3: after a refusal of the iterative part dense, within the limit.
fn go_both(
    links: &Links<'_>,
    anchor: usize,
    limit: usize,
    work: &mut [f64],
) -> Result<Finish, Refusal>
    requires { RouteReady links.now.shape anchor 3 limit (length work.old) }
    ensures { let s = links.now.shape in
        Routed s (work_length s 3 limit) (by_iterative (iterative_in links.now anchor work.old)
        (fall_back (dimension s) limit (dense_in links.now anchor work.old)))
        work.old work.new result }
{
    match solve_iterative(links, anchor, work) {
        Ok(rounds) => Ok(Finish::iterative(rounds)),
        Err(refusal) => go_dense(
            links,
            anchor,
            Route::IterativeThenDense,
            limit,
            refusal,
            work,
        ),
    }
}

// The route, over the system that is formed in the work buffer. In the Rust `solve_reduced` chooses; here the caller does.
pub(crate) fn go(
    links: &Links<'_>,
    anchor: usize,
    route: Route,
    limit: usize,
    work: &mut [f64],
) -> Result<Finish, Refusal>
    requires { RouteReady links.now.shape anchor (route_number route) limit (length work.old) }
    ensures { let s = links.now.shape in
        Routed s (work_length s (route_number route) limit) (routed_by (dimension s) (route_number route) limit
        (iterative_in links.now anchor work.old) (dense_in links.now anchor work.old))
        work.old work.new result }
{
    match route {
        Route::Dense => {
            let over = Refusal::At {
                cause: Cause::Dimension,
                place: links.shape().cameras - 1,
            };
            go_dense(links, anchor, route, limit, over, work)
        }
        Route::Iterative => go_iterative(links, anchor, limit, work),
        Route::IterativeThenDense => go_both(links, anchor, limit, work),
    }
}
