// The solve: checks, routes, report, and what every lent buffer holds after.
#![tactic(auto)]

mod checks;
mod routes;

ghost use Rattle.std.specs.Prelude.{◌≡◌, ◌*◌, ◌≤◌, length};
ghost use Rattle.field.specs.Buffer.{flat, load, vector};
ghost use Rattle.network.specs.inner.Sound.{ShapeSound};
ghost use Rattle.system.specs.Work.{matrix_at, term};
ghost use Rattle.system.specs.System.{rows_of};
ghost use Rattle.system.specs.inner.Formed.{RowsSound, few_in, positions_in, weights_in};
ghost use Rattle.recover.specs.Recover.{points_by};
ghost use Rattle.placement.specs.Routes.{submission};
ghost use Rattle.placement.specs.inner.Routing.{Checked, OutputsFilled, Ran, reported, route_number};
ghost use Rattle.placement.specs.Solved.{Solved};

use checks::check;
use field::{clear, copy3};
use network::lent::Network;
use network::{Refusal, Shape};
use recover::recover_points;
use routes::{Finish, Route, go};
use system::form;
use system::numbers::Rows;
use system::reads::count_few;
use system::work::{positions_at, work_needed};

// An accepted solve: the anchor, the answering route as the number that goes out (1, 2, or 3 for dense after iterative), the rounds (0 when dense
// answered), and how many cameras have a count under 2. (The route is no `Route`: the field is public, and its callers rely on a number.)
#[derive(Clone, Copy, PartialEq, Eq)]
pub struct Report {
    pub anchor: usize,
    pub route: usize,
    pub rounds: usize,
    pub few: usize,
}

// Fills the outputs from the cameras in the work buffer.
fn fill(net: &Network<'_>, work: &[f64], cameras: &mut [f64], placed: &mut [f64])
    requires rows_sound { RowsSound (rows_of net.now) }
    requires points_len { (length net.now.positions ≡ 3 * net.now.shape.points) × (matrix_at net.now.shape ≤ length work.now) }
    requires cameras_len { (length cameras.old ≡ 3 * net.now.shape.cameras) × (length placed.old ≡ 3 * net.now.shape.points) }
    ensures cameras_after { cameras.new ≡ flat vector (positions_in net.now.shape work.now) }
    ensures placed_after { placed.new ≡ flat vector
        (points_by net.now (weights_in net.now.shape work.now) (positions_in net.now.shape work.now)) }
{
    let s = net.shape();
    copy3(work, positions_at(s), cameras, 0, s.cameras);
    recover_points(&Rows::new(net), net.points, work, placed);
}

// The answer, with what the system in the work buffer tells besides: the anchor and few.
fn answered(
    s: Shape,
    anchor: usize,
    ended: Result<Finish, Refusal>,
    work: &[f64],
) -> Result<Report, Refusal>
    requires shape_sound { ShapeSound s }
    requires s_in_bounds { matrix_at s ≤ length work.now }
    ensures { result ≡ reported anchor (few_in (load term work.now 0 s.cameras) s.cameras) ended }
{
    let finish = ended?;
    Ok(Report {
        anchor: anchor,
        route: finish.route.number(),
        rounds: finish.rounds,
        few: count_few(work, s.cameras),
    })
}

// Forms the system and goes the route.
fn run(net: &Network<'_>, route: Route, limit: usize, work: &mut [f64]) -> Result<Report, Refusal>
    requires { Checked net.now (route_number route) limit (length work.old) }
    ensures { Ran net.now (route_number route) limit work.old work.new result }
{
    let rows = Rows::new(net);
    let anchor = form(&rows, work);
    let ended = go(rows.links(), anchor, route, limit, work);
    answered(net.shape(), anchor, ended, work)
}

// The same, and the outputs filled where it is accepted.
fn place(
    net: &Network<'_>,
    route: Route,
    limit: usize,
    work: &mut [f64],
    cameras: &mut [f64],
    placed: &mut [f64],
) -> Result<Report, Refusal>
    requires checked { Checked net.now (route_number route) limit (length work.old) }
    requires cameras_len { (length cameras.old ≡ 3 * net.now.shape.cameras) × (length placed.old ≡ 3 * net.now.shape.points) }
    ensures { OutputsFilled net.now (route_number route) limit result work.old work.new
        cameras.old cameras.new placed.old placed.new }
{
    let report = run(net, route, limit, work)?;
    fill(net, work, cameras, placed);
    Ok(report)
}

// The solve. Bad input is refused, and nothing but the marks is changed; otherwise the needed part of the work buffer ends all zero. The marks end
// all zero once 6 has been tested. The route goes in as a number, since 8 tests it after the others.
pub fn solve(
    net: &Network<'_>,
    marks: &mut [usize],
    route: usize,
    limit: usize,
    work: &mut [f64],
    cameras: &mut [f64],
    placed: &mut [f64],
) -> Result<Report, Refusal>
    ensures { Solved (submission net.now
        (length marks.old) route limit (length work.old) (length cameras.old) (length placed.old))
        result marks.old marks.new work.old work.new
        cameras.old cameras.new placed.old placed.new }
{
    let room = work.len();
    check(net, marks, route, limit, room, cameras.len(), placed.len())?;
    let answer = place(net, Route::of(route), limit, work, cameras, placed);
    clear(work, work_needed(net.shape(), route, limit), 0.0);
    answer
}
