// The rounds of `solve_reduced_pcg`. All but the operator works on the system as it stands in the buffer.
// What `bound` and `sums` are is asked of them here and in `ends`: the fact names the buffer, so a struct of them would ask it all the same.
ghost use Rattle.std.specs.Prelude.{◌≡◌, ◌≤◌, ◌<◌, length};
ghost use Rattle.system.specs.Work.{matrix_at};
ghost use Rattle.iterative.specs.Problem.{most_rounds};
ghost use Rattle.iterative.specs.Method.{bound_of, running};
ghost use Rattle.iterative.specs.inner.Solver.{FieldsFit, Iterated, MovedAlong, Ran, Rounded, begun, continued_by, problem_in, redirected_by};
ghost use Rattle.iterative.specs.inner.Solver.{frame_of, right_sums, state_in, stepped_by};

use crate::components::{any, bound, find_bad_curvature, find_bad_product, quotient, stay_active};
use crate::dot::Dot;
use crate::fields::{precondition, step_field, update_search};
use crate::reduced_system::ReducedSystem;
use crate::{Frame, Round, Step};
use field::Vec3;
use network::{CameraSum, Refusal};
use std::ops::ControlFlow::{Break, Continue};
use system::work::{applied_at, positions_at, preconditioned_at, residual_at, search_at};

// The new search vector (12).
fn redirect(frame: Frame, work: &mut [f64], r: Round) -> Result<Step, Refusal>
    requires { FieldsFit frame.shape (length work.old) }
    ensures { Ran frame.shape (redirected_by frame work.old r) work.old work.new result }
{
    let s = frame.shape;
    let active = r.active;
    let old = r.old;
    let at = preconditioned_at(s);
    let from = residual_at(s);
    let new = precondition(frame, work, from, at);
    let dot = Dot {
        cameras: s.cameras,
        anchor: frame.anchor,
        first: from,
        second: at,
    };
    dot.refused_at(work, CameraSum::Product, find_bad_product(active, old, new))?;
    let beta = quotient(new, old);
    update_search(s, work, active, beta, at, search_at(s));
    Ok(Continue(Round {
        old: new,
        active: active,
        count: r.count,
    }))
}

// On with a new search vector, where a component is still active.
fn go_on(frame: Frame, work: &mut [f64], r: Round) -> Result<Step, Refusal>
    requires { FieldsFit frame.shape (length work.old) }
    ensures { Ran frame.shape (continued_by frame work.old r) work.old work.new result }
{
    if any(r.active) {
        redirect(frame, work, r)
    } else {
        Ok(Break(r))
    }
}

// Positions and residual after the step along the search vector.
fn move_along(frame: Frame, work: &mut [f64], bound: Vec3, r: Round, curvature: Vec3) -> Round
    requires fields_fit { FieldsFit frame.shape (length work.old) }
    requires bound_value { bound ≡ bound_of (right_sums frame work.old) }
    requires count_bound { r.count < 4000 }
    ensures { MovedAlong frame r curvature work.old work.new result }
{
    let s = frame.shape;
    let count = r.count + 1;
    let active = r.active;
    let old = r.old;
    let alpha = quotient(old, curvature);
    step_field(
        frame,
        work,
        |x, y| x + y,
        active,
        alpha,
        positions_at(s),
        search_at(s),
    );
    let sums = step_field(
        frame,
        work,
        |x, y| x - y,
        active,
        alpha,
        residual_at(s),
        applied_at(s),
    );
    Round {
        old: old,
        active: stay_active(bound, active, sums),
        count: count,
    }
}

// The round, once the system has been applied to the search vector (11).
fn step(frame: Frame, work: &mut [f64], bound: Vec3, r: Round) -> Result<Step, Refusal>
    requires fields_fit { FieldsFit frame.shape (length work.old) }
    requires bound_value { bound ≡ bound_of (right_sums frame work.old) }
    requires count_bound { r.count < 4000 }
    ensures { Ran frame.shape (stepped_by frame work.old r) work.old work.new result }
{
    let s = frame.shape;
    let dot = Dot {
        cameras: s.cameras,
        anchor: frame.anchor,
        first: search_at(s),
        second: applied_at(s),
    };
    let curvature = dot.sum(work);
    let bad = find_bad_curvature(r.active, r.old, curvature);
    dot.refused_at(work, CameraSum::Curvature, bad)?;
    let t = move_along(frame, work, bound, r, curvature);
    go_on(frame, work, t)
}

pub(crate) fn round(
    t: &ReducedSystem<'_>,
    work: &mut [f64],
    bound: Vec3,
    r: Round,
) -> Result<Step, Refusal>
    requires s_in_bounds { matrix_at t.now.links.shape ≤ length work.old }
    requires bound_value { bound ≡ bound_of (right_sums (frame_of t.now) work.old) }
    requires count_bound { r.count < 4000 }
    ensures { Rounded t.now.links.shape (problem_in t.now.links t.now.anchor work.old)
        r work.old work.new result }
{
    let s = t.shape();
    t.apply(work, search_at(s), applied_at(s));
    step(t.frame(), work, bound, r)
}

// 8(n - 1), clamped to 64 .. 4000.
fn most_rounds(n: usize) -> usize
    requires { (0 < n) × (n ≤ 4096) }
    ensures { (result ≡ most_rounds n) × (result ≤ 4000) }
{
    (8 * (n - 1)).clamp(64, 4000)
}

// The rounds, from a first one with an active component on.
fn rounds(
    t: &ReducedSystem<'_>,
    work: &mut [f64],
    bound: Vec3,
    first: Round,
) -> Result<Step, Refusal>
    requires s_in_bounds { matrix_at t.now.links.shape ≤ length work.old }
    requires bound_value { bound ≡ bound_of (right_sums (frame_of t.now) work.old) }
    requires count_value { first.count ≡ 0 }
    ensures { Iterated t.now.links.shape (problem_in t.now.links t.now.anchor work.old)
        (running (state_in t.now.links.shape work.old first)) work.old work.new result }
{
    let most = most_rounds(t.shape().cameras);
    let mut r = first;
    for _ in 0..most {
        match round(t, work, bound, r)? {
            Continue(n) => r = n,
            Break(n) => return Ok(Break(n)),
        }
    }
    Ok(Continue(r))
}

// The rounds, where the first one has an active component.
pub(crate) fn iterate(
    t: &ReducedSystem<'_>,
    work: &mut [f64],
    sums: Vec3,
    first: Round,
) -> Result<Step, Refusal>
    requires s_in_bounds { matrix_at t.now.links.shape ≤ length work.old }
    requires sums_value { sums ≡ right_sums (frame_of t.now) work.old }
    requires count_value { first.count ≡ 0 }
    ensures { Iterated t.now.links.shape (problem_in t.now.links t.now.anchor work.old)
        (begun (state_in t.now.links.shape work.old first)) work.old work.new result }
{
    if any(first.active) {
        rounds(t, work, bound(sums), first)
    } else {
        Ok(Break(first))
    }
}
