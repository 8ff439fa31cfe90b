// The start and the end of the solve: `solve_reduced_pcg` before and after its rounds.
ghost use Rattle.std.specs.Prelude.{◌≡◌, length, ◌<◌, ◌≤◌, Ok};
ghost use Rattle.system.specs.Work.{matrix_at};
ghost use Rattle.iterative.specs.Method.{ended};
ghost use Rattle.iterative.specs.Opening.{Opened, start_segments};
ghost use Rattle.iterative.specs.inner.Solver.{FieldsFit, TurnOpened, Started, right_sums, Settled, Tested, Concluded, put_each, state_in, run_in};
ghost use Rattle.iterative.specs.inner.Solver.{frame_of, problem_in};

use crate::components::{allowed, bound, find_bad_residual, starts_active};
use crate::dot::{Dot, add_products};
use crate::fields::{ridged_diagonal, subtract};
use crate::reduced_system::ReducedSystem;
use crate::{Frame, Round, Step};
use field::{Vec3, put3, zero};
use network::{CameraSum, Refusal, Shape};
use std::ops::ControlFlow::{Break, Continue};
use system::get_term;
use system::work::{applied_at, positions_at, preconditioned_at, residual_at, right_at, search_at};

// What the method starts with: the square sums of the right side, and the first round's record.
#[derive(Clone, Copy)]
pub(crate) struct Opening {
    pub(crate) sums: Vec3,
    pub(crate) round: Round,
}

// The sums of the first pass: the squares of the right side, and the products of residual and preconditioned residual.
#[derive(Clone, Copy)]
struct StartSums {
    right: Vec3,
    old: Vec3,
}

// Camera i's vectors of the start: its position zero, its right side and residual b, its preconditioned residual and search vector z.
fn put_start(s: Shape, work: &mut [f64], i: usize, b: Vec3, z: Vec3)
    requires { FieldsFit s (length work.old) × (i < s.cameras) }
    ensures { work.new ≡ put_each (start_segments s (λ j. b) (λ j. z)) i work.old }
{
    let k = 3 * i;
    put3(work, positions_at(s) + k, zero());
    put3(work, right_at(s) + k, b);
    put3(work, residual_at(s) + k, b);
    put3(work, preconditioned_at(s) + k, z);
    put3(work, search_at(s) + k, z);
}

// The same of camera i's term, zero at the anchor; and the camera's products added to the sums.
fn open_camera(frame: Frame, work: &mut [f64], i: usize, sums: StartSums) -> StartSums
    requires { FieldsFit frame.shape (length work.old) × (i < frame.shape.cameras) }
    ensures { TurnOpened frame i sums.right sums.old work.old work.new result.right result.old }
{
    let s = frame.shape;
    if i == frame.anchor {
        put_start(s, work, i, zero(), zero());
        return sums;
    }
    let b = get_term(work, i).right;
    let z = b / ridged_diagonal(work, i);
    put_start(s, work, i, b, z);
    StartSums {
        right: add_products(sums.right, b, b),
        old: add_products(sums.old, b, z),
    }
}

// Every field of the start, and its sums, in one pass over the cameras.
fn open(frame: Frame, work: &mut [f64]) -> StartSums
    requires { FieldsFit frame.shape (length work.old) }
    ensures { let s = frame.shape in Opened s frame.anchor s.cameras work.old work.new result.right result.old }
{
    let mut sums = StartSums {
        right: zero(),
        old: zero(),
    };
    for i in 0..frame.shape.cameras {
        sums = open_camera(frame, work, i, sums);
    }
    sums
}

pub(crate) fn start(frame: Frame, work: &mut [f64]) -> Opening
    requires { FieldsFit frame.shape (length work.old) }
    ensures { Started frame work.old work.new result.sums result.round }
{
    let sums = open(frame, work);
    let right = sums.right;
    let old = sums.old;
    Opening {
        sums: right,
        round: Round {
            old: old,
            active: starts_active(bound(right), right),
            count: 0,
        },
    }
}

// The residual, worked out afresh from the positions, and the sum of its squares, which is still to be made.
fn residual(t: &ReducedSystem<'_>, work: &mut [f64]) -> Dot
    requires s_in_bounds { matrix_at t.now.links.shape ≤ length work.old }
    ensures { Settled t.now.links.shape (problem_in t.now.links t.now.anchor work.old)
        work.old work.new result }
{
    let s = t.shape();
    let at = applied_at(s);
    t.apply(work, positions_at(s), at);
    subtract(s, work, right_at(s), at);
    Dot {
        cameras: s.cameras,
        anchor: t.anchor(),
        first: at,
        second: at,
    }
}

// The final test (13).
fn finish(t: &ReducedSystem<'_>, work: &mut [f64], sums: Vec3) -> Result<(), Refusal>
    requires s_in_bounds { matrix_at t.now.links.shape ≤ length work.old }
    requires sums_value { sums ≡ right_sums (frame_of t.now) work.old }
    ensures { Tested t.now.links.shape (problem_in t.now.links t.now.anchor work.old)
        work.old work.new result }
{
    let dot = residual(t, work);
    let bad = find_bad_residual(allowed(sums), dot.sum(work));
    dot.refused_at(work, CameraSum::Residual, bad)
}

// The answer to a run that ended with the record r.
fn judge(t: &ReducedSystem<'_>, work: &mut [f64], sums: Vec3, r: Round) -> Result<usize, Refusal>
    requires s_in_bounds { matrix_at t.now.links.shape ≤ length work.old }
    requires sums_value { sums ≡ right_sums (frame_of t.now) work.old }
    ensures { Concluded t.now.links.shape (problem_in t.now.links t.now.anchor work.old)
        (ended (state_in t.now.links.shape work.old r)) work.old work.new result }
{
    finish(t, work, sums)?;
    Ok(r.count)
}

// The answer to a run that was not refused.
pub(crate) fn conclude(
    t: &ReducedSystem<'_>,
    work: &mut [f64],
    sums: Vec3,
    x: Step,
) -> Result<usize, Refusal>
    requires s_in_bounds { matrix_at t.now.links.shape ≤ length work.old }
    requires sums_value { sums ≡ right_sums (frame_of t.now) work.old }
    ensures { Concluded t.now.links.shape (problem_in t.now.links t.now.anchor work.old)
        (run_in t.now.links.shape work.old (Ok x)) work.old work.new result }
{
    match x {
        Continue(r) | Break(r) => judge(t, work, sums, r),
    }
}
