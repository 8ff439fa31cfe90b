// The iterative solve: preconditioned conjugate gradients for three right sides at once.
// The work buffer stays beside the system (see system, src/work.rt), so that its segments lie in it is asked where it is read.
#![tactic(auto)]

mod components;
mod dot;
mod ends;
mod fields;
mod reduced_system;
mod rounds;

ghost use Rattle.std.specs.Prelude.{◌≡◌, ◌≤◌, length};
ghost use Rattle.field.specs.Count.{lowest};
ghost use Rattle.std.specs.Prelude.{None, Ok};
ghost use Rattle.field.specs.Buffer.{load};
ghost use Rattle.system.specs.System.{diagonal_of};
ghost use Rattle.system.specs.Work.{term, matrix_at};
ghost use Rattle.system.specs.inner.Formed.{weights_in};
ghost use Rattle.iterative.specs.Method.{bad_diagonal};
ghost use Rattle.iterative.specs.Reduced.{problem_by};
ghost use Rattle.iterative.specs.inner.Solver.{IterativeSolved};

use ends::{conclude, start};
use field::Vec3;
use fields::find_bad_diagonal;
use network::answers::refused_at;
use network::links::Links;
use network::{Cause, Refusal, Shape};
use reduced_system::ReducedSystem;
use rounds::iterate;
use std::ops::ControlFlow;

// Which of the components x, y and z are still iterated.
#[derive(Clone, Copy)]
pub struct Active {
    pub x: bool,
    pub y: bool,
    pub z: bool,
}

// The network's shape, by which the fields stand in the work buffer, and the anchor, which no pass over the cameras moves.
#[derive(Clone, Copy)]
pub(crate) struct Frame {
    shape: Shape,
    anchor: usize,
}

// What one round hands to the next: the products of residual and preconditioned residual, the flags, and the rounds made.
#[derive(Clone, Copy)]
pub struct Round {
    pub old: Vec3,
    pub active: Active,
    pub count: usize,
}

// How a round ends: it continues with a component that is still iterated, and breaks off with none.
pub type Step = ControlFlow<Round, Round>;

// The solve where every diagonal is finite: the count of rounds, with the positions in their place.
fn run(t: &ReducedSystem<'_>, work: &mut [f64]) -> Result<usize, Refusal>
    requires s_in_bounds { matrix_at t.now.links.shape ≤ length work.old }
    requires cameras_value { lowest (bad_diagonal t.now.anchor (diagonal_of (load term work.old 0 t.now.links.shape.cameras))) t.now.links.shape.cameras ≡ None }
    ensures { IterativeSolved t.now.links.shape (problem_by t.now.links
        (weights_in t.now.links.shape work.old) (load term work.old 0 t.now.links.shape.cameras) t.now.anchor) work.old work.new result }
{
    let opening = start(t.frame(), work);
    let sums = opening.sums;
    let first = opening.round;
    let end = iterate(t, work, sums, first)?;
    conclude(t, work, sums, end)
}

// The system that stands in the work buffer solved by the written method: positions in their place, where it is accepted. The Rust's
// `solve_reduced_pcg`.
pub fn solve_iterative(links: &Links<'_>, anchor: usize, work: &mut [f64]) -> Result<usize, Refusal>
    requires { matrix_at links.now.shape ≤ length work.old }
    ensures { IterativeSolved links.now.shape (problem_by links.now
        (weights_in links.now.shape work.old) (load term work.old 0 links.now.shape.cameras) anchor) work.old work.new result }
{
    let t = ReducedSystem::new(links, anchor);
    refused_at(Cause::Diagonal, find_bad_diagonal(t.frame(), work))?;
    run(&t, work)
}
