// The dense solve: Cholesky factor and substitution of the reduced camera system (the Rust's dense.rs).
// The work buffer stays beside the system (see system, src/work.rt), so that it has room for the system is asked where it is read.
#![tactic(auto)]

mod cameras;
mod couplings;
mod matrix;
mod rows;

ghost use Rattle.std.specs.Prelude.{◌≡◌, ◌*◌, ◌<◌, ◌≤◌, length};
ghost use Rattle.field.specs.Buffer.{part, load};
ghost use Rattle.system.specs.Work.{term, matrix_at, work_end};
ghost use Rattle.system.specs.inner.Formed.{weights_in};
ghost use Rattle.dense.specs.Dense.{dimension, cameras_by, dense_solution_by};
ghost use Rattle.dense.specs.inner.Held.{SystemRoom, MatrixFactored, DenseSolved};

use cameras::place_cameras;
use cholesky::{Breakdown, factor};
use couplings::couple_rows;
use matrix::{clear_matrix, set_diagonals};
use network::links::Links;
use rows::DenseSystem;
use system::work::matrix_at;

// The matrix factored where it stands: the second half of the Rust's `factor_reduced_dense`.
fn factor_matrix(system: DenseSystem, work: &mut [f64]) -> Result<(), Breakdown>
    requires room { SystemRoom system.shape system (length work.old) }
    ensures { MatrixFactored system.shape system.size work.old work.new result }
{
    let at = matrix_at(system.shape);
    let end = system.right_at();
    factor(&mut work[at..end], system.size)
}

// The cameras of the matrix that stands in its segment, wherever its couplings come from.
fn solve_matrix(system: DenseSystem, work: &mut [f64]) -> Result<(), Breakdown>
    requires room { SystemRoom system.shape system (length work.old) }
    ensures { DenseSolved system.shape system.size
        (cameras_by system.shape system.anchor (load term work.old 0 system.shape.cameras)
        (part work.old (matrix_at system.shape) (system.size * system.size))) work.old work.new result }
{
    factor_matrix(system, work)?;
    place_cameras(system, work)
}

// Solves the dense system that stands in the work buffer: the Rust's `solve_reduced_dense`. Where it is done, the positions' segment holds
// the cameras.
pub fn solve_dense(links: &Links<'_>, anchor: usize, work: &mut [f64]) -> Result<(), Breakdown>
    requires { (anchor < links.now.shape.cameras) × (work_end links.now.shape (dimension links.now.shape) ≤ length work.old) }
    ensures { DenseSolved links.now.shape (dimension links.now.shape)
        (dense_solution_by links.now (weights_in links.now.shape work.old)
        (load term work.old 0 links.now.shape.cameras) anchor)
        work.old work.new result }
{
    let shape = links.shape();
    let system = DenseSystem {
        shape,
        anchor,
        size: shape.cameras - 1,
    };
    // The matrix, of the weights and the terms that stand in the work buffer: the first half of the Rust's `factor_reduced_dense`.
    clear_matrix(system, work);
    set_diagonals(system, work);
    couple_rows(links, system, work);
    solve_matrix(system, work)
}
