// The right side of the dense system, and the cameras of its solution: the Rust's `solve_with_factor`.
ghost use Rattle.std.specs.Prelude.{◌≡◌, ◌*◌, ◌<◌, length};
ghost use Rattle.field.specs.Count.{field};
ghost use Rattle.field.specs.Buffer.{load, store, vector, part};
ghost use Rattle.system.specs.Work.{term, positions_at, matrix_at, dense_right_at};
ghost use Rattle.dense.specs.Rows.{dense_row};
ghost use Rattle.dense.specs.Dense.{right_of, camera_vector};
ghost use Rattle.dense.specs.inner.Held.{SystemRoom, put_row, cameras_of, RightSolved, DenseSolved};

use crate::rows::DenseSystem;
use cholesky::{Breakdown, substitute};
use field::{Vec3, get3, put3, zero};
use system::get_term;
use system::work::{matrix_at, positions_at};

// Camera c's vector v into the right side: the anchor has no place there.
fn put_right(system: DenseSystem, work: &mut [f64], c: usize, v: Vec3)
    requires room { SystemRoom system.shape system (length work.old) }
    requires c_lt_cameras { c < system.shape.cameras }
    ensures { work.new ≡ put_row (dense_right_at system.shape system.size)
        (dense_row c system.anchor) v work.old }
{
    let Some(p) = system.row(c) else {
        return;
    };
    put3(work, system.vector_place(p), v);
}

// The right sides of all cameras but the anchor.
fn fill_right(system: DenseSystem, work: &mut [f64])
    requires room { SystemRoom system.shape system (length work.old) }
    ensures { work.new ≡ store vector work.old (dense_right_at system.shape system.size)
        (field system.size (right_of system.anchor (load term work.old 0 system.shape.cameras))) }
{
    for c in 0..system.shape.cameras {
        let t = get_term(work, c);
        put_right(system, work, c, t.right);
    }
}

// The solution in the right side's place, by the factor that stands before it.
fn solve_right(system: DenseSystem, work: &mut [f64]) -> Result<(), Breakdown>
    requires room { SystemRoom system.shape system (length work.old) }
    ensures { RightSolved system.shape system.size work.old work.new result }
{
    let at = matrix_at(system.shape);
    let end = system.right_at() + 3 * system.size;
    substitute(&mut work[at..end], system.size)
}

// Camera c's vector of the solution that stands in the right side's place, and zero at the anchor.
fn camera_vector(system: DenseSystem, work: &[f64], c: usize) -> Vec3
    requires room { SystemRoom system.shape system (length work.now) }
    requires c_lt_cameras { c < system.shape.cameras }
    ensures { result ≡ camera_vector system.anchor
        (load vector work.now (dense_right_at system.shape system.size) system.size) c }
{
    let Some(p) = system.row(c) else {
        return zero();
    };
    get3(work, system.vector_place(p))
}

// The cameras' vectors into the positions. (Not by a closure, as iterative fills its fields: its contract, of any closure, is longer than this loop.)
fn spread(system: DenseSystem, work: &mut [f64])
    requires room { SystemRoom system.shape system (length work.old) }
    ensures { work.new ≡ store vector work.old (positions_at system.shape)
        (field system.shape.cameras (camera_vector system.anchor
        (load vector work.old (dense_right_at system.shape system.size) system.size))) }
{
    let at = positions_at(system.shape);
    for c in 0..system.shape.cameras {
        let v = camera_vector(system, work, c);
        put3(work, at + 3 * c, v);
    }
}

// The cameras, by the factor that stands in the matrix's place and the terms.
pub(crate) fn place_cameras(system: DenseSystem, work: &mut [f64]) -> Result<(), Breakdown>
    requires room { SystemRoom system.shape system (length work.old) }
    ensures { DenseSolved system.shape system.size
        (cameras_of system.shape system.anchor system.size (load term work.old 0 system.shape.cameras)
        (part work.old (matrix_at system.shape) (system.size * system.size))) work.old work.new result }
{
    fill_right(system, work);
    solve_right(system, work)?;
    spread(system, work);
    Ok(())
}
