// The reduced camera matrix, a list of d × d numbers: its diagonals, and an entry of two cameras.
ghost use Rattle.std.specs.Prelude.{◌≡◌, ◌+◌, ◌*◌, ◌^◌, ◌<◌, length, replicate};
ghost use Rattle.field.specs.Vec.{null};
ghost use Rattle.field.specs.Buffer.{write};
ghost use Rattle.system.specs.Work.{matrix_at};
ghost use Rattle.dense.specs.Matrix.{lower_place, set_diagonal, couple as coupled, times, diagonal_step, couple_cameras};
ghost use Rattle.dense.specs.inner.Held.{RowWithin, SystemRoom, matrix_changed};

use crate::rows::{DenseRow, DenseSystem};
use system::get_term;
use system::work::matrix_at;

// The place of the entry of two rows, in the lower triangle: the greater is its row.
fn lower_place(d: usize, p: DenseRow, q: DenseRow) -> usize
    requires { (p.0 < d) × (q.0 < d) × (d * d < 2 ^ 64) }
    ensures { (result ≡ lower_place d p q) × (result < d * d) }
{
    let i = p.index().max(q.index());
    let j = p.index().min(q.index());
    i * d + j
}

// A row's diagonal v with the ridge.
fn set_diagonal(a: &mut [f64], d: usize, row: Option<DenseRow>, v: f64)
    requires { (length a.old ≡ d * d) × RowWithin d row }
    ensures { a.new ≡ set_diagonal d row v a.old }
{
    let Some(p) = row else {
        return;
    };
    let k = lower_place(d, p, p);
    a[k] = v + 1e-6;
}

// v added to the entry of two rows, in the lower triangle.
#[tactic(auto, unfolding(crate::specs::Matrix::couple))]
fn couple(a: &mut [f64], d: usize, left: Option<DenseRow>, right: Option<DenseRow>, v: f64)
    requires { (length a.old ≡ d * d) × RowWithin d left × RowWithin d right }
    ensures { a.new ≡ coupled d left right v a.old }
{
    let (Some(p), Some(q)) = (left, right) else {
        return;
    };
    let k = lower_place(d, p, q);
    a[k] = a[k] + v;
}

// ---- in its segment of the work buffer

// v added to the entry of cameras i and j: the Rust's `add_dense_coupling`.
pub(crate) fn couple_cameras(system: DenseSystem, work: &mut [f64], i: usize, j: usize, v: f64)
    requires room { SystemRoom system.shape system (length work.old) }
    requires i_bound { (i < system.shape.cameras) × (j < system.shape.cameras) }
    ensures { work.new ≡ matrix_changed system.shape system.size
        (couple_cameras system.anchor system.size i j v) work.old }
{
    let at = matrix_at(system.shape);
    let end = system.right_at();
    let left = system.row(i);
    let right = system.row(j);
    couple(&mut work[at..end], system.size, left, right, v);
}

// The diagonal of camera c, from its term.
fn camera_diagonal(system: DenseSystem, work: &mut [f64], c: usize)
    requires room { SystemRoom system.shape system (length work.old) }
    requires c_lt_cameras { c < system.shape.cameras }
    ensures { work.new ≡ matrix_changed system.shape system.size
        (diagonal_step system.anchor system.size c) work.old }
{
    let at = matrix_at(system.shape);
    let end = system.right_at();
    let v = get_term(work, c).diagonal;
    let row = system.row(c);
    set_diagonal(&mut work[at..end], system.size, row, v);
}

// The diagonals of all cameras but the anchor.
pub(crate) fn set_diagonals(system: DenseSystem, work: &mut [f64])
    requires room { SystemRoom system.shape system (length work.old) }
    ensures { work.new ≡ matrix_changed system.shape system.size
        (times (diagonal_step system.anchor system.size) system.shape.cameras) work.old }
{
    for c in 0..system.shape.cameras {
        camera_diagonal(system, work, c);
    }
}

// A matrix of +0.0.
pub(crate) fn clear_matrix(system: DenseSystem, work: &mut [f64])
    requires room { SystemRoom system.shape system (length work.old) }
    ensures { work.new ≡ write work.old (matrix_at system.shape) (replicate (system.size * system.size) null) }
{
    let at = matrix_at(system.shape);
    let end = system.right_at();
    work[at..end].fill(0.0);
}
