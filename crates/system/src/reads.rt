// What is read of the work buffer once the sums stand there.
// The shape and the buffer go side by side: where a caller writes the buffer between two reads, a struct of both would be made anew after each write, and
// those that only read would have a second form of each function.
ghost use Rattle.std.specs.Prelude.{◌≡◌, ◌+◌, ◌*◌, ◌<◌, ◌≤◌, length};
ghost use Rattle.field.specs.Buffer.{get, load, vector};
ghost use Rattle.network.specs.Network.{rows};
ghost use Rattle.network.specs.inner.Sound.{ShapeSound};
ghost use Rattle.system.specs.Work.{term, term_place, means_at, matrix_at};
ghost use Rattle.system.specs.inner.Formed.{few_in, weights_in};

use crate::get_term;
use crate::work::{effective_at, means_at, weights_at};
use field::{Vec3, get3};
use network::Shape;

// The effective weight of row r.
pub fn row_weight(s: Shape, work: &[f64], r: usize) -> f64
    requires shape_sound { ShapeSound s }
    requires r_bound { (r < rows s) × (matrix_at s ≤ length work.now) }
    ensures { result ≡ (weights_in s work.now).row r }
{
    let at = effective_at(s) + r;
    work[at]
}

// The weight of point p.
pub fn point_weight(s: Shape, work: &[f64], p: usize) -> f64
    requires shape_sound { ShapeSound s }
    requires p_lt_points { (p < s.points) × (matrix_at s ≤ length work.now) }
    ensures { result ≡ (weights_in s work.now).point p }
{
    let at = weights_at(s) + p;
    work[at]
}

// The mean offset of point p.
pub(crate) fn mean_offset(s: Shape, work: &[f64], p: usize) -> Vec3
    requires shape_sound { ShapeSound s }
    requires p_lt_points { (p < s.points) × (matrix_at s ≤ length work.now) }
    ensures { result ≡ get vector work.now (means_at s + 3 * p) }
{
    get3(work, means_at(s) + 3 * p)
}

// How many of n cameras have a count under 2.
pub fn count_few(work: &[f64], n: usize) -> usize
    requires { (n ≤ 4096) × (term_place n ≤ length work.now) }
    ensures { result ≡ few_in (load term work.now 0 n) n }
{
    let mut few = 0usize;
    for c in 0..n {
        few += usize::from(get_term(work, c).count < 2.0);
    }
    few
}
