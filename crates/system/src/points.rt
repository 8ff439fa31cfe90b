// Effective weights, point weights and mean offsets.
// (The sums over a list are loops of their own, and each read of a list tells its range: operator/lib.rt and network/links.rt say why.)
ghost use Rattle.std.specs.Prelude.{◌≡◌, ◌+◌, ◌*◌, ◌<◌, ◌≤◌, length, set};
ghost use Rattle.field.specs.Count.{field};
ghost use Rattle.field.specs.Buffer.{put, store, number, vector};
ghost use Rattle.network.specs.Network.{rows as number_of_rows};
ghost use Rattle.network.specs.inner.Sound.{ShapeSound, ListedSound};
ghost use Rattle.system.specs.System.{effective_in, pull_in, weight_sum, pull_sum, mean_of, row_sums};
ghost use Rattle.system.specs.Work.{weights_at, means_at, effective_at, matrix_at};
ghost use Rattle.system.specs.inner.Formed.{point_stored, summed};

use crate::effective;
use crate::numbers::Rows;
use crate::work::{effective_at, means_at, weights_at};
use field::{Vec3, put3, zero};
use network::links::listed_at;
use network::{Shape, Span};

// The effective weights of all rows, in their segment (formed at the end of the Rust's `update_robust_weights`).
pub(crate) fn fill_effective(rows: &Rows<'_>, work: &mut [f64])
    requires { matrix_at rows.now.links.shape ≤ length work.old }
    ensures { work.new ≡ store number work.old (effective_at rows.now.links.shape)
        (field (number_of_rows rows.now.links.shape) (effective_in rows.now.weights rows.now.scales)) }
{
    let s = rows.shape();
    let into = effective_at(s);
    let count = s.bearings + s.directions;
    for (r, weight) in work[into..into + count].iter_mut().enumerate() {
        *weight = rows.effective(r);
    }
}

// W: the sum of the effective weights over the rows at the places k of the lists, in list order.
pub fn point_weight(s: Shape, weights: &[f64], scales: &[f64], listed: &[usize], k: Span) -> f64
    requires listed_sound { ListedSound s.bearings listed.now }
    requires s_in_bounds { (number_of_rows s ≤ length weights.now) × (number_of_rows s ≤ length scales.now) }
    requires size_bound { k.first + k.size ≤ s.bearings }
    ensures { result ≡ weight_sum (effective_in weights.now scales.now) listed.now k }
{
    let mut sum = 0.0;
    for i in 0..k.size {
        let r = listed_at(s, listed, k.first + i);
        sum += effective(weights, scales, r);
    }
    sum
}

// The sums over the rows that a point lists: effective weights, and pulls.
#[derive(Clone, Copy)]
struct ListSums {
    weight: f64,
    pull: Vec3,
}

// Both sums over the rows at the places k of the lists, in one pass.
fn list_sums(rows: &Rows<'_>, k: Span) -> ListSums
    requires { k.first + k.size ≤ rows.now.links.shape.bearings }
    ensures weight_value { result.weight ≡ weight_sum (effective_in rows.now.weights rows.now.scales) rows.now.links.listed k }
    ensures pull_value { result.pull ≡ pull_sum (pull_in rows.now.rays rows.now.weights rows.now.scales)
        rows.now.links.listed k }
{
    let links = rows.links();
    let mut weight = 0.0;
    let mut sum = zero();
    for i in 0..k.size {
        let r = links.listed(k.first + i);
        weight += rows.effective(r);
        sum = sum + rows.pull(r);
    }
    ListSums {
        weight: weight,
        pull: sum,
    }
}

// The mean offset of a point of weight w.
fn mean_offset(w: f64, sum: Vec3) -> Vec3
    ensures { result ≡ mean_of w sum }
{
    if w > 1e-12 { sum / w } else { zero() }
}

// The sums of point p, into their places.
fn put_sums(s: Shape, work: &mut [f64], p: usize, t: PointSums)
    requires shape_sound { ShapeSound s }
    requires p_lt_points { (p < s.points) × (matrix_at s ≤ length work.old) }
    ensures { work.new ≡ put vector (set work.old (weights_at s + p) t.weight) (means_at s + 3 * p) t.mean }
{
    let at = weights_at(s) + p;
    work[at] = t.weight;
    put3(work, means_at(s) + 3 * p, t.mean);
}

// The weight and the mean offset of a point.
#[derive(Clone, Copy)]
struct PointSums {
    weight: f64,
    mean: Vec3,
}

// The sums of point p.
fn sum_point(rows: &Rows<'_>, p: usize) -> PointSums
    requires { p < rows.now.links.shape.points }
    ensures { let S = row_sums rows.now in
        result ≡ record { weight = S.weights.point p; mean = S.mean p } }
{
    let t = list_sums(rows, rows.links().span(p));
    PointSums {
        weight: t.weight,
        mean: mean_offset(t.weight, t.pull),
    }
}

// The sums of point p, stored.
fn store_point(rows: &Rows<'_>, work: &mut [f64], p: usize)
    requires { (p < rows.now.links.shape.points) × (matrix_at rows.now.links.shape ≤ length work.old) }
    ensures { work.new ≡ point_stored rows.now.links.shape (row_sums rows.now) p work.old }
{
    let s = rows.shape();
    let t = sum_point(rows, p);
    put_sums(s, work, p, t);
}

// The weights and the mean offsets of all points: the Rust's `update_point_statistics`.
pub(crate) fn sum_points(rows: &Rows<'_>, work: &mut [f64])
    requires { matrix_at rows.now.links.shape ≤ length work.old }
    ensures { work.new ≡ summed rows.now.links.shape (row_sums rows.now) work.old rows.now.links.shape.points }
{
    for p in 0..rows.shape().points {
        store_point(rows, work, p);
    }
}
