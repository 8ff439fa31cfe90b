// The couplings of the reduced camera matrix, from the rows: point by point, then direction by direction.
// Bearings are read at the places of a list, since `listed` tells that each is one, as numbers of a slice would not.
ghost use Rattle.std.specs.Prelude.{◌≡◌, ◌+◌, ◌<◌, ◌≤◌, length};
ghost use Rattle.network.specs.inner.Sound.{ShapeSound};
ghost use Rattle.system.specs.Work.{matrix_at};
ghost use Rattle.system.specs.inner.Formed.{weights_in};
ghost use Rattle.dense.specs.Matrix.{shared as shared_of, times, pair_step, with_step, point_step, direction_step, couplings};
ghost use Rattle.dense.specs.inner.Held.{SystemRoom, matrix_changed};

use crate::matrix::couple_cameras;
use crate::rows::DenseSystem;
use network::links::{Ends, Links};
use network::{Shape, Span};
use system::reads::{point_weight, row_weight};

// -e1 × e2 / W, of the bearings r and q of a point of weight w.
fn shared(s: Shape, work: &[f64], w: f64, r: usize, q: usize) -> f64
    requires shape_sound { ShapeSound s }
    requires r_lt_bearings { (r < s.bearings) × (q < s.bearings) × (matrix_at s ≤ length work.now) }
    ensures { result ≡ shared_of ((weights_in s work.now).row r) ((weights_in s work.now).row q) w }
{
    -row_weight(s, work, r) * row_weight(s, work, q) / w
}

// What the bearings r and q of a point of weight w add.
fn couple_pair(ends: &Ends<'_>, system: DenseSystem, work: &mut [f64], w: f64, r: usize, q: usize)
    requires room { SystemRoom ends.now.shape system (length work.old) }
    requires r_bound { (r < ends.now.shape.bearings) × (q < ends.now.shape.bearings) }
    ensures { work.new ≡ matrix_changed ends.now.shape system.size
        (pair_step system.anchor system.size ends.now.ends w r q) work.old }
{
    let i = ends.camera(r);
    let j = ends.camera(q);
    let v = shared(ends.shape(), work, w, r, q);
    couple_cameras(system, work, i, j, v);
}

// Bearing r with each at the places k of the lists.
fn couple_with(links: &Links<'_>, system: DenseSystem, work: &mut [f64], w: f64, r: usize, k: Span)
    requires room { SystemRoom links.now.shape system (length work.old) }
    requires r_bound { (r < links.now.shape.bearings) × (k.first + k.size ≤ links.now.shape.bearings) }
    ensures { work.new ≡ matrix_changed links.now.shape system.size
        (times (with_step system.anchor system.size links.now.ends links.now.listed w r k) k.size) work.old }
{
    let e = links.ends();
    for j in 0..k.size {
        let q = links.listed(k.first + j);
        couple_pair(e, system, work, w, r, q);
    }
}

// Point p, pair by pair in list order: each bearing with those after it. A point is skipped where its weight is below 1e-12.
fn couple_point(links: &Links<'_>, system: DenseSystem, work: &mut [f64], p: usize)
    requires room { SystemRoom links.now.shape system (length work.old) }
    requires p_lt_points { p < links.now.shape.points }
    ensures { work.new ≡ matrix_changed links.now.shape system.size
        (point_step system.anchor system.size links.now p) work.old }
{
    let w = point_weight(links.shape(), work, p);
    if w < 1e-12 {
        return;
    }
    let k = links.span(p);
    for i in 0..k.size {
        let place = k.first + i;
        let r = links.listed(place);
        let after = Span {
            first: place + 1,
            size: k.size - (i + 1),
        };
        couple_with(links, system, work, w, r, after);
    }
}

fn couple_points(links: &Links<'_>, system: DenseSystem, work: &mut [f64])
    requires room { SystemRoom links.now.shape system (length work.old) }
    ensures { work.new ≡ matrix_changed links.now.shape system.size
        (times (point_step system.anchor system.size links.now) links.now.shape.points) work.old }
{
    for p in 0..links.shape().points {
        couple_point(links, system, work, p);
    }
}

// What direction k adds: -e.
fn couple_direction(ends: &Ends<'_>, system: DenseSystem, work: &mut [f64], k: usize)
    requires room { SystemRoom ends.now.shape system (length work.old) }
    requires k_lt_directions { k < ends.now.shape.directions }
    ensures { work.new ≡ matrix_changed ends.now.shape system.size
        (direction_step system.anchor system.size ends.now.shape.bearings ends.now.ends k) work.old }
{
    let s = ends.shape();
    let r = s.bearings + k;
    let i = ends.camera(r);
    let j = ends.target(r);
    let v = -row_weight(s, work, r);
    couple_cameras(system, work, i, j, v);
}

fn couple_directions(ends: &Ends<'_>, system: DenseSystem, work: &mut [f64])
    requires room { SystemRoom ends.now.shape system (length work.old) }
    ensures { work.new ≡ matrix_changed ends.now.shape system.size
        (times (direction_step system.anchor system.size ends.now.shape.bearings ends.now.ends)
        ends.now.shape.directions) work.old }
{
    for k in 0..ends.shape().directions {
        couple_direction(ends, system, work, k);
    }
}

// All couplings.
pub(crate) fn couple_rows(links: &Links<'_>, system: DenseSystem, work: &mut [f64])
    requires room { SystemRoom links.now.shape system (length work.old) }
    ensures { work.new ≡ matrix_changed links.now.shape system.size
        (couplings system.anchor system.size links.now) work.old }
{
    couple_points(links, system, work);
    couple_directions(links.ends(), system, work);
}
