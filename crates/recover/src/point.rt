// Points from placed cameras (`recover_trial_points`). The positions and the weights are read in the work buffer.
// It goes as a slice beside the rows, since system's reads take it so and ask for its room: a struct of reads would be taken apart for each of them.
ghost use Rattle.std.specs.Prelude.{◌≡◌, ◌+◌, ◌*◌, ◌<◌, ◌≤◌, length};
ghost use Rattle.field.specs.Vec.{at, scale};
ghost use Rattle.network.specs.Network.{rows as number_of_rows, first_end};
ghost use Rattle.network.specs.inner.Sound.{ShapeSound};
ghost use Rattle.system.specs.System.{network_of, pull_sum};
ghost use Rattle.system.specs.Work.{matrix_at};
ghost use Rattle.system.specs.inner.Formed.{positions_in, weights_in};
ghost use Rattle.recover.specs.Recover.{point_by};
ghost use Rattle.recover.specs.inner.Reads.{sighting_in};

use field::{Vec3, get3, zero};
use network::links::Ends;
use network::{Shape, Span};
use system::numbers::Rows;
use system::reads::{point_weight, row_weight};
use system::work::positions_at;

// Camera c of the work buffer.
fn placed_camera(s: Shape, work: &[f64], c: usize) -> Vec3
    requires shape_sound { ShapeSound s }
    requires c_lt_cameras { (c < s.cameras) × (matrix_at s ≤ length work.now) }
    ensures { result ≡ at (positions_in s work.now) c }
{
    get3(work, positions_at(s) + 3 * c)
}

// The camera of row r × its effective weight. (operator has its like, of any field: recover is beside operator, not above it.)
fn weighted_camera(e: &Ends<'_>, work: &[f64], r: usize) -> Vec3
    requires { (r < number_of_rows e.now.shape) × (matrix_at e.now.shape ≤ length work.now) }
    ensures { result ≡ scale (at (positions_in e.now.shape work.now) (first_end e.now.ends r))
        ((weights_in e.now.shape work.now).row r) }
{
    let s = e.shape();
    let camera = placed_camera(s, work, e.camera(r));
    camera * row_weight(s, work, r)
}

// Camera × effective weight + ray × (weight × scale), of row r.
fn sight(rows: &Rows<'_>, work: &[f64], r: usize) -> Vec3
    requires { (r < number_of_rows rows.now.links.shape) × (matrix_at rows.now.links.shape ≤ length work.now) }
    ensures { result ≡ sighting_in rows.now work.now r }
{
    let camera = weighted_camera(rows.links().ends(), work, r);
    camera + rows.pull(r)
}

// The sum of the sightings over the rows at the places k of the lists: `listed` tells the range of each, as numbers of a slice would not. (A loop of
// its own: see operator, src/lib.rt.)
fn sum_sightings(rows: &Rows<'_>, work: &[f64], k: Span) -> Vec3
    requires { (k.first + k.size ≤ rows.now.links.shape.bearings) × (matrix_at rows.now.links.shape ≤ length work.now) }
    ensures { result ≡ pull_sum (sighting_in rows.now work.now) rows.now.links.listed k }
{
    let links = rows.links();
    let mut sum = zero();
    for i in 0..k.size {
        let r = links.listed(k.first + i);
        sum = sum + sight(rows, work, r);
    }
    sum
}

// Point p: the old one where its weight is below 1e-12, else the sum of its sightings over the weight.
pub(crate) fn recover_point(rows: &Rows<'_>, points: &[f64], work: &[f64], p: usize) -> Vec3
    requires p_lt_points { (p < rows.now.links.shape.points) × (length points.now ≡ 3 * rows.now.links.shape.points) }
    requires work_len { matrix_at rows.now.links.shape ≤ length work.now }
    ensures { let s = rows.now.links.shape in
        result ≡ point_by (network_of rows.now points.now)
        (weights_in s work.now) (positions_in s work.now) p }
{
    let w = point_weight(rows.shape(), work, p);
    if w < 1e-12 {
        return get3(points, 3 * p);
    }
    sum_sightings(rows, work, rows.links().span(p)) / w
}
