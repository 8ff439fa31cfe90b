// The cameras' terms, row by row, and the anchor.
ghost use Rattle.std.specs.Prelude.{◌≡◌, cond, ◌+◌, ◌<◌, ◌≤◌, length};
ghost use Rattle.std.specs.Float.Ieee.{lt};
ghost use Rattle.field.specs.Buffer.{get, put, load, store};
ghost use Rattle.network.specs.Network.{rows as number_of_rows};
ghost use Rattle.system.specs.System.{pull_in, sees, departs, arrives, add_bearing, add_direction, assemble_row, assemble_rows, terms_by, anchor_of};
ghost use Rattle.system.specs.Work.{term, term_place, matrix_at};
ghost use Rattle.system.specs.inner.Formed.{always, sums_in, added};

use crate::numbers::Rows;
use crate::reads::{mean_offset, point_weight, row_weight};
use crate::work::term_at;
use crate::{get_term, put_term};
use field::{Vec3, clear};
use network::links::Ends;

// A bearing added to the term of camera c. (A function for each of the three changes: with the change as a closure, the contract would be a law over what
// the closure gives, longer than the two lines that get and put.)
fn see(work: &mut [f64], c: usize, e: f64, w: f64, mean: Vec3, offset: Vec3)
    requires { (c ≤ 4096) × (term_place (c + 1) ≤ length work.old) }
    ensures { work.new ≡ put term work.old (term_place c)
        (sees e w mean offset (get term work.old (term_place c))) }
{
    let t = get_term(work, c).sees(e, w, mean, offset);
    put_term(work, c, t);
}

// A direction added to the term of its source c.
fn depart(work: &mut [f64], c: usize, e: f64, offset: Vec3)
    requires { (c ≤ 4096) × (term_place (c + 1) ≤ length work.old) }
    ensures { work.new ≡ put term work.old (term_place c) (departs e offset (get term work.old (term_place c))) }
{
    let t = get_term(work, c).departs(e, offset);
    put_term(work, c, t);
}

// And to that of its target.
fn arrive(work: &mut [f64], c: usize, e: f64, offset: Vec3)
    requires { (c ≤ 4096) × (term_place (c + 1) ≤ length work.old) }
    ensures { work.new ≡ put term work.old (term_place c) (arrives e offset (get term work.old (term_place c))) }
{
    let t = get_term(work, c).arrives(e, offset);
    put_term(work, c, t);
}

// Bearing r, whose pull is `offset`, added to its camera's term. Its effective weight and the sums of its point stand in the buffer.
fn add_bearing(ends: &Ends<'_>, work: &mut [f64], r: usize, offset: Vec3)
    requires { (r < ends.now.shape.bearings) × (matrix_at ends.now.shape ≤ length work.old) }
    ensures { work.new ≡ added ends.now.shape (always offset) (add_bearing ends.now.ends r) work.old }
{
    let s = ends.shape();
    let c = ends.camera(r);
    let p = ends.point(r);
    let e = row_weight(s, work, r);
    let w = point_weight(s, work, p);
    let mean = mean_offset(s, work, p);
    see(work, c, e, w, mean, offset);
}

// Direction r, whose pull is `offset`, added to its source's term, and then to its target's.
fn add_direction(ends: &Ends<'_>, work: &mut [f64], r: usize, offset: Vec3)
    requires { (ends.now.shape.bearings ≤ r) × (r < number_of_rows ends.now.shape) × (matrix_at ends.now.shape ≤ length work.old) }
    ensures { work.new ≡ added ends.now.shape (always offset) (add_direction ends.now.ends r) work.old }
{
    let e = row_weight(ends.shape(), work, r);
    let source = ends.camera(r);
    let target = ends.target(r);
    depart(work, source, e, offset);
    arrive(work, target, e, offset);
}

// Row r, whose pull is `offset`.
fn add_row(ends: &Ends<'_>, work: &mut [f64], r: usize, offset: Vec3)
    requires { (r < number_of_rows ends.now.shape) × (matrix_at ends.now.shape ≤ length work.old) }
    ensures { work.new ≡ added ends.now.shape (always offset) (assemble_row ends.now.shape ends.now.ends r) work.old }
{
    if r < ends.shape().bearings {
        add_bearing(ends, work, r, offset);
    } else {
        add_direction(ends, work, r, offset);
    }
}

// What all rows add, in row order.
fn assemble_rows(rows: &Rows<'_>, work: &mut [f64])
    requires { matrix_at rows.now.links.shape ≤ length work.old }
    ensures { work.new ≡ added rows.now.links.shape (pull_in rows.now.rays rows.now.weights rows.now.scales)
        (assemble_rows rows.now.links.shape rows.now.links.ends (number_of_rows rows.now.links.shape)) work.old }
{
    let s = rows.shape();
    let ends = rows.links().ends();
    for r in 0..s.bearings + s.directions {
        let offset = rows.pull(r);
        add_row(ends, work, r, offset);
    }
}

// The terms of all cameras: the Rust's `assemble_camera_system`.
pub(crate) fn assemble(rows: &Rows<'_>, work: &mut [f64])
    requires { matrix_at rows.now.links.shape ≤ length work.old }
    ensures { work.new ≡ store term work.old 0
        (terms_by rows.now.links.shape rows.now.links.ends
        (sums_in rows.now.links.shape (pull_in rows.now.rays rows.now.weights rows.now.scales) work.old)) }
{
    clear(work, term_at(rows.shape().cameras), 0.0);
    assemble_rows(rows, work);
}

// The best camera so far, and its degree.
#[derive(Clone, Copy)]
struct Best {
    camera: usize,
    degree: f64,
}

impl Best {
    // Camera c, where its degree is greater.
    fn or(self, c: usize, degree: f64) -> Best
        ensures { result ≡ cond (lt self.degree degree) (record { camera = c; degree = degree }) self }
    {
        if degree > self.degree {
            return Best {
                camera: c,
                degree: degree,
            };
        }
        self
    }
}

// The camera of the greatest degree, the first on a tie, 0 if none exceeds -1: the Rust's `pick_anchor`.
pub(crate) fn pick_anchor(work: &[f64], n: usize) -> usize
    requires { (n ≤ 4096) × (term_place n ≤ length work.now) }
    ensures { result ≡ anchor_of (load term work.now 0 n) n }
{
    let mut best = Best {
        camera: 0,
        degree: -1.0,
    };
    for c in 0..n {
        best = best.or(c, get_term(work, c).degree);
    }
    best.camera
}
