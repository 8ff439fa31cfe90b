// The reduced camera system, matrix-free (the Rust's `ReducedOperator`). The effective weights and the point weights stand in the work buffer.
// The work buffer stays beside the fields (see system, src/work.rt), so that they lie in it is asked where it is read.
#![tactic(auto)]

pub mod held;
mod short;

ghost use Rattle.std.specs.Prelude.{◌≡◌, ◌+◌, ◌*◌, ◌<◌, ◌≤◌, length};
ghost use Rattle.field.specs.Vec.{at, origin, plus, minus, scale};
ghost use Rattle.field.specs.Count.{upto};
ghost use Rattle.field.specs.Buffer.{get, put, load, store, vector};
ghost use Rattle.network.specs.Network.{first_end, rows};
ghost use Rattle.network.specs.inner.Sound.{ShapeSound};
ghost use Rattle.system.specs.Work.{matrix_at, weights_at};
ghost use Rattle.system.specs.inner.Formed.{weights_in};
ghost use Rattle.operator.specs.Operator.{changed, ridge_at, ridged, times, mean_step, bearing_step, list_step, span_pass, point_step, direction_step};
ghost use Rattle.operator.specs.inner.Applied.{PlacesIn, Ordered, FieldsIn, applied, reduced_in};

use field::{Vec3, anchored, gain3, get3, put3, zero};
use network::links::{Ends, Links};
use network::{Shape, Span};
use short::few_rows;
use system::reads::{point_weight, row_weight};

// The anchor, and where two fields of the cameras stand in the work buffer: the one that is read, and the one that changes.
// No ghost field tells that the two lie apart: that depends on the shape as well, so each contract would ask in its place that the shape is the links'.
#[derive(Clone, Copy)]
pub struct Fields {
    pub anchor: usize,
    pub from: usize,
    pub into: usize,
}

// Camera i × 1e-6, and zero at the anchor.
fn ridge_at(work: &mut [f64], f: Fields, i: usize)
    requires { (i < 4096) × (f.from + 3 * i + 3 ≤ length work.old) × (f.into + 3 * i + 3 ≤ length work.old) }
    ensures { work.new ≡ put vector work.old (f.into + 3 * i)
        (ridge_at f.anchor i (get vector work.old (f.from + 3 * i))) }
{
    let v = anchored(i, f.anchor, zero(), get3(work, f.from + 3 * i) * 1e-6);
    put3(work, f.into + 3 * i, v);
}

// The cameras × 1e-6, and zero at the anchor. (No pass that takes the turn as a closure: its contract would be longer than this loop.)
fn ridge_pass(s: Shape, work: &mut [f64], f: Fields)
    requires { Ordered s f.from f.into (length work.old) }
    ensures { work.new ≡ store vector work.old f.into
        (ridged s.cameras f.anchor (load vector work.old f.from s.cameras)) }
{
    for i in 0..s.cameras {
        ridge_at(work, f, i);
    }
}

// v added to camera c's vector of the field at `into`, unless c is the anchor. (With the operation as a closure, here and in `lose`, the contract would
// be longer than both bodies.)
fn gain(work: &mut [f64], n: usize, f: Fields, c: usize, v: Vec3)
    requires { (n ≤ 4096) × (c < n) × (f.into + 3 * n ≤ length work.old) }
    ensures { work.new ≡ store vector work.old f.into (changed plus f.anchor c v (load vector work.old f.into n)) }
{
    if c != f.anchor {
        gain3(work, f.into + 3 * c, v);
    }
}

// v subtracted from it.
fn lose(work: &mut [f64], n: usize, f: Fields, c: usize, v: Vec3)
    requires { (n ≤ 4096) × (c < n) × (f.into + 3 * n ≤ length work.old) }
    ensures { work.new ≡ store vector work.old f.into (changed minus f.anchor c v (load vector work.old f.into n)) }
{
    if c != f.anchor {
        let u = get3(work, f.into + 3 * c) - v;
        put3(work, f.into + 3 * c, u);
    }
}

// The camera of bearing r gains (camera - u) × its effective weight.
fn bearing_step(e: &Ends<'_>, work: &mut [f64], f: Fields, r: usize, u: Vec3)
    requires fields_in { FieldsIn e.now.shape f.from f.into (length work.old) }
    requires r_bound { r < rows e.now.shape }
    ensures { work.new ≡ applied e.now.shape f.from f.into (bearing_step e.now.ends f.anchor u r) work.old }
{
    let s = e.shape();
    let c = e.camera(r);
    let x = get3(work, f.from + 3 * c);
    let v = (x - u) * row_weight(s, work, r);
    gain(work, s.cameras, f, c, v);
}

// Camera × effective weight of bearing r. (Recover's stands apart: that one asks nothing of where the positions stand.)
fn weighted(e: &Ends<'_>, work: &[f64], from: usize, r: usize) -> Vec3
    requires { (r < e.now.shape.bearings) × (from + 3 * e.now.shape.cameras ≤ weights_at e.now.shape) × (matrix_at e.now.shape ≤ length work.now) }
    ensures { result ≡ scale (at (load vector work.now from e.now.shape.cameras) (first_end e.now.ends r))
        ((weights_in e.now.shape work.now).row r) }
{
    let c = e.camera(r);
    get3(work, from + 3 * c) * row_weight(e.shape(), work, r)
}

// The sum of the cameras that see a point, by effective weight. A list is read by its places, here, below and in `short`: `listed` tells that a row is in
// bounds, which a slice of the list's rows would not. (Sums over a list stand here, in system and in recover, a loop of three lines each: with
// the term as a closure each contract would be longer than the loop.)
fn point_sum(links: &Links<'_>, work: &[f64], from: usize, k: Span) -> Vec3
    requires { PlacesIn links.now.shape from k.first k.size (length work.now) }
    ensures { result ≡ upto (mean_step links.now.ends links.now.listed k (weights_in links.now.shape work.now)
        (load vector work.now from links.now.shape.cameras)) k.size origin }
{
    let e = links.ends();
    let mut sum = zero();
    for i in 0..k.size {
        let r = links.listed(k.first + i);
        sum = sum + weighted(e, work, from, r);
    }
    sum
}

// The bearings of a point whose cameras have the mean u.
fn point_gain(links: &Links<'_>, work: &mut [f64], f: Fields, k: Span, u: Vec3)
    requires fields_in { FieldsIn links.now.shape f.from f.into (length work.old) }
    requires size_bound { k.first + k.size ≤ links.now.shape.bearings }
    ensures { work.new ≡ applied links.now.shape f.from f.into
        (times (list_step links.now.ends links.now.listed k f.anchor u) k.size) work.old }
{
    let e = links.ends();
    for i in 0..k.size {
        let r = links.listed(k.first + i);
        bearing_step(e, work, f, r, u);
    }
}

// A point of weight t: the mean of its cameras, then bearing by bearing.
fn long_step(links: &Links<'_>, work: &mut [f64], f: Fields, k: Span, t: f64)
    requires fields_in { FieldsIn links.now.shape f.from f.into (length work.old) }
    requires size_bound { k.first + k.size ≤ links.now.shape.bearings }
    ensures { work.new ≡ applied links.now.shape f.from f.into
        (span_pass links.now.ends links.now.listed f.anchor k t) work.old }
{
    let u = point_sum(links, work, f.from, k) / t;
    point_gain(links, work, f, k, u);
}

// The same; of a list of two, three or four each bearing is read once.
fn list_step(links: &Links<'_>, work: &mut [f64], f: Fields, k: Span, t: f64)
    requires fields_in { FieldsIn links.now.shape f.from f.into (length work.old) }
    requires size_bound { k.first + k.size ≤ links.now.shape.bearings }
    ensures { work.new ≡ applied links.now.shape f.from f.into
        (span_pass links.now.ends links.now.listed f.anchor k t) work.old }
{
    let first = k.first;
    let size = k.size;
    match size {
        2 => few_rows::<2>(links, work, f, first, t),
        3 => few_rows::<3>(links, work, f, first, t),
        4 => few_rows::<4>(links, work, f, first, t),
        _ => long_step(links, work, f, k, t),
    }
}

// Point p, skipped where its weight is below 1e-12.
fn point_step(links: &Links<'_>, work: &mut [f64], f: Fields, p: usize)
    requires fields_in { FieldsIn links.now.shape f.from f.into (length work.old) }
    requires p_lt_points { p < links.now.shape.points }
    ensures { work.new ≡ applied links.now.shape f.from f.into (point_step links.now f.anchor p) work.old }
{
    let w = point_weight(links.shape(), work, p);
    if w < 1e-12 {
        return;
    }
    list_step(links, work, f, links.span(p), w);
}

fn points_pass(links: &Links<'_>, work: &mut [f64], f: Fields)
    requires { FieldsIn links.now.shape f.from f.into (length work.old) }
    ensures { work.new ≡ applied links.now.shape f.from f.into
        (times (point_step links.now f.anchor) links.now.shape.points) work.old }
{
    for p in 0..links.shape().points {
        point_step(links, work, f, p);
    }
}

// (camera j - camera i) × the effective weight of row r.
fn between(s: Shape, work: &[f64], from: usize, r: usize, i: usize, j: usize) -> Vec3
    requires shape_sound { ShapeSound s }
    requires r_bound { (r < rows s) × (i < s.cameras) × (j < s.cameras) × (from + 3 * s.cameras ≤ weights_at s) × (matrix_at s ≤ length work.now) }
    ensures { result ≡ scale (minus (get vector work.now (from + 3 * j)) (get vector work.now (from + 3 * i)))
        ((weights_in s work.now).row r) }
{
    let x = get3(work, from + 3 * j);
    let y = get3(work, from + 3 * i);
    (x - y) * row_weight(s, work, r)
}

// The source of direction d loses (target - source) × its effective weight, and then its target gains it.
fn direction_step(e: &Ends<'_>, work: &mut [f64], f: Fields, d: usize)
    requires fields_in { FieldsIn e.now.shape f.from f.into (length work.old) }
    requires d_lt_directions { d < e.now.shape.directions }
    ensures { work.new ≡ applied e.now.shape f.from f.into
        (direction_step e.now.shape.bearings e.now.ends f.anchor d) work.old }
{
    let s = e.shape();
    let r = s.bearings + d;
    let i = e.camera(r);
    let j = e.target(r);
    let v = between(s, work, f.from, r, i, j);
    lose(work, s.cameras, f, i, v);
    gain(work, s.cameras, f, j, v);
}

fn directions_pass(e: &Ends<'_>, work: &mut [f64], f: Fields)
    requires { FieldsIn e.now.shape f.from f.into (length work.old) }
    ensures { work.new ≡ applied e.now.shape f.from f.into
        (times (direction_step e.now.shape.bearings e.now.ends f.anchor) e.now.shape.directions) work.old }
{
    for d in 0..e.shape().directions {
        direction_step(e, work, f, d);
    }
}

// The system applied to the field at `from`: camera × 1e-6, then point by point, then direction by direction.
pub(crate) fn apply_core(work: &mut [f64], links: &Links<'_>, f: Fields)
    requires { FieldsIn links.now.shape f.from f.into (length work.old) }
    ensures { work.new ≡ reduced_in links.now f.anchor f.from f.into work.old }
{
    ridge_pass(links.shape(), work, f);
    points_pass(links, work, f);
    directions_pass(links.ends(), work, f);
}
