// Cholesky's factor of a matrix of d rows and columns, in the matrix's place, and the solution by substitution, in the right side's place.
#![tactic(auto)]

ghost use Rattle.std.specs.Prelude.{◌≡◌, ◌+◌, ◌*◌, ◌<◌, ◌≤◌, min, length, set, take};
ghost use Rattle.field.specs.Vec.{at, minus, scale};
ghost use Rattle.field.specs.Buffer.{load, store, vector};
ghost use Rattle.cholesky.specs.Cholesky.{ended, entry as entry_of, factor_entry, pivot as pivot_of, factor as factor_of};
ghost use Rattle.cholesky.specs.Cholesky.{forward_vector, forward as forward_of, back_vector, back_row, back as back_of, Substituted};
ghost use Rattle.cholesky.specs.inner.Stages.{finite4 as finite_four, taken, packed, packed_with, four, stored, Solves, Reduces, Continues};
ghost use Rattle.cholesky.specs.inner.Stages.{Packed, new_cell, with_cell, RowUpdated, PairUpdated, RowsUpdated, Updated};
ghost use Rattle.cholesky.specs.inner.Stages.{RowFinished, RowsFinished, RowSolved, PanelSolved, Eliminated, ColumnsEnd, Finishes};

use double::{all_finite, is_finite, is_positive};
use field::{Vec3, get3, put3};
use sqrt::sqrt;

// Where a factor or a substitution breaks down: the row of the pivot that is not finite or not above 0, of the factor entry that is not finite,
// of the back-substituted number that is not finite.
#[derive(Clone, Copy, Debug, PartialEq, Eq)]
pub enum Breakdown {
    Pivot(usize),
    Factor(usize),
    Solution(usize),
}

// Four neighbouring columns of a row: entries, or what is left of their remainders so far.
// (No array of four: in `solve_four` each has a formula of its own, which reads better by names than by places.)
#[derive(Clone, Copy)]
struct Four {
    first: f64,
    second: f64,
    third: f64,
    fourth: f64,
}

// The columns `from` to `from` + count - 1 of a matrix of `size` rows: packed has, of the rows of these numbers, the panel's four columns from `panel` on.
#[derive(Drop)]
struct Columns<'a> {
    size: usize,
    panel: usize,
    from: usize,
    count: usize,
    packed: &'a [f64; 1024],
    ghost beyond: { panel + 4 ≤ from },
    ghost inside: { from + count ≤ size },
    ghost fit: { count ≤ 256 },
}

// The matrix stays a (s below) and d: were its `&mut` in a struct, each function that writes would promise that `ghost_name` stays, in place of the length.
// Nor is there a struct for the reads alone: a function that writes, as most do, would keep the length and make that struct anew for each read.
// Nor does one hold p, j and rows, which go along in the update and the factor: p is written as a is, and `rows` falls.

// a_ij, or l_ij once that has its place. The matrix stands at the front of a.
fn entry(a: &[f64], d: usize, i: usize, j: usize) -> f64
    requires { (d * d ≤ length a.now) × (i < d) × (j < d) }
    ensures { result ≡ entry_of d a.now i j }
{
    a[i * d + j]
}

fn put_entry(a: &mut [f64], d: usize, i: usize, j: usize, x: f64)
    requires { (d * d ≤ length a.old) × (i < d) × (j < d) }
    ensures { a.new ≡ set a.old (i * d + j) x }
{
    a[i * d + j] = x;
}

// ---- rows, column by column

// a_ij - l_i0 l_j0 - .. - l_i,j-1 l_j,j-1, where the products before `from` are taken off already.
fn remainder(a: &[f64], d: usize, i: usize, j: usize, from: usize) -> f64
    requires { (length a.now ≡ d * d) × (from ≤ j) × (j ≤ i) × (i < d) }
    ensures { Reduces d a.now i j from j result }
{
    let mut v = entry(a, d, i, j);
    for k in from..j {
        v -= entry(a, d, i, k) * entry(a, d, j, k);
    }
    v
}

// l_ij, the remainder over l_jj.
fn factor_entry(a: &mut [f64], d: usize, i: usize, j: usize, from: usize) -> Result<(), Breakdown>
    requires { (length a.old ≡ d * d) × (from ≤ j) × (j < i) × (i < d) }
    ensures { Continues d (factor_entry d i j) a.old i j from result a.new }
{
    let x = remainder(a, d, i, j, from) / entry(a, d, j, j);
    if is_finite(x) {
        put_entry(a, d, i, j, x);
        return Ok(());
    }
    Err(Breakdown::Factor(i))
}

// l_ii, the root of the remainder.
fn pivot(a: &mut [f64], d: usize, i: usize, from: usize) -> Result<(), Breakdown>
    requires { (length a.old ≡ d * d) × (from ≤ i) × (i < d) }
    ensures { Continues d (pivot_of d i) a.old i i from result a.new }
{
    let v = remainder(a, d, i, i, from);
    if is_positive(v) {
        put_entry(a, d, i, i, sqrt(v));
        return Ok(());
    }
    Err(Breakdown::Pivot(i))
}

// A row from column `from` on, where the rows before it are made, and its own entries before `from`.
fn finish_row(a: &mut [f64], d: usize, i: usize, from: usize) -> Result<(), Breakdown>
    requires { (length a.old ≡ d * d) × (from ≤ i) × (i < d) }
    ensures { RowFinished d a.old a.new i from result }
{
    for j in from..i {
        factor_entry(a, d, i, j, from)?;
    }
    pivot(a, d, i, from)
}

// The rows `from` to `to` - 1, where all entries before column `from` are made.
fn finish_rows(a: &mut [f64], d: usize, from: usize, to: usize) -> Result<(), Breakdown>
    requires { (length a.old ≡ d * d) × (from ≤ to) × (to ≤ d) }
    ensures { RowsFinished d a.old a.new from to result }
{
    for i in from..to {
        finish_row(a, d, i, from)?;
    }
    Ok(())
}

// ---- the panel: four columns of the rows below their pivots

// a_ij to a_i,j+3.
fn get_four(a: &[f64], d: usize, i: usize, j: usize) -> Four
    requires { (length a.now ≡ d * d) × (j + 3 < d) × (i < d) }
    ensures { result ≡ four d a.now i j }
{
    let first = entry(a, d, i, j);
    let second = entry(a, d, i, j + 1);
    let third = entry(a, d, i, j + 2);
    let fourth = entry(a, d, i, j + 3);
    Four {
        first,
        second,
        third,
        fourth,
    }
}

fn put_four(a: &mut [f64], d: usize, i: usize, j: usize, v: Four)
    requires { (length a.old ≡ d * d) × (j + 3 < d) × (i < d) }
    ensures { a.new ≡ stored d a.old i j v }
{
    put_entry(a, d, i, j, v.first);
    put_entry(a, d, i, j + 1, v.second);
    put_entry(a, d, i, j + 2, v.third);
    put_entry(a, d, i, j + 3, v.fourth);
}

// The entries in the columns j to j + 3 of a later row, from what the first j products leave of their remainders.
fn solve_four(a: &[f64], d: usize, j: usize, v: Four) -> Four
    requires { (length a.now ≡ d * d) × (j + 3 < d) }
    ensures { Solves d a.now j v result }
{
    let k = j + 1;
    let l = j + 2;
    let m = j + 3;
    let first = v.first / entry(a, d, j, j);
    let second = (v.second - first * entry(a, d, k, j)) / entry(a, d, k, k);
    let third = (v.third - first * entry(a, d, l, j) - second * entry(a, d, l, k))
        / entry(a, d, l, l);
    let fourth = (v.fourth
        - first * entry(a, d, m, j)
        - second * entry(a, d, m, k)
        - third * entry(a, d, m, l))
        / entry(a, d, m, m);
    Four {
        first,
        second,
        third,
        fourth,
    }
}

fn finite4(v: Four) -> bool
    ensures { result ≡ finite_four v }
{
    is_finite(v.first) && (is_finite(v.second) && (is_finite(v.third) && is_finite(v.fourth)))
}

// Row i of the panel of the columns j to j + 3, unless an entry is not finite.
fn panel_row(a: &mut [f64], d: usize, i: usize, j: usize) -> bool
    requires { (length a.old ≡ d * d) × (j + 3 < d) × (i < d) }
    ensures { RowSolved d a.old a.new i j result }
{
    let v = get_four(a, d, i, j);
    let x = solve_four(a, d, j, v);
    if finite4(x) {
        put_four(a, d, i, j, x);
        return true;
    }
    false
}

// The panel down to the first row with an entry that is not finite: that row, or `rows`. It is refused unless a row above it is.
fn panel(a: &mut [f64], d: usize, j: usize, rows: usize) -> usize
    requires { (length a.old ≡ d * d) × (j + 4 ≤ rows) × (rows ≤ d) }
    ensures { PanelSolved d a.old a.new j rows result }
{
    for i in j + 4..rows {
        if !panel_row(a, d, i, j) {
            return i;
        }
    }
    rows
}

// ---- the update: the panel's products, taken off what stands to the right of it

// Two rows at once stand beside one for the speed: at d = 256 the factor took 0.44 ms so, and 0.48 row by row (docs/PERFORMANCE.md). One row is for the rest.

// A row's four entries, at place t of each column.
fn pack_row(p: &mut [f64; 1024], t: usize, x: Four)
    requires { t < 256 }
    ensures { p.new ≡ packed_with p.old t x }
{
    p[t] = x.first;
    p[256 + t] = x.second;
    p[512 + t] = x.third;
    p[768 + t] = x.fourth;
}

// The columns j to j + 3 of n rows, one column after the other in p, so that an update of a row runs along p.
// (In four arrays of 256 they would lie the same way, but each place would be two indices in a list of lists, in place of one.)
fn pack(a: &[f64], p: &mut [f64; 1024], d: usize, j: usize, from: usize, n: usize)
    requires { (length a.now ≡ d * d) × (j + 3 < d) × (from + n ≤ d) × (n ≤ 256) }
    ensures { Packed d a.now j from n p.new }
{
    for t in 0..n {
        let x = get_four(a, d, from + t, j);
        pack_row(p, t, x);
    }
}

// Four products taken off v: x has the row's entries, p the column's.
fn take_four(v: f64, x: Four, p: &[f64; 1024], t: usize) -> f64
    requires { t < 256 }
    ensures { result ≡ taken v x (packed p.now t) }
{
    v - x.first * p[t] - x.second * p[256 + t] - x.third * p[512 + t] - x.fourth * p[768 + t]
}

// What an entry of row i is when four products are taken off it: x is the row's.
fn new_cell(a: &[f64], c: &Columns<'_>, i: usize, t: usize, x: Four) -> f64
    requires { (length a.now ≡ c.now.size * c.now.size) × (i < c.now.size) × (t < c.now.count) }
    ensures { result ≡ new_cell c.now.size a.now c.now.packed.now i c.now.from t x }
{
    take_four(entry(a, c.size, i, c.from + t), x, c.packed, t)
}

fn update_cell(a: &mut [f64], c: &Columns<'_>, i: usize, t: usize, x: Four)
    requires { (length a.old ≡ c.now.size * c.now.size) × (i < c.now.size) × (t < c.now.count) }
    ensures { a.new ≡ with_cell c.now.size a.old c.now.packed.now i c.now.from t x }
{
    let u = new_cell(a, c, i, t, x);
    put_entry(a, c.size, i, c.from + t, u);
}

// w entries of row i.
fn update_row(a: &mut [f64], c: &Columns<'_>, i: usize, w: usize, x: Four)
    requires { (length a.old ≡ c.now.size * c.now.size) × (i < c.now.size) × (w ≤ c.now.count) }
    ensures { RowUpdated c.now.size a.old a.new i c.now.from w x c.now.packed.now }
{
    for t in 0..w {
        update_cell(a, c, i, t, x);
    }
}

// Place t of the rows i and i + 1. Both are read before one is written.
fn update_cells(a: &mut [f64], c: &Columns<'_>, i: usize, t: usize, x: Four, y: Four)
    requires { (length a.old ≡ c.now.size * c.now.size) × (i + 1 < c.now.size) × (t < c.now.count) }
    ensures { a.new ≡ with_cell c.now.size (with_cell c.now.size a.old c.now.packed.now i c.now.from t x)
        c.now.packed.now (i + 1) c.now.from t y }
{
    let u = new_cell(a, c, i, t, x);
    let v = new_cell(a, c, i + 1, t, y);
    put_entry(a, c.size, i, c.from + t, u);
    put_entry(a, c.size, i + 1, c.from + t, v);
}

// 2h entries of the rows i and i + 1: x and y are the rows'. The number is even so that two entries at a time leave no rest.
fn update_pair(a: &mut [f64], c: &Columns<'_>, i: usize, h: usize, x: Four, y: Four)
    requires { (length a.old ≡ c.now.size * c.now.size) × (i + 1 < c.now.size) × (2 * h ≤ c.now.count) }
    ensures { PairUpdated c.now.size a.old a.new i c.now.from (2 * h) (2 * h) x y c.now.packed.now }
{
    for t in 0..2 * h {
        update_cells(a, c, i, t, x, y);
    }
}

// w entries of the two rows.
fn update_common(a: &mut [f64], c: &Columns<'_>, i: usize, w: usize, x: Four, y: Four)
    requires { (length a.old ≡ c.now.size * c.now.size) × (i + 1 < c.now.size) × (w ≤ c.now.count) }
    ensures { PairUpdated c.now.size a.old a.new i c.now.from w w x y c.now.packed.now }
{
    update_pair(a, c, i, w / 2, x, y);
    if w % 2 == 1 {
        update_cells(a, c, i, w - 1, x, y);
    }
}

// The lower triangle's row i, where the rows before it are done.
fn update_one(a: &mut [f64], c: &Columns<'_>, i: usize)
    requires { (length a.old ≡ c.now.size * c.now.size) × (c.now.from ≤ i) × (i < c.now.size) }
    ensures { RowsUpdated c.now.size a.old a.new c.now.panel c.now.from c.now.count i (i + 1) c.now.packed.now }
{
    let x = get_four(a, c.size, i, c.panel);
    let w = c.count.min(i + 1 - c.from);
    update_row(a, c, i, w, x);
}

// w entries of row i, and one more of row i + 1, its diagonal, unless the columns have no more.
fn update_both(a: &mut [f64], c: &Columns<'_>, i: usize, w: usize, x: Four, y: Four)
    requires { (length a.old ≡ c.now.size * c.now.size) × (i + 1 < c.now.size) × (w ≤ c.now.count) }
    ensures { PairUpdated c.now.size a.old a.new i c.now.from w (min c.now.count (w + 1)) x y c.now.packed.now }
{
    update_common(a, c, i, w, x, y);
    if w < c.count {
        update_cell(a, c, i + 1, w, y);
    }
}

// The rows i and i + 1.
fn update_two(a: &mut [f64], c: &Columns<'_>, i: usize)
    requires { (length a.old ≡ c.now.size * c.now.size) × (c.now.from ≤ i) × (i + 1 < c.now.size) }
    ensures { RowsUpdated c.now.size a.old a.new c.now.panel c.now.from c.now.count i (i + 2) c.now.packed.now }
{
    let x = get_four(a, c.size, i, c.panel);
    let y = get_four(a, c.size, i + 1, c.panel);
    let w = c.count.min(i + 1 - c.from);
    update_both(a, c, i, w, x, y);
}

// The lower triangle's rows from `from` on: the first, and then two at a time, which so have an even number of entries in common.
fn update_rows(a: &mut [f64], c: &Columns<'_>, rows: usize)
    requires { (length a.old ≡ c.now.size * c.now.size) × (c.now.from + c.now.count ≤ rows) × (rows ≤ c.now.size) }
    ensures { RowsUpdated c.now.size a.old a.new c.now.panel c.now.from c.now.count c.now.from rows c.now.packed.now }
{
    let from = c.from;
    if rows <= from {
        return;
    }
    update_one(a, c, from);
    for i in (from + 1..rows - 1).step_by(2) {
        update_two(a, c, i);
    }
    if (rows - from) % 2 == 0 {
        update_one(a, c, rows - 1);
    }
}

// The columns `from` to `from` + n - 1.
fn update_columns(
    a: &mut [f64],
    p: &mut [f64; 1024],
    d: usize,
    j: usize,
    from: usize,
    n: usize,
    rows: usize,
)
    requires a_len { length a.old ≡ d * d }
    requires j_bound { (j + 4 ≤ from) × (from + n ≤ rows) × (rows ≤ d) × (n ≤ 256) }
    ensures { Updated d a.old a.new j from (from + n) rows }
{
    pack(a, p, d, j, from, n);
    let c = Columns {
        size: d,
        panel: j,
        from,
        count: n,
        packed: p,
    };
    update_rows(a, &c, rows);
}

// All columns to the right of the panel, as many at a time as p holds.
fn update(a: &mut [f64], p: &mut [f64; 1024], d: usize, j: usize, rows: usize)
    requires { (length a.old ≡ d * d) × (j + 4 ≤ rows) × (rows ≤ d) }
    ensures { Updated d a.old a.new j (j + 4) rows rows }
{
    for from in (j + 4..rows).step_by(256) {
        let n = (rows - from).min(256);
        update_columns(a, p, d, j, from, n, rows);
    }
}

// ---- the factor

// The panel below the pivots of the columns j to j + 3, and its update: the first row that is not made, or `rows`.
fn eliminate(a: &mut [f64], p: &mut [f64; 1024], d: usize, j: usize, rows: usize) -> usize
    requires { (length a.old ≡ d * d) × (j + 4 ≤ rows) × (rows ≤ d) }
    ensures { Eliminated d a.old a.new j rows result }
{
    let left = panel(a, d, j, rows);
    update(a, p, d, j, left);
    left
}

// The columns j to j + 3: the rows of their pivots, and then what is below. It gives the first row that is not made, or `rows`. p holds packed columns.
fn four_columns(
    a: &mut [f64],
    p: &mut [f64; 1024],
    d: usize,
    j: usize,
    rows: usize,
) -> Result<usize, Breakdown>
    requires { (length a.old ≡ d * d) × (j + 4 ≤ rows) × (rows ≤ d) }
    ensures { ColumnsEnd d a.old a.new j rows result }
{
    finish_rows(a, d, j, j + 4)?;
    Ok(eliminate(a, p, d, j, rows))
}

// The rows that are left when fewer than four columns are. A row from `rows` on is refused unless one of them is.
fn last_rows(a: &mut [f64], d: usize, j: usize, rows: usize) -> Result<(), Breakdown>
    requires { (length a.old ≡ d * d) × (j ≤ rows) × (rows ≤ d) }
    ensures { Finishes d a.old a.new rows j result }
{
    finish_rows(a, d, j, rows)?;
    if rows < d {
        return Err(Breakdown::Factor(rows));
    }
    Ok(())
}

// Four columns at a time.
// The rows from `rows` on are left, where that row has an entry that is not finite: what stops the factor above it comes first.
fn factor_columns(a: &mut [f64], p: &mut [f64; 1024], d: usize) -> Result<(), Breakdown>
    requires { length a.old ≡ d * d }
    ensures { ended result a.new ≡ factor_of d a.old }
{
    let mut rows = d;
    let mut j = 0usize;
    // Kept: `rows` falls in the loop, and `j` is read after it.
    while 4 <= rows - j {
        rows = four_columns(a, p, d, j, rows)?;
        j += 4;
    }
    last_rows(a, d, j, rows)
}

// The factor: the Rust's `cholesky_factor_in_place`.
pub fn factor(a: &mut [f64], d: usize) -> Result<(), Breakdown>
    requires { length a.old ≡ d * d }
    ensures { ended result a.new ≡ factor_of d a.old }
{
    let mut p = [0.0; 1024];
    factor_columns(a, &mut p, d)
}

// ---- the substitutions: s holds the factor, then the right side

// v - l_ij x_k, where x_k is the right side's vector k.
fn take_vector(s: &[f64], d: usize, i: usize, j: usize, k: usize, v: Vec3) -> Vec3
    requires { (length s.now ≡ d * d + 3 * d) × (i < d) × (j < d) × (k < d) }
    ensures { result ≡ minus v (scale (at (load vector s.now (d * d) d) k) (entry_of d (take (d * d) s.now) i j)) }
{
    v - get3(s, d * d + 3 * k) * entry(s, d, i, j)
}

// y_i of the forward substitution.
fn forward_vector(s: &[f64], d: usize, i: usize) -> Vec3
    requires { (length s.now ≡ d * d + 3 * d) × (i < d) }
    ensures { result ≡ forward_vector d (take (d * d) s.now) (load vector s.now (d * d) d) i }
{
    let mut v = get3(s, d * d + 3 * i);
    for k in 0..i {
        v = take_vector(s, d, i, k, k, v);
    }
    v / entry(s, d, i, i)
}

fn forward(s: &mut [f64], d: usize)
    requires { length s.old ≡ d * d + 3 * d }
    ensures { s.new ≡ store vector s.old (d * d)
        (forward_of d (take (d * d) s.old) (load vector s.old (d * d) d)) }
{
    for i in 0..d {
        let v = forward_vector(s, d, i);
        put3(s, d * d + 3 * i, v);
    }
}

// x_i of the back substitution.
fn back_vector(s: &[f64], d: usize, i: usize) -> Vec3
    requires { (length s.now ≡ d * d + 3 * d) × (i < d) }
    ensures { result ≡ back_vector d (take (d * d) s.now) (load vector s.now (d * d) d) i }
{
    let mut v = get3(s, d * d + 3 * i);
    for k in i + 1..d {
        v = take_vector(s, d, k, i, k, v);
    }
    v / entry(s, d, i, i)
}

fn back_row(s: &mut [f64], d: usize, i: usize) -> Result<(), Breakdown>
    requires { (length s.old ≡ d * d + 3 * d) × (i < d) }
    ensures { Substituted d s.old s.new result
        (back_row d (take (d * d) s.old) i (load vector s.old (d * d) d)) }
{
    let v = back_vector(s, d, i);
    if all_finite(v.x, v.y, v.z) {
        put3(s, d * d + 3 * i, v);
        return Ok(());
    }
    Err(Breakdown::Solution(i))
}

// From the last row up.
fn back(s: &mut [f64], d: usize) -> Result<(), Breakdown>
    requires { length s.old ≡ d * d + 3 * d }
    ensures { Substituted d s.old s.new result
        (back_of d (take (d * d) s.old) (load vector s.old (d * d) d)) }
{
    for i in (0..d).rev() {
        back_row(s, d, i)?;
    }
    Ok(())
}

// Both substitutions: the Rust's `cholesky_solve_in_place`, for the three coordinates at once.
pub fn substitute(s: &mut [f64], d: usize) -> Result<(), Breakdown>
    requires { length s.old ≡ d * d + 3 * d }
    ensures { Substituted d s.old s.new result (back_of d (take (d * d) s.old)
        (forward_of d (take (d * d) s.old) (load vector s.old (d * d) d))) }
{
    forward(s, d);
    back(s, d)
}
