// Where the work buffer's segments begin, and how long it must be (specs/Work).
// The buffer goes as a slice: were its `&mut` in a struct, each function that writes it would promise that it stays the same one (`ghost_name`), in
// place of its length. The route goes as a number, since 8 is tested after 1 and 2 (network/route.rt).
// Each segment has its own function, as it has its own definition in specs/Work: from an enum of them a contract would name both, the enum and its place.
ghost use Rattle.std.specs.Prelude.{◌≡◌, ◌≤◌};
ghost use Rattle.network.specs.inner.Sound.{ShapeSound};
ghost use Rattle.system.specs.Work.{term_place, positions_at, right_at, residual_at, preconditioned_at, search_at, applied_at};
ghost use Rattle.system.specs.Work.{weights_at, means_at, effective_at, matrix_at, dense_right_at, work_end, work_length, length_of};

use network::route::dense_rows;
use network::{Refusal, Shape, check_counts};

// The term of camera c.
pub fn term_at(c: usize) -> usize
    requires { c ≤ 4096 }
    ensures { result ≡ term_place c }
{
    6 * c
}

pub fn positions_at(s: Shape) -> usize
    requires { ShapeSound s }
    ensures { result ≡ positions_at s }
{
    term_at(s.cameras)
}

pub fn right_at(s: Shape) -> usize
    requires { ShapeSound s }
    ensures { result ≡ right_at s }
{
    positions_at(s) + 3 * s.cameras
}

pub fn residual_at(s: Shape) -> usize
    requires { ShapeSound s }
    ensures { result ≡ residual_at s }
{
    right_at(s) + 3 * s.cameras
}

pub fn preconditioned_at(s: Shape) -> usize
    requires { ShapeSound s }
    ensures { result ≡ preconditioned_at s }
{
    residual_at(s) + 3 * s.cameras
}

pub fn search_at(s: Shape) -> usize
    requires { ShapeSound s }
    ensures { result ≡ search_at s }
{
    preconditioned_at(s) + 3 * s.cameras
}

pub fn applied_at(s: Shape) -> usize
    requires { ShapeSound s }
    ensures { result ≡ applied_at s }
{
    search_at(s) + 3 * s.cameras
}

// The point weights.
pub fn weights_at(s: Shape) -> usize
    requires { ShapeSound s }
    ensures { result ≡ weights_at s }
{
    applied_at(s) + 3 * s.cameras
}

// The mean offsets.
pub fn means_at(s: Shape) -> usize
    requires { ShapeSound s }
    ensures { result ≡ means_at s }
{
    weights_at(s) + s.points
}

// The effective weights.
pub fn effective_at(s: Shape) -> usize
    requires { ShapeSound s }
    ensures { result ≡ effective_at s }
{
    means_at(s) + 3 * s.points
}

// The dense matrix.
pub fn matrix_at(s: Shape) -> usize
    requires { ShapeSound s }
    ensures { result ≡ matrix_at s }
{
    effective_at(s) + (s.bearings + s.directions)
}

// The right side of the dense system of d rows.
pub fn dense_right_at(s: Shape, d: usize) -> usize
    requires shape_sound { ShapeSound s }
    requires d_bound { d ≤ 4096 }
    ensures { result ≡ dense_right_at s d }
{
    matrix_at(s) + d * d
}

// The end of the last segment, with d dense rows.
fn work_end(s: Shape, d: usize) -> usize
    requires shape_sound { ShapeSound s }
    requires d_bound { d ≤ 256 }
    ensures { result ≡ work_end s d }
{
    dense_right_at(s, d) + 3 * d
}

// T, once 1 and 2 have passed.
pub fn work_needed(s: Shape, route: usize, limit: usize) -> usize
    requires { ShapeSound s }
    ensures { result ≡ work_length s route limit }
{
    work_end(s, dense_rows(s.cameras, route, limit))
}

// The doubles that a solve's work buffer needs: T = 24n + 4m + B + E + d² + 3d.
pub fn work_length(s: Shape, route: usize, limit: usize) -> Result<usize, Refusal>
    ensures { result ≡ length_of s route limit }
{
    check_counts(s)?;
    Ok(work_needed(s, route, limit))
}
