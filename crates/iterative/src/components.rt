// The components x, y and z: each test and each operation on one of them, and then on all three.
// The three are spelled out: through a map with the test as a closure each call would have to prove what its closure computes, which is longer.
ghost use Rattle.std.specs.Prelude.{◌≡◌, cond, not, ◌&&◌, ◌||◌};
ghost use Rattle.std.specs.Float.{binary64};
ghost use Rattle.std.specs.Float.Ieee.{add, mul, lt, le};
ghost use Rattle.std.specs.Float.Ieee.Scale.{finite};
ghost use Rattle.field.specs.Vec.{null};
ghost use Rattle.double.specs.Double.{greater, magnitude};
ghost use Rattle.sqrt.specs.Root.{root};
ghost use Rattle.system.specs.System.{tiny};
ghost use Rattle.iterative.specs.Method.{relative, epsilon, squared, component, any as any_of, bound_of, allowed_of, starts_active, stays_active};
ghost use Rattle.iterative.specs.Method.{bad_curvature, bad_product, bad_residual, quotient as quotient_of, stepped as stepped_of, search_step};
ghost use Rattle.iterative.specs.inner.Solver.{Computes, lowest_flag};

use crate::Active;
use double::{abs, is_finite, max};
use field::Vec3;
use sqrt::sqrt;

pub(crate) fn any(a: Active) -> bool
    ensures { result ≡ any_of a }
{
    if a.x {
        return true;
    }
    if a.y {
        return true;
    }
    a.z
}

// The lowest component whose flag is set.
fn lowest(a: Active) -> Option<usize>
    ensures { result ≡ lowest_flag a }
{
    if a.x {
        return Some(0);
    }
    if a.y {
        return Some(1);
    }
    if a.z { Some(2) } else { None }
}

// ---- bounds

fn bound_one(sum: f64) -> f64
    ensures { result ≡ greater (squared tiny) (mul binary64 (squared relative) sum) }
{
    max(1e-12 * 1e-12, 1e-10 * 1e-10 * sum)
}

// The bounds that end the components, of the right side's square sums.
pub(crate) fn bound(sums: Vec3) -> Vec3
    ensures { result ≡ bound_of sums }
{
    Vec3 {
        x: bound_one(sums.x),
        y: bound_one(sums.y),
        z: bound_one(sums.z),
    }
}

fn allowed_one(sum: f64) -> f64
    ensures { result ≡ squared (add binary64 (mul binary64 relative (root binary64 sum)) tiny) }
{
    let a = 1e-10 * sqrt(sum) + 1e-12;
    a * a
}

// The final residuals that are allowed, of the right side's square sums.
pub(crate) fn allowed(sums: Vec3) -> Vec3
    ensures { result ≡ allowed_of sums }
{
    Vec3 {
        x: allowed_one(sums.x),
        y: allowed_one(sums.y),
        z: allowed_one(sums.z),
    }
}

// ---- flags

pub(crate) fn starts_active(bound: Vec3, sums: Vec3) -> Active
    ensures { result ≡ starts_active bound sums }
{
    Active {
        x: bound.x < sums.x,
        y: bound.y < sums.y,
        z: bound.z < sums.z,
    }
}

fn stays_active(active: bool, sum: f64, bound: f64) -> bool
    ensures { result ≡ (active && not (le sum bound)) }
{
    if active { !(sum <= bound) } else { false }
}

// The components that are not down to their bound.
pub(crate) fn stay_active(bound: Vec3, active: Active, sums: Vec3) -> Active
    ensures { result ≡ stays_active bound active sums }
{
    Active {
        x: stays_active(active.x, sums.x, bound.x),
        y: stays_active(active.y, sums.y, bound.y),
        z: stays_active(active.z, sums.z, bound.z),
    }
}

// ---- refusals 11, 12 and 13

fn bad_curvature_one(active: bool, old: f64, curvature: f64) -> bool
    ensures { result ≡ (active && (not (finite curvature) || le curvature (mul binary64 epsilon (magnitude old)))) }
{
    if !active {
        return false;
    }
    if !is_finite(curvature) {
        return true;
    }
    curvature <= 2.220446049250313e-16 * abs(old)
}

// The lowest active component whose curvature is not finite, or at most 2^-52 × size of old product.
pub(crate) fn find_bad_curvature(active: Active, old: Vec3, curvature: Vec3) -> Option<usize>
    ensures { result ≡ component (bad_curvature active old curvature) }
{
    lowest(Active {
        x: bad_curvature_one(active.x, old.x, curvature.x),
        y: bad_curvature_one(active.y, old.y, curvature.y),
        z: bad_curvature_one(active.z, old.z, curvature.z),
    })
}

fn bad_product_one(active: bool, old: f64, new: f64) -> bool
    ensures { result ≡ (active && (not (finite new) || le old null)) }
{
    if !active {
        return false;
    }
    if !is_finite(new) {
        return true;
    }
    old <= 0.0
}

// The lowest active component whose new product is not finite, or whose old product is at or below 0.
pub(crate) fn find_bad_product(active: Active, old: Vec3, new: Vec3) -> Option<usize>
    ensures { result ≡ component (bad_product active old new) }
{
    lowest(Active {
        x: bad_product_one(active.x, old.x, new.x),
        y: bad_product_one(active.y, old.y, new.y),
        z: bad_product_one(active.z, old.z, new.z),
    })
}

fn bad_residual_one(allowed: f64, residual: f64) -> bool
    ensures { result ≡ (not (finite residual) || lt allowed residual) }
{
    if !is_finite(residual) {
        return true;
    }
    allowed < residual
}

// The lowest component whose residual is not finite or above the allowed.
pub(crate) fn find_bad_residual(allowed: Vec3, residual: Vec3) -> Option<usize>
    ensures { result ≡ component (bad_residual allowed residual) }
{
    lowest(Active {
        x: bad_residual_one(allowed.x, residual.x),
        y: bad_residual_one(allowed.y, residual.y),
        z: bad_residual_one(allowed.z, residual.z),
    })
}

// ---- operations

pub(crate) fn quotient(u: Vec3, v: Vec3) -> Vec3
    ensures { result ≡ quotient_of u v }
{
    Vec3 {
        x: u.x / v.x,
        y: u.y / v.y,
        z: u.z / v.z,
    }
}

fn step_one<F: Fn(f64, f64) -> f64>(f: &F, active: bool, alpha: f64, v: f64, w: f64) -> f64
    requires { F.IsAlwaysCallable f.now }
    ensures { (op : _) → Computes (F.post f.now) op → result ≡ cond active (op v (mul binary64 alpha w)) v }
{
    if active { f(v, alpha * w) } else { v }
}

// v stepped along w in the active components: f adds or subtracts.
pub(crate) fn stepped<F: Fn(f64, f64) -> f64>(
    f: &F,
    active: Active,
    alpha: Vec3,
    v: Vec3,
    w: Vec3,
) -> Vec3
    requires { F.IsAlwaysCallable f.now }
    ensures { (op : _) → Computes (F.post f.now) op → result ≡ stepped_of op active alpha v w }
{
    Vec3 {
        x: step_one(f, active.x, alpha.x, v.x, w.x),
        y: step_one(f, active.y, alpha.y, v.y, w.y),
        z: step_one(f, active.z, alpha.z, v.z, w.z),
    }
}

fn search_one(active: bool, beta: f64, z: f64, p: f64) -> f64
    ensures { result ≡ cond active (add binary64 z (mul binary64 beta p)) null }
{
    if active { z + beta * p } else { 0.0 }
}

// z + beta × p in the active components, 0 in the others.
pub(crate) fn search_step(active: Active, beta: Vec3, z: Vec3, p: Vec3) -> Vec3
    ensures { result ≡ search_step active beta z p }
{
    Vec3 {
        x: search_one(active.x, beta.x, z.x, p.x),
        y: search_one(active.y, beta.y, z.y, p.y),
        z: search_one(active.z, beta.z, z.z, p.z),
    }
}
