// Fields of n vectors in the work buffer, one vector for each camera.
ghost use Rattle.std.specs.Prelude.{◌≡◌, cond, not, ◌&&◌, ◌+◌, ◌*◌, ◌<◌, ◌≤◌, eqb, length};
ghost use Rattle.std.specs.Float.Ieee.Scale.{finite};
ghost use Rattle.field.specs.Vec.{origin, minus, over};
ghost use Rattle.field.specs.Count.{field, lowest};
ghost use Rattle.field.specs.Buffer.{get, put, load, store, vector};
ghost use Rattle.system.specs.System.{diagonal_of};
ghost use Rattle.system.specs.Work.{term, term_place};
ghost use Rattle.operator.specs.inner.Applied.{Ordered};
ghost use Rattle.iterative.specs.Method.{stepped as stepped_of, search_step, search_field, difference, bad_diagonal};
ghost use Rattle.iterative.specs.inner.Solver.{FieldStepped, FieldsFit, Summed, Preconditioned, diagonal_in};
ghost use Rattle.iterative.specs.inner.Solver.{Computes, MayMake, Makes};

use crate::components::{search_step, stepped};
use crate::dot::Dot;
use crate::{Active, Frame};
use double::is_finite;
use field::{Vec3, anchored, get3, put3, zero};
use network::Shape;
use system::get_term;

// ---- camera i's vector of the field at p

pub(crate) fn get_vector(work: &[f64], p: usize, i: usize) -> Vec3
    requires { p + 3 * i + 3 ≤ length work.now }
    ensures { result ≡ get vector work.now (p + 3 * i) }
{
    get3(work, p + 3 * i)
}

fn put_vector(work: &mut [f64], p: usize, i: usize, v: Vec3)
    requires { p + 3 * i + 3 ≤ length work.old }
    ensures { work.new ≡ put vector work.old (p + 3 * i) v }
{
    put3(work, p + 3 * i, v);
}

// ---- the diagonal

// Camera i's diagonal with the ridge.
pub(crate) fn ridged_diagonal(work: &[f64], i: usize) -> f64
    requires { (i < 4096) × (term_place (i + 1) ≤ length work.now) }
    ensures { result ≡ diagonal_in work.now i }
{
    get_term(work, i).diagonal + 1e-6
}

// Camera i, whose diagonal with the ridge is d, cannot be preconditioned.
fn bad_at(i: usize, anchor: usize, d: f64) -> bool
    ensures { result ≡ (not (eqb i anchor) && not (finite d)) }
{
    if i == anchor {
        return false;
    }
    !is_finite(d)
}

// The lowest camera whose diagonal with the ridge is not finite.
pub(crate) fn find_bad_diagonal(frame: Frame, work: &[f64]) -> Option<usize>
    requires { FieldsFit frame.shape (length work.now) }
    ensures { let n = frame.shape.cameras in result ≡ lowest (bad_diagonal frame.anchor (diagonal_of (load term work.now 0 n))) n }
{
    (0..frame.shape.cameras).find(|&i| bad_at(i, frame.anchor, ridged_diagonal(work, i)))
}

// ---- fields that are filled, one camera's vector after another

// The field at `into` filled, camera after camera, with the vector that f makes of the buffer, as it stands, and the camera's number.
fn fill<F: Fn(&[f64], usize) -> Vec3>(work: &mut [f64], n: usize, into: usize, f: F)
    requires room { into + 3 * n ≤ length work.old }
    requires callable { MayMake (F.pre f) n (length work.old) }
    ensures { (g : _) → Makes (F.post f) g n into work.old → work.new ≡ store vector work.old into (field n g) }
{
    for i in 0..n {
        let v = f(work, i);
        put_vector(work, into, i, v);
    }
}

// The same, and returned is the dot of the fields at `with` and `into`, summed in the same pass.
fn fill_summed<F: Fn(&[f64], usize) -> Vec3>(
    work: &mut [f64],
    n: usize,
    anchor: usize,
    with: usize,
    into: usize,
    f: F,
) -> Vec3
    requires room { (with + 3 * n ≤ length work.old) × (into + 3 * n ≤ length work.old) }
    requires callable { MayMake (F.pre f) n (length work.old) }
    ensures { (g : _) → Makes (F.post f) g n into work.old → Summed g n anchor with into work.old n work.new result }
{
    let dot = Dot {
        cameras: n,
        anchor,
        first: with,
        second: into,
    };
    let mut sum = zero();
    for i in 0..n {
        let v = f(work, i);
        put_vector(work, into, i, v);
        sum = dot.step(work, i, sum);
    }
    sum
}

// The field at `from` over the diagonal with the ridge, and zero at the anchor. Returned is the dot of the two fields, summed in the same pass.
pub(crate) fn precondition(frame: Frame, work: &mut [f64], from: usize, into: usize) -> Vec3
    requires { Ordered frame.shape from into (length work.old) }
    ensures { Preconditioned frame from into work.old work.new result }
{
    let n = frame.shape.cameras;
    let anchor = frame.anchor;
    fill_summed(work, n, anchor, from, into, |work, i| {
        let v = get_vector(work, from, i) / ridged_diagonal(work, i);
        anchored(i, anchor, zero(), v)
    })
}

// The field at `into` stepped along the field at `along`, but for the anchor. Returned is its dot with itself, summed in the same pass.
pub(crate) fn step_field<F: Fn(f64, f64) -> f64>(
    frame: Frame,
    work: &mut [f64],
    f: F,
    active: Active,
    alpha: Vec3,
    into: usize,
    along: usize,
) -> Vec3
    requires room { Ordered frame.shape into along (length work.old) }
    requires callable { F.IsAlwaysCallable f }
    ensures { (op : _) → Computes (F.post f) op → FieldStepped frame op active alpha into along work.old work.new result }
{
    let anchor = frame.anchor;
    fill_summed(
        work,
        frame.shape.cameras,
        anchor,
        into,
        into,
        |work, i|
            requires { (into + 3 * i + 3 ≤ length work.now) × (along + 3 * i + 3 ≤ length work.now) × F.IsAlwaysCallable f }
        {
            let v = get_vector(work, into, i);
            let w = stepped(&f, active, alpha, v, get_vector(work, along, i));
            anchored(i, anchor, v, w)
        },
    )
}

// The next search vector at `into`, of the field at `from`.
pub(crate) fn update_search(
    s: Shape,
    work: &mut [f64],
    active: Active,
    beta: Vec3,
    from: usize,
    into: usize,
)
    requires { Ordered s from into (length work.old) }
    ensures { work.new ≡ store vector work.old into
        (search_field s.cameras active beta (load vector work.old from s.cameras)
        (load vector work.old into s.cameras)) }
{
    fill(work, s.cameras, into, |work, i| {
        search_step(
            active,
            beta,
            get_vector(work, from, i),
            get_vector(work, into, i),
        )
    });
}

// The field at `into` less the field at `from`.
pub(crate) fn subtract(s: Shape, work: &mut [f64], from: usize, into: usize)
    requires { Ordered s from into (length work.old) }
    ensures { work.new ≡ store vector work.old into
        (difference s.cameras (load vector work.old into s.cameras) (load vector work.old from s.cameras)) }
{
    fill(work, s.cameras, into, |work, i| {
        get_vector(work, into, i) - get_vector(work, from, i)
    });
}
