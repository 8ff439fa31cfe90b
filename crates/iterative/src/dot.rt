// Sums of products over the cameras: the Rust's `component_dot`, which here also tells at which camera a sum stops being finite.
ghost use Rattle.std.specs.Prelude.{◌≡◌, ◌<◌, length};
ghost use Rattle.field.specs.Vec.{on, plus};
ghost use Rattle.field.specs.Buffer.{load, vector};
ghost use Rattle.iterative.specs.Problem.{dot_step, times};
ghost use Rattle.iterative.specs.Method.{axis, sum_test};
ghost use Rattle.iterative.specs.inner.Solver.{DotFits, dot_camera_in, dot_in};

use crate::fields::get_vector;
use double::is_finite;
use field::{Vec3, zero};
use network::{CameraSum, Refusal};

// The products on each axis added to a sum.
pub(crate) fn add_products(sum: Vec3, a: Vec3, b: Vec3) -> Vec3
    ensures { result ≡ plus sum (times a b) }
{
    Vec3 {
        x: sum.x + a.x * b.x,
        y: sum.y + a.y * b.y,
        z: sum.z + a.z * b.z,
    }
}

// Component 0, 1 or 2 of a vector: x, y or z.
fn component(v: Vec3, k: usize) -> f64
    ensures { result ≡ on (axis k) v }
{
    match k {
        0 => v.x,
        1 => v.y,
        _ => v.z,
    }
}

// For each component the sum of the products of the fields at `first` and `second`, over all cameras but the anchor.
#[derive(Clone, Copy)]
pub(crate) struct Dot {
    pub(crate) cameras: usize,
    pub(crate) anchor: usize,
    pub(crate) first: usize,
    pub(crate) second: usize,
}

impl Dot {
    // The sum once camera i's products are added: as it was at the anchor. Nothing is read there, so that no choice stands between two sums.
    pub(crate) fn step(self, work: &[f64], i: usize, sum: Vec3) -> Vec3
        requires { DotFits self (length work.now) × (i < self.cameras) }
        ensures { result ≡ dot_step self.anchor (load vector work.now self.first self.cameras) (load vector work.now self.second self.cameras) i sum }
    {
        if i == self.anchor {
            return sum;
        }
        add_products(
            sum,
            get_vector(work, self.first, i),
            get_vector(work, self.second, i),
        )
    }

    // The sum.
    pub(crate) fn sum(self, work: &[f64]) -> Vec3
        requires { DotFits self (length work.now) }
        ensures { result ≡ dot_in self work.now }
    {
        let mut sum = zero();
        // Kept: it fills nothing, and a pass that takes the turn as a closure has a contract longer than this loop.
        for i in 0..self.cameras {
            sum = self.step(work, i, sum);
        }
        sum
    }

    // The first camera at which component k of the running sum is not finite; n where it stays finite. Asked once a sum is refused: no round waits for it.
    fn camera(self, work: &[f64], k: usize) -> usize
        requires { DotFits self (length work.now) }
        ensures { result ≡ dot_camera_in self work.now (axis k) }
    {
        let mut sum = zero();
        for i in 0..self.cameras {
            sum = self.step(work, i, sum);
            if !is_finite(component(sum, k)) {
                return i;
            }
        }
        self.cameras
    }

    // Refused for this sum, where there is a component to refuse.
    pub(crate) fn refused_at(
        self,
        work: &[f64],
        sum: CameraSum,
        component: Option<usize>,
    ) -> Result<(), Refusal>
        requires { DotFits self (length work.now) }
        ensures { result ≡ sum_test sum component (dot_camera_in self work.now) }
    {
        match component {
            Some(k) => Err(Refusal::Sum {
                sum,
                component: k,
                camera: self.camera(work, k),
            }),
            None => Ok(()),
        }
    }
}
