// Points, dots and scales from placed cameras: the Rust's `recover_trial_points`, `update_trial_dots`, `update_trial_scales`.
#![tactic(auto)]

mod entry;
mod part;
mod point;
mod rescale;
mod row;

ghost use Rattle.std.specs.Prelude.{◌≡◌, ◌*◌, ◌≤◌, length};
ghost use Rattle.field.specs.Buffer.{flat, vector, vectors_in};
ghost use Rattle.network.specs.Network.{rows as number_of_rows};
ghost use Rattle.system.specs.System.{network_of};
ghost use Rattle.system.specs.Work.{matrix_at};
ghost use Rattle.system.specs.inner.Formed.{positions_in, weights_in};
ghost use Rattle.recover.specs.Part.{marked, camera_part};
ghost use Rattle.recover.specs.Recover.{points_by, dots_of};
ghost use Rattle.recover.specs.Calls.{placed, DotsFilled, ScalesFilled};

use entry::enter_and_fill;
use field::put3;
use network::Refusal;
use network::lent::Network;
use part::{camera_part, marked_buffer};
use point::recover_point;
use rescale::fill_scales;
use row::Sites;
use system::numbers::Rows;

// A scale answer: the old scale is kept, or it is renewed with a number. (No `Option`: the kernel's rules name the enum and its cases.)
#[derive(Clone, Copy)]
pub enum Scale {
    Kept,
    Renewed(f64),
}

// Camera i of the trial buffer where the mark is set, else of the current one.
pub fn camera<'a>(current: &'a [f64], trial: &'a [f64], mark: bool, i: usize) -> &'a [f64]
    ensures { result.now ≡ camera_part (marked current.now trial.now mark) i }
{
    camera_part(marked_buffer(current, trial, mark), i)
}

// All points, from the cameras and the weights that the work buffer holds: the Rust's `recover_trial_points`.
pub fn recover_points(rows: &Rows<'_>, points: &[f64], work: &[f64], out: &mut [f64])
    requires points_len { (length points.now ≡ 3 * rows.now.links.shape.points) × (length out.old ≡ 3 * rows.now.links.shape.points) }
    requires work_len { matrix_at rows.now.links.shape ≤ length work.now }
    ensures { let s = rows.now.links.shape in
        out.new ≡ flat vector (points_by (network_of rows.now points.now)
        (weights_in s work.now) (positions_in s work.now)) }
{
    for p in 0..rows.shape().points {
        let v = recover_point(rows, points, work, p);
        put3(out, 3 * p, v);
    }
}

// The dot of each row: the Rust's `update_trial_dots`.
fn fill_dots(i: &Sites<'_>, out: &mut [f64])
    requires { length out.old ≡ number_of_rows i.now.net.shape }
    ensures { out.new ≡ dots_of i.now.net (vectors_in i.now.cameras) }
{
    for (r, dot) in out.iter_mut().enumerate() {
        *dot = i.dot(r);
    }
}

// The dot of each row with its baseline, bearings first. Refusals 1 to 7.
pub fn dots(
    net: &Network<'_>,
    marks: &mut [usize],
    current: &[f64],
    trial: &[f64],
    mark: bool,
    out: &mut [f64],
) -> Result<(), Refusal>
    ensures { DotsFilled (placed net.now (length marks.old) current.now trial.now mark (length out.old))
        result marks.old marks.new out.old out.new }
{
    enter_and_fill(net, marks, current, trial, mark, out, fill_dots)
}

// The new scale of each row, bearings first; a kept one is the old: the Rust's `update_trial_scales`. Refusals 1 to 7.
pub fn scales(
    net: &Network<'_>,
    marks: &mut [usize],
    current: &[f64],
    trial: &[f64],
    mark: bool,
    out: &mut [f64],
) -> Result<(), Refusal>
    ensures { ScalesFilled (placed net.now (length marks.old) current.now trial.now mark (length out.old))
        result marks.old marks.new out.old out.new }
{
    enter_and_fill(net, marks, current, trial, mark, out, fill_scales)
}
