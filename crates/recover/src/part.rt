// A camera as a part of whichever of the two buffers is current.
// The two buffers and the mark go one by one: in a struct (tried) each clause says `lent.entry.` before them, and three public functions make one.
ghost use Rattle.std.specs.Prelude.{◌≡◌, ◌+◌, ◌*◌, ◌≤◌, length};
ghost use Rattle.field.specs.Vec.{at};
ghost use Rattle.field.specs.Buffer.{vectors_in};
ghost use Rattle.recover.specs.Part.{marked, camera_part};

use field::{Vec3, get3};

// The trial buffer where the mark is set, else the current one.
pub(crate) fn marked_buffer<'a>(current: &'a [f64], trial: &'a [f64], mark: bool) -> &'a [f64]
    ensures { result.now ≡ marked current.now trial.now mark }
{
    if mark { trial } else { current }
}

// The three numbers of camera i, or an empty part where any of them is lacking. (No `Option`: the public `camera` answers so, as document 01 has it.)
pub(crate) fn camera_part<'a>(cameras: &'a [f64], i: usize) -> &'a [f64]
    ensures { result.now ≡ camera_part cameras.now i }
{
    if i < cameras.len() / 3 {
        let a = 3 * i;
        let e = a + 3;
        &cameras[a..e]
    } else {
        &cameras[0..0]
    }
}

// Camera i.
pub(crate) fn position(cameras: &[f64], i: usize) -> Vec3
    requires { 3 * i + 3 ≤ length cameras.now }
    ensures { result ≡ at (vectors_in cameras.now) i }
{
    get3(camera_part(cameras, i), 0)
}
