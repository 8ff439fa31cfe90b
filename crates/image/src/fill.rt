// The numbers of an image that passed its tests, stored.
// By bytes and places, not by `ImageRows`: one loop reads rays, weights, scales and points, which differ in start, stride and group alone.
ghost use Rattle.std.specs.Prelude.{◌≡◌, true, ◌+◌, ◌*◌, ◌≤◌, ◌<◌, length};
ghost use Rattle.std.specs.Float.Ieee.Scale.{finite};
ghost use Rattle.layout.specs.Bytes.{double_at};
ghost use Rattle.network.specs.inner.Sound.{ContentLengths};
ghost use Rattle.image.specs.Reading.{wholes_from, doubles_from};
ghost use Rattle.image.specs.inner.Sound.{Readable, ContentReadable, ContentFilled};

use crate::rows::finite_at;
use layout::bytes::u32_at;
use network::Shape;

// The finite double at p.
fn value_at(bytes: &[u8], p: usize) -> f64
    requires p_in_bounds { p + 8 ≤ length bytes.now }
    requires p_value { finite (double_at bytes.now p) ≡ true }
    ensures { result ≡ double_at bytes.now p }
{
    finite_at(bytes, p).unwrap_or(0.0)
}

// The ends, two to a row of 48 bytes.
fn fill_ends(bytes: &[u8], at: usize, ends: &mut [usize])
    requires { at + 24 * length ends.old ≤ length bytes.now }
    ensures { ends.new ≡ wholes_from at 48 2 (length ends.old) bytes.now }
{
    for (k, end) in ends.iter_mut().enumerate() {
        *end = u32_at(bytes, at + 48 * (k / 2) + 4 * (k % 2));
    }
}

// Doubles, `group` of them to a row of `stride` bytes.
fn fill_doubles(bytes: &[u8], start: usize, stride: usize, group: usize, out: &mut [f64])
    requires group_nonzero { 0 < group }
    requires readable { Readable start stride group (length out.old) bytes.now }
    ensures { out.new ≡ doubles_from start stride group (length out.old) bytes.now }
{
    for (k, x) in out.iter_mut().enumerate() {
        *x = value_at(bytes, start + stride * (k / group) + 8 * (k % group));
    }
}

// Everything of the rows from `at` on, in a network of shape s, and of the points behind them.
pub(crate) fn fill(
    bytes: &[u8],
    at: usize,
    s: Shape,
    ends: &mut [usize],
    rays: &mut [f64],
    weights: &mut [f64],
    scales: &mut [f64],
    points: &mut [f64],
)
    requires content_readable { ContentReadable at s bytes.now }
    requires content_lengths { ContentLengths s ends.old rays.old weights.old scales.old points.old }
    ensures { ContentFilled at s bytes.now
        ends.new rays.new weights.new scales.new points.new }
{
    let behind = at + 48 * (s.bearings + s.directions);
    fill_ends(bytes, at, ends);
    fill_doubles(bytes, at + 8, 48, 3, rays);
    fill_doubles(bytes, at + 32, 48, 1, weights);
    fill_doubles(bytes, at + 40, 48, 1, scales);
    fill_doubles(bytes, behind, 24, 3, points);
}
