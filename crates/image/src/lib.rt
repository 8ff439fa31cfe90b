// The network image: reader and writer.
#![tactic(auto)]

mod fill;
mod head;
mod rows;
mod writing;

ghost use Rattle.std.specs.Prelude.{◌≡◌, ◌++◌, ◌+◌, ◌*◌, ◌≤◌, length};
ghost use Rattle.network.specs.Network.{rows as rows_of};
ghost use Rattle.network.specs.Refusals.{verdict, count_tests, length_tests, content_fits};
ghost use Rattle.image.specs.Reading.{shape_at, content_from};
ghost use Rattle.image.specs.Tests.{row_tests, counts_tests};
ghost use Rattle.image.specs.Calls.{counts_of, lists, Reads, Writes};

use fill::fill;
use head::{check_image, shape_at};
use layout::put::put_image;
use network::lengths::{check_lengths, content_fits};
use network::lent::Content;
use network::{Refusal, Shape, check_counts};
use rows::{ImageRows, check_rows};
use writing::{are_doubles, check_write, image_size};

// 20 to 22, then 1 and 2.
pub fn check_counted(bytes: &[u8]) -> Result<(), Refusal>
    ensures { result ≡ verdict (counts_tests bytes.now) }
{
    check_image(bytes)?;
    check_counts(shape_at(bytes, 36))
}

// The counts of an image, so that a caller can lend buffers of the right size, or its refusal.
pub fn counts(bytes: &[u8]) -> Result<Shape, Refusal>
    ensures { result ≡ counts_of bytes.now }
{
    check_counted(bytes)?;
    Ok(shape_at(bytes, 36))
}

// 1 to 5 and 7 of an image, which is to be read into what c lends.
fn check_content(bytes: &[u8], c: &Content<'_>) -> Result<(), Refusal>
    requires { 52 + 48 * rows_of c.now.shape + 24 * c.now.shape.points ≤ length bytes.now }
    ensures { let n = c.now in
        result ≡ verdict (count_tests n.shape
        ++ (length_tests (content_fits n.shape n.ends n.rays n.weights n.scales n.positions)
        ++ row_tests (content_from 52 n.shape bytes.now))) }
{
    let s = c.shape();
    check_counts(s)?;
    check_lengths(content_fits(c))?;
    check_rows(&ImageRows::new(bytes, 52, s))
}

// Reads an image into the lent slices, which its counts must fit. Every test comes before the first number is stored.
// The five are not one struct: it would be made here and taken apart at once, for the tests only read them, as `Content`, and `fill` stores each by itself.
pub fn read(
    bytes: &[u8],
    ends: &mut [usize],
    rays: &mut [f64],
    weights: &mut [f64],
    scales: &mut [f64],
    points: &mut [f64],
) -> Result<Shape, Refusal>
    ensures { Reads bytes.now
        (lists ends.old rays.old weights.old scales.old points.old)
        result
        (lists ends.new rays.new weights.new scales.new points.new) }
{
    check_image(bytes)?;
    let s = shape_at(bytes, 36);
    let lent = Content {
        shape: s,
        ends,
        rays,
        weights,
        scales,
        points,
    };
    check_content(bytes, &lent)?;
    fill(bytes, 52, s, ends, rays, weights, scales, points);
    Ok(s)
}

// Writes the image of what is lent at the front of `out`, and leaves the bytes after it.
pub fn write(c: &Content<'_>, out: &mut [u8]) -> Result<usize, Refusal>
    ensures { Writes c.now out.old result out.new }
{
    are_doubles(c.rays, c.weights, c.scales, c.points);
    check_write(c, out.len())?;
    put_image(c, out);
    Ok(image_size(c.shape()))
}
