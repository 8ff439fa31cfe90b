// An image, stored from the front of a buffer on.
// Each number is put at a place that is given, with no cursor and no printing of std's: the theorems name each byte of the lent buffer.
ghost use Rattle.std.specs.Prelude.{◌++◌, ◌≡◌, ◌+◌, ◌*◌, ◌≤◌, ◌<◌, length};
ghost use Rattle.field.specs.Buffer.{write};
ghost use Rattle.network.specs.Network.{rows};
ghost use Rattle.network.specs.inner.Sound.{ContentLengths};
ghost use Rattle.layout.specs.Bytes.{bytes_of, double_bytes, run, wholes, doubles, total};
ghost use Rattle.layout.specs.Image.{head_size, pairs, head, count_bytes, row_of, sizes as sizes_of, image};

use double::to_bits;
use network::Shape;
use network::lent::Content;

// The `count` lowest bytes of a number.
fn put_number(value: u64, count: usize, out: &mut [u8], at: usize)
    requires value_in_bounds { count ≤ 8 }
    requires out_in_bounds { at + count ≤ length out.old }
    ensures { out.new ≡ write out.old at (bytes_of count value) }
{
    out[at..at + count].copy_from_slice(&value.to_le_bytes()[..count]);
}

fn put_double(value: f64, out: &mut [u8], at: usize)
    requires { at + 8 ≤ length out.old }
    ensures { out.new ≡ write out.old at (double_bytes value) }
{
    put_number(to_bits(value), 8, out, at);
}

// Apart, not one function of a closure: what the closure stores of a number would have to be said in the contract, which is longer than both.
// The numbers of a list, four bytes each.
fn put_wholes(list: &[usize], out: &mut [u8], at: usize)
    requires { at + 4 * length list.now ≤ length out.old }
    ensures { out.new ≡ write out.old at (wholes list.now 0 (length list.now)) }
{
    for (i, x) in list.iter().enumerate() {
        put_number(*x as u64, 4, out, at + 4 * i);
    }
}

// The doubles of a list.
fn put_doubles(list: &[f64], out: &mut [u8], at: usize)
    requires { at + 8 * length list.now ≤ length out.old }
    ensures { out.new ≡ write out.old at (doubles list.now 0 (length list.now)) }
{
    for (i, x) in list.iter().enumerate() {
        put_double(*x, out, at + 8 * i);
    }
}

// Row r: its ends, ray, weight and scale. (That the content's slices have their lengths is asked by three functions: as a type it would be made for one.)
fn put_row(c: &Content<'_>, r: usize, out: &mut [u8], at: usize)
    requires content_lengths { let n = c.now in ContentLengths n.shape n.ends n.rays n.weights n.scales n.positions }
    requires r_lt_rows { r < rows c.now.shape }
    requires at_in_bounds { at + 48 ≤ length out.old }
    ensures { out.new ≡ write out.old at (row_of c.now r) }
{
    put_wholes(&c.ends[2 * r..2 * r + 2], out, at);
    put_doubles(&c.rays[3 * r..3 * r + 3], out, at + 8);
    put_double(c.weights[r], out, at + 32);
    put_double(c.scales[r], out, at + 40);
}

// The rows, one after another.
fn put_rows(c: &Content<'_>, out: &mut [u8], at: usize)
    requires content_lengths { let n = c.now in ContentLengths n.shape n.ends n.rays n.weights n.scales n.positions }
    requires rows_in_bounds { at + 48 * rows c.now.shape ≤ length out.old }
    ensures { out.new ≡ write out.old at (run (rows c.now.shape) (row_of c.now)) }
{
    let s = c.shape();
    for r in 0..s.bearings + s.directions {
        put_row(c, r, out, at + 48 * r);
    }
}

// A pair: offset and length of a section.
fn put_pair(offset: usize, size: usize, out: &mut [u8], at: usize)
    requires { at + 8 ≤ length out.old }
    ensures { out.new ≡ write out.old at (bytes_of 4 offset ++ bytes_of 4 size) }
{
    put_number(offset as u64, 4, out, at);
    put_number(size as u64, 4, out, at + 4);
}

// The pairs of sections of these sizes, the first of which starts at `start`.
fn put_pairs(start: usize, sizes: &[usize], out: &mut [u8], at: usize)
    requires sizes_in_bounds { start + total sizes.now ≤ length out.old }
    requires out_in_bounds { at + 8 * length sizes.now ≤ length out.old }
    ensures { out.new ≡ write out.old at (pairs start sizes.now) }
{
    let mut offset = start;
    for (i, size) in sizes.iter().enumerate() {
        put_pair(offset, *size, out, at + 8 * i);
        offset += *size;
    }
}

// Version, section count and pairs of sections of these sizes.
fn put_head(version: usize, sizes: &[usize], out: &mut [u8])
    requires { head_size (length sizes.now) + total sizes.now ≤ length out.old }
    ensures { out.new ≡ write out.old 0 (head version sizes.now) }
{
    put_number(version as u64, 2, out, 0);
    put_number(sizes.len() as u64, 2, out, 2);
    put_pairs(4 + 8 * sizes.len(), sizes, out, 4);
}

// How long each section of the image of a network of shape s is.
pub fn sizes(s: Shape) -> [usize; 4]
    requires { 48 * rows s + 24 * s.points < 0x1_0000_0000_0000_0000 }
    ensures { result ≡ sizes_of s }
{
    [16, 48 * s.bearings, 48 * s.directions, 24 * s.points]
}

// The head of the image of a network of shape s, and its counts.
fn put_front(s: Shape, out: &mut [u8])
    requires { 52 + 48 * rows s + 24 * s.points ≤ length out.old }
    ensures { out.new ≡ write out.old 0 (head 1 (sizes_of s) ++ count_bytes s) }
{
    put_head(1, &sizes(s), out);
    let counts = [s.cameras, s.points, s.bearings, s.directions];
    put_wholes(&counts, out, 36);
}

// The image of what is lent, at the front of `out`.
pub fn put_image(c: &Content<'_>, out: &mut [u8])
    requires content_lengths { let n = c.now in ContentLengths n.shape n.ends n.rays n.weights n.scales n.positions }
    requires points_in_bounds { 52 + 48 * rows c.now.shape + 24 * c.now.shape.points ≤ length out.old }
    ensures { out.new ≡ write out.old 0 (image c.now) }
{
    let s = c.shape();
    put_front(s, out);
    put_rows(c, out, 52);
    let behind = 52 + 48 * (s.bearings + s.directions);
    put_doubles(c.points, out, behind);
}
