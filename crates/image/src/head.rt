// 20 to 22: the head of an image.
// Bytes and count are no type: its model, `new` and two reads, each with a contract, would be longer than the clauses that say that the pairs are there.
ghost use Rattle.std.specs.Prelude.{None, ◌≡◌, ◌+◌, ◌*◌, ◌≤◌, ◌<◌, length};
ghost use Rattle.field.specs.Count.{lowest};
ghost use Rattle.network.specs.Network.{rows};
ghost use Rattle.network.specs.Refusals.{verdict};
ghost use Rattle.layout.specs.Image.{head_size, sizes as sizes_of};
ghost use Rattle.image.specs.Reading.{offset_at, length_at, start_of, shape_at};
ghost use Rattle.image.specs.Tests.{bad_head, bad_offset, bad_pair, bad_length, image_tests};

use layout::bytes::{u16_at, u32_at};
use layout::put::sizes;
use network::answers::{refused_at, refused_if};
use network::{Cause, Refusal, Shape};

// 20: of an image of k sections.
fn bad_head(bytes: &[u8], version: usize, k: usize) -> bool
    requires { k ≤ 1024 }
    ensures { result ≡ bad_head version k bytes.now }
{
    if bytes.len() < 4 + 8 * k {
        return true;
    }
    if u16_at(bytes, 0) != version {
        return true;
    }
    u16_at(bytes, 2) != k
}

// Offset and length of pair i.
fn pair_at(bytes: &[u8], i: usize) -> (usize, usize)
    requires { head_size (i + 1) ≤ length bytes.now }
    ensures offset { (result.0 ≡ offset_at bytes.now i) × (result.0 < 0x1_0000_0000) }
    ensures length { (result.1 ≡ length_at bytes.now i) × (result.1 < 0x1_0000_0000) }
{
    let p = 4 + 8 * i;
    (u32_at(bytes, p), u32_at(bytes, p + 4))
}

// Of k sections, where section i must start.
fn start_of(bytes: &[u8], k: usize, i: usize) -> usize
    requires k_in_bounds { head_size k ≤ length bytes.now }
    requires i_le_k { i ≤ k }
    ensures { result ≡ start_of k bytes.now i }
{
    if i == 0 {
        return 4 + 8 * k;
    }
    let (offset, length) = pair_at(bytes, i - 1);
    offset + length
}

fn bad_offset_at(bytes: &[u8], k: usize, i: usize) -> bool
    requires k_in_bounds { head_size k ≤ length bytes.now }
    requires i_lt_k { i < k }
    ensures { result ≡ bad_offset k bytes.now i }
{
    let (offset, _) = pair_at(bytes, i);
    offset != start_of(bytes, k, i)
}

// The first of k pairs whose offset is not where the one before ended.
fn find_offset(bytes: &[u8], k: usize) -> Option<usize>
    requires { head_size k ≤ length bytes.now }
    ensures { result ≡ lowest (bad_offset k bytes.now) k }
{
    (0..k).find(|&i| bad_offset_at(bytes, k, i))
}

// 21: of an image of k sections.
fn find_pair(bytes: &[u8], k: usize) -> Option<usize>
    requires k_in_bounds { head_size k ≤ length bytes.now }
    requires le_k { 1 ≤ k }
    ensures { result ≡ bad_pair k bytes.now }
{
    if let Some(i) = find_offset(bytes, k) {
        return Some(i);
    }
    if start_of(bytes, k, k) == bytes.len() {
        return None;
    }
    Some(k - 1)
}

// Section i's length differs from what it must be.
fn bad_length_at(bytes: &[u8], sizes: &[usize], i: usize) -> bool
    requires sizes_in_bounds { head_size (length sizes.now) ≤ length bytes.now }
    requires i_in_bounds { i < length sizes.now }
    ensures { result ≡ bad_length sizes.now bytes.now i }
{
    let (_, length) = pair_at(bytes, i);
    length != sizes[i]
}

// The first section whose length differs from what it must be.
fn find_length(bytes: &[u8], sizes: &[usize]) -> Option<usize>
    requires { head_size (length sizes.now) ≤ length bytes.now }
    ensures { result ≡ lowest (bad_length sizes.now bytes.now) (length sizes.now) }
{
    (0..sizes.len()).find(|&i| bad_length_at(bytes, sizes, i))
}

// The counts that stand at p.
pub(crate) fn shape_at(bytes: &[u8], p: usize) -> Shape
    requires { p + 16 ≤ length bytes.now }
    ensures value { result ≡ shape_at p bytes.now }
    ensures small { 48 * rows result + 24 * result.points < 0x1_0000_0000_0000_0000 }
{
    Shape {
        cameras: u32_at(bytes, p),
        points: u32_at(bytes, p + 4),
        bearings: u32_at(bytes, p + 8),
        directions: u32_at(bytes, p + 12),
    }
}

// The first section whose length differs from what the counts say.
fn find_counted_length(bytes: &[u8]) -> Option<usize>
    requires { 52 ≤ length bytes.now }
    ensures { result ≡ lowest (bad_length (sizes_of (shape_at 36 bytes.now)) bytes.now) 4 }
{
    find_length(bytes, &sizes(shape_at(bytes, 36)))
}

// 22.
fn find_section(bytes: &[u8]) -> Option<usize>
    requires in_bounds { 36 ≤ length bytes.now }
    requires bytes_value { bad_pair 4 bytes.now ≡ None }
    ensures { result ≡ lowest (bad_length (sizes_of (shape_at 36 bytes.now)) bytes.now) 4 }
{
    let (_, length) = pair_at(bytes, 0);
    if length != 16 {
        return Some(0);
    }
    find_counted_length(bytes)
}

// 20 to 22.
pub(crate) fn check_image(bytes: &[u8]) -> Result<(), Refusal>
    ensures { result ≡ verdict (image_tests bytes.now) }
{
    refused_if(Cause::Head, bad_head(bytes, 1, 4))?;
    refused_at(Cause::Pairs, find_pair(bytes, 4))?;
    refused_at(Cause::Section, find_section(bytes))
}
