// The writer's tests: 1 to 5 and 7 of the network that it is lent, then 23.
ghost use Rattle.std.specs.Prelude.{◌≡◌, ◌++◌, ◌+◌, ◌*◌, length};
ghost use Rattle.network.specs.Network.{rows};
ghost use Rattle.network.specs.Refusals.{verdict, end_tests, row_sections, domain_tests};
ghost use Rattle.network.specs.inner.Sound.{ShapeSound, ContentLengths};
ghost use Rattle.layout.specs.Bytes.{AreDoubles};
ghost use Rattle.layout.specs.Image.{image};
ghost use Rattle.image.specs.Tests.{shorter, room_tests, write_tests};

use network::answers::refused_at;
use network::domain::check_domain;
use network::ends::check_ends;
use network::lengths::{check_lengths, content_fits};
use network::lent::Content;
use network::{Cause, Refusal, Shape, check_counts};

// The numbers are doubles, as in every slice of f64; that is told of a slice that is an argument, not of a struct's field.
pub(crate) fn are_doubles(rays: &[f64], weights: &[f64], scales: &[f64], points: &[f64])
    ensures rays { AreDoubles rays.now }
    ensures weights { AreDoubles weights.now }
    ensures scales { AreDoubles scales.now }
    ensures points { AreDoubles points.now }
{}

// The bytes of the image of a network of shape s.
pub(crate) fn image_size(s: Shape) -> usize
    requires { ShapeSound s }
    ensures { result ≡ 52 + 48 * rows s + 24 * s.points }
{
    52 + 48 * (s.bearings + s.directions) + 24 * s.points
}

// The bytes needed, where there are fewer.
fn shortage(room: usize, needed: usize) -> Option<usize>
    ensures { result ≡ shorter room needed }
{
    if room < needed { Some(needed) } else { None }
}

// 23.
fn check_room(room: usize, needed: usize) -> Result<(), Refusal>
    ensures { result ≡ verdict (room_tests room needed) }
{
    refused_at(Cause::Room, shortage(room, needed))
}

// 4, 5 and 7, then 23.
fn check_rows_and_room(c: &Content<'_>, room: usize) -> Result<(), Refusal>
    requires shape_sound { ShapeSound c.now.shape }
    requires content_lengths { let n = c.now in ContentLengths n.shape n.ends n.rays n.weights n.scales n.positions }
    ensures { let n = c.now in
        result ≡ verdict (end_tests n.shape n.ends
        ++ (domain_tests (row_sections n.shape n.rays n.weights n.scales n.positions)
        ++ room_tests room (length (image n)))) }
{
    let s = c.shape();
    check_ends(s, c.ends)?;
    check_domain(c)?;
    check_room(room, image_size(s))
}

// 1 to 5 and 7, then 23.
pub(crate) fn check_write(c: &Content<'_>, room: usize) -> Result<(), Refusal>
    ensures { result ≡ verdict (write_tests c.now room) }
{
    check_counts(c.shape())?;
    check_lengths(content_fits(c))?;
    check_rows_and_room(c, room)
}
