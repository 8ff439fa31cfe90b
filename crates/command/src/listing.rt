// The point lists of a network that was read, then the solve.
ghost use Rattle.std.specs.Prelude.{◌≡◌, ◌+◌, length};
ghost use Rattle.command.specs.Command.{ImageSolved};
ghost use Rattle.command.specs.inner.Steps.{ContentSound, Steps};

use crate::Reported;
use crate::solving::place_listed;
use lists::list_points;
use network::Refusal;
use network::lent::{Content, Network};

// Builds the lists of rows whose ends are in range, with buffers of the lengths that the counts say, and goes on.
fn list(
    c: &Content<'_>,
    offsets: &mut [usize],
    listed: &mut [usize],
    text: &mut [u8; 65536],
) -> Result<Reported, Refusal>
    requires content_sound { ContentSound c.now }
    requires offsets_len { (length offsets.old ≡ c.now.shape.points + 1) × (length listed.old ≡ c.now.shape.bearings) }
    ensures { Steps (ImageSolved c.now) result text.old text.new }
{
    let s = c.shape;
    let _ = list_points(s.points, s.bearings, c.ends, offsets, listed);
    let net = Network {
        shape: s,
        ends: c.ends,
        rays: c.rays,
        weights: c.weights,
        scales: c.scales,
        points: c.points,
        offsets,
        listed,
    };
    place_listed(&net, text)
}

// Has the lists of 680 points and 340 bearings.
pub(crate) fn place_read(c: &Content<'_>, text: &mut [u8; 65536]) -> Result<Reported, Refusal>
    requires content_sound { ContentSound c.now }
    ensures { Steps (ImageSolved c.now) result text.old text.new }
{
    let mut offsets = [0usize; 681];
    let mut listed = [0usize; 340];
    let s = c.shape();
    let count = s.points + 1;
    list(c, &mut offsets[..count], &mut listed[..s.bearings], text)
}
