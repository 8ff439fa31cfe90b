// The solve and its text, from a network with its point lists.
ghost use Rattle.network.specs.Network.{content_of};
ghost use Rattle.command.specs.Command.{ImageSolved};
ghost use Rattle.command.specs.inner.Steps.{ContentSound, Listed, BuffersSized, Steps};

use crate::Reported;
use crate::output::print;
use crate::parts::count_parts;
use network::Refusal;
use network::lent::Network;
use placement::solve;

// Counts the parts, solves and prints, with outputs of the lengths that the counts say.
fn place(
    net: &Network<'_>,
    marks: &mut [usize],
    work: &mut [f64],
    cameras: &mut [f64],
    placed: &mut [f64],
    text: &mut [u8; 65536],
) -> Result<Reported, Refusal>
    requires buffers_sized { BuffersSized net.now.shape marks.old work.old cameras.old placed.old }
    requires content_sound { ContentSound (content_of net.now) }
    requires listed { Listed net.now.shape net.now.ends net.now.offsets net.now.listed }
    ensures { Steps (ImageSolved (content_of net.now)) result text.old text.new }
{
    let parts = count_parts(net);
    let report = solve(net, marks, 3, 48, work, cameras, placed)?;
    Ok(print(net.shape(), parts, report, cameras, placed, text))
}

// Has the marks of 340 bearings, the outputs of 64 cameras and 680 points, and a work buffer: 24 * 64 + 4 * 680 + 340 + 48 * 48 + 3 * 48 doubles.
pub(crate) fn place_listed(net: &Network<'_>, text: &mut [u8; 65536]) -> Result<Reported, Refusal>
    requires content_sound { ContentSound (content_of net.now) }
    requires listed { Listed net.now.shape net.now.ends net.now.offsets net.now.listed }
    ensures { Steps (ImageSolved (content_of net.now)) result text.old text.new }
{
    let mut marks = [0usize; 340];
    let mut work = [0.0f64; 7044];
    let mut cameras = [0.0f64; 192];
    let mut placed = [0.0f64; 2040];
    let s = net.shape();
    let camera_numbers = 3 * s.cameras;
    let point_numbers = 3 * s.points;
    place(
        net,
        &mut marks[..s.bearings],
        &mut work,
        &mut cameras[..camera_numbers],
        &mut placed[..point_numbers],
        text,
    )
}
