// The image: its length, its counts, its network.
ghost use Rattle.network.specs.inner.Sound.{ContentLengths};
ghost use Rattle.command.specs.Command.{Outcome};
ghost use Rattle.command.specs.inner.Steps.{CountsTaken, Steps};

use crate::Reported;
use crate::listing::place_read;
use image::{counts, read};
use network::answers::refused_if;
use network::lent::Content;
use network::{Cause, Refusal, Shape};

// Reads the network, with buffers of the lengths that the counts say. The five are lent one by one, as `image::read` takes them.
fn run_sized(
    bytes: &[u8],
    s: Shape,
    ends: &mut [usize],
    rays: &mut [f64],
    weights: &mut [f64],
    scales: &mut [f64],
    points: &mut [f64],
    text: &mut [u8; 65536],
) -> Result<Reported, Refusal>
    requires counts_taken { CountsTaken bytes.now s }
    requires content_lengths { ContentLengths s ends.old rays.old weights.old scales.old points.old }
    ensures { Steps (Outcome bytes.now) result text.old text.new }
{
    read(bytes, ends, rays, weights, scales, points)?;
    let c = Content {
        shape: s,
        ends,
        rays,
        weights,
        scales,
        points,
    };
    place_read(&c, text)
}

// Has the buffers: 16,384 bytes have room for 340 rows, or for 680 points.
fn run_small(bytes: &[u8], s: Shape, text: &mut [u8; 65536]) -> Result<Reported, Refusal>
    requires { CountsTaken bytes.now s }
    ensures { Steps (Outcome bytes.now) result text.old text.new }
{
    let mut ends = [0usize; 680];
    let mut rays = [0.0f64; 1020];
    let mut weights = [0.0f64; 340];
    let mut scales = [0.0f64; 340];
    let mut points = [0.0f64; 2040];
    let count = s.bearings + s.directions;
    let end_numbers = 2 * count;
    let ray_numbers = 3 * count;
    let point_numbers = 3 * s.points;
    run_sized(
        bytes,
        s,
        &mut ends[..end_numbers],
        &mut rays[..ray_numbers],
        &mut weights[..count],
        &mut scales[..count],
        &mut points[..point_numbers],
        text,
    )
}

// Makes the tests in their order. At most 16,384 bytes and 64 cameras are taken.
pub(crate) fn run_image(bytes: &[u8], text: &mut [u8; 65536]) -> Result<Reported, Refusal>
    ensures { Steps (Outcome bytes.now) result text.old text.new }
{
    refused_if(Cause::Sizes, 16384 < bytes.len())?;
    let s = counts(bytes)?;
    refused_if(Cause::Cameras, 64 < s.cameras)?;
    run_small(bytes, s, text)
}
