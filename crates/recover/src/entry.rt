// Refusals 1 to 7 of a call that is lent placed cameras.
ghost use Rattle.std.specs.Prelude.{List, Float, ◌≡◌, ◌&&◌, length};
ghost use Rattle.field.specs.declared.Vec3.{Vec3};
ghost use Rattle.field.specs.Buffer.{vectors_in};
ghost use Rattle.network.specs.Network.{Network, rows};
ghost use Rattle.network.specs.Refusals.{verdict, length_tests, network_fits, marks_after};
ghost use Rattle.network.specs.inner.Sound.{ShapeSound};
ghost use Rattle.recover.specs.Calls.{placed, cameras_of, buffers_fit, early_verdict, Filled};
ghost use Rattle.recover.specs.inner.Reads.{entered};

use crate::part::marked_buffer;
use crate::row::Sites;
use network::lengths::{check_lengths, network_fits, vectors_fit};
use network::lent::Network;
use network::{Refusal, Shape, check_counts, check_placed_rows};

// The mark buffer, both camera buffers and the output have their lengths.
fn buffers_fit(s: Shape, marks: usize, current: &[f64], trial: &[f64], room: usize) -> bool
    requires { ShapeSound s }
    ensures { result ≡ buffers_fit s marks current.now trial.now room }
{
    (marks == s.bearings)
        & vectors_fit(s.cameras, current)
        & vectors_fit(s.cameras, trial)
        & (room == s.bearings + s.directions)
}

// 3, of every slice that the call is lent. (placement has its like: each contract names the buffers of its own call.)
fn check_all_lengths(
    net: &Network<'_>,
    marks: usize,
    current: &[f64],
    trial: &[f64],
    room: usize,
) -> Result<(), Refusal>
    requires { ShapeSound net.now.shape }
    ensures { result ≡ verdict (length_tests (network_fits net.now
        && buffers_fit net.now.shape marks current.now trial.now room)) }
{
    let network_ok = network_fits(net);
    let buffers_ok = buffers_fit(net.shape(), marks, current, trial, room);
    check_lengths(network_ok & buffers_ok)
}

// 1 to 7, and what they show; 7 tests the marked cameras after the points. Once 6 has been tested, the marks are all zero.
fn enter<'a>(
    net: &Network<'a>,
    marks: &mut [usize],
    current: &'a [f64],
    trial: &'a [f64],
    mark: bool,
    room: usize,
) -> Result<Sites<'a>, Refusal>
    ensures value { result ≡ entered (placed net.now (length marks.old) current.now trial.now mark room) }
    ensures marks_after { marks.new ≡ marks_after
        (early_verdict (placed net.now (length marks.old) current.now trial.now mark room))
        net.now.shape.bearings marks.old }
{
    check_counts(net.shape())?;
    check_all_lengths(net, marks.len(), current, trial, room)?;
    let cameras = marked_buffer(current, trial, mark);
    check_placed_rows(net, marks, cameras)?;
    Ok(Sites::new(net, cameras))
}

// Refusals 1 to 7, and then the fill of the output: what dots and scales have in common. Where each fill gives f of its sites, the call gives f.
pub(crate) fn enter_and_fill<F: FnOnce(&Sites<'_>, &mut [f64])>(
    net: &Network<'_>,
    marks: &mut [usize],
    current: &[f64],
    trial: &[f64],
    mark: bool,
    out: &mut [f64],
    fill: F,
) -> Result<(), Refusal>
    requires { (i : _) (o : _) → length o.now ≡ rows i.now.net.shape → F.pre fill i o }
    ensures { (f : Network → List Vec3 → List Float) →
        ((i : _) (o : _) (p : _) → F.post fill i o tt p → p.now ≡ f i.now.net (vectors_in i.now.cameras)) →
        let i = placed net.now (length marks.old) current.now trial.now mark (length out.old) in
        Filled i (f i.net (cameras_of i)) result marks.old marks.new out.old out.new }
{
    let i = enter(net, marks, current, trial, mark, out.len())?;
    fill(&i, out);
    Ok(())
}
