// The rows with their ends where they are placed: a row's baseline, its dot and its scale answer.
ghost use Rattle.std.specs.Prelude.{◌≡◌, ◌+◌, ◌*◌, ◌≤◌, ◌<◌, length, set};
ghost use Rattle.field.specs.Buffer.{vectors_in};
ghost use Rattle.network.specs.Network.{rows};
ghost use Rattle.system.specs.System.{rows_of};
ghost use Rattle.recover.specs.Recover.{near_end, far_end, baseline_in, dot_in, renewal, answer_in, scale_number};
ghost use Rattle.recover.specs.inner.Reads.{SitesSound, sites};

use crate::Scale;
use crate::part::position;
use double::max;
use field::{Vec3, get3};
use network::lent::Network;
use std::marker::Model;
use system::numbers::Rows;

// What the tests of a call of dots or scales have shown, as a type: a value stands for slices that passed them.
#[derive(Drop)]
pub(crate) struct Sites<'a> {
    rows: Rows<'a>,
    points: &'a [f64],
    cameras: &'a [f64],
}

impl<'a> Model for Sites<'a> {
    ghost use Rattle.system.specs.System.{network_of};
    ghost use Rattle.recover.specs.inner.Reads.{Sites, SitesSound, sites};

    ghost Value = { Sites };

    ghost view = { λ i. sites (network_of i.rows i.points.now) i.cameras.now };

    ghost invariant = { λ i. SitesSound (sites (network_of i.rows i.points.now) i.cameras.now) };
}

impl<'a> Sites<'a> {
    pub(crate) fn new(net: &Network<'a>, cameras: &'a [f64]) -> Sites<'a>
        requires { SitesSound (sites net.now cameras.now) }
        ensures { result ≡ sites net.now cameras.now }
    {
        Sites {
            rows: Rows::new(net),
            points: net.points,
            cameras,
        }
    }

    pub(crate) fn rows(&self) -> &Rows<'a>
        ensures { result.now ≡ rows_of self.now.net }
    {
        &self.rows
    }

    // The camera of a bearing, the source of a direction.
    fn near_end(&self, r: usize) -> Vec3
        requires { r < rows self.now.net.shape }
        ensures { result ≡ near_end self.now.net.ends (vectors_in self.now.cameras) r }
    {
        position(self.cameras, self.rows.links().ends().camera(r))
    }

    // The point of a bearing, the target of a direction.
    fn far_end(&self, r: usize) -> Vec3
        requires { r < rows self.now.net.shape }
        ensures { result ≡ far_end self.now.net.shape self.now.net.ends self.now.net.positions (vectors_in self.now.cameras) r }
    {
        let ends = self.rows.links().ends();
        if r < ends.shape().bearings {
            return get3(self.points, 3 * ends.point(r));
        }
        position(self.cameras, ends.target(r))
    }

    // Point - camera of a bearing, target - source of a direction.
    fn baseline(&self, r: usize) -> Vec3
        requires { r < rows self.now.net.shape }
        ensures { result ≡ baseline_in self.now.net.shape self.now.net.ends self.now.net.positions (vectors_in self.now.cameras) r }
    {
        let near = self.near_end(r);
        self.far_end(r) - near
    }

    // The dot of a row with its baseline.
    pub(crate) fn dot(&self, r: usize) -> f64
        requires { r < rows self.now.net.shape }
        ensures { let net = self.now.net in
            result ≡ dot_in net.shape net.ends net.rays net.positions (vectors_in self.now.cameras) r }
    {
        self.rows().ray(r).dot(self.baseline(r))
    }

    // The scale answer of a row; `keeps` says whether its weight keeps the scale.
    pub(crate) fn answer(&self, keeps: bool, r: usize) -> Scale
        requires { r < rows self.now.net.shape }
        ensures { let net = self.now.net in
            result ≡ answer_in keeps net.shape net.ends net.rays net.positions (vectors_in self.now.cameras) r }
    {
        if keeps {
            return Scale::Kept;
        }
        renew(self.rows().ray(r), self.baseline(r))
    }
}

// The scale answer of a row with ray v and baseline d.
fn renew(v: Vec3, d: Vec3) -> Scale
    ensures { result ≡ renewal v d }
{
    let square = d.dot(d);
    if square < 1e-12 {
        return Scale::Kept;
    }
    let quotient = v.dot(d) / square;
    Scale::Renewed(max(quotient, 1e-5))
}

// A row's scale is stored: the old one, or the number that renews it.
pub(crate) fn put_scale(out: &mut [f64], r: usize, old: f64, scale: Scale)
    requires { r < length out.old }
    ensures { out.new ≡ set out.old r (scale_number old scale) }
{
    match scale {
        Scale::Kept => {
            out[r] = old;
        }
        Scale::Renewed(x) => {
            out[r] = x;
        }
    }
}
