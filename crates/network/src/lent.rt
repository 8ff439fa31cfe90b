// A network and what an image holds of it, as they are lent to a call: nothing of them is tested.
// `shape` stands beside the field: it tells of `now`, where after a read of the field each proof goes through the view.
// (No trait has it, here and at the types of tested slices: no function takes any of them.)
ghost use Rattle.std.specs.Prelude.{◌≡◌};
ghost use Rattle.network.specs.Network.{content_of, links_of};
ghost use Rattle.network.specs.inner.Sound.{LinksSound};

use crate::Shape;
use crate::links::Links;
use std::marker::Model;

// What an image holds: a network without its point lists.
#[derive(Drop)]
pub struct Content<'a> {
    pub shape: Shape,
    // of each row, camera and point of a bearing, source and target of a direction
    pub ends: &'a [usize],
    pub rays: &'a [f64],
    pub weights: &'a [f64],
    pub scales: &'a [f64],
    // the old points
    pub points: &'a [f64],
}

impl<'a> Model for Content<'a> {
    ghost use Rattle.network.specs.Network.{Content, content};

    ghost Value = { Content };

    ghost view = { λ c. content c.shape c.ends.now c.rays.now c.weights.now c.scales.now c.points.now };
}

impl<'a> Content<'a> {
    pub fn shape(&self) -> Shape
        ensures { result ≡ self.now.shape }
    {
        self.shape
    }
}

// The whole network. (With a `Content` inside, each read of a slice, and each definition over a network, would go through it.)
#[derive(Drop)]
pub struct Network<'a> {
    pub shape: Shape,
    pub ends: &'a [usize],
    pub rays: &'a [f64],
    pub weights: &'a [f64],
    pub scales: &'a [f64],
    pub points: &'a [f64],
    // the point lists
    pub offsets: &'a [usize],
    pub listed: &'a [usize],
}

impl<'a> Model for Network<'a> {
    ghost use Rattle.network.specs.Network.{Network, network};

    ghost Value = { Network };

    ghost view = { λ n. network n.shape n.ends.now n.rays.now n.weights.now n.scales.now n.points.now n.offsets.now n.listed.now };
}

impl<'a> Network<'a> {
    pub fn shape(&self) -> Shape
        ensures { result ≡ self.now.shape }
    {
        self.shape
    }

    // Its links, once 1 to 6 have been tested.
    pub fn links(&self) -> Links<'a>
        requires { LinksSound (links_of self.now) }
        ensures { result ≡ links_of self.now }
    {
        Links::new(self.shape, self.ends, self.offsets, self.listed)
    }

    pub fn content(&self) -> Content<'a>
        ensures { result ≡ content_of self.now }
    {
        Content {
            shape: self.shape,
            ends: self.ends,
            rays: self.rays,
            weights: self.weights,
            scales: self.scales,
            points: self.points,
        }
    }
}
