// The rows, as a type: a value stands for links that were tested and for slices that hold the numbers of each row.
ghost use Rattle.std.specs.Prelude.{◌≡◌, ◌+◌, ◌*◌, ◌<◌, ◌≤◌, get_or};
ghost use Rattle.std.specs.Float.{nan};
ghost use Rattle.field.specs.Buffer.{get, vector};
ghost use Rattle.network.specs.Network.{rows};
ghost use Rattle.network.specs.inner.Sound.{ShapeSound, LinksSound};
ghost use Rattle.system.specs.System.{rows_of, effective_in, pull_in, weight_sum};
ghost use Rattle.system.specs.inner.Formed.{RowsSound};

use crate::points::point_weight;
use crate::{effective, pull};
use field::{Vec3, get3};
use network::lent::Network;
use network::links::Links;
use network::{Shape, Span};
use std::marker::Model;

// The links, rays, weights and scales of the rows.
#[derive(Drop)]
pub struct Rows<'a> {
    links: Links<'a>,
    rays: &'a [f64],
    weights: &'a [f64],
    scales: &'a [f64],
}

impl<'a> Model for Rows<'a> {
    ghost use Rattle.system.specs.System.{RowNumbers, row_numbers};
    ghost use Rattle.system.specs.inner.Formed.{RowsSound};

    ghost Value = { RowNumbers };

    ghost view = { λ r. row_numbers r.links r.rays.now r.weights.now r.scales.now };

    ghost invariant = { λ r. RowsSound (row_numbers r.links r.rays.now r.weights.now r.scales.now) };
}

impl<'a> Rows<'a> {
    // The rows of a network, once 1 to 6 have been tested.
    pub fn new(net: &Network<'a>) -> Rows<'a>
        requires { RowsSound (rows_of net.now) }
        ensures { result ≡ rows_of net.now }
    {
        Rows {
            links: net.links(),
            rays: net.rays,
            weights: net.weights,
            scales: net.scales,
        }
    }

    // (No trait for the types' shapes: network, src/lent.rt.)
    pub fn shape(&self) -> Shape
        ensures value { result ≡ self.now.links.shape }
        ensures sound { ShapeSound result }
    {
        self.links.shape()
    }

    pub fn links(&self) -> &Links<'a>
        ensures value { result.now ≡ self.now.links }
        ensures sound { LinksSound result.now }
    {
        &self.links
    }

    // The ray of row r.
    pub fn ray(&self, r: usize) -> Vec3
        requires { r < rows self.now.links.shape }
        ensures { result ≡ get vector self.now.rays (3 * r) }
    {
        get3(self.rays, 3 * r)
    }

    pub fn weight(&self, r: usize) -> f64
        requires { r < rows self.now.links.shape }
        ensures { result ≡ get_or self.now.weights r nan }
    {
        let weights = self.weights;
        weights[r]
    }

    pub fn scale(&self, r: usize) -> f64
        requires { r < rows self.now.links.shape }
        ensures { result ≡ get_or self.now.scales r nan }
    {
        let scales = self.scales;
        scales[r]
    }

    // The effective weight of row r: (weight × scale) × scale.
    pub fn effective(&self, r: usize) -> f64
        requires { r < rows self.now.links.shape }
        ensures { result ≡ effective_in self.now.weights self.now.scales r }
    {
        effective(self.weights, self.scales, r)
    }

    // The pull of row r: ray × (weight × scale).
    pub fn pull(&self, r: usize) -> Vec3
        requires { r < rows self.now.links.shape }
        ensures { result ≡ pull_in self.now.rays self.now.weights self.now.scales r }
    {
        pull(self.rays, self.weights, self.scales, r)
    }

    // W: the sum of the effective weights over the rows at the places k of the lists.
    pub fn list_weight(&self, k: Span) -> f64
        requires { k.first + k.size ≤ self.now.links.shape.bearings }
        ensures { result ≡ weight_sum (effective_in self.now.weights self.now.scales) self.now.links.listed k }
    {
        let links = &self.links;
        point_weight(
            links.shape(),
            self.weights,
            self.scales,
            links.listed_rows(),
            k,
        )
    }
}
