// What the rows tie together, as types: a value stands for slices that passed their tests. Each read tells its range.
ghost use Rattle.std.specs.Prelude.{◌≡◌, ◌+◌, ◌*◌, ◌<◌, ◌≤◌, get_or};
ghost use Rattle.network.specs.Network.{first_end, second_end, span_of, rows, row_ends, links as links_of};
ghost use Rattle.network.specs.inner.Sound.{ShapeSound, EndsSound, ListedSound, OffsetsSound, LinksSound};

use crate::{Shape, Span};
use std::marker::Model;

// The places of the point lists that point p has: the Rust's `point_bearing_range`.
pub fn span_of(s: Shape, offsets: &[usize], p: usize) -> Span
    requires offsets_sound { OffsetsSound s.points s.bearings offsets.now }
    requires p_lt_points { p < s.points }
    ensures { (result ≡ span_of offsets.now p) × (result.first + result.size ≤ s.bearings) }
{
    let first = offsets[p];
    Span {
        first,
        size: offsets[p + 1] - first,
    }
}

// The bearing at place k of the point lists.
pub fn listed_at(s: Shape, listed: &[usize], k: usize) -> usize
    requires listed_sound { ListedSound s.bearings listed.now }
    requires k_lt_bearings { k < s.bearings }
    ensures { (result ≡ get_or listed.now k 0) × (result < s.bearings) }
{
    listed[k]
}

// The ends of the rows: 1, 2, 4 and 5.
#[derive(Drop)]
pub struct Ends<'a> {
    shape: Shape,
    ends: &'a [usize],
}

impl<'a> Model for Ends<'a> {
    ghost use Rattle.network.specs.Network.{RowEnds, row_ends};
    ghost use Rattle.network.specs.inner.Sound.{EndsSound};

    ghost Value = { RowEnds };

    ghost view = { λ e. row_ends e.shape e.ends.now };

    ghost invariant = { λ e. EndsSound e.shape e.ends.now };
}

impl<'a> Ends<'a> {
    pub fn new(shape: Shape, ends: &'a [usize]) -> Ends<'a>
        requires { EndsSound shape ends.now }
        ensures { result ≡ row_ends shape ends.now }
    {
        Ends { shape, ends }
    }

    pub fn shape(&self) -> Shape
        ensures value { result ≡ self.now.shape }
        ensures sound { ShapeSound result }
    {
        self.shape
    }

    // The camera of a bearing, the source of a direction.
    pub fn camera(&self, row: usize) -> usize
        requires { row < rows self.now.shape }
        ensures { (result ≡ first_end self.now.ends row) × (result < self.now.shape.cameras) }
    {
        let ends = self.ends;
        ends[2 * row]
    }

    // The point of a bearing.
    pub fn point(&self, bearing: usize) -> usize
        requires { bearing < self.now.shape.bearings }
        ensures { (result ≡ second_end self.now.ends bearing) × (result < self.now.shape.points) }
    {
        let ends = self.ends;
        ends[2 * bearing + 1]
    }

    // The target of a direction.
    pub fn target(&self, direction: usize) -> usize
        requires { (self.now.shape.bearings ≤ direction) × (direction < rows self.now.shape) }
        ensures { (result ≡ second_end self.now.ends direction) × (result < self.now.shape.cameras) }
    {
        let ends = self.ends;
        ends[2 * direction + 1]
    }
}

// The ends of the rows and the point lists: 1, 2 and 4 to 6.
#[derive(Drop)]
pub struct Links<'a> {
    ends: Ends<'a>,
    offsets: &'a [usize],
    listed: &'a [usize],
}

impl<'a> Model for Links<'a> {
    ghost use Rattle.network.specs.Network.{Links, links};
    ghost use Rattle.network.specs.inner.Sound.{LinksSound};

    ghost Value = { Links };

    ghost view = { λ l. links l.ends.shape l.ends.ends l.offsets.now l.listed.now };

    ghost invariant = { λ l. LinksSound (links l.ends.shape l.ends.ends l.offsets.now l.listed.now) };
}

impl<'a> Links<'a> {
    pub fn new(
        shape: Shape,
        ends: &'a [usize],
        offsets: &'a [usize],
        listed: &'a [usize],
    ) -> Links<'a>
        requires { LinksSound (links_of shape ends.now offsets.now listed.now) }
        ensures { result ≡ links_of shape ends.now offsets.now listed.now }
    {
        Links {
            ends: Ends::new(shape, ends),
            offsets,
            listed,
        }
    }

    // The same as a value of its own: what it holds stays in registers over a loop that stores. (By hand: a type with a model and a lifetime may not be `Copy`.)
    pub fn copied(&self) -> Links<'a>
        ensures { result ≡ self.now }
    {
        let ends = &self.ends;
        Links {
            ends: Ends {
                shape: ends.shape,
                ends: ends.ends,
            },
            offsets: self.offsets,
            listed: self.listed,
        }
    }

    pub fn shape(&self) -> Shape
        ensures value { result ≡ self.now.shape }
        ensures sound { ShapeSound result }
        ensures links_sound { LinksSound self.now }
    {
        self.ends.shape()
    }

    pub fn ends(&self) -> &Ends<'a>
        ensures { result.now ≡ row_ends self.now.shape self.now.ends }
    {
        &self.ends
    }

    // The rows that the point lists name.
    pub fn listed_rows(&self) -> &'a [usize]
        ensures value { result.now ≡ self.now.listed }
        ensures sound { ListedSound self.now.shape.bearings result.now }
    {
        self.listed
    }

    // The places of the lists that a point has.
    pub fn span(&self, point: usize) -> Span
        requires { point < self.now.shape.points }
        ensures { (result ≡ span_of self.now.offsets point) × (result.first + result.size ≤ self.now.shape.bearings) }
    {
        span_of(self.ends.shape(), self.offsets, point)
    }

    // The bearing at a place of the lists.
    pub fn listed(&self, place: usize) -> usize
        requires { place < self.now.shape.bearings }
        ensures { (result ≡ get_or self.now.listed place 0) × (result < self.now.shape.bearings) }
    {
        listed_at(self.ends.shape(), self.listed, place)
    }
}
