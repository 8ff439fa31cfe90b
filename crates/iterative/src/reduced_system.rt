// The system's links and anchor, as a type: a value stands for slices that passed their tests.
ghost use Rattle.std.specs.Prelude.{◌≡◌, length};
ghost use Rattle.network.specs.inner.Sound.{ShapeSound};
ghost use Rattle.operator.specs.inner.Applied.{FieldsIn, reduced_in};
ghost use Rattle.iterative.specs.inner.Solver.{frame_of, reduced_system};

use crate::Frame;
use network::Shape;
use network::links::Links;
use operator::Fields;
use operator::held::apply;
use std::marker::Model;

#[derive(Drop)]
pub(crate) struct ReducedSystem<'a> {
    links: &'a Links<'a>,
    anchor: usize,
}

impl<'a> Model for ReducedSystem<'a> {
    ghost use Rattle.iterative.specs.inner.Solver.{ReducedSystem, reduced_system};

    ghost Value = { ReducedSystem };

    ghost view = { λ t. reduced_system t.links.now t.anchor };
}

impl<'a> ReducedSystem<'a> {
    pub(crate) fn new(links: &'a Links<'a>, anchor: usize) -> ReducedSystem<'a>
        ensures { result ≡ reduced_system links.now anchor }
    {
        ReducedSystem { links, anchor }
    }

    // As each such type has it: a trait for it would be longer than the method.
    pub(crate) fn shape(&self) -> Shape
        ensures value { result ≡ self.now.links.shape }
        ensures sound { ShapeSound result }
    {
        self.links.shape()
    }

    pub(crate) fn anchor(&self) -> usize
        ensures { result ≡ self.now.anchor }
    {
        self.anchor
    }

    // The two of them.
    pub(crate) fn frame(&self) -> Frame
        ensures value { result ≡ frame_of self.now }
        ensures shape { result.shape ≡ self.now.links.shape }
        ensures sound { ShapeSound result.shape }
    {
        Frame {
            shape: self.shape(),
            anchor: self.anchor,
        }
    }

    // The system applied to the field at `from`.
    pub(crate) fn apply(&self, work: &mut [f64], from: usize, into: usize)
        requires { FieldsIn self.now.links.shape from into (length work.old) }
        ensures { work.new ≡ reduced_in self.now.links self.now.anchor from into work.old }
    {
        let anchor = self.anchor;
        apply(work, self.links, Fields { anchor, from, into });
    }
}
