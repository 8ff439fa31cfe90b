// What the tests of a graph call have shown, as a type: a value stands for slices that passed them.
ghost use Rattle.std.specs.Prelude.{◌≡◌, ◌<◌, get_or};
ghost use Rattle.std.specs.Float.{nan};
ghost use Rattle.network.specs.Network.{row_ends, graph as graph_of, rows};
ghost use Rattle.network.specs.inner.Sound.{GraphSound};

use crate::Shape;
use crate::links::Ends;
use std::marker::Model;

// The ends and weights of the rows: 1 to 5 and the weight part of 7.
#[derive(Drop)]
pub struct Graph<'a> {
    ends: Ends<'a>,
    weights: &'a [f64],
}

impl<'a> Model for Graph<'a> {
    ghost use Rattle.network.specs.Network.{Graph, graph};
    ghost use Rattle.network.specs.inner.Sound.{GraphSound};

    ghost Value = { Graph };

    ghost view = { λ g. graph g.ends.shape g.ends.ends g.weights.now };

    ghost invariant = { λ g. GraphSound (graph g.ends.shape g.ends.ends g.weights.now) };
}

impl<'a> Graph<'a> {
    pub fn new(shape: Shape, ends: &'a [usize], weights: &'a [f64]) -> Graph<'a>
        requires { GraphSound (graph_of shape ends.now weights.now) }
        ensures { result ≡ graph_of shape ends.now weights.now }
    {
        Graph {
            ends: Ends::new(shape, ends),
            weights,
        }
    }

    pub fn ends(&self) -> &Ends<'a>
        ensures { result.now ≡ row_ends self.now.shape self.now.ends }
    {
        &self.ends
    }

    pub fn weight(&self, row: usize) -> f64
        requires { row < rows self.now.shape }
        ensures { result ≡ get_or self.now.weights row nan }
    {
        let weights = self.weights;
        weights[row]
    }
}
