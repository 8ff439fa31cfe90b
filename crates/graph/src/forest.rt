// Parent lists as a type: trees of nodes. A parent is never a greater number than its node, and a root is its own parent.
ghost use Rattle.std.specs.Prelude.{◌≡◌, ◌≤◌, ◌<◌, length};
ghost use Rattle.field.specs.Count.{field};
ghost use Rattle.graph.specs.Distinct.{distinct};
ghost use Rattle.graph.specs.inner.Forest.{parent, Forest, Singletons, RootsZero, root_of, Halved, Climbed, Merged, Decides};

use std::marker::Model;

// The parents stand in lent node numbers. The lender knows just the length of what they leave, and clears it.
#[derive(Drop)]
pub(crate) struct Trees<'a> {
    parents: &'a mut [usize],
}

impl<'a> Model for Trees<'a> {
    ghost use Rattle.std.specs.Prelude.{List, ℕ};
    ghost use Rattle.graph.specs.inner.Forest.{Forest};

    ghost Value = { List ℕ };

    ghost view = { λ t. t.parents.now };

    ghost invariant = { λ t. Forest t.parents.now };
}

impl<'a> Trees<'a> {
    // Each node its own parent.
    pub(crate) fn singletons(parents: &'a mut [usize]) -> Trees<'a>
        ensures own { Singletons result }
        ensures len { length result ≡ length parents.old }
    {
        for (i, parent) in parents.iter_mut().enumerate() {
            *parent = i;
        }
        Trees { parents }
    }

    // The parent of a node.
    fn parent(&self, node: usize) -> usize
        requires { node < length self.now }
        ensures value { (result ≡ parent self.now node) × (result ≤ node) }
        ensures forest { Forest self.now }
    {
        let parents = &*self.parents;
        parents[node]
    }

    // Path halving: a node that is no root gets its parent's parent as its parent. That is returned.
    fn halve(&mut self, node: usize, up: usize) -> usize
        requires node_in_bounds { node < length self.old }
        requires up_value { (up ≡ parent self.old node) × (up < node) }
        ensures halved { Halved self.old node result self.new }
        ensures len { length self.new ≡ length self.old }
    {
        let next = self.parent(up);
        self.parents[node] = next;
        next
    }

    // The root of a node (the Rust's `root`), with path halving.
    fn root(&mut self, node: usize) -> usize
        requires { node < length self.old }
        ensures climbed { Climbed self.old node result self.new }
        ensures len { length self.new ≡ length self.old }
    {
        let up = self.parent(node);
        if up == node {
            node
        } else {
            let next = self.halve(node, up);
            self.root(next)
        }
    }

    // Makes the trees of two nodes one, with the lower of the two roots as its root (the Rust's `join`).
    // Two nodes with one parent are in one tree already.
    pub(crate) fn join(&mut self, a: usize, b: usize)
        requires { (a < length self.old) × (b < length self.old) }
        ensures merged { Merged self.old self.new a b }
        ensures len { length self.new ≡ length self.old }
    {
        if self.parent(a) == self.parent(b) {
            return;
        }
        let u = self.root(a);
        let v = self.root(b);
        if u < v {
            self.parents[v] = u;
        } else {
            self.parents[u] = v;
        }
    }

    // Whether each of n cameras has camera 0 as its root (the last line of the Rust's `active_graph_is_connected`).
    #[tactic(auto, unfolding(crate::specs::inner::Forest::RootsZero))]
    pub(crate) fn all_roots_zero(&mut self, n: usize) -> bool
        requires { n ≤ length self.old }
        ensures { Decides result (RootsZero self.old n) }
    {
        for c in 0..n {
            if self.root(c) != 0 {
                return false;
            }
        }
        true
    }

    // Labels each camera with its root, and counts the cameras that are their own label.
    pub(crate) fn list_labels(&mut self, labels: &mut [usize]) -> usize
        requires { length labels.old ≤ length self.old }
        ensures labels_after { labels.new ≡ field (length labels.old) (root_of self.old) }
        ensures value { result ≡ distinct labels.new }
    {
        let mut count = 0usize;
        for (c, label) in labels.iter_mut().enumerate() {
            *label = self.root(c);
            if *label == c {
                count += 1;
            }
        }
        count
    }
}
