// The dense system, its rows and the places of its right side.
ghost use Rattle.std.specs.Prelude.{◌≡◌, ◌+◌, ◌*◌, ◌<◌, ◌≤◌};
ghost use Rattle.network.specs.inner.Sound.{ShapeSound};
ghost use Rattle.system.specs.Work.{dense_right_at};
ghost use Rattle.dense.specs.Rows.{dense_row};

use network::Shape;
use system::work::dense_right_at;

// A row of the dense system. Rows and cameras are both counted from 0 and kept apart: a row is made only here, of a camera and the anchor
// (the Rust's `reduced_index`, with usize::MAX at the anchor).
#[derive(Clone, Copy)]
pub struct DenseRow(usize);

impl DenseRow {
    pub(crate) fn index(self) -> usize
        ensures { result ≡ self.0 }
    {
        self.0
    }
}

// The dense system of a shape with an anchor. Its size is the number of its rows, n - 1. (What holds of it stands in `SystemRoom` beside the room, which
// each function asks anyway: in an invariant it would leave as many clauses, and `&DenseSystem` in place of a copy.)
#[derive(Clone, Copy)]
pub(crate) struct DenseSystem {
    pub(crate) shape: Shape,
    pub(crate) anchor: usize,
    pub(crate) size: usize,
}

impl DenseSystem {
    // The row of a camera: the anchor has none.
    pub(crate) fn row(self, camera: usize) -> Option<DenseRow>
        ensures { result ≡ dense_row camera self.anchor }
    {
        if camera == self.anchor {
            return None;
        }
        if camera < self.anchor {
            return Some(DenseRow(camera));
        }
        Some(DenseRow(camera - 1))
    }

    // Where the matrix ends in the work buffer, and the right side begins.
    pub(crate) fn right_at(self) -> usize
        requires shape_sound { ShapeSound self.shape }
        requires size_bound { self.size ≤ 4096 }
        ensures { result ≡ dense_right_at self.shape self.size }
    {
        dense_right_at(self.shape, self.size)
    }

    // The place of a row's vector in the right side.
    pub(crate) fn vector_place(self, p: DenseRow) -> usize
        requires shape_sound { ShapeSound self.shape }
        requires size_bound { (p.0 < self.size) × (self.size ≤ 4096) }
        ensures { (result ≡ dense_right_at self.shape self.size + 3 * p.0) × (result + 3 ≤ dense_right_at self.shape self.size + 3 * self.size) }
    {
        self.right_at() + 3 * p.index()
    }
}
