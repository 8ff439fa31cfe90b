// The point lists of a network, built from its rows (the Rust's `point_offsets` and `point_bearings`).
#![tactic(auto)]

mod entry;
mod sort;

ghost use Rattle.lists.specs.PointLists.{PointListsCall};

use entry::check;
use network::Refusal;
use sort::{Bearings, sort_rows};

// Fills the m + 1 offsets and the b row numbers of the point lists. `ends` holds camera and point of each bearing,
// and may hold directions after them.
pub fn list_points(
    m: usize,
    b: usize,
    ends: &[usize],
    offsets: &mut [usize],
    listed: &mut [usize],
) -> Result<(), Refusal>
    ensures { PointListsCall m b ends.now offsets.old listed.old result
        offsets.new listed.new }
{
    check(m, b, ends, offsets.len(), listed.len())?;
    let rows = Bearings::new(m, b, ends);
    sort_rows(&rows, offsets, listed);
    Ok(())
}
