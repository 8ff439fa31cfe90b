// Refusals 3 and 4 of the call.
// m, b and `ends` come one by one, as the caller lends them: a struct of what is not tested yet would be made for these tests alone.
ghost use Rattle.std.specs.Prelude.{◌≡◌, ◌*◌, ◌≤◌, length};
ghost use Rattle.field.specs.Count.{lowest};
ghost use Rattle.network.specs.Refusals.{verdict};
ghost use Rattle.lists.specs.PointLists.{lengths_fit, past_points, point_lists_tests};

use network::answers::refused_at;
use network::lengths::check_lengths;
use network::{Cause, Refusal};

// Whether the slices have the lengths that the counts say, for any counts: 2 b and m + 1 may be past the largest usize.
fn lengths_fit(m: usize, b: usize, ends: usize, offsets: usize, listed: usize) -> bool
    ensures { result ≡ lengths_fit m b ends offsets listed }
{
    (b <= ends / 2) & (m.checked_add(1) == Some(offsets)) & (listed == b)
}

// The lowest of b rows whose point number is not below m.
fn find_past(m: usize, b: usize, ends: &[usize]) -> Option<usize>
    requires { 2 * b ≤ length ends.now }
    ensures { result ≡ lowest (past_points m ends.now) b }
{
    (0..b).find(|&r| m <= ends[2 * r + 1])
}

// 3, then 4.
pub(crate) fn check(
    m: usize,
    b: usize,
    ends: &[usize],
    offsets: usize,
    listed: usize,
) -> Result<(), Refusal>
    ensures { result ≡ verdict (point_lists_tests m b ends.now offsets listed) }
{
    check_lengths(lengths_fit(m, b, ends.len(), offsets, listed))?;
    refused_at(Cause::OutOfRange, find_past(m, b, ends))
}
