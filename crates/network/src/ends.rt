// 4 and 5: the rows' ends. They are lent flat, as C has them: those of row r are at 2r and 2r + 1 (in links.rt and lists.rt too).
ghost use Rattle.std.specs.Prelude.{◌≡◌, ◌+◌, ◌*◌, ◌<◌, ◌≤◌, length};
ghost use Rattle.field.specs.Count.{lowest};
ghost use Rattle.network.specs.Network.{rows};
ghost use Rattle.network.specs.Refusals.{verdict, strays, loops, end_tests};

use crate::answers::refused_at;
use crate::{Cause, Refusal, Shape};

// Row r has a number that is out of range.
fn strays_at(s: Shape, ends: &[usize], r: usize) -> bool
    requires { 2 * r + 2 ≤ length ends.now }
    ensures { result ≡ strays s.cameras s.points s.bearings ends.now r }
{
    let others = if r < s.bearings { s.points } else { s.cameras };
    (s.cameras <= ends[2 * r]) | (others <= ends[2 * r + 1])
}

// The lowest row with a number that is out of range.
fn find_stray(s: Shape, ends: &[usize]) -> Option<usize>
    requires { length ends.now ≡ 2 * rows s }
    ensures { result ≡ lowest (strays s.cameras s.points s.bearings ends.now) (rows s) }
{
    (0..s.bearings + s.directions).find(|&r| strays_at(s, ends, r))
}

// Row r is a direction with source = target.
fn loops_at(s: Shape, ends: &[usize], r: usize) -> bool
    requires { 2 * r + 2 ≤ length ends.now }
    ensures { result ≡ loops s.bearings ends.now r }
{
    (s.bearings <= r) & (ends[2 * r] == ends[2 * r + 1])
}

// The lowest row that is a direction with source = target. The bearings are none.
fn find_loop(s: Shape, ends: &[usize]) -> Option<usize>
    requires { length ends.now ≡ 2 * rows s }
    ensures { result ≡ lowest (loops s.bearings ends.now) (rows s) }
{
    (s.bearings..s.bearings + s.directions).find(|&r| loops_at(s, ends, r))
}

// 4 and 5.
pub fn check_ends(s: Shape, ends: &[usize]) -> Result<(), Refusal>
    requires { length ends.now ≡ 2 * rows s }
    ensures { result ≡ verdict (end_tests s ends.now) }
{
    refused_at(Cause::OutOfRange, find_stray(s, ends))?;
    refused_at(Cause::Loop, find_loop(s, ends))
}
