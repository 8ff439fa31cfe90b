// The verdict that a test gives.
ghost use Rattle.std.specs.Prelude.{◌≡◌};
ghost use Rattle.network.specs.Refusals.{test, test_at};

use crate::{Cause, Refusal};

// Refused for k at place 0, where `bad` holds.
pub fn refused_if(k: Cause, bad: bool) -> Result<(), Refusal>
    ensures { result ≡ test k bad }
{
    if bad {
        return Err(Refusal::At { cause: k, place: 0 });
    }
    Ok(())
}

// Refused for k at the place, where there is one.
pub fn refused_at(k: Cause, place: Option<usize>) -> Result<(), Refusal>
    ensures { result ≡ test_at k place }
{
    match place {
        Some(p) => Err(Refusal::At { cause: k, place: p }),
        None => Ok(()),
    }
}
