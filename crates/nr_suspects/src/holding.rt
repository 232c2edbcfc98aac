//! How many references to a socket a goroutine holds.

ghost use Rattle.std.specs.Prelude.{◌≡◌, ◌-◌, ◌^◌, ◌<◌};
ghost use Rattle.nr_suspects.specs.Holdings.{holding_after, none_held};

use crate::notice::Notice;

/// How many references to a socket a goroutine took and returned.
#[derive(Clone, Copy, Debug, PartialEq, Eq)]
pub struct Holding {
    /// The number of references taken.
    pub taken: u64,
    /// The number of references returned.
    pub given: u64,
    /// The number of the step that took the last reference, counted from 1, or 0 if the goroutine
    /// took none.
    pub since: usize,
}

impl Holding {
    /// The counts of a goroutine that took and returned no references.
    pub const NONE: Holding = Holding {
        taken: 0,
        given: 0,
        since: 0,
    };
}

// Returns the goroutine's counts for the socket after the step.
pub(crate) fn holding_after(
    step: usize,
    goroutine: u32,
    socket: u32,
    notice: Notice,
    held: Holding,
) -> Holding
    requires taken { held.taken < 2 ^ 64 - 1 }
    requires given { held.given < 2 ^ 64 - 1 }
    ensures { result ≡ holding_after step goroutine socket notice held }
{
    match notice {
        Notice::TookReference {
            goroutine: holder,
            socket: of,
        } if goroutine == holder && socket == of => Holding {
            taken: held.taken + 1,
            given: held.given,
            since: step,
        },
        Notice::GaveReference {
            goroutine: holder,
            socket: of,
        } if goroutine == holder && socket == of => Holding {
            taken: held.taken,
            given: held.given + 1,
            since: held.since,
        },
        _ => held,
    }
}
