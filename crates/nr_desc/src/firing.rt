//! Running firings.

ghost use Rattle.std.specs.Prelude.{◌≡◌, IfOk, IfSome, None, negsuc, option_map};
ghost use Rattle.nr_rev.specs.Descriptor as spec;
ghost use Rattle.nr_rev.specs.Sides as sides;
ghost use Rattle.nr_rev.specs.declared.sides.Side.TheVariants.{Read, Write};
ghost use Rattle.nr_rev.specs.Auxiliary.Refusing.{Gives};
ghost use Rattle.nr_desc.specs.Auxiliary.Change.{both_let_go, change_view};

use crate::change::{DescChange, quiet};
use crate::desc::Desc;
use nr_rev::{Refusal, Side, TimerFunction};

/// Returns the descriptor with a side's deadline marked as passed.
#[inline(always)]
fn with_past(side: Side, desc: Desc) -> Desc
    ensures { result ≡ record desc {
      deadlines = sides.with_side side (negsuc 0) desc.deadlines;
    } }
{
    Desc {
        deadlines: desc.deadlines.with(side, -1),
        ..desc
    }
}

impl DescChange {
    /// Expires the sides that a function covers, the read side first.
    #[inline(always)]
    fn expire(self, function: TimerFunction) -> DescChange
        requires { self.woken ≡ sides.twice None }
        ensures woken { result.woken ≡ both_let_go self.desc.words result.desc.words }
        ensures viewed { change_view result
            ≡ spec.then_if (spec.then_if (change_view self) (sides.covers_side function Read) (spec.expire Read))
            (sides.covers_side function Write) (spec.expire Write) }
    {
        let mut change = self;
        if function.covers(Side::Read) {
            change.desc = with_past(Side::Read, change.desc);
            change = change.unblock(Side::Read, false);
        }
        if function.covers(Side::Write) {
            change.desc = with_past(Side::Write, change.desc);
            change = change.unblock(Side::Write, false);
        }
        change
    }
}

/// Returns whether each side that the function covers has a future deadline, and the timer runs.
#[inline(always)]
fn is_timed(function: TimerFunction, desc: Desc) -> bool
    ensures { result ≡ spec.is_timed function desc }
{
    let read = desc.deadlines.read > 0 && desc.marks.is_running(Side::Read);
    match function {
        TimerFunction::Read => read,
        TimerFunction::Write => desc.deadlines.write > 0 && desc.marks.is_running(Side::Write),
        TimerFunction::Both => read && desc.deadlines.write > 0,
    }
}

/// Runs a firing (Go's `netpolldeadlineimpl`), or returns `None` if its sequence is out of date.
pub(crate) fn change_by_firing(
    function: TimerFunction,
    sequence: u64,
    desc: Desc,
) -> Result<Option<DescChange>, Refusal>
    ensures viewed { Gives (option_map change_view) result
        (spec.change_by_firing function sequence desc) }
    ensures woken { IfOk result (λ firing. IfSome firing (λ change.
        change.woken ≡ both_let_go desc.words change.desc.words)) }
{
    if sequence != desc.sequences.of(function.side()) {
        return Ok(None);
    }
    if !is_timed(function, desc) {
        return Err(Refusal::CorruptedDescriptor);
    }
    Ok(Some(quiet(desc).expire(function)))
}
