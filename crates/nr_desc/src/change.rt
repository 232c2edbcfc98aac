//! The changes that operations make: a descriptor, the orders to its timers, and the goroutines
//! that are woken. Each side has at most one order and one woken goroutine; reading comes first.

ghost use Rattle.std.specs.Prelude.{◌≡◌, IsTrue, None};
ghost use Rattle.nr_rev.specs.Descriptor as spec;
ghost use Rattle.nr_rev.specs.Sides as sides;
ghost use Rattle.nr_desc.specs.Auxiliary.Change.{both_let_go, change_view, let_go};

use crate::desc::Desc;
use nr_rev::{Mode, Side, Sides, TimerOrder};

/// The change that an operation makes.
#[derive(Clone, Copy)]
pub(crate) struct DescChange {
    pub(crate) desc: Desc,
    pub(crate) orders: Sides<Option<TimerOrder>>,
    pub(crate) woken: Sides<Option<u32>>,
}

/// A descriptor, and the order to the timer of one side.
#[derive(Clone, Copy)]
pub(crate) struct Followed {
    pub(crate) desc: Desc,
    pub(crate) order: Option<TimerOrder>,
}

/// Returns a change to this descriptor that has no timer orders and wakes no goroutine.
#[inline(always)]
pub(crate) fn quiet(desc: Desc) -> DescChange
    ensures viewed { change_view result ≡ spec.quiet desc }
    ensures orders { result.orders ≡ sides.twice None }
    ensures woken { result.woken ≡ sides.twice None }
{
    DescChange {
        desc,
        orders: Sides {
            read: None,
            write: None,
        },
        woken: Sides {
            read: None,
            write: None,
        },
    }
}

impl DescChange {
    /// Unblocks a side. The woken goroutines are in the order of the sides, the read side first.
    #[inline(always)]
    pub(crate) fn unblock(self, side: Side, ioready: bool) -> DescChange
        requires none { sides.of_side side self.woken ≡ None }
        requires first { self.woken.write ≡ None }
        ensures viewed { change_view result
            ≡ spec.and_then (change_view self) (spec.unblocked ioready side) }
        ensures rest { IsTrue (sides.is_read side) → result.woken.write ≡ None }
        ensures woken { result.woken ≡ sides.with_side side
            (let_go (sides.of_side side self.desc.words) (sides.of_side side result.desc.words)) self.woken }
    {
        let desc = self.desc;
        let left = desc.words.of(side).unblocked(ioready);
        DescChange {
            desc: desc.with_wait_word(side, left.word),
            orders: self.orders,
            woken: self.woken.with(side, left.woken),
        }
    }
}

/// Applies an event of the poller (Go's `netpollready`): the descriptor gets the event's error
/// flag, and the sides that the mode names become ready.
pub(crate) fn change_by_event(mode: Mode, error: bool, desc: Desc) -> DescChange
    ensures viewed { change_view result ≡ spec.change_by_event mode error desc }
    ensures woken { result.woken ≡ both_let_go desc.words result.desc.words }
{
    let mut change = quiet(Desc {
        marks: desc.marks.with_event_error(error),
        ..desc
    });
    if mode.names(Side::Read) {
        change = change.unblock(Side::Read, true);
    }
    if mode.names(Side::Write) {
        change = change.unblock(Side::Write, true);
    }
    change
}
