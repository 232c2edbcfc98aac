//! Deadlines, and the timers that follow them.

ghost use Rattle.std.specs.Prelude.{◌≡◌, ◌&&◌, IfOk, None};
ghost use Rattle.std.specs.Ordering.{int_eq};
ghost use Rattle.nr_rev.specs.Descriptor as spec;
ghost use Rattle.nr_rev.specs.Auxiliary.Descriptor as auxiliary;
ghost use Rattle.nr_rev.specs.Sides as sides;
ghost use Rattle.nr_rev.specs.Auxiliary.Refusing.{Gives};
ghost use Rattle.nr_desc.specs.Auxiliary.Change.{both_let_go, change_view, followed_view};

use crate::change::{DescChange, Followed, quiet};
use crate::desc::Desc;
use nr_rev::{
    Mode, Refusal, Side, Sides, TimerFunction, TimerOrder, deadline_from, raised_sequence,
};

/// Returns the descriptor with a new deadline for the sides that a mode names.
#[inline(always)]
fn with_deadlines(mode: Mode, deadline: i64, desc: Desc) -> Desc
    ensures { result ≡ spec.with_deadlines mode deadline desc }
{
    let read = if mode.names(Side::Read) {
        deadline
    } else {
        desc.deadlines.read
    };
    let write = if mode.names(Side::Write) {
        deadline
    } else {
        desc.deadlines.write
    };
    Desc {
        deadlines: Sides { read, write },
        ..desc
    }
}

/// Returns the descriptor with a new deadline, counted from now, for the sides that a mode names.
#[inline(always)]
fn with_deadlines_from(clock: i64, mode: Mode, time: i64, desc: Desc) -> Desc
    ensures { result ≡ spec.with_deadlines mode (spec.deadline_from clock time) desc }
{
    with_deadlines(mode, deadline_from(clock, time), desc)
}

/// Returns whether a side's deadline needs its own timer. The write deadline needs none if it is
/// the same as the read deadline.
#[inline(always)]
fn wants_timer(side: Side, desc: Desc) -> bool
    ensures { result ≡ spec.wants_timer side desc }
{
    match side {
        Side::Read => desc.deadlines.read > 0,
        Side::Write => desc.deadlines.write > 0 && !desc.is_combo(),
    }
}

/// Returns the function of a side's timer. If both deadlines are the same, the read timer serves
/// both sides.
#[inline(always)]
fn timer_function(side: Side, desc: Desc) -> TimerFunction
    ensures { result ≡ spec.timer_function side desc }
{
    match side {
        Side::Read if desc.is_combo() => TimerFunction::Both,
        Side::Read => TimerFunction::Read,
        Side::Write => TimerFunction::Write,
    }
}

/// Returns the descriptor with the order to arm a side's timer at its deadline, or to stop it.
#[inline(always)]
fn timer_reset(side: Side, desc: Desc) -> Followed
    ensures { followed_view result ≡ spec.timer_reset side desc }
{
    let wanted = wants_timer(side, desc);
    let order = if wanted {
        TimerOrder::Arm {
            side,
            due: desc.deadlines.of(side),
            function: timer_function(side, desc),
            sequence: desc.sequences.of(side),
        }
    } else {
        TimerOrder::Stop { side }
    };
    Followed {
        desc: desc.with_running(side, wanted),
        order: Some(order),
    }
}

/// Returns whether two times are equal.
#[inline(always)]
fn is_same_time(time: i64, other: i64) -> bool
    ensures { result ≡ int_eq time other }
{
    time == other
}

/// Returns whether two Booleans are equal.
#[inline(always)]
fn is_same_mark(mark: bool, other: bool) -> bool
    ensures { result ≡ spec.same_bool mark other }
{
    mark == other
}

/// Returns true if a side's deadline is unchanged, and both sides share one timer now if and only
/// if they shared one before.
#[inline(always)]
fn is_unmoved(side: Side, old: Desc, desc: Desc) -> bool
    ensures { result
        ≡ (int_eq (sides.of_side side old.deadlines) (sides.of_side side desc.deadlines)
        && spec.same_bool (spec.is_combo old) (spec.is_combo desc)) }
{
    is_same_time(old.deadline(side), desc.deadline(side))
        && is_same_mark(old.is_combo(), desc.is_combo())
}

/// Returns the descriptor with the order, if any, that adjusts a side's timer to the new deadlines.
/// `old` is the descriptor before the deadlines changed.
#[inline(always)]
fn timer_follows(side: Side, old: Desc, desc: Desc) -> Result<Followed, Refusal>
    ensures viewed { Gives followed_view result (spec.timer_follows side old desc) }
    ensures words { IfOk result (λ followed. followed.desc.words ≡ desc.words) }
{
    let stays = Followed { desc, order: None };
    if !desc.marks.is_running(side) {
        if wants_timer(side, desc) {
            return Ok(timer_reset(side, desc));
        }
        return Ok(stays);
    }
    if is_unmoved(side, old, desc) {
        return Ok(stays);
    }
    let sequence = raised_sequence(desc.sequences.of(side))?;
    Ok(timer_reset(
        side,
        Desc {
            sequences: desc.sequences.with(side, sequence),
            ..desc
        },
    ))
}

impl DescChange {
    /// Unblocks each side whose deadline has passed, the read side first.
    #[inline(always)]
    fn unblock_expired(self) -> DescChange
        requires { self.woken ≡ sides.twice None }
        ensures viewed { change_view result ≡ spec.expired_unblocked (change_view self) }
        ensures woken { result.woken ≡ both_let_go self.desc.words result.desc.words }
    {
        let mut change = self;
        if self.desc.is_expired(Side::Read) {
            change = change.unblock(Side::Read, false);
        }
        if change.desc.is_expired(Side::Write) {
            change = change.unblock(Side::Write, false);
        }
        change
    }
}

/// Returns the orders that adjust both sides' timers to the new deadlines, the read side's first.
/// `old` is the descriptor before the deadlines changed.
#[inline(always)]
fn both_follow(old: Desc, desc: Desc) -> Result<DescChange, Refusal>
    ensures viewed { Gives change_view result (auxiliary.both_follow old desc) }
    ensures woken { IfOk result (λ change. change.woken ≡ sides.twice None) }
    ensures words { IfOk result (λ change. change.desc.words ≡ desc.words) }
{
    let read = timer_follows(Side::Read, old, desc)?;
    let write = timer_follows(Side::Write, old, read.desc)?;
    Ok(DescChange {
        desc: write.desc,
        orders: Sides {
            read: read.order,
            write: write.order,
        },
        woken: Sides {
            read: None,
            write: None,
        },
    })
}

/// Sets a deadline (Go's `poll_runtime_pollSetDeadline`): adjusts the timers, the read side's
/// first, and unblocks the sides whose deadline has passed.
pub(crate) fn change_by_deadline(
    clock: i64,
    mode: Mode,
    time: i64,
    old: Desc,
) -> Result<DescChange, Refusal>
    ensures viewed { Gives change_view result (spec.change_by_deadline clock mode time old) }
    ensures woken { IfOk result (λ change. change.woken ≡ both_let_go old.words change.desc.words) }
{
    if old.marks.closing() {
        return Ok(quiet(old));
    }
    let desc = with_deadlines_from(clock, mode, time, old);
    match both_follow(old, desc) {
        Ok(change) => Ok(change.unblock_expired()),
        Err(refusal) => Err(refusal),
    }
}
