//! The changes that operations make to a descriptor: its new fields, the orders to its timers, and the goroutines that
//! are woken. Each side has at most one order and one woken goroutine; the read side's come first.

ghost use Rattle.std.specs.Prelude.{◌≡◌, ◌&&◌, IfOk, IsTrue, None, negsuc, option_map, option_to_list};
ghost use Rattle.std.specs.Ordering.{int_eq};
ghost use Rattle.nr_rev.specs.Descriptor as spec;
ghost use Rattle.nr_rev.specs.Auxiliary.Descriptor as auxiliary;
ghost use Rattle.nr_rev.specs.Sides as sides;
ghost use Rattle.nr_rev.specs.declared.sides.Side.TheVariants.{Read, Write};
ghost use Rattle.nr_plain.specs.Change.{change_view, followed_view, unblocked_view};
ghost use Rattle.nr_rev.specs.Auxiliary.Refusing.{Gives};

use crate::descriptor::{is_combo, is_expired, with_deadlines, with_wait_word};
use nr_rev::{
    Descriptor, Mode, Refusal, Side, Sides, TimerFunction, TimerOrder, WaitWord, both_raised,
    deadline_from, raised_sequence,
};

/// The change that an operation makes.
#[derive(Clone, Copy)]
pub(crate) struct PlainChange {
    pub(crate) descriptor: Descriptor,
    pub(crate) orders: Sides<Option<TimerOrder>>,
    pub(crate) woken: Sides<Option<u32>>,
}

/// A descriptor, and an order for one side's timer, if any.
#[derive(Clone, Copy)]
pub(crate) struct Followed {
    pub(crate) descriptor: Descriptor,
    pub(crate) order: Option<TimerOrder>,
}

/// A word and the goroutine that it held, if any.
#[derive(Clone, Copy)]
pub(crate) struct Unblocked {
    pub(crate) word: WaitWord,
    pub(crate) woken: Option<u32>,
}

/// Returns a change to this descriptor that gives no orders and wakes no goroutine.
fn quiet(descriptor: Descriptor) -> PlainChange
    ensures viewed { change_view result ≡ spec.quiet descriptor }
    ensures orders { result.orders ≡ sides.twice None }
    ensures woken { result.woken ≡ sides.twice None }
{
    PlainChange {
        descriptor,
        orders: Sides::twice(None),
        woken: Sides::twice(None),
    }
}

/// Unblocks a word (Go's `netpollunblock`), and returns it with the goroutine that it held.
fn unblock(word: WaitWord, ioready: bool) -> Unblocked
    ensures { unblocked_view result ≡ spec.unblock word ioready }
{
    let free = if ioready {
        WaitWord::Ready
    } else {
        WaitWord::Nil
    };
    match word {
        WaitWord::Ready => Unblocked { word, woken: None },
        WaitWord::Nil | WaitWord::Wait => Unblocked {
            word: free,
            woken: None,
        },
        WaitWord::Held(goroutine) => Unblocked {
            word: free,
            woken: Some(goroutine),
        },
    }
}

impl PlainChange {
    /// Unblocks a side. The list of woken goroutines has the reader before the writer.
    fn unblock(self, side: Side, ioready: bool) -> PlainChange
        requires none { sides.of_side side self.woken ≡ None }
        requires first { self.woken.write ≡ None }
        ensures viewed { change_view result
            ≡ spec.and_then (change_view self) (spec.unblocked ioready side) }
        ensures rest { IsTrue (sides.is_read side) → result.woken.write ≡ None }
    {
        let left = unblock(self.descriptor.words.of(side), ioready);
        PlainChange {
            descriptor: with_wait_word(side, left.word, self.descriptor),
            woken: self.woken.with(side, left.woken),
            ..self
        }
    }
}

/// Returns the descriptor with the order to arm a side's timer at its deadline, or to stop it.
fn timer_reset(side: Side, descriptor: Descriptor) -> Followed
    ensures { followed_view result ≡ spec.timer_reset side descriptor }
{
    let wanted = wants_timer(side, descriptor);
    let order = if wanted {
        TimerOrder::Arm {
            side,
            due: descriptor.deadlines.of(side),
            function: timer_function(side, descriptor),
            sequence: descriptor.sequences.of(side),
        }
    } else {
        TimerOrder::Stop { side }
    };
    Followed {
        descriptor: Descriptor {
            running: descriptor.running.with(side, wanted),
            ..descriptor
        },
        order: Some(order),
    }
}

/// Returns whether a side's deadline needs a timer of its own. The write deadline needs no timer of
/// its own under combo.
fn wants_timer(side: Side, descriptor: Descriptor) -> bool
    ensures { result ≡ spec.wants_timer side descriptor }
{
    match side {
        Side::Read => descriptor.deadlines.read > 0,
        Side::Write => descriptor.deadlines.write > 0 && !is_combo(descriptor),
    }
}

/// Returns the function of a side's timer. Under combo the read timer serves both sides.
fn timer_function(side: Side, descriptor: Descriptor) -> TimerFunction
    ensures { result ≡ spec.timer_function side descriptor }
{
    match side {
        Side::Read if is_combo(descriptor) => TimerFunction::Both,
        Side::Read => TimerFunction::Read,
        Side::Write => TimerFunction::Write,
    }
}

/// Returns the descriptor, and the order for a side's timer, if any, when the deadlines change from those of `old`.
fn timer_follows(side: Side, old: Descriptor, descriptor: Descriptor) -> Result<Followed, Refusal>
    ensures { Gives followed_view result (spec.timer_follows side old descriptor) }
{
    let stays = Followed {
        descriptor,
        order: None,
    };
    if !descriptor.running.of(side) {
        if wants_timer(side, descriptor) {
            return Ok(timer_reset(side, descriptor));
        }
        return Ok(stays);
    }
    if is_unmoved(side, old, descriptor) {
        return Ok(stays);
    }
    let sequence = raised_sequence(descriptor.sequences.of(side))?;
    Ok(timer_reset(
        side,
        Descriptor {
            sequences: descriptor.sequences.with(side, sequence),
            ..descriptor
        },
    ))
}

/// Returns whether a side's deadline and combo are unchanged.
fn is_unmoved(side: Side, old: Descriptor, descriptor: Descriptor) -> bool
    ensures { result
        ≡ (int_eq (sides.of_side side old.deadlines) (sides.of_side side descriptor.deadlines)
        && spec.same_bool (spec.is_combo old) (spec.is_combo descriptor)) }
{
    old.deadlines.of(side) == descriptor.deadlines.of(side) && is_combo(old) == is_combo(descriptor)
}

impl PlainChange {
    /// Unblocks the sides whose deadline has passed, the read side first.
    fn unblock_expired(self) -> PlainChange
        requires { self.woken ≡ sides.twice None }
        ensures { change_view result ≡ spec.expired_unblocked (change_view self) }
    {
        let mut change = self;
        if is_expired(Side::Read, self.descriptor) {
            change = change.unblock(Side::Read, false);
        }
        if is_expired(Side::Write, change.descriptor) {
            change = change.unblock(Side::Write, false);
        }
        change
    }
}

/// Returns the orders for the read timer and then for the write timer when the deadlines change from those of `old`.
fn both_follow(old: Descriptor, descriptor: Descriptor) -> Result<PlainChange, Refusal>
    ensures viewed { Gives change_view result (auxiliary.both_follow old descriptor) }
    ensures woken { IfOk result (λ change. change.woken ≡ sides.twice None) }
{
    let read = timer_follows(Side::Read, old, descriptor)?;
    let write = timer_follows(Side::Write, old, read.descriptor)?;
    Ok(PlainChange {
        descriptor: write.descriptor,
        orders: Sides {
            read: read.order,
            write: write.order,
        },
        woken: Sides::twice(None),
    })
}

/// Sets a deadline (Go's `poll_runtime_pollSetDeadline`): requests changes to the read timer and
/// then to the write timer, and unblocks the sides whose deadline has passed.
pub(crate) fn change_by_deadline(
    clock: i64,
    mode: Mode,
    time: i64,
    old: Descriptor,
) -> Result<PlainChange, Refusal>
    ensures { Gives change_view result (spec.change_by_deadline clock mode time old) }
{
    if old.closing {
        return Ok(quiet(old));
    }
    let descriptor = with_deadlines_from(clock, mode, time, old);
    let change = both_follow(old, descriptor)?;
    Ok(change.unblock_expired())
}

/// Returns the descriptor with a deadline, counted from now, for the sides that a mode names.
fn with_deadlines_from(clock: i64, mode: Mode, time: i64, descriptor: Descriptor) -> Descriptor
    ensures { result ≡ spec.with_deadlines mode (spec.deadline_from clock time) descriptor }
{
    with_deadlines(mode, deadline_from(clock, time), descriptor)
}

/// Returns an order to stop a side's timer, if the timer is running.
fn stop_if(running: bool, side: Side) -> Option<TimerOrder>
    ensures { option_to_list result ≡ spec.stop_if running side }
{
    if running {
        Some(TimerOrder::Stop { side })
    } else {
        None
    }
}

/// Evicts a descriptor (Go's `poll_runtime_pollUnblock`): marks it as closing, stops its timers,
/// and unblocks both sides.
pub(crate) fn change_by_evict(descriptor: Descriptor) -> Result<PlainChange, Refusal>
    ensures { Gives change_view result (spec.change_by_evict descriptor) }
{
    if descriptor.closing {
        return Err(Refusal::AlreadyClosing);
    }
    let sequences = both_raised(descriptor.sequences)?;
    let stopped = PlainChange {
        descriptor: Descriptor {
            closing: true,
            sequences,
            running: Sides::twice(false),
            ..descriptor
        },
        orders: Sides {
            read: stop_if(descriptor.running.read, Side::Read),
            write: stop_if(descriptor.running.write, Side::Write),
        },
        woken: Sides::twice(None),
    };
    Ok(
        stopped
            .unblock(Side::Read, false)
            .unblock(Side::Write, false),
    )
}

/// Returns the descriptor with a side's deadline marked as passed.
fn with_past(side: Side, descriptor: Descriptor) -> Descriptor
    ensures { result ≡ record descriptor {
      deadlines = sides.with_side side (negsuc 0) descriptor.deadlines;
    } }
{
    Descriptor {
        deadlines: descriptor.deadlines.with(side, -1),
        ..descriptor
    }
}

impl PlainChange {
    /// Expires the sides that a function covers, the read side first.
    fn expire(self, function: TimerFunction) -> PlainChange
        requires { self.woken ≡ sides.twice None }
        ensures { change_view result
            ≡ spec.then_if (spec.then_if (change_view self) (sides.covers_side function Read) (spec.expire Read))
            (sides.covers_side function Write) (spec.expire Write) }
    {
        let mut change = self;
        if function.covers(Side::Read) {
            change.descriptor = with_past(Side::Read, change.descriptor);
            change = change.unblock(Side::Read, false);
        }
        if function.covers(Side::Write) {
            change.descriptor = with_past(Side::Write, change.descriptor);
            change = change.unblock(Side::Write, false);
        }
        change
    }
}

/// Returns whether a side that a function covers waits for its timer.
fn is_timed(function: TimerFunction, descriptor: Descriptor) -> bool
    ensures { result ≡ spec.is_timed function descriptor }
{
    let read = descriptor.deadlines.read > 0 && descriptor.running.read;
    match function {
        TimerFunction::Read => read,
        TimerFunction::Write => descriptor.deadlines.write > 0 && descriptor.running.write,
        TimerFunction::Both => read && descriptor.deadlines.write > 0,
    }
}

/// Runs a firing (Go's `netpollDeadline`), or returns `None` if its sequence is no longer the descriptor's.
pub(crate) fn change_by_firing(
    function: TimerFunction,
    sequence: u64,
    descriptor: Descriptor,
) -> Result<Option<PlainChange>, Refusal>
    ensures { Gives (option_map change_view) result (spec.change_by_firing function sequence descriptor) }
{
    if sequence != descriptor.sequences.of(function.side()) {
        return Ok(None);
    }
    if !is_timed(function, descriptor) {
        return Err(Refusal::CorruptedDescriptor);
    }
    Ok(Some(quiet(descriptor).expire(function)))
}

/// Applies an event of the poller (Go's `netpollready`): the descriptor gets the event's error, and the named sides
/// become ready.
pub(crate) fn change_by_event(mode: Mode, error: bool, descriptor: Descriptor) -> PlainChange
    ensures { change_view result ≡ spec.change_by_event mode error descriptor }
{
    let mut change = quiet(Descriptor {
        event_error: error,
        ..descriptor
    });
    if mode.names(Side::Read) {
        change = change.unblock(Side::Read, true);
    }
    if mode.names(Side::Write) {
        change = change.unblock(Side::Write, true);
    }
    change
}
