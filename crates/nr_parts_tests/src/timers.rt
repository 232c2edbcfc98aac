//! Tests of timers with concrete values: the places of a heap before an operation, after it and
//! after its undo. The file also tests refusals and failed allocations.

ghost use Rattle.std.specs.Prelude.{◌≡◌, ◌≤◌, IfOk, length};
ghost use Rattle.nr_timers.specs.State.{IsTimers};

use arrayvec::ArrayVec;
use nr_rev::{Entry, Memory, Refusal, Reversible, Side, Timer, TimerFunction, transact, undo_all};
use nr_timers::{Timers, TimersOp};
use std::alloc::Global;
use std::test::Fail;

fn arm(descriptor: u32, due: i64) -> TimersOp {
    TimersOp::Arm {
        descriptor,
        side: Side::Read,
        due,
        function: TimerFunction::Read,
        sequence: 7,
    }
}

fn stop(descriptor: u32) -> TimersOp {
    TimersOp::Stop {
        descriptor,
        side: Side::Read,
    }
}

fn pop(now: i64) -> TimersOp {
    TimersOp::Pop { now }
}

fn take(place: u32) -> TimersOp {
    TimersOp::TakeFiring { place }
}

/// Returns the entry that `arm` makes.
fn entry(descriptor: u32, due: i64, number: u64) -> Entry {
    Entry {
        descriptor,
        side: Side::Read,
        timer: Timer {
            due,
            number,
            function: TimerFunction::Read,
            sequence: 7,
        },
    }
}

/// Arms the read timers of descriptors 0, 1 and so on.
fn armed(alloc: Global, times: &[i64]) -> Result<Timers, Refusal>
    ensures { IfOk result IsTimers }
{
    let mut timers = Timers::with_limits(alloc, 16)?;
    let mut descriptor: u32 = 0;
    for time in times {
        timers.apply(&arm(descriptor, *time))?;
        descriptor = descriptor.saturating_add(1);
    }
    Ok(timers)
}

/// Returns whether an entry with this time and arming number is at this place, and `place_of` finds it there.
fn has_place(timers: &Timers, place: usize, (due, number): (i64, u64)) -> bool {
    match timers.at_place(place) {
        Some(entry) => {
            entry.timer.due == due
                && entry.timer.number == number
                && timers.place_of(entry.descriptor, entry.side) == Some(place)
        }
        None => false,
    }
}

/// Returns whether the heap contains exactly these times and arming numbers, by place.
fn has_places(timers: &Timers, places: &[(i64, u64)]) -> bool {
    timers.len() == places.len()
        && places
            .iter()
            .enumerate()
            .all(|(place, entry)| has_place(timers, place, *entry))
}

/// Returns whether the operation changes the heap as expected, and its undo restores everything.
fn changes(
    alloc: Global,
    times: &[i64],
    op: &TimersOp,
    before: &[(i64, u64)],
    after: &[(i64, u64)],
    (firings, next): (usize, u64),
) -> Result<bool, Refusal> {
    let mut timers = armed(alloc, times)?;
    let first = timers.next_number();
    let was = has_places(&timers, before);
    let (_, delta) = timers.apply(op)?;
    let is = has_places(&timers, after)
        && timers.firings() == firings
        && timers.next_number() == next;
    timers.undo(delta);
    Ok(
        was && is
            && has_places(&timers, before)
            && timers.firings() == 0
            && timers.next_number() == first,
    )
}

#[test]
fn each_entry_has_its_place_back(rt: HostRuntime) -> Result<(), Fail> {
    let six = [(10, 1), (20, 2), (30, 3), (40, 4), (50, 5), (60, 6)];
    assert!(rt;
        changes(
            rt.alloc(),
            &[10, 20, 30, 40, 50, 60],
            &stop(0),
            &six,
            &[(20, 2), (60, 6), (30, 3), (40, 4), (50, 5)],
            (0, 7),
        )?
    );
    // of two timers that are due at the same time, the timer that was armed first goes off first
    assert!(rt;
        changes(
            rt.alloc(),
            &[10, 10],
            &pop(10),
            &[(10, 1), (10, 2)],
            &[(10, 2)],
            (1, 3),
        )?
    );
    assert!(rt; changes(rt.alloc(), &[10], &arm(0, 5), &[(10, 1)], &[(5, 2)], (0, 3))?);
    Ok(())
}

#[test]
fn the_last_entry_goes_up_or_just_goes(rt: HostRuntime) -> Result<(), Fail> {
    let times = [10, 50, 20, 60, 70, 51, 52, 53, 54, 21];
    let before = [
        (10, 1),
        (50, 2),
        (20, 3),
        (60, 4),
        (70, 5),
        (51, 6),
        (52, 7),
        (53, 8),
        (54, 9),
        (21, 10),
    ];
    let up = [
        (10, 1),
        (21, 10),
        (20, 3),
        (60, 4),
        (70, 5),
        (50, 2),
        (52, 7),
        (53, 8),
        (54, 9),
    ];
    assert!(rt; changes(rt.alloc(), &times, &stop(5), &before, &up, (0, 11))?);
    assert!(rt; changes(rt.alloc(), &times, &stop(9), &before, &before[..9], (0, 11))?);
    Ok(())
}

/// Returns why the operation is refused, if it is.
fn refusal_of(timers: &mut Timers, op: &TimersOp) -> Option<Refusal>
    requires { IsTimers timers.old }
    ensures { IsTimers timers.new }
{
    timers.apply(op).err()
}

/// Applies one operation after the other. Returns the index of the first operation that isn't
/// refused or applied as expected.
fn first_otherwise(timers: &mut Timers, refusals: &[(TimersOp, Option<Refusal>)]) -> Option<usize>
    requires { IsTimers timers.old }
    ensures { IsTimers timers.new }
{
    for (number, (op, refusal)) in refusals.iter().enumerate() {
        if refusal_of(timers, op) != *refusal {
            return Some(number);
        }
    }
    None
}

/// The result of `first_otherwise`, and the state of the timers afterwards.
type Seen = (Option<usize>, Option<Entry>, Option<Entry>, Option<Entry>);

/// Runs `first_otherwise`, and returns its result with both numbers of firings and the least entry.
fn asked(timers: &mut Timers, refusals: &[(TimersOp, Option<Refusal>)]) -> Seen
    requires { IsTimers timers.old }
{
    let otherwise = first_otherwise(timers, refusals);
    (
        otherwise,
        timers.firing(0),
        timers.firing(1),
        timers.least(),
    )
}

#[test]
fn refuses_for_the_first_reason(rt: HostRuntime) -> Result<(), Fail> {
    let mut timers = Timers::with_limits(rt.alloc(), 1)?;
    let refusals = [
        (arm(1, 10), Some(Refusal::NoSuchDescriptor)),
        (stop(1), Some(Refusal::NoSuchDescriptor)),
        (stop(0), None),
        (pop(10), Some(Refusal::NoTimerDue)),
        (take(0), Some(Refusal::NoSuchFiring)),
        (arm(0, 10), None),
        (pop(9), Some(Refusal::NoTimerDue)),
        (pop(10), None),
        (arm(0, 11), None),
        (pop(11), None),
        (arm(0, 12), None),
        (pop(12), Some(Refusal::FiringsFull)),
        (take(2), Some(Refusal::NoSuchFiring)),
        (take(0), None),
        (pop(12), None),
    ];
    assert_eq!(rt;
        asked(&mut timers, &refusals),
        (None, Some(entry(0, 11, 2)), Some(entry(0, 12, 3)), None)
    );
    Ok(())
}

/// Applies all the operations or none, and then undoes them. Returns the refusal, if any, the number of deltas, the
/// least entry after the operations, and the least entry after undoing them.
fn transacted(
    timers: &mut Timers,
    ops: &[TimersOp],
) -> (Result<(), Refusal>, usize, Option<Entry>, Option<Entry>)
    requires well_formed { IsTimers timers.old }
    requires few { length ops.now ≤ 8 }
    ensures { timers.new ≡ timers.old }
{
    let mut deltas = ArrayVec::new();
    let applied = transact(timers, ops, &mut deltas);
    let (made, least) = (deltas.len(), timers.least());
    undo_all(timers, &mut deltas);
    (applied, made, least, timers.least())
}

/// Tries a list of operations that all apply, and a list whose last operation is refused.
fn transactions(
    timers: &mut Timers,
) -> [(Result<(), Refusal>, usize, Option<Entry>, Option<Entry>); 2]
    requires { IsTimers timers.old }
{
    [
        transacted(timers, &[arm(1, 20), arm(2, 10), pop(20), stop(0)]),
        transacted(timers, &[arm(1, 20), pop(20), pop(20)]),
    ]
}

#[test]
fn transactions_are_undone_whole(rt: HostRuntime) -> Result<(), Fail> {
    let mut timers = armed(rt.alloc(), &[30])?;
    let first = Some(entry(0, 30, 1));
    assert_eq!(rt;
        transactions(&mut timers),
        [
            (Ok(()), 4, Some(entry(1, 20, 2)), first),
            (Err(Refusal::NoTimerDue), 0, first, first),
        ]
    );
    Ok(())
}

/// Returns whether a copy has the same places, firings and next number.
fn copies(timers: &Timers, places: &[(i64, u64)]) -> Result<bool, Refusal> {
    let copy = timers.try_copy()?;
    Ok(
        has_places(&copy, places)
            && copy.firing(0) == timers.firing(0)
            && copy.firings() == timers.firings()
            && copy.next_number() == timers.next_number(),
    )
}

/// Makes timers. Tries again if memory runs out.
fn made(alloc: Global) -> Result<Timers, Memory>
    ensures { IfOk result IsTimers }
{
    match Timers::with_limits(alloc, 2) {
        Err(_) => Timers::with_limits(alloc, 2),
        made => made,
    }
}

/// Arms and pops timers. Returns the index of the first operation that isn't applied, and whether a copy is equal. If
/// memory runs out for the copy, makes it a second time.
fn asked_and_copied(timers: &mut Timers) -> (Option<usize>, Result<bool, Refusal>)
    requires { IsTimers timers.old }
{
    let taken = [
        (arm(1, 20), None),
        (arm(0, 10), None),
        (pop(10), None),
        (arm(0, 30), None),
    ];
    let otherwise = first_otherwise(timers, &taken);
    let places = [(20, 1), (30, 3)];
    let copied = match copies(timers, &places) {
        Err(Refusal::Memory(_)) => copies(timers, &places),
        copied => copied,
    };
    (otherwise, copied)
}

/// Tests a failed allocation only if run with `rt try --test --fail-alloc N`, which makes one fail.
#[test]
fn goes_on_where_memory_was_refused(rt: HostRuntime) -> Result<(), Fail> {
    let mut timers = made(rt.alloc())?;
    assert_eq!(rt; asked_and_copied(&mut timers), (None, Ok(true)));
    Ok(())
}
