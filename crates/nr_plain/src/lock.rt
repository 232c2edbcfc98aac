//! The operations of a lock, modelled on `internal/poll/fd_mutex.go`. An operation changes the
//! fields of the lock word; Go makes the same change by compare-and-swap. If Go panics, the
//! operation is refused.

ghost use Rattle.std.specs.Prelude.{◌≡◌};
ghost use Rattle.nr_rev.specs.Lock as spec;

use nr_rev::{Answer, Lock, LockOutcome, Refusal, Side, Sides};

/// The maximum of a 20-bit field.
const FULL: u32 = (1 << 20) - 1;

/// Returns a lock that no goroutine holds.
pub(crate) fn open_lock() -> Lock
    ensures { result ≡ spec.open_lock }
{
    Lock {
        closed: false,
        locked: Sides::twice(false),
        references: 0,
        waiters: Sides::twice(0),
    }
}

/// Returns the outcome with this answer, in which no release is owed.
fn answered(answer: Answer, lock: Lock) -> LockOutcome
    ensures { result ≡ spec.answered answer lock }
{
    LockOutcome {
        answer,
        owed: Sides::twice(0),
        lock,
    }
}

/// Returns a field increased by one, unless it is full.
fn raised_field(count: u32) -> Result<u32, Refusal>
    ensures { result ≡ spec.raised_field count }
{
    if count >= FULL {
        return Err(Refusal::FieldOverflow);
    }
    Ok(count + 1)
}

/// Returns the answer after a reference is released: `Last` if the lock is closed and no reference
/// is left.
fn last_of(lock: Lock) -> Answer
    ensures { result ≡ spec.last_of lock }
{
    if lock.closed && lock.references == 0 {
        Answer::Last
    } else {
        Answer::NotLast
    }
}

/// Adds a reference (Go's `incref`).
pub(crate) fn incref(lock: Lock) -> Result<LockOutcome, Refusal>
    ensures { result ≡ spec.incref lock }
{
    if lock.closed {
        return Ok(answered(Answer::No, lock));
    }
    let references = raised_field(lock.references)?;
    Ok(answered(Answer::Yes, Lock { references, ..lock }))
}

/// Adds a reference, closes the lock, and owes a release to each waiter (Go's `increfAndClose`).
pub(crate) fn incref_close(lock: Lock) -> Result<LockOutcome, Refusal>
    ensures { result ≡ spec.incref_close lock }
{
    if lock.closed {
        return Ok(answered(Answer::No, lock));
    }
    let references = raised_field(lock.references)?;
    Ok(LockOutcome {
        answer: Answer::Yes,
        owed: lock.waiters,
        lock: Lock {
            closed: true,
            references,
            waiters: Sides::twice(0),
            ..lock
        },
    })
}

/// Releases a reference (Go's `decref`).
pub(crate) fn decref(lock: Lock) -> Result<LockOutcome, Refusal>
    ensures { result ≡ spec.decref lock }
{
    if lock.references == 0 {
        return Err(Refusal::InconsistentLock);
    }
    let left = Lock {
        references: lock.references - 1,
        ..lock
    };
    Ok(answered(last_of(left), left))
}

/// Locks a side and adds a reference, or adds a waiter (Go's `rwlock`).
pub(crate) fn rw_lock(side: Side, lock: Lock) -> Result<LockOutcome, Refusal>
    ensures { result ≡ spec.rw_lock side lock }
{
    if lock.closed {
        return Ok(answered(Answer::No, lock));
    }
    if lock.locked.of(side) {
        let count = raised_field(lock.waiters.of(side))?;
        let waiters = lock.waiters.with(side, count);
        return Ok(answered(Answer::Wait, Lock { waiters, ..lock }));
    }
    let references = raised_field(lock.references)?;
    let locked = lock.locked.with(side, true);
    Ok(answered(
        Answer::Yes,
        Lock {
            locked,
            references,
            ..lock
        },
    ))
}

/// Unlocks a side and releases its reference. If goroutines wait for that side, one of them is owed
/// a release (Go's `rwunlock`).
pub(crate) fn rw_unlock(side: Side, lock: Lock) -> Result<LockOutcome, Refusal>
    ensures { result ≡ spec.rw_unlock side lock }
{
    if !lock.locked.of(side) || lock.references == 0 {
        return Err(Refusal::InconsistentLock);
    }
    let waiters = lock.waiters.of(side);
    let left = Lock {
        locked: lock.locked.with(side, false),
        references: lock.references - 1,
        waiters: lock.waiters.with(side, waiters.saturating_sub(1)),
        ..lock
    };
    Ok(LockOutcome {
        answer: last_of(left),
        owed: Sides::twice(0).with(side, waiters.min(1)),
        lock: left,
    })
}
