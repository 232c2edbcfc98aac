//! The operations on the word, which Go performs by compare-and-swap. If Go panics, the operation is refused.

ghost use Rattle.std.specs.Prelude.{◌≡◌};
ghost use Rattle.nr_lock.specs.Op.{left_by, outcome};
ghost use Rattle.nr_lock.specs.declared.op.LockOp.TheVariants.{Incref, IncrefClose, Decref, RwLock, RwUnlock};
ghost use Rattle.nr_rev.specs.Lock as spec;
ghost use Rattle.nr_rev.specs.Auxiliary.Refusing.{Gives};

use crate::op::LockAnswer;
use crate::word::{FULL, LockWord};
use nr_rev::{Answer, Refusal, Side, Sides};

impl LockAnswer {
    ghost use Rattle.nr_rev.specs.Sides.{twice};

    /// Returns the answer with no releases owed.
    #[inline(always)]
    fn alone(answer: Answer) -> LockAnswer
        ensures { result ≡ record { answer = answer; owed = twice 0 } }
    {
        LockAnswer {
            answer,
            owed: Sides { read: 0, write: 0 },
        }
    }
}

impl LockWord {
    /// Returns the answer after a reference was released: `Last` if the lock is closed and no reference is left.
    #[inline(always)]
    fn last(self) -> Answer
        ensures { result ≡ spec.last_of self }
    {
        if self.is_closed() && self.references() == 0 {
            Answer::Last
        } else {
            Answer::NotLast
        }
    }

    /// Adds a reference (Go's `incref`).
    #[inline(always)]
    pub(crate) fn incref(self) -> Result<(LockAnswer, LockWord), Refusal>
        ensures { Gives left_by result (outcome self Incref) }
    {
        if self.is_closed() {
            return Ok((LockAnswer::alone(Answer::No), self));
        }
        if self.references() == FULL {
            return Err(Refusal::FieldOverflow);
        }
        Ok((LockAnswer::alone(Answer::Yes), self.with_reference()))
    }

    /// Adds a reference, closes the lock, and owes a release to each waiter (Go's `increfAndClose`).
    #[inline(always)]
    pub(crate) fn incref_close(self) -> Result<(LockAnswer, LockWord), Refusal>
        ensures { Gives left_by result (outcome self IncrefClose) }
    {
        if self.is_closed() {
            return Ok((LockAnswer::alone(Answer::No), self));
        }
        if self.references() == FULL {
            return Err(Refusal::FieldOverflow);
        }
        let answer = LockAnswer {
            answer: Answer::Yes,
            owed: Sides {
                read: self.waiters(Side::Read),
                write: self.waiters(Side::Write),
            },
        };
        Ok((answer, self.with_reference().closed_for_all()))
    }

    /// Releases a reference (Go's `decref`).
    #[inline(always)]
    pub(crate) fn decref(self) -> Result<(LockAnswer, LockWord), Refusal>
        ensures { Gives left_by result (outcome self Decref) }
    {
        if self.references() == 0 {
            return Err(Refusal::InconsistentLock);
        }
        let left = self.without_reference();
        Ok((LockAnswer::alone(left.last()), left))
    }

    /// Locks a side and adds a reference, or adds a waiter (Go's `rwlock`).
    #[inline(always)]
    pub(crate) fn rw_lock(self, side: Side) -> Result<(LockAnswer, LockWord), Refusal>
        ensures { Gives left_by result (outcome self (RwLock side)) }
    {
        if self.is_closed() {
            return Ok((LockAnswer::alone(Answer::No), self));
        }
        if self.is_locked(side) {
            if self.waiters(side) == FULL {
                return Err(Refusal::FieldOverflow);
            }
            return Ok((LockAnswer::alone(Answer::Wait), self.with_waiter(side)));
        }
        if self.references() == FULL {
            return Err(Refusal::FieldOverflow);
        }
        Ok((
            LockAnswer::alone(Answer::Yes),
            self.with_reference().with_lock(side),
        ))
    }

    /// Unlocks a side and releases its reference. If goroutines wait for that side, one of them is owed a release (Go's
    /// `rwunlock`).
    #[inline(always)]
    pub(crate) fn rw_unlock(self, side: Side) -> Result<(LockAnswer, LockWord), Refusal>
        ensures { Gives left_by result (outcome self (RwUnlock side)) }
    {
        if !self.is_locked(side) || self.references() == 0 {
            return Err(Refusal::InconsistentLock);
        }
        let unlocked = self.without_reference().without_lock(side);
        if unlocked.waiters(side) == 0 {
            return Ok((LockAnswer::alone(unlocked.last()), unlocked));
        }
        let left = unlocked.without_waiter(side);
        let answer = LockAnswer {
            answer: left.last(),
            owed: Sides { read: 0, write: 0 }.with(side, 1),
        };
        Ok((answer, left))
    }
}
