//! The word and its fields: bit 0 is the closed mark, bit 1 the read lock, bit 2 the write lock;
//! the references start at bit 3, the read waiters at bit 23, the write waiters at bit 43. Bit 63
//! is clear.

ghost use Rattle.std.specs.Prelude.{◌≡◌, ◌+◌, ◌-◌, ◌<◌, ◌^◌, true, false};
ghost use Rattle.nr_lock.specs.Word.{lock_of};
ghost use Rattle.nr_rev.specs.Lock as spec;
ghost use Rattle.nr_rev.specs.Sides as sides;
ghost use Rattle.nr_rev.specs.WellFormed.{LockFits};

use nr_rev::{Lock, Side, Sides};
use std::marker::Model;

const CLOSED: u64 = 1;

const READ_LOCK: u64 = 1 << 1;

const WRITE_LOCK: u64 = 1 << 2;

const REFERENCE: u64 = 1 << 3;

const READ_WAITER: u64 = 1 << 23;

const WRITE_WAITER: u64 = 1 << 43;

/// The maximum of a field of 20 bits, which is also its mask.
pub(crate) const FULL: u32 = (1 << 20) - 1;

/// The bits below the waiters.
const BELOW_WAITERS: u64 = READ_WAITER - 1;

/// The lock of a socket in one word. Contracts describe it as a record of the lock's fields.
#[derive(Clone, Copy, Debug, PartialEq, Eq)]
pub struct LockWord(u64);

impl Model for LockWord {
    ghost use Rattle.std.specs.Prelude.{◌<◌, ◌^◌};
    ghost use Rattle.nr_rev.specs.declared.lock.Lock.{Lock};

    ghost Value = { Lock };

    ghost use Rattle.nr_rev.specs.Lock.{lock_number};
    ghost use Rattle.nr_lock.specs.Word.{lock_of, lock_number-lock_of};

    ghost view = { λ w. lock_of w.0 };

    ghost invariant = { λ w. w.0 < 2 ^ 63 };

    ghost inverse = { λ lock. record { 0 = lock_number lock } };

    ghost inverse_ok = { λ w h. let same = lock_number-lock_of w.0 in λ i. record { 0 = same i } };
}

impl LockWord {
    /// Returns the word of a lock that no goroutine holds: 0.
    #[inline(always)]
    pub fn open() -> LockWord
        ensures lock { result ≡ spec.open_lock }
        ensures well_formed { LockFits result }
    {
        LockWord(0)
    }

    /// Returns the word with this number, whose highest bit must be clear.
    #[inline(always)]
    pub fn of_number(number: u64) -> LockWord
        requires { number < 2 ^ 63 }
        ensures lock { result ≡ lock_of number }
        ensures number { spec.lock_number result ≡ number }
        ensures well_formed { LockFits result }
    {
        LockWord(number)
    }

    /// Returns the word as a number.
    #[inline(always)]
    pub fn number(self) -> u64
        ensures number { result ≡ spec.lock_number self }
        ensures fits { LockFits self }
    {
        self.0
    }

    /// Returns the record of the fields.
    #[inline(always)]
    pub fn lock(self) -> Lock
        ensures { result ≡ self }
    {
        Lock {
            closed: self.is_closed(),
            locked: Sides {
                read: self.is_locked(Side::Read),
                write: self.is_locked(Side::Write),
            },
            references: self.references(),
            waiters: Sides {
                read: self.waiters(Side::Read),
                write: self.waiters(Side::Write),
            },
        }
    }

    /// Returns whether the lock is closed.
    #[inline(always)]
    pub(crate) fn is_closed(self) -> bool
        ensures { result ≡ self.closed }
    {
        self.0 & CLOSED != 0
    }

    /// Returns whether a side is locked.
    #[inline(always)]
    #[tactic(auto, using(crate::proofs::BitLemmas::single_bits))]
    pub(crate) fn is_locked(self, side: Side) -> bool
        ensures { result ≡ sides.of_side side self.locked }
    {
        match side {
            Side::Read => self.0 & READ_LOCK != 0,
            Side::Write => self.0 & WRITE_LOCK != 0,
        }
    }

    /// Returns the number of references.
    #[inline(always)]
    pub(crate) fn references(self) -> u32
        ensures { result ≡ self.references }
    {
        (self.0 >> 3 & u64::from(FULL)) as u32
    }

    /// Returns the number of waiters on a side.
    #[inline(always)]
    pub(crate) fn waiters(self, side: Side) -> u32
        ensures { result ≡ sides.of_side side self.waiters }
    {
        match side {
            Side::Read => (self.0 >> 23 & u64::from(FULL)) as u32,
            Side::Write => (self.0 >> 43 & u64::from(FULL)) as u32,
        }
    }

    /// Returns the word with one more reference.
    #[inline(always)]
    pub(crate) fn with_reference(self) -> LockWord
        requires { self.references + 1 < 2 ^ 20 }
        ensures { result ≡ record self { references = self.references + 1 } }
    {
        LockWord(self.0 + REFERENCE)
    }

    /// Returns the word with one fewer reference.
    #[inline(always)]
    pub(crate) fn without_reference(self) -> LockWord
        requires { 0 < self.references }
        ensures { result ≡ record self { references = self.references - 1 } }
    {
        LockWord(self.0 - REFERENCE)
    }

    /// Returns the word with a side locked.
    #[inline(always)]
    #[tactic(auto, using(crate::proofs::BitLemmas::single_bits))]
    pub(crate) fn with_lock(self, side: Side) -> LockWord
        ensures { result ≡ record self { locked = sides.with_side side true self.locked } }
    {
        match side {
            Side::Read => LockWord(self.0 | READ_LOCK),
            Side::Write => LockWord(self.0 | WRITE_LOCK),
        }
    }

    /// Returns the word with a side unlocked.
    #[inline(always)]
    #[tactic(auto, using(crate::proofs::BitLemmas::single_bits))]
    pub(crate) fn without_lock(self, side: Side) -> LockWord
        ensures { result ≡ record self { locked = sides.with_side side false self.locked } }
    {
        match side {
            Side::Read => LockWord(self.0 & !READ_LOCK),
            Side::Write => LockWord(self.0 & !WRITE_LOCK),
        }
    }

    /// Returns the word with one more waiter on a side.
    #[inline(always)]
    pub(crate) fn with_waiter(self, side: Side) -> LockWord
        requires { sides.of_side side self.waiters + 1 < 2 ^ 20 }
        ensures { result ≡ record self {
          waiters = sides.with_side side (sides.of_side side self.waiters + 1) self.waiters;
        } }
    {
        match side {
            Side::Read => LockWord(self.0 + READ_WAITER),
            Side::Write => LockWord(self.0 + WRITE_WAITER),
        }
    }

    /// Returns the word with one fewer waiter on a side.
    #[inline(always)]
    pub(crate) fn without_waiter(self, side: Side) -> LockWord
        requires { 0 < sides.of_side side self.waiters }
        ensures { result ≡ record self {
          waiters = sides.with_side side (sides.of_side side self.waiters - 1) self.waiters;
        } }
    {
        match side {
            Side::Read => LockWord(self.0 - READ_WAITER),
            Side::Write => LockWord(self.0 - WRITE_WAITER),
        }
    }

    /// Returns the word with the closed mark set and without waiters.
    #[inline(always)]
    #[tactic(auto, using(crate::proofs::BitLemmas::single_bits))]
    pub(crate) fn closed_for_all(self) -> LockWord
        ensures { result ≡ record self { closed = true; waiters = sides.twice 0 } }
    {
        LockWord((self.0 | CLOSED) & BELOW_WAITERS)
    }
}
