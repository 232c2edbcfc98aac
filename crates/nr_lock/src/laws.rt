//! Laws about the word and its undo.

ghost use Rattle.std.specs.Prelude.{◌≡◌, ℕ, ◌<◌, ◌^◌};
ghost use Rattle.nr_lock.specs.Word.{lock_of};
ghost use Rattle.nr_lock.specs.declared.reversible.LockDelta.{LockDelta};
ghost use Rattle.nr_lock.specs.declared.reversible.TheConstants.{MOST_WORDS};
ghost use Rattle.nr_rev.specs.Lock.{lock_number};
ghost use Rattle.nr_rev.specs.WellFormed.{LockFits};
ghost use Rattle.nr_rev.specs.declared.lock.Lock.{Lock};

/// A word below 2^63 encodes exactly one lock, whose fields have 20 bits; each such lock has exactly one word, its
/// number.
pub fn words_are_locks()
    ensures number { (w : ℕ) → lock_number (lock_of w) ≡ w }
    ensures fits { (w : ℕ) → w < 2 ^ 63 → LockFits (lock_of w) }
    ensures lock { (lock : Lock) → LockFits lock → lock_of (lock_number lock) ≡ lock }
    ensures word { (lock : Lock) → LockFits lock → lock_number lock < 2 ^ 63 }
{}

/// A delta consists of the previous word and nothing else: one word.
pub fn delta_is_its_word()
    ensures word { (delta : LockDelta) → delta ≡ record { before = delta.before } }
    ensures words { MOST_WORDS ≡ 1 }
{}
