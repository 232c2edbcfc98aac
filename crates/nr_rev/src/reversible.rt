//! The contract of a machine whose operations can be undone.

ghost use Rattle.std.specs.Prelude.{◌≡◌, ◌≤◌, ℕ, Option, Some, IfOk, IfErr, OnErr};
ghost use Rattle.nr_rev.specs.Reversible.{Refuses};
ghost use Rattle.nr_rev.specs.Auxiliary.Reversible.{IsLight};
ghost use Rattle.nr_rev.specs.declared.refusal.Refusal.{Refusal};
ghost use Rattle.nr_rev.specs.Refusing.{out_of_memory};

use crate::refusal::Refusal;

/// A machine whose operations can be undone, each as a whole. This follows GDB's reverse execution,
/// which undoes each instruction from a record of its changes; here the record is the delta.
pub trait Reversible {
    /// An operation.
    type Op;

    /// The answer of an operation that applies.
    type Answer;

    /// The record with which an operation is undone.
    type Delta;

    /// The maximum number of words in a delta, not counting the bytes that left a buffer. A number
    /// counts as one word for each 64 bits, rounded up. A Boolean and the tag of a variant count as
    /// one word each. Bytes are counted in words of eight bytes, rounded up.
    const WORDS: u32;

    ghost WORDS: { ℕ };

    /// True of the states in which an operation may be applied.
    ghost is_well_formed: { Self → Type 0 };

    /// True if the operation, with this answer, can turn the old state into the new one.
    ghost steps: { Self → Self.Op → Self.Answer → Self → Type 0 };

    /// The reason why the operation does not apply in the state, other than running out of memory.
    ghost reason: { Self → Self.Op → Option Refusal };

    /// True if the operation allocates memory in this state, and so may fail because memory ran
    /// out.
    ghost takes_memory: { Self → Self.Op → Type 0 };

    /// True if undoing the delta turns the new state back into the old one.
    ghost back: { Self.Delta → Self → Self → Type 0 };

    /// The number of words in the delta.
    ghost weight: { Self.Delta → ℕ };

    /// The maximum number of words in the operation's delta, not counting the bytes that left a
    /// buffer.
    ghost allowance: { Self.Op → ℕ };

    /// The number of bytes that an operation with this answer took out of a buffer.
    ghost bytes_out: { Self.Op → Self.Answer → ℕ };

    /// Applies the operation and returns its answer and its delta. If the operation doesn't apply,
    /// changes nothing and returns the reason.
    fn apply(&mut self, op: &Self::Op) -> Result<(Self::Answer, Self::Delta), Refusal>
        requires { is_well_formed self.old }
        ensures step { IfOk result (λ r. steps self.old op.now r.0 self.new) }
        ensures well_formed { is_well_formed self.new }
        ensures back { IfOk result (λ r. back r.1 self.new self.old) }
        ensures weight { IfOk result (λ r. IsLight weight allowance bytes_out op.now r.0 r.1) }
        ensures refusal { IfErr result (Refuses reason takes_memory self.old op.now) }
        ensures unchanged { OnErr result (self.new ≡ self.old) };

    /// Undoes the step that returned the delta, and so restores the state before that step.
    fn undo(&mut self, delta: Self::Delta)
        requires { (old : Self) × back delta self.old old }
        ensures { back delta self.old self.new };

    /// From a given state, undoing a delta restores at most one state.
    ghost back_is_unique: { (delta : Self.Delta) (new a b : Self) → back delta new a
        → back delta new b → a ≡ b };

    /// A refused operation has no step.
    ghost refused_has_no_step: { (old : Self) (op : Self.Op) (e : Refusal) (answer : Self.Answer)
        (new : Self) → reason old op ≡ Some e → steps old op answer new → ⊥ };

    /// In a well-formed state, the reason is never that memory ran out.
    ghost memory_is_no_reason: { (old : Self) (op : Self.Op) → is_well_formed old
        → reason old op ≡ Some out_of_memory → ⊥ };

    /// In a given state, an operation has only one answer and only one new state.
    ghost steps_unique: { (old : Self) (op : Self.Op) (a b : Self.Answer) (new other : Self)
        → steps old op a new → steps old op b other → (a ≡ b) × (new ≡ other) };

    /// The allowance of each operation is at most the maximum, `WORDS`.
    ghost allowance_is_within: { (op : Self.Op) → allowance op ≤ WORDS };
}
