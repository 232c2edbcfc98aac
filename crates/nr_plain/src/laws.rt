//! Laws about deltas: what they contain, and how many words they have.

ghost use Rattle.std.specs.Prelude.{◌≡◌};
ghost use Rattle.nr_plain.specs.declared.delta.PlainDelta.{PlainDelta};
ghost use Rattle.nr_plain.specs.declared.plan.TheConstants.{MOST_EDITS};
ghost use Rattle.nr_plain.specs.declared.delta.TheConstants.{MOST_WORDS};

/// A delta consists only of its undos. It has room for as many undos as a step can make changes.
pub fn delta_is_its_undos()
    ensures undos { (delta : PlainDelta) → delta ≡ record { undos = delta.undos } }
    ensures room { MOST_EDITS ≡ 5 }
{}

/// A delta has at most 64 words, not counting the bytes that left a buffer.
pub fn the_numbers()
    ensures words { MOST_WORDS ≡ 64 }
{}
