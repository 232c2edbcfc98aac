//! Laws of the definitions: what determines the parts of a world, what a delta contains, and how
//! many words it has.

ghost use Rattle.std.specs.Prelude.{◌≡◌};
ghost use Rattle.nr_machine.specs.declared.delta.DescUndo.{DescUndo};
ghost use Rattle.nr_machine.specs.declared.delta.LockUndo.{LockUndo};
ghost use Rattle.nr_machine.specs.declared.delta.TheConstants.{MOST_WORDS};
ghost use Rattle.nr_machine.specs.declared.delta.WorldDelta.{WorldDelta};
ghost use Rattle.nr_machine.specs.Fits.{PartsFit};
ghost use Rattle.nr_machine.specs.World.{WorldParts, meant};

/// Parts that fit together are determined by the world that they represent and by their timers. The
/// world alone doesn't show where in the heap the timers are.
#[tactic(auto, using(crate::specs::SameLaws::same_parts))]
pub fn parts_are_decided_by_their_meaning()
    ensures { (a b : WorldParts) → PartsFit a → PartsFit b → meant a ≡ meant b
        → a.core.timers ≡ b.core.timers → a ≡ b }
{}

/// A delta is a record with one field, its undo. The lock or the descriptor in an undo is a record
/// of two fields.
pub fn delta_is_its_undo()
    ensures delta { (delta : WorldDelta) → delta ≡ record { undo = delta.undo } }
    ensures lock { (undo : LockUndo) → undo ≡ record { socket = undo.socket; before = undo.before } }
    ensures descriptor { (undo : DescUndo)
        → undo ≡ record { descriptor = undo.descriptor; before = undo.before } }
{}

/// A delta has at most 40 words, not counting the bytes that left a buffer.
pub fn the_numbers()
    ensures words { MOST_WORDS ≡ 40 }
{}
