//! The undo of a step.

ghost use Rattle.std.specs.Prelude.{◌≡◌, ◌∷◌, []};

use crate::edit::Undo;
use crate::plan::MOST_EDITS;
use arrayvec::ArrayVec;
use nr_rev::Keeper;

/// The maximum number of words in a delta, not counting the bytes that left a buffer.
pub(crate) const MOST_WORDS: u32 = 64;

/// The data that undoes a step: the undos of its changes, in the order in which they were made.
#[derive(Drop)]
pub struct PlainDelta {
    pub(crate) undos: ArrayVec<Undo, MOST_EDITS>,
}

impl Default for PlainDelta {
    fn default() -> Self {
        PlainDelta {
            undos: ArrayVec::new(),
        }
    }
}

impl PlainDelta {
    /// Returns the delta of a single change.
    pub(crate) fn of(undo: Undo) -> PlainDelta
        ensures { result.undos.items ≡ undo ∷ [] }
    {
        let mut undos = ArrayVec::new();
        undos.push(undo);
        PlainDelta { undos }
    }
}

/// A variable of this type can store a step's delta: `put` overwrites the variable.
impl Keeper<PlainDelta> for PlainDelta {
    ghost use Rattle.std.specs.Prelude.{◌≡◌, true};

    const KEEPS: bool = true;

    ghost KEEPS = { true };

    ghost holds = { λ place delta. place ≡ delta };

    fn put(&mut self, delta: PlainDelta) {
        *self = delta;
    }
}
