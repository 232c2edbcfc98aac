//! The places in which operations store their undo.

ghost use Rattle.std.specs.Prelude.{Bool};

use std::mem;

/// A place for an operation's undo. It keeps the undo, or drops it if the operation is never
/// undone. So a machine's operation is written once and compiled in two versions.
pub trait Keeper<Undo> {
    /// Whether the place keeps the undo. If not, the operation needs no memory for the undo.
    const KEEPS: bool;

    ghost KEEPS: { Bool };

    /// True if the place holds this undo.
    ghost holds: { Self → Undo → Type 0 };

    /// Stores an undo, and replaces any earlier one.
    fn put(&mut self, undo: Undo)
        ensures { holds self.new undo };
}

/// A place that discards the undo. The undo has no allocated memory that the place would have to
/// free, so the compiler needn't build the undo at all.
#[derive(Clone, Copy, Debug, Default, PartialEq, Eq)]
pub struct NoWayBack;

impl<Undo: Drop> Keeper<Undo> for NoWayBack {
    ghost use Rattle.std.specs.Prelude.{false};

    const KEEPS: bool = false;

    ghost KEEPS = { false };

    ghost holds = { λ _ _. Unit {0} };

    #[inline(always)]
    fn put(&mut self, undo: Undo) {
        mem::forget(undo);
    }
}
