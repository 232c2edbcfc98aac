//! The passes of a journal that makes all of them at once.

use crate::view::View;
use std::marker::Model;

/// The remaining passes of a journal that makes all of them at once. They are used only with the
/// journal that made them. In contracts, they have the identity of the journal, its number of
/// passes, and the tag of the next pass.
#[derive(Drop)]
pub struct Passes {
    pub(crate) seat: atomic_table::Seat<(), View>,
    pub(crate) next: u32,
    pub(crate) passes: u32,
}

impl Model for Passes {
    ghost use Rattle.std.specs.Prelude.{◌≡◌, ◌≤◌, []};
    ghost use Rattle.nr_journal.specs.Seat.{Left, next_of, passes_of};
    ghost use Rattle.nr_journal.specs.declared.rule.TheConstants.{MOST_PASSES};
    ghost use Rattle.nr_journal.specs.declared.view.View.TheVariants.{Keeping};

    ghost Value = { Left };

    ghost view = { λ p. record {
      table = p.seat.table_id;
      next = next_of p.seat.me.0;
      passes = passes_of p.seat.me.0;
    } };

    ghost invariant = { λ p. (p.seat.me ≡ (Keeping (next_of p.seat.me.0) (passes_of p.seat.me.0), []))
        × (p.next ≡ next_of p.seat.me.0) × (p.passes ≡ passes_of p.seat.me.0)
        × (p.next ≤ p.passes) × (p.passes ≤ MOST_PASSES) };
}
