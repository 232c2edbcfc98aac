//! Seats: a thread uses a seat to enter a journal.

use crate::view::View;
use std::marker::Model;

/// The right to enter a journal once. It is used only with the journal that made it. In contracts,
/// a seat has the identity of its journal, the number of tags that it has tried, and the maximum
/// number of passes. It tries the tags in order, from 0, until it finds a free one.
#[derive(Drop)]
pub struct Seat {
    pub(crate) seat: atomic_table::Seat<(), View>,
    pub(crate) tried: u32,
    pub(crate) passes: u32,
}

impl Model for Seat {
    ghost use Rattle.std.specs.Prelude.{◌≡◌, ◌≤◌, []};
    ghost use Rattle.nr_journal.specs.Seat.{Waiting, passes_of, tried_of};
    ghost use Rattle.nr_journal.specs.declared.rule.TheConstants.{MOST_PASSES};
    ghost use Rattle.nr_journal.specs.declared.view.View.TheVariants.{Outside};

    ghost Value = { Waiting };

    ghost view = { λ s. record {
      table = s.seat.table_id;
      tried = tried_of s.seat.me.0;
      passes = passes_of s.seat.me.0;
    } };

    ghost invariant = { λ s. (s.seat.me ≡ (Outside (tried_of s.seat.me.0) (passes_of s.seat.me.0), []))
        × (s.tried ≡ tried_of s.seat.me.0) × (s.passes ≡ passes_of s.seat.me.0)
        × (s.tried ≤ s.passes) × (s.passes ≤ MOST_PASSES) };
}

/// No tag is free: each tag of the journal is taken.
#[derive(Clone, Copy, Debug, PartialEq, Eq)]
pub struct NoTag;
