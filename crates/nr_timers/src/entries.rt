//! Entries: their order, and their cells in the index.

ghost use Rattle.std.specs.Prelude.{◌≡◌};
ghost use Rattle.nr_timers.specs.Index.{key, key_of};
ghost use Rattle.nr_timers.specs.Order.{is_less};

use nr_rev::{Entry, Side};

/// Returns whether an entry goes off before another: it is due earlier, or at the same time with a lower arming number.
#[inline(always)]
#[tactic(auto, unfolding(crate::specs::Order::is_less))]
pub(crate) fn is_less(entry: &Entry, other: &Entry) -> bool
    ensures { result ≡ is_less entry.now other.now }
{
    entry.timer.is_before(&other.timer)
}

/// Returns the cell of an entry.
#[inline(always)]
#[tactic(auto, unfolding(crate::specs::Index::key))]
pub(crate) fn key(entry: &Entry) -> usize
    ensures { result ≡ key entry.now }
{
    key_of(entry.descriptor, entry.side)
}

/// Returns the cell of a descriptor's side.
#[inline(always)]
pub(crate) fn key_of(descriptor: u32, side: Side) -> usize
    ensures { result ≡ key_of descriptor side }
{
    match side {
        Side::Read => 2 * descriptor as usize,
        Side::Write => 2 * descriptor as usize + 1,
    }
}
