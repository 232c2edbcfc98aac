//! Passes: the handles of threads that have entered a journal.

ghost use Rattle.std.specs.Prelude.{◌≡◌, length};

use crate::view::View;
use atomic_table::Seat;
use std::marker::Model;

/// The right to place words with one tag in a journal, and the number of words read. It is used
/// only with the journal that made it. In contracts, a pass has the identity of its journal, its
/// tag, and the words that it has read. It also has the number of times that it found no word, and
/// the words that it learned from another pass at the last `meet`.
#[derive(Drop)]
pub struct Pass {
    pub(crate) seat: Seat<(), View>,
    // The number of words that the pass has read.
    pub(crate) place: usize,
    pub(crate) tag: u8,
}

impl Model for Pass {
    ghost use Rattle.std.specs.Prelude.{◌≡◌, ◌<◌, [], length};
    ghost use Rattle.nr_journal.specs.Pass.{Entered, pass_state_of};
    ghost use Rattle.nr_journal.specs.declared.view.View.TheVariants.{Within};

    ghost Value = { Entered };

    ghost view = { λ p. record { table = p.seat.table_id; pass_state = pass_state_of p.seat.me.0 } };

    ghost invariant = { λ p. (p.seat.me ≡ (Within (pass_state_of p.seat.me.0), []))
        × (p.place ≡ length (pass_state_of p.seat.me.0).seen)
        × (p.tag ≡ (pass_state_of p.seat.me.0).tag) × (p.place < p.seat.table_id.words) };
}

/// The result of offering a word.
#[derive(Clone, Copy, Debug, PartialEq, Eq)]
pub enum Offered {
    /// The word is in the journal, and the pass has read it.
    Placed,
    /// Another pass has placed this word at that index. The pass that made the offer has read it.
    Lost(u64),
    /// The pass has read all words that the journal has room for. Nothing changed.
    Full,
}

impl Pass {
    /// Returns the pass's tag, which no other pass has. It is below `MOST_PASSES`.
    pub fn tag(&self) -> u8
        ensures { result ≡ self.now.pass_state.tag }
    {
        self.tag
    }

    /// Returns the number of words read.
    pub fn seen(&self) -> usize
        ensures { result ≡ length self.now.pass_state.seen }
    {
        self.place
    }
}
