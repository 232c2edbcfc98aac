//! The invariant of a journal, and the numbers in it.

use crate::view::View;
use atomic_table::TableRule;

/// The greatest opcode of a word. The least opcode is 1, so no word is 0.
pub const GREATEST_OPCODE: u64 = 12;

/// The number of values of a byte: a word's lowest byte is its opcode, and the next byte its tag.
pub const BYTE_VALUES: u64 = 256;

/// The maximum number of passes of a journal.
pub const MOST_PASSES: u32 = 64;

/// The maximum number of words of a journal.
pub const MOST_WORDS: usize = 1_000_000;

/// The dimensions of a journal's table.
#[derive(Clone, Copy, Debug, PartialEq, Eq)]
pub struct Purpose {
    /// The number of words that the journal has room for.
    pub words: usize,
    /// The maximum number of passes of the journal. Their tags are the numbers below it.
    pub passes: u32,
    /// True if all passes are made at once, so that all tags are taken from the start.
    pub drawn: bool,
}

/// The invariant of a journal's words and of all views of it. It holds after every step, whichever
/// thread makes the step.
pub struct InOneOrder;

impl TableRule<(), View, Purpose> for InOneOrder {
    ghost use Rattle.nr_journal.specs.Auxiliary.Rule.{Kept, first_view};

    ghost holds = { λ purpose s. Kept purpose s.words s.views };

    ghost first = { first_view };
}
