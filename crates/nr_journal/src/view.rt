//! Views: what a thread with a seat or a pass knows about the journal. They are plain data that
//! exist in proofs only.

use std::collections::LinkedList;

/// The view of a pass: what its thread knows about the journal. No value of this type is made.
pub struct PassState {
    /// The pass's tag, which no other pass has.
    pub tag: u64,
    /// The words that the pass has read, including its own, in the journal's order.
    pub seen: LinkedList<u64>,
    /// How often the pass looked for the next word and found none.
    pub looks: u64,
    /// The words that the pass learned at its last `meet`: those that the other pass had read by
    /// then.
    pub learned: LinkedList<u64>,
    /// The maximum number of passes of its journal.
    pub passes: u64,
}

/// A view of the journal: that of a seat, of a pass, of the remaining passes, or of a note. No
/// value of this type is made.
pub enum View {
    /// The view of a seat.
    Outside {
        /// The number of tags, from 0 on, that are known to be taken.
        tried: u64,
        /// The maximum number of passes of the journal.
        passes: u64,
    },
    /// The view of the remaining passes, if the journal was made with all of its passes at once.
    Keeping {
        /// The tags from this one on are those of remaining passes.
        next: u64,
        /// The number of passes of the journal.
        passes: u64,
    },
    /// The view of a pass.
    Within(PassState),
    /// A note from one pass to another: the words that the first pass has read.
    Note(LinkedList<u64>),
    /// A note that was used: a pass has already learned from it which words another pass has read.
    Spent,
}
