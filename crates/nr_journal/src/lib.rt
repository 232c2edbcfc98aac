//! A journal of words that threads share without a lock.
#![tactic(auto)]

mod journal;
pub mod laws;
mod pass;
mod passes;
mod rule;
mod seat;
mod step;
mod view;

pub use crate::journal::Journal;
pub use crate::pass::{Offered, Pass};
pub use crate::passes::Passes;
pub use crate::rule::{BYTE_VALUES, GREATEST_OPCODE, InOneOrder, MOST_PASSES, MOST_WORDS, Purpose};
pub use crate::seat::{NoTag, Seat};
