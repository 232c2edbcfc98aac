//! The debugger's front end: it parses lines, runs commands, encodes them as words of a journal,
//! and prints replies.
#![tactic(auto)]

mod checkpoint;
mod command;
mod count;
mod debugger;
pub mod laws;
mod listing;
mod looking;
mod parsing;
mod reply;
mod value;
mod word;

pub use checkpoint::{Checkpoint, CheckpointFault, Checkpoints, MOST_CHECKPOINTS};
pub use command::{Command, Line, LineFault, Query};
pub use count::from_one;
pub use debugger::Debugger;
pub use parsing::{MAX_LINE, number};
pub use reply::{Fault, Reply, send_printed};
