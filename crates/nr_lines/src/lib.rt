//! Uses a front of the shared session to answer the lines of a reader, and writes the replies.
#![tactic(auto)]

mod batch;
mod ending;
mod engine;
pub mod laws;
mod outbox;
mod page;
mod turn;

pub use ending::{End, LineEnd, StreamFailure};
pub use engine::{answer, answer_together, serve};
