//! Timers in the order in which they are due, and the firings that wait to be run. The timers are a
//! heap with four children per place; an index finds the place of each side's timer.
#![tactic(auto)]

mod apply;
mod changing;
mod delta;
mod entries;
mod heap;
pub mod laws;
mod op;
mod performing;
mod sifting;
mod timers;
mod undoing;

pub use delta::{TimersDelta, TimersUndo};
pub use op::TimersOp;
pub use timers::Timers;
