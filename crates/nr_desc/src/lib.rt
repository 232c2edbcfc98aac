//! A poll descriptor, modelled on `pollDesc` of `runtime/netpoll.go`. Its wait words are numbers, and its marks are in
//! one byte.
#![tactic(auto)]

mod change;
mod code;
mod deadline;
mod desc;
mod firing;
pub mod laws;
mod marks;
mod op;
mod opening;
mod reversible;
mod waiting;

pub use desc::Desc;
pub use op::{DescAnswer, DescOp, Goroutine, Orders};
pub use reversible::DescDelta;
