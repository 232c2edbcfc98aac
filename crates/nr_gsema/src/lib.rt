//! Goroutines, and the semaphores at which they queue. Each queue is linked through the goroutines' own nodes.
#![tactic(auto)]

mod apply;
mod delta;
mod laws;
mod links;
mod node;
mod operation;
mod operations;
mod queues;
mod reads;
mod table;
mod undoing;
mod waits;

pub use delta::{GDelta, GUndo};
pub use laws::{delta_is_its_undo, just_equals_are_the_same, the_greatest_count, the_numbers};
pub use operation::GOperation;
pub use table::GTable;
