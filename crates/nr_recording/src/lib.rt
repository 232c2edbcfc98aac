//! Reads and writes recordings of a run as text, with a line of JSON for each step.
#![tactic(auto)]

mod answer;
mod arguments;
mod copying;
mod fault;
mod header;
pub mod laws;
mod part;
mod plain;
mod reading;
mod recording;
mod spelling;
mod steps;
mod version;
mod writing;

pub use copying::step_copy;
pub use fault::{Fault, MakeFault, OutOfMemory, ReadFault, WriteFault};
pub use reading::read;
pub use recording::{MOST_STEPS, RecordedStep, Recording};
pub use version::Version;
pub use writing::write;
