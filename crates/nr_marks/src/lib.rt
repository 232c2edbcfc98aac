//! Marks: the numbered breakpoints and watchpoints of a debugger, and the positions at which they hit.
#![tactic(auto)]

pub mod laws;
mod mark;
mod marks;
mod numbered;

pub use mark::{Break, Mark, NextStep};
pub use marks::{MOST_MARKS, MarkFault, Marks, NumberedMark};
pub use numbered::{MOST_NUMBERED, Numbered, NumberedList};
