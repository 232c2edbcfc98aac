//! A walker: a world that goes to any position of a film, forwards and backwards.
//!
//! A walker keeps the deltas of its last steps, up to a fixed number, in a ring (an undo log). It
//! reaches a position in one of three ways: back by undoing deltas that it keeps, forward by
//! applying steps, or from the film's copy at or below the position.
#![tactic(auto)]

pub mod laws;
mod moved;
mod places;
mod route;
mod walker;

pub use moved::Moved;
pub use walker::{LEAST_DEPTH, MOST_DEPTH, Walker};
