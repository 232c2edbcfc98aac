//! Searches a film, forwards or backwards, for the nearest position at which a mark hits, and for
//! the marks that hit there.
#![tactic(auto)]

mod direction;
mod finder;
mod found;
mod gate;
pub mod laws;
mod quiet;
mod search;
mod segments;
mod slot;
mod steps;
mod stretch;
mod watched;
mod workers;

pub use direction::Direction;
pub use finder::{Finder, OneWorker, first_after, last_before, nearest_hit};
pub use found::{Found, Hit};
pub use gate::{Gate, Open};
pub use workers::{Claims, LEAST_WORKERS, MOST_WORKERS, ManyWorkers};
