//! Loads a recording: replays its steps once, and keeps copies of the world along the way.
//!
//! A film is a recording whose steps all apply, with a copy of the world at position 0 and after
//! every `every` steps. Each copy is exactly the state that the replay reached, not just one that
//! represents the same world.
#![tactic(auto)]

mod answers;
mod fault;
mod film;
pub mod laws;
mod loading;

pub use fault::LoadFault;
pub use film::{Film, LEAST_EVERY, MOST_EVERY};
pub use loading::{Snaps, differs};
