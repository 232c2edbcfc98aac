//! Tests that call the public functions of worlds, recordings, films and walks. The tests of sessions also use the
//! films, the streams, the text and the world that are defined here.
#![tactic(auto)]

#[cfg(test)]
mod faults;
mod films;
#[cfg(test)]
mod hits;
pub mod laws;
#[cfg(test)]
mod lists;
mod observed;
#[cfg(test)]
mod recording;
#[cfg(test)]
mod snaps;
mod streams;
mod texts;
#[cfg(test)]
mod walker;
#[cfg(test)]
mod world;

pub use films::{OPEN, add_ticks, film_of, ticking};
pub use observed::Observed;
pub use streams::{AtBrim, Counted, Cup, Drip, Stutter};
pub use texts::{CLOSES, HEADER, TAKES_TURNS, WAITS};
