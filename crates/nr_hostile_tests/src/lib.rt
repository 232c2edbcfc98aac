//! Tests that call the public functions of fronts and of the line loop. They cover sessions of
//! lines, streams that fail, memory that runs out, journals that are full, and fronts in several
//! threads.
#![tactic(auto)]

#[cfg(test)]
mod crowd;
#[cfg(test)]
mod lines;
#[cfg(test)]
mod pair;
#[cfg(test)]
mod scripts;
#[cfg(test)]
mod sharing;
#[cfg(test)]
mod streams;
#[cfg(test)]
mod turns;
