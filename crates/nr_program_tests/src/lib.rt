//! Tests that call the public functions of the programs.
#![tactic(auto)]

#[cfg(test)]
mod changes;
#[cfg(test)]
mod deadlines;
#[cfg(test)]
mod playing;
#[cfg(test)]
mod recordings;
#[cfg(test)]
mod serving;
#[cfg(test)]
mod sessions;
#[cfg(test)]
mod sleepers;
#[cfg(test)]
mod streams;
#[cfg(test)]
mod suspects;
#[cfg(test)]
mod texts;
#[cfg(test)]
mod upgrade;
