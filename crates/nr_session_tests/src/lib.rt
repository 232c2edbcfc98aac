//! Tests that call the public functions of the journal, of searches, of commands and of shared
//! sessions.
#![tactic(auto)]

#[cfg(test)]
mod command;
#[cfg(test)]
mod debugging;
#[cfg(test)]
mod journal;
#[cfg(test)]
mod searching;
#[cfg(test)]
mod serving;
