//! The findings in a recording.

ghost use Rattle.std.specs.Prelude.{◌≡◌, ◌++◌};
ghost use Rattle.nr_suspects.specs.Suspects.{found_lines};

use crate::deadline_finding::DeadlineFinding;
use crate::held_reference::HeldReference;
use crate::lost_wake_up::LostWakeUps;
use crate::sleeper::Sleepers;
use nr_text::{Buffered, Parts, Text, WriteFailed};
use std::io::Write;

/// The findings about deadlines, the lost wake-ups, the sleepers, and the held references to closed
/// sockets.
#[derive(Drop)]
pub struct Suspects {
    /// What happened to deadlines, step by step.
    pub deadlines: Vec<DeadlineFinding>,
    /// The lost wake-ups.
    pub lost: LostWakeUps,
    /// The goroutines that sleep although they should have been woken.
    pub asleep: Sleepers,
    /// The held references to closed sockets.
    pub held: Vec<HeldReference>,
}

/// Prints one line for each finding: first deadlines, then lost wake-ups, sleepers, and held
/// references.
impl Text for Suspects {
    ghost text = { found_lines };

    fn send<W: Write>(&self, w: &mut Buffered<W>) -> Result<(), WriteFailed> {
        Parts(self.deadlines.as_slice()).send(w)?;
        Parts(self.lost.as_slice()).send(w)?;
        Parts(self.asleep.as_slice()).send(w)?;
        Parts(self.held.as_slice()).send(w)
    }
}
