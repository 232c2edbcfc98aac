//! Films for the tests.

use nr_recording::{Recording, Version};
use nr_rev::{Limits, Step, Worlds};
use nr_snaps::{Film, Snaps};
use std::alloc::{AllocError, Global};

pub(crate) const LIMITS: Limits = Limits {
    goroutines: 1,
    sockets: 1,
    descriptors: 1,
    buffer: 1,
};

/// Opens a socket with room for one byte per side.
pub const OPEN: Step = Step::SockOpen {
    read_capacity: 1,
    write_capacity: 1,
};

/// Returns these steps as a recording of version 1.
pub(crate) fn recording_of(alloc: Global, steps: Vec<Step>) -> Option<Recording> {
    Recording::new(Version::One, LIMITS, steps, Vec::new(alloc)).ok()
}

/// Returns the film of these steps, with a copy every 64 steps, if they all apply.
pub fn film_of<W: Worlds + Drop>(alloc: Global, steps: Vec<Step>) -> Option<Film<W>>
where
    W::Snapshot: Drop,
{
    let recording = recording_of(alloc, steps)?;
    Snaps::load(alloc, recording, 64).ok()
}

/// Appends this many steps that set the clock to 1, 2 and so on.
pub fn add_ticks(steps: &mut Vec<Step>, count: u32) -> Result<(), AllocError> {
    for time in 1..=i64::from(count) {
        steps.push(Step::Tick { time })?;
    }
    Ok(())
}

/// Returns a film of this many steps that set the clock to 1, 2 and so on, with a copy every 64 steps.
pub fn ticking<W: Worlds + Drop>(alloc: Global, count: u32) -> Option<Film<W>>
where
    W::Snapshot: Drop,
{
    let mut steps = Vec::new(alloc);
    add_ticks(&mut steps, count).ok()?;
    film_of(alloc, steps)
}
