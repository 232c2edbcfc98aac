//! Films, and the expected cells at each of their positions.

use crate::texts::{TEXT, answer_twice};
use crate::twice::{Came, Twice, grant, refuse};
use nr_machine::World;
use nr_recording::{Recording, read};
use nr_rev::{Cell, CellValue, Refusal, Worlds};
use nr_snaps::{Film, LoadFault, Snaps};
use std::alloc::{AllocError, Global};

/// The number of steps in the long recording, which has the steps of the text, followed by steps
/// that set the clock to 1, 2 and so on.
pub(crate) const STEPS: usize = 192;

/// The number of steps between two copies.
const EVERY: usize = 64;

// Returns the long recording's text.
fn long_text(alloc: Global) -> Result<String, AllocError> {
    let mut text = String::from_str(alloc, TEXT)?;
    for time in 1..=180 {
        let tick = format!(in alloc; "[\"tick\",{time}]\n")?;
        text.push_str(tick.as_str())?;
    }
    Ok(text)
}

fn long_recording(alloc: Global) -> Option<Recording> {
    let text = long_text(alloc).ok()?;
    read(alloc, text.as_bytes()).ok()
}

/// Returns the film of the long recording.
pub(crate) fn film(alloc: Global) -> Option<Film<World>> {
    Snaps::load(alloc, long_recording(alloc)?, EVERY).ok()
}

/// Returns the film of the text.
pub(crate) fn short_film(alloc: Global) -> Option<Film<World>> {
    let recording = read(alloc, TEXT.as_bytes()).ok()?;
    Snaps::load(alloc, recording, EVERY).ok()
}

/// Returns whether the cells have the values of the long recording at a position.
pub(crate) fn is_at<W: Worlds>(world: &W, position: usize) -> bool
    requires { W.is_well_formed world.now }
{
    let time = i64::try_from(position.saturating_sub(12)).unwrap_or(i64::MAX);
    let bytes = match position {
        0 => CellValue::Absent,
        8..=10 => CellValue::Number(2),
        _ => CellValue::Number(0),
    };
    world.cell(Cell::Clock) == CellValue::Time(time) && world.cell(Cell::Input(0)) == bytes
}

// Returns whether the film contains all steps and copies.
fn is_whole(film: &Film<World>) -> bool {
    let mut is_whole = film.len() == STEPS && film.every() == EVERY;
    for n in 0..=STEPS {
        if n <= film.len() {
            is_whole &= match film.world_below(n) {
                Ok(world) => is_at(&world, n / EVERY * EVERY),
                Err(_) => false,
            };
        }
    }
    is_whole
}

// Returns the recording of the text, followed by steps that set the clock forward and then back.
fn late_recording(alloc: Global) -> Option<Recording> {
    let text = format!(in alloc; "{TEXT}[\"tick\",5]\n[\"tick\",4]\n").ok()?;
    read(alloc, text.as_bytes()).ok()
}

/// The recording to load.
#[derive(Clone, Copy, PartialEq, Eq)]
pub(crate) enum Recorded {
    Long,
    /// A recording whose last step doesn't apply.
    Late,
}

fn recording_of(alloc: Global, recorded: Recorded) -> Option<Recording> {
    match recorded {
        Recorded::Long => long_recording(alloc),
        Recorded::Late => late_recording(alloc),
    }
}

fn came_of_loading(recorded: Recorded, loaded: Result<Film<World>, LoadFault>) -> Came {
    match loaded {
        Ok(film) => Came::of(recorded == Recorded::Long && is_whole(&film)),
        Err(LoadFault::Memory(_)) => Came::Refused,
        Err(
            LoadFault::Refused {
                step: 14,
                reason: Refusal::ClockGoesBack,
            },
        ) => Came::of(recorded == Recorded::Late),
        Err(_) => Came::Wrong,
    }
}

/// Tests loading a recording.
pub(crate) fn load_twice(rt: &HostRuntime, recorded: Recorded) -> Option<Twice> {
    let alloc = rt.alloc();
    let recording = recording_of(alloc, recorded)?;
    refuse(rt);
    let first = Snaps::load(alloc, recording, EVERY);
    grant(rt);
    let first = came_of_loading(recorded, first);
    let recording = recording_of(alloc, recorded)?;
    Some(Twice {
        first,
        again: came_of_loading(recorded, Snaps::load(alloc, recording, EVERY)),
    })
}

/// Tests adding the answers to the film of the text.
pub(crate) fn answer_film_twice(rt: &HostRuntime) -> Option<Twice> {
    let film = short_film(rt.alloc())?;
    Some(answer_twice(rt, &film))
}
