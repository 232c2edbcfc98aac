//! Films over packed worlds.

use crate::films::{LIMITS, OPEN, add_ticks, recording_of, ticking};
use nr_machine::World;
use nr_recording::{Recording, Version};
use nr_rev::{Answer, Cell, CellValue, Refusal, Step, Worlds};
use nr_snaps::{Film, LoadFault, Snaps};
use std::alloc::Global;
use std::test::Fail;

/// Returns the fault of a recording whose first 70 steps set the clock to 1, 2 and so on, and whose
/// last step sets it back to 69.
fn fault_of_the_last(alloc: Global) -> Option<LoadFault> {
    let mut steps = Vec::new(alloc);
    add_ticks(&mut steps, 70).ok()?;
    steps.push(Step::Tick { time: 69 }).ok()?;
    let recording = recording_of(alloc, steps)?;
    Snaps::load::<World>(alloc, recording, 64).err()
}

/// Returns the clock of the film's copy at a position, or of the nearest copy below it.
fn clock_below(film: &Film<World>, n: usize) -> Option<CellValue> {
    if n > film.len() {
        return None;
    }
    let world = World::restored(film.snap_below(n)).ok()?;
    Some(world.cell(Cell::Clock))
}

/// Returns the clocks of the copies at or below five positions, three of which have a copy of their own.
fn clocks(film: &Film<World>) -> [Option<CellValue>; 5] {
    [
        clock_below(film, 0),
        clock_below(film, 63),
        clock_below(film, 64),
        clock_below(film, 127),
        clock_below(film, 128),
    ]
}

#[test]
fn a_film_has_a_copy_at_its_end(rt: HostRuntime) -> Result<(), Fail> {
    let film = ticking::<World>(rt.alloc(), 128).ok_or("no film")?;
    let has_steps = (film.step(127).is_some(), film.step(128).is_some());
    let clock = |time| Some(CellValue::Time(time));
    assert_eq!(rt;
        (film.len(), film.every(), has_steps, clocks(&film)),
        (
            128,
            64,
            (true, false),
            [clock(0), clock(0), clock(64), clock(64), clock(128)]
        )
    );
    Ok(())
}

#[test]
fn a_refused_step_is_reported_with_its_reason(rt: HostRuntime) {
    assert_eq!(rt;
        fault_of_the_last(rt.alloc()),
        Some(LoadFault::Refused {
            step: 71,
            reason: Refusal::ClockGoesBack
        })
    );
}

/// Returns the fault of a version-2 recording of two steps: opening a socket, and then this step.
fn fault_of_second(alloc: Global, opened: Answer, step: Step, answer: Answer) -> Option<LoadFault> {
    let steps = vec![in alloc; OPEN, step].ok()?;
    let answers = vec![in alloc; opened, answer].ok()?;
    let recording = Recording::new(Version::Two, LIMITS, steps, answers).ok()?;
    Snaps::load::<World>(alloc, recording, 64).err()
}

/// Returns the fault of a version-2 recording of two steps: opening a socket, and then setting the clock to 1.
fn fault_of_tick(alloc: Global, opened: Answer, answer: Answer) -> Option<LoadFault> {
    fault_of_second(alloc, opened, Step::Tick { time: 1 }, answer)
}

#[test]
fn another_answer_is_reported_where_its_step_applies(rt: HostRuntime) {
    let zero = Answer::Number(0);
    let one = Answer::Number(1);
    assert_eq!(rt; fault_of_tick(rt.alloc(), zero, Answer::Done), None);
    assert_eq!(rt;
        fault_of_tick(rt.alloc(), zero, Answer::Stale),
        Some(LoadFault::OtherAnswer { step: 2 })
    );
    assert_eq!(rt;
        fault_of_tick(rt.alloc(), one, Answer::Stale),
        Some(LoadFault::OtherAnswer { step: 1 })
    );
    let drain = Step::Drain {
        socket: 0,
        count: 1,
    };
    let reason = Refusal::TooFewBytes;
    assert_eq!(rt;
        fault_of_second(rt.alloc(), zero, drain, Answer::Stale),
        Some(LoadFault::Refused { step: 2, reason })
    );
}

/// Makes a recording of the film's steps and their answers. Returns its version, its number of
/// steps, the answer of step 65, which is the last, and the answer of step 66, which doesn't exist.
fn answered(film: &Film<World>) -> Option<(Version, usize, [Option<Answer>; 2])> {
    let recording = film.with_answers().ok()?;
    let answers = [recording.answer(64), recording.answer(65)];
    Some((recording.version(), recording.len(), answers))
}

/// Loads the film's recording with answers, and returns the number of steps of the new film.
fn loaded_again(alloc: Global, film: &Film<World>) -> Option<usize> {
    let recording = film.with_answers().ok()?;
    let again = Snaps::load::<World>(alloc, recording, 64).ok()?;
    Some(again.len())
}

#[test]
fn a_film_has_its_answers(rt: HostRuntime) -> Result<(), Fail> {
    let film = ticking::<World>(rt.alloc(), 65).ok_or("no film")?;
    assert_eq!(rt;
        (answered(&film), loaded_again(rt.alloc(), &film)),
        (
            Some((Version::Two, 65, [Some(Answer::Done), None])),
            Some(65)
        )
    );
    Ok(())
}
