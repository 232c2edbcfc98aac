//! The program `suspects`: reads the bytes of a recording and prints its suspects.

ghost use Rattle.std.specs.Prelude.{◌≡◌, ◌≤◌, ◌<◌, OnOk, IfOk, IfErr, length};
ghost use Rattle.nr_recording.specs.Recording.{run_of};
ghost use Rattle.nr_rev.specs.Run.{world_at};
ghost use Rattle.nr_suspects.specs.Suspects.{AreNotes};
ghost use Rattle.nr_programs.specs.Suspects.{ShowsSuspects};
ghost use Rattle.nr_programs.specs.Auxiliary.Suspects.{AreSuspectsOf, IsFaultFrom, IsStepMade};

use crate::run::{Accepted, ExitStatus, print_both, refuse};
use nr_changes::TouchesCells;
use nr_recording::{Recording, read};
use nr_snaps::{LoadFault, differs};
use nr_suspects::{Notebook, Suspects, advance};
use nr_text::Sink;
use std::alloc::Global;
use std::io::Write;

/// Opens the recording and prints its suspects, one line each.
///
/// First prints what happened to deadlines, step by step. For each deadline that passed, it prints
/// `at 89 passed-deadline desc 0 r set 60 by 2 rw moved 75 by 3`. For each call that a deadline
/// ended, it prints `at 91 timeout gor 2 desc 0 r set 60 by 2 rw`. For each deadline that woke a
/// goroutine and was set again before that goroutine checked its side, it prints `at 92 taken-back
/// gor 2 desc 0 r set 60 by 2 rw`.
///
/// The other lines are about the last position. For each lost wake-up, it prints `at 71 lost-wakeup
/// gor 2 desc 0 r event 60 taken 66 by 2`. For each goroutine that sleeps although it should have
/// been woken, it prints `at 71 asleep gor 2 desc 0 r because bytes`. Both are sorted by
/// descriptor, with the read side first. For each goroutine that holds references to a closed
/// socket, it prints `at 90 held-reference sock 1 gor 3 count 1 since 45`, sorted by socket and
/// goroutine. The line that `check` prints comes last.
///
/// If the text isn't a recording, or a step doesn't apply, or its answer differs from the recorded one, prints only
/// that fault. The steps are applied once, and no copy of the world is kept; findings about deadlines are kept until
/// the end.
///
/// Returns `Refused` if a fault or `fault 108 memory` was the only line, `StreamFailed` if a write
/// failed, so that only a prefix of the output was written, and otherwise `Done`.
pub fn suspects_bytes<W: TouchesCells + Drop, O: Write>(
    alloc: Global,
    bytes: &[u8],
    output: &mut Sink<O>,
) -> ExitStatus
    // What is written, for any bytes.
    ensures { ShowsSuspects bytes.now output.old output.new result }
{
    let recording = match read(alloc, bytes) {
        Ok(recording) => recording,
        Err(fault) => return refuse(&fault, output),
    };
    match find_suspects::<W>(alloc, &recording) {
        Ok(suspects) => print_both(
            &suspects,
            &Accepted(recording.len()),
            ExitStatus::Done,
            output,
        ),
        Err(fault) => refuse(&fault, output),
    }
}

// Applies the steps of the recording, and finds the suspects at its last position.
fn find_suspects<W: TouchesCells + Drop>(
    alloc: Global,
    recording: &Recording,
) -> Result<Suspects, LoadFault>
    ensures found { IfOk result (AreSuspectsOf recording.now) }
    ensures fault { IfErr result (IsFaultFrom recording.now 0) }
{
    let limits = recording.limits();
    let mut world = W::fresh(alloc, limits)?;
    let mut notebook = Notebook::new(alloc, &limits)?;
    for n in 0..recording.len() {
        make_step(&mut world, recording, n, &mut notebook)?;
    }
    let suspects = notebook.suspects(alloc, &world, recording.len(), &limits)?;
    Ok(suspects)
}

// Applies the step after position n, and updates the notes. Fails with the step's fault.
fn make_step<W: TouchesCells>(
    world: &mut W,
    recording: &Recording,
    n: usize,
    notebook: &mut Notebook,
) -> Result<(), LoadFault>
    requires world { W.is_well_formed world.old }
    requires at { W.world world.old ≡ world_at (run_of recording.now) n }
    requires notes { AreNotes (run_of recording.now) n notebook.old }
    requires below { n < length recording.now.steps }
    requires few { length recording.now.steps ≤ 1000000 }
    ensures well_formed { W.is_well_formed world.new }
    ensures made { OnOk result (IsStepMade recording.now n (W.world world.new) notebook.new) }
    ensures fault { IfErr result (IsFaultFrom recording.now n) }
{
    let Some(step) = recording.step(n) else {
        unreachable!()
    };
    let (given, notice) = match advance(world, step) {
        Ok(made) => made,
        Err(reason) => {
            return Err(LoadFault::Refused {
                step: n + 1,
                reason,
            });
        }
    };
    if differs(recording.answer(n), given) {
        return Err(LoadFault::OtherAnswer { step: n + 1 });
    }
    notebook.note(n + 1, notice)?;
    Ok(())
}
