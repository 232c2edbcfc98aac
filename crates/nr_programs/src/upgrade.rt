//! The program `upgrade`: reads the bytes of a recording and writes it in version 2.

ghost use Rattle.std.specs.Prelude.{◌≡◌, ◌⊎◌};
ghost use Rattle.nr_rev.specs.Run.{Recording};
ghost use Rattle.nr_recording.specs.Faults.{memory_line};
ghost use Rattle.nr_programs.specs.Opening.{IsGoodText};
ghost use Rattle.nr_programs.specs.Run.{EndsPrinting};
ghost use Rattle.nr_programs.specs.Upgrade.{Upgrades, WritesAnswered};
ghost use Rattle.nr_programs.specs.declared.run.ExitStatus.TheVariants as statuses;

use crate::opening::open;
use crate::run::{ExitStatus, refuse};
use nr_recording::{OutOfMemory, WriteFault, write};
use nr_rev::Worlds;
use nr_snaps::{Film, MOST_EVERY};
use nr_text::Sink;
use std::alloc::Global;
use std::io::Write;

/// Opens the recording, of either version, and writes it in version 2: each step with its answer.
///
/// Returns `Refused` if the recording's first fault or `fault 108 memory` was printed as one line,
/// `StreamFailed` if a write failed, so that only a prefix of the output was written, and otherwise
/// `Done`. The line `fault 108 memory` may follow whole lines of the recording, if memory ran out
/// for the next line.
pub fn upgrade_bytes<W: Worlds + Drop, O: Write>(
    alloc: Global,
    bytes: &[u8],
    output: &mut Sink<O>,
) -> ExitStatus
where
    W::Snapshot: Drop,
    // What is written, for any bytes.
    ensures upgrades { Upgrades bytes.now output.old output.new result }

    // A recording whose steps all apply and give their recorded answers is written, unless memory runs out.
    ensures good { (r : Recording) → IsGoodText bytes.now r
        → WritesAnswered r output.old output.new result
        ⊎ EndsPrinting memory_line statuses.Refused output.old output.new result }
{
    match open::<W>(alloc, bytes, MOST_EVERY) {
        Ok(film) => write_answered(alloc, &film, output),
        Err(fault) => refuse(&fault, output),
    }
}

// Writes the film's steps with their answers. The film keeps a copy of the world every 65536 steps,
// which is the longest interval for a film.
fn write_answered<W: Worlds + Drop, O: Write>(
    alloc: Global,
    film: &Film<W>,
    output: &mut Sink<O>,
) -> ExitStatus
where
    W::Snapshot: Drop,
    requires { film.now.every ≡ 65536 }
    ensures { WritesAnswered film.now.recording output.old output.new result }
{
    let recording = match film.with_answers() {
        Ok(recording) => recording,
        Err(refused) => return refuse(&OutOfMemory(refused), output),
    };
    match write(alloc, &recording, output) {
        Ok(()) => ExitStatus::Done,
        Err(WriteFault::Memory(refused)) => refuse(&OutOfMemory(refused), output),
        Err(WriteFault::Device) => ExitStatus::StreamFailed,
    }
}
