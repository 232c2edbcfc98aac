//! The program `changes`: reads the bytes of a recording and prints what each step changed.

ghost use Rattle.std.specs.Prelude.{◌≡◌, ◌≤◌, ◌<◌, ◌+◌, ◌++◌, Ok, IfErr, OnOk, length};
ghost use Rattle.nr_rev.specs.World.{empty_world};
ghost use Rattle.nr_text.specs.Auxiliary.Text.{text_of_parts};
ghost use Rattle.nr_programs.specs.Changes.{Changes, WritesChanges};
ghost use Rattle.nr_programs.specs.Auxiliary.Changes.{HasFault, StepsOn, as_lines, change_text};
ghost use Rattle.nr_programs.specs.Run.{EndsPrinting};

use crate::run::{Accepted, ExitStatus, print_both, refuse};
use arrayvec::ArrayVec;
use nr_changes::{CellWithValue, Changes, MOST_CELLS, TouchesCells, advance};
use nr_command::send_printed;
use nr_recording::{OutOfMemory, Recording, read};
use nr_snaps::{LoadFault, differs};
use nr_text::{Buffered, Parts, Sink, Text, Token, WriteFailed, send_all};
use std::alloc::Global;
use std::io::Write;

/// The maximum number of lines that are joined before they are written.
const LINES_AT_ONCE: usize = 256;

/// A line: a step, and a cell that it changed.
#[derive(Clone, Copy, Default)]
pub(crate) struct ChangeLine {
    /// The number of the step, counted from 1.
    step: usize,
    /// The cell, with its value after the step.
    change: CellWithValue,
}

/// The text is the step's number and the reply to `print`, such as `7 lock 0 = 18`.
impl Text for ChangeLine {
    ghost text = { change_text };

    fn send<W: Write>(&self, w: &mut Buffered<W>) -> Result<(), WriteFailed> {
        let step = Token::Number(self.step as u64);
        send_all(&[step, Token::Text(b" ")], w)?;
        send_printed(self.change.cell, self.change.value, w)
    }
}

/// The lines to write next.
type Lines = ArrayVec<ChangeLine, LINES_AT_ONCE>;

/// Opens the recording, and prints a line for each cell that a step changed, such as `7 lock 0 =
/// 18`. The lines are sorted by step, and the cells of a step are in the order of `COMMANDS.md`.
/// The last line is the one that `check` prints. If a step doesn't apply, or its answer differs
/// from the recorded one, prints the lines before that step, and then the step's fault. If the text
/// isn't a recording, prints only its fault. The steps are applied once, and no copy of the world
/// is kept.
///
/// Returns `Refused` if a fault was the last line or `fault 108 memory` was the only line,
/// `StreamFailed` if a write failed, so that only a prefix of the output was written, and otherwise
/// `Done`.
pub fn changes_bytes<W: TouchesCells + Drop, O: Write>(
    alloc: Global,
    bytes: &[u8],
    output: &mut Sink<O>,
) -> ExitStatus
where
    W::Snapshot: Drop,
    // What the program writes, whatever the bytes are.
    ensures { Changes bytes.now output.old output.new result }
{
    let recording = match read(alloc, bytes) {
        Ok(recording) => recording,
        Err(fault) => return refuse(&fault, output),
    };
    let mut world = match W::fresh(alloc, recording.limits()) {
        Ok(world) => world,
        Err(refused) => return refuse(&OutOfMemory(refused), output),
    };
    print_changes(&mut world, &recording, output)
}

// Applies the steps of the recording, and prints what they changed.
fn print_changes<W: TouchesCells, O: Write>(
    world: &mut W,
    recording: &Recording,
    output: &mut Sink<O>,
) -> ExitStatus
    requires world { W.is_well_formed world.old }
    requires start { W.world world.old ≡ empty_world recording.now.limits }
    ensures { WritesChanges (Ok recording.now) output.old output.new result }
{
    let mut changes = Changes::new();
    let mut lines = Lines::new();
    for n in 0..recording.len() {
        match step_on(world, recording, n, &mut changes, &mut lines) {
            Ok(()) => {}
            Err(fault) => return end(lines.as_slice(), &fault, ExitStatus::Refused, output),
        }
        if lines.len() + MOST_CELLS > LINES_AT_ONCE {
            match output.print(&Parts(lines.as_slice())) {
                Ok(()) => lines.clear(),
                Err(_) => return ExitStatus::StreamFailed,
            }
        }
    }
    let accepted = Accepted(recording.len());
    end(lines.as_slice(), &accepted, ExitStatus::Done, output)
}

// Applies the step after position n, and appends the lines for its changes. Fails with the step's
// fault. `changes` is scratch space.
fn step_on<W: TouchesCells>(
    world: &mut W,
    recording: &Recording,
    n: usize,
    changes: &mut Changes,
    lines: &mut Lines,
) -> Result<(), LoadFault>
    requires world { W.is_well_formed world.old }
    requires below { n < length recording.now.steps }
    requires few { length recording.now.steps ≤ 1000000 }
    requires room { length lines.old.items + 22 ≤ 256 }
    ensures well_formed { W.is_well_formed world.new }
    ensures steps { OnOk result (StepsOn recording.now n (W.world world.old) lines.old.items
        (W.world world.new) lines.new.items) }
    ensures fault { IfErr result
        (HasFault recording.now n (W.world world.old) lines.old.items lines.new.items) }
    ensures few { length lines.new.items ≤ 256 }
{
    let Some(step) = recording.step(n) else {
        unreachable!()
    };
    let given = match advance(world, step, changes) {
        Ok(given) => given,
        Err(reason) => {
            return Err(LoadFault::Refused {
                step: n + 1,
                reason,
            });
        }
    };
    if differs(recording.answer(n), given) {
        return Err(LoadFault::OtherAnswer { step: n + 1 });
    }
    add_lines(n + 1, changes.as_slice(), lines);
    Ok(())
}

// Appends a line for each change of a step.
fn add_lines(step: usize, changes: &[CellWithValue], lines: &mut Lines)
    requires { length lines.old.items + length changes.now ≤ 256 }
    ensures items { lines.new.items ≡ lines.old.items ++ as_lines step changes.now }
    ensures few { length lines.new.items ≤ 256 }
{
    for change in changes {
        lines.push(ChangeLine {
            step,
            change: *change,
        });
    }
}

// Prints the lines and then the last line. Returns the given status if all lines were written.
fn end<T: Text, O: Write>(
    lines: &[ChangeLine],
    last: &T,
    wanted: ExitStatus,
    output: &mut Sink<O>,
) -> ExitStatus
    ensures { EndsPrinting (text_of_parts change_text lines.now ++ T.text last.now) wanted
        output.old output.new result }
{
    print_both(&Parts(lines), last, wanted, output)
}
