//! The programs `run` and `check`, from the bytes of the file and the streams to the exit status.

ghost use Rattle.std.specs.Prelude.{◌≡◌, ◌⊎◌, ◌++◌, false};
ghost use Rattle.std.specs.Process.{exit_status};
ghost use Rattle.nr_rev.specs.Run.{Recording};
ghost use Rattle.nr_programs.specs.Opening.{IsGoodText};
ghost use Rattle.nr_recording.specs.Faults.{memory_line};
ghost use Rattle.nr_programs.specs.Run.{PrintsFault, EndsPrinting, accepted_line, ok_line};
ghost use Rattle.nr_programs.specs.Auxiliary.Run.{Runs, Walks, Checks, status_code};
ghost use Rattle.nr_programs.specs.Transcript.{RunsTranscript};
ghost use Rattle.nr_programs.specs.declared.run.ExitStatus.TheVariants as statuses;

use crate::opening::{COPY_EVERY, open, open_given};
use nr_front::Front;
use nr_journal::Journal;
use nr_lines::answer_together;
use nr_recording::OutOfMemory;
use nr_rev::Worlds;
use nr_search::OneWorker;
use nr_snaps::{Film, MOST_EVERY};
use nr_text::{Buffered, Sink, Source, Text, Token, WriteFailed, send_all};
use std::alloc::Global;
use std::io::{Read, Write};
use std::process::ExitCode;
use std::thread::Threads;

/// The number of commands that the only front of `run` can place.
pub const JOURNAL_ROOM: usize = 65_536;

/// The maximum number of steps that a walker can undo before it starts from a copy.
pub(crate) const DELTAS_KEPT: usize = 4_096;

/// How a program ended.
#[derive(Clone, Copy, Debug, PartialEq, Eq)]
pub enum ExitStatus {
    /// The program completed.
    Done,
    /// The program printed the first fault of the recording, or `fault 108 memory`.
    Refused,
    /// Usage error: the arguments don't select a program.
    Usage,
    /// A read or a write failed.
    StreamFailed,
}

impl ExitStatus {
    /// Returns the process's exit status: 0, 1, 2 or 3, in the order above.
    pub fn code(self) -> u8
        ensures { result ≡ status_code self }
    {
        match self {
            ExitStatus::Done => 0,
            ExitStatus::Refused => 1,
            ExitStatus::Usage => 2,
            ExitStatus::StreamFailed => 3,
        }
    }
}

impl From<ExitStatus> for ExitCode {
    ghost from_gives = { λ status code. exit_status code ≡ status_code status };

    fn from(status: ExitStatus) -> ExitCode {
        ExitCode::from(status.code())
    }
}

/// Opens the recording and frees its text. Then reads lines from the input and writes the reply to
/// each line to the output, as a debugger that starts at position 0 does. Each reply describes the
/// world at the debugger's position. If a query, or a command that searches for a hit, runs out of
/// memory, this is reported; the command's reply can be requested again.
///
/// Returns `Done` if a line was `quit` or the input ended, `Refused` if the recording's first fault
/// or `fault 108 memory` was printed and no input was read, and `StreamFailed` if a read or a write
/// failed, so that only a prefix of the output was written.
pub fn run_bytes<W, R, I, O>(
    _rt: &R,
    alloc: Global,
    text: Vec<u8>,
    input: &mut Source<I>,
    output: &mut Sink<O>,
) -> ExitStatus
where
    W: Worlds + Drop + Sync,
    W::Delta: Drop,
    W::Snapshot: Drop + Sync,
    R: Threads + Sync,
    I: Read,
    O: Write,
    requires input { input.old.failed ≡ false }
    requires output { output.old.failed ≡ false }

    // What is read and written, for any text.
    ensures runs { Runs text.items input.old input.new output.old output.new result }

    // A recording whose steps all apply and give their recorded answers gets a session, unless memory runs out before
    // the first line.
    ensures good { (r : Recording) → IsGoodText text.items r
        → Walks input.old input.new output.old output.new r result
        ⊎ PrintsFault memory_line input.old input.new output.old output.new result }

    // The output is the transcript of the recording and of the input.
    ensures transcript { RunsTranscript text.items input.old input.new output.old output.new result }
{
    match open_given::<W>(alloc, text, COPY_EVERY) {
        Ok(film) => walk::<W, R, I, O>(alloc, &film, input, output),
        Err(fault) => refuse(&fault, output),
    }
}

// Answers the lines of the input over a film.
fn walk<W, R, I, O>(
    alloc: Global,
    film: &Film<W>,
    input: &mut Source<I>,
    output: &mut Sink<O>,
) -> ExitStatus
where
    W: Worlds + Drop + Sync,
    W::Delta: Drop,
    W::Snapshot: Drop + Sync,
    R: Threads + Sync,
    I: Read,
    O: Write,
    requires every { film.now.every ≡ 1024 }
    requires input { input.old.failed ≡ false }
    requires output { output.old.failed ≡ false }
    ensures { Walks input.old input.new output.old output.new film.now.recording result
        ⊎ PrintsFault memory_line input.old input.new output.old output.new result }
{
    let (journal, pass) = match Journal::alone(alloc, JOURNAL_ROOM) {
        Ok(made) => made,
        Err(refused) => return refuse(&OutOfMemory(refused), output),
    };
    let mut front = match Front::new(alloc, pass, film, OneWorker::<R>::new(), DELTAS_KEPT) {
        Ok(front) => front,
        Err((_, refused)) => return refuse(&OutOfMemory(refused), output),
    };
    match answer_together(input, output, &mut front, &journal) {
        Ok(_) => ExitStatus::Done,
        Err(_) => ExitStatus::StreamFailed,
    }
}

/// Prints the fault as one line. Returns `Refused`, or `StreamFailed` if a write failed, so that
/// only a prefix of the line was written.
pub fn refuse<T: Text, O: Write>(fault: &T, output: &mut Sink<O>) -> ExitStatus
    ensures { EndsPrinting (T.text fault.now) statuses.Refused output.old output.new result }
{
    print(fault, ExitStatus::Refused, output)
}

// Prints the text. Returns the given status if the text was written in full.
pub(crate) fn print<T: Text, O: Write>(
    text: &T,
    wanted: ExitStatus,
    output: &mut Sink<O>,
) -> ExitStatus
    ensures { EndsPrinting (T.text text.now) wanted output.old output.new result }
{
    match output.print(text) {
        Ok(()) => wanted,
        Err(_) => ExitStatus::StreamFailed,
    }
}

// Prints two texts. Returns the given status if both texts were written in full.
pub(crate) fn print_both<A: Text, B: Text, O: Write>(
    first: &A,
    last: &B,
    wanted: ExitStatus,
    output: &mut Sink<O>,
) -> ExitStatus
    ensures { EndsPrinting (A.text first.now ++ B.text last.now) wanted output.old output.new result }
{
    match output.print(first) {
        Ok(()) => print(last, wanted, output),
        Err(_) => ExitStatus::StreamFailed,
    }
}

/// Opens the recording, and prints the line `ok L steps`, where L is its number of steps.
///
/// Returns `Refused` if the recording's first fault or `fault 108 memory` was printed as one line,
/// `StreamFailed` if a write failed, so that only a prefix of the line was written, and otherwise
/// `Done`.
pub fn check_bytes<W: Worlds + Drop, O: Write>(
    alloc: Global,
    bytes: &[u8],
    output: &mut Sink<O>,
) -> ExitStatus
where
    W::Snapshot: Drop,
    // What is written, for any bytes.
    ensures checks { Checks bytes.now output.old output.new result }

    // A recording whose steps all apply and give their recorded answers is accepted, unless memory runs out.
    ensures good { (r : Recording) → IsGoodText bytes.now r
        → EndsPrinting (ok_line r) statuses.Done
        output.old output.new result
        ⊎ EndsPrinting memory_line statuses.Refused
        output.old output.new result }
{
    match open::<W>(alloc, bytes, MOST_EVERY) {
        Ok(film) => accept(&film, output),
        Err(fault) => refuse(&fault, output),
    }
}

// Prints the number of the film's steps. The film keeps a copy of the world every 65536 steps,
// which is the longest interval for a film.
fn accept<W: Worlds + Drop, O: Write>(film: &Film<W>, output: &mut Sink<O>) -> ExitStatus
where
    W::Snapshot: Drop,
    requires { film.now.every ≡ 65536 }
    ensures { EndsPrinting (ok_line film.now.recording) statuses.Done output.old output.new result }
{
    print(&Accepted(film.len()), ExitStatus::Done, output)
}

/// The message that a recording with this many steps was accepted.
#[derive(Clone, Copy)]
pub(crate) struct Accepted(pub(crate) usize);

/// Prints as the line `ok 260 steps`.
impl Text for Accepted {
    ghost text = { λ accepted. accepted_line accepted.0 };

    fn send<W: Write>(&self, w: &mut Buffered<W>) -> Result<(), WriteFailed> {
        let steps = Token::Number(self.0 as u64);
        send_all(&[Token::Text(b"ok "), steps, Token::Text(b" steps\n")], w)
    }
}
