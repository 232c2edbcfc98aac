//! Starts a program with its arguments and the bytes of its file, and returns the exit status.

ghost use Rattle.std.specs.Prelude.{◌≡◌, false, IfOk, IfErr};
ghost use Rattle.std.specs.IoError.{error_kind};
ghost use Rattle.nr_arguments.specs.Arguments.{IsInRange};
ghost use Rattle.netrev.specs.Starting.{Plays, PrintsUnstarted, unstarted_of_arguments, unstarted_by};
ghost use Rattle.nr_rev.specs.Refusing.{refused_memory};
ghost use Rattle.nr_programs.specs.declared.run.ExitStatus.{ExitStatus as Status};
ghost use Rattle.netrev.specs.declared.starting.Unstarted.TheVariants as reasons;

use nr_arguments::{ArgumentsFault, Program, USAGE};
use nr_changes::TouchesCells;
use nr_programs::{
    ExitStatus, changes_bytes, check_bytes, refuse, run_bytes, serve_bytes, suspects_bytes,
    upgrade_bytes,
};
use nr_recording::OutOfMemory;
use nr_rev::Memory;
use nr_serving::{LoggedPorts, Ports};
use nr_text::{Sink, Source};
use std::alloc::{AllocError, Global};
use std::io;
use std::io::{ErrorKind, Read, Write};
use std::thread::Threads;

/// Why no program ran.
#[derive(Clone, Copy, Debug, PartialEq, Eq)]
pub enum Unstarted {
    /// Usage error: the arguments select no program.
    Usage,
    /// Memory ran out for the arguments or the file.
    Memory(Memory),
    /// The file couldn't be read.
    File,
}

impl From<ArgumentsFault> for Unstarted {
    ghost from_gives = { λ fault unstarted. unstarted ≡ unstarted_of_arguments fault };

    fn from(fault: ArgumentsFault) -> Unstarted {
        match fault {
            ArgumentsFault::Usage => Unstarted::Usage,
            ArgumentsFault::Memory(refused) => Unstarted::Memory(refused),
        }
    }
}

impl From<AllocError> for Unstarted {
    ghost from_gives = { λ _ unstarted. unstarted ≡ reasons.Memory refused_memory };

    fn from(refused: AllocError) -> Unstarted {
        Unstarted::Memory(refused.into())
    }
}

impl Unstarted {
    /// Returns why no program ran after an error of this kind: `Memory` if memory ran out, and
    /// otherwise `other`.
    pub fn of_kind(kind: ErrorKind, other: Unstarted) -> Unstarted
        ensures { result ≡ unstarted_by kind other }
    {
        match kind {
            ErrorKind::OutOfMemory => Unstarted::Memory(AllocError.into()),
            _ => other,
        }
    }

    /// Reports why no program ran. Writes the usage text to `errors` after a usage error, and `fault 108 memory` to the
    /// output if memory ran out. Writes nothing if the file couldn't be read.
    ///
    /// Returns `Usage` after a usage error, even if the text couldn't be written in full. Returns
    /// `Refused` if memory ran out and the fault was written, and `StreamFailed` if the fault
    /// couldn't be written or the file couldn't be read.
    pub fn tell<O: Write, E: Write>(self, output: &mut Sink<O>, errors: &mut Sink<E>) -> ExitStatus
        ensures { PrintsUnstarted self output.old output.new errors.old errors.new result }
    {
        match self {
            Unstarted::Usage => {
                let _printed = errors.print(&USAGE.as_bytes());
                ExitStatus::Usage
            }
            Unstarted::Memory(refused) => refuse(&OutOfMemory(refused), output),
            Unstarted::File => ExitStatus::StreamFailed,
        }
    }
}

/// Runs the program on the result of reading its file. If the file couldn't be read, the call reads
/// no input and writes nothing. It then fails with `Memory` if memory ran out, and otherwise with
/// `File`. `ports` supplies the callers of `serve`; the other programs open no ports.
pub fn start<W, R, P, I, O>(
    rt: &R,
    alloc: Global,
    program: Program<'_>,
    file: io::Result<Vec<u8>>,
    input: &mut Source<I>,
    output: &mut Sink<O>,
    ports: &mut LoggedPorts<P>,
) -> Result<ExitStatus, Unstarted>
where
    W: TouchesCells + Drop + Send + Sync,
    W::Delta: Drop + Send,
    W::Snapshot: Drop + Sync,
    R: Threads + Sync,
    P: Ports,
    I: Read,
    O: Write,
    requires program { IsInRange program }
    requires input { input.old.failed ≡ false }
    requires output { output.old.failed ≡ false }
    ensures plays { IfOk file (λ text. (status : Status) × (result ≡ Ok status)
        × Plays program.entry text.items input.old input.new ports.old ports.new output.old output.new status) }
    ensures no_file { IfErr file (λ error.
        (result ≡ Err (unstarted_by (error_kind error) reasons.File))
        × (input.new ≡ input.old) × (ports.new ≡ ports.old) × (output.new ≡ output.old)) }
{
    let text = match file {
        Ok(text) => text,
        Err(error) => return Err(Unstarted::of_kind(error.kind(), Unstarted::File)),
    };
    Ok(play::<W, R, P, I, O>(rt, alloc, program, text, input, output, ports))
}

// Runs the program on the text of its file.
fn play<W, R, P, I, O>(
    rt: &R,
    alloc: Global,
    program: Program<'_>,
    text: Vec<u8>,
    input: &mut Source<I>,
    output: &mut Sink<O>,
    ports: &mut LoggedPorts<P>,
) -> ExitStatus
where
    W: TouchesCells + Drop + Send + Sync,
    W::Delta: Drop + Send,
    W::Snapshot: Drop + Sync,
    R: Threads + Sync,
    P: Ports,
    I: Read,
    O: Write,
    requires program { IsInRange program }
    requires input { input.old.failed ≡ false }
    requires output { output.old.failed ≡ false }
    ensures { Plays program.entry text.items input.old input.new ports.old ports.new output.old output.new result }
{
    match program {
        Program::Run { .. } => run_bytes::<W, R, I, O>(rt, alloc, text, input, output),
        Program::Check { .. } => check_bytes::<W, O>(alloc, text.as_slice(), output),
        Program::Upgrade { .. } => upgrade_bytes::<W, O>(alloc, text.as_slice(), output),
        Program::Changes { .. } => changes_bytes::<W, O>(alloc, text.as_slice(), output),
        Program::Suspects { .. } => suspects_bytes::<W, O>(alloc, text.as_slice(), output),
        Program::Serve { sharing, .. } => {
            serve_bytes::<W, R, P, O>(rt, alloc, text, sharing, ports, output)
        }
    }
}
