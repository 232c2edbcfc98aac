//! Runs of the programs on recordings. The result is a plain value, which tests compare.
use crate::texts::SCRIPT;
use nr_machine::World;
use nr_programs::{
    ExitStatus, changes_bytes, check_bytes, run_bytes, suspects_bytes, upgrade_bytes,
};
use nr_replay_tests::{AtBrim, Cup};
use nr_text::{Sink, Source};
use std::alloc::{AllocError, Global};
use std::io::{Read, Write};
use std::thread::Threads;

/// How a program ended, and what it wrote.
#[derive(Drop)]
pub(crate) struct Played {
    pub(crate) status: ExitStatus,
    pub(crate) text: Vec<u8>,
}

impl Played {
    /// Returns whether the program ended with this status and wrote this text.
    pub(crate) fn is(&self, status: ExitStatus, text: &str) -> bool {
        self.status == status && self.text.as_slice() == text.as_bytes()
    }
}

/// How a script on streams ended, and what is left of the streams.
#[derive(Drop)]
pub(crate) struct Ended<I, O> {
    pub(crate) status: ExitStatus,
    pub(crate) reader: I,
    pub(crate) read_failed: bool,
    pub(crate) writer: O,
    pub(crate) write_failed: bool,
}

/// Runs `run` on a recording and these streams.
pub(crate) fn run_on<R: Threads + Sync, I: Read, O: Write>(
    rt: &R,
    alloc: Global,
    text: Vec<u8>,
    reader: I,
    writer: O,
) -> Ended<I, O> {
    let mut input = Source::new(reader);
    let mut output = Sink::new(writer);
    let status = run_bytes::<World, _, _, _>(rt, alloc, text, &mut input, &mut output);
    Ended {
        status,
        read_failed: input.has_failed(),
        reader: input.into_inner(),
        write_failed: output.has_failed(),
        writer: output.into_inner(),
    }
}

/// Runs a script on the recording of a header and steps.
pub(crate) fn run<R: Threads + Sync>(
    rt: &R,
    alloc: Global,
    header: &str,
    steps: &str,
    script: &str,
) -> Result<Played, AllocError> {
    let recording = record(alloc, header, steps)?;
    let reader = script.as_bytes();
    let ended = run_on(rt, alloc, recording.into_bytes(), reader, Vec::new(alloc));
    Ok(Played {
        status: ended.status,
        text: ended.writer,
    })
}

/// Runs the script that prints locks, and returns how it ended and what is left of the streams.
pub(crate) fn run_over<R: Threads + Sync>(
    rt: &R,
    alloc: Global,
    header: &str,
    steps: &str,
) -> Result<Ended<&'static [u8], Vec<u8>>, AllocError> {
    let recording = record(alloc, header, steps)?;
    let reader = SCRIPT.as_bytes();
    Ok(run_on(rt, alloc, recording.into_bytes(), reader, Vec::new(alloc)))
}

/// A program that reads only its recording.
#[derive(Clone, Copy)]
pub(crate) enum Program {
    Check,
    Upgrade,
    Changes,
    Suspects,
}

impl Program {
    /// Runs the program on a recording.
    fn run<W: Write>(self, alloc: Global, recording: &str, output: &mut Sink<W>) -> ExitStatus {
        let bytes = recording.as_bytes();
        match self {
            Program::Check => check_bytes::<World, _>(alloc, bytes, output),
            Program::Upgrade => upgrade_bytes::<World, _>(alloc, bytes, output),
            Program::Changes => changes_bytes::<World, _>(alloc, bytes, output),
            Program::Suspects => suspects_bytes::<World, _>(alloc, bytes, output),
        }
    }

    /// Runs the program on the recording of a header and steps.
    fn play(self, alloc: Global, header: &str, steps: &str) -> Result<Played, AllocError> {
        let recording = record(alloc, header, steps)?;
        let mut output = Sink::new(Vec::new(alloc));
        let status = self.run(alloc, recording.as_str(), &mut output);
        Ok(Played {
            status,
            text: output.into_inner(),
        })
    }

    /// Runs the program with a writer that fails after `room` bytes. Returns whether the first
    /// `room` bytes of `text` were written, and the status and the output report the failure.
    pub(crate) fn is_cut(self, alloc: Global, recording: &str, room: usize, text: &str) -> bool {
        let mut output = Sink::new(Cup {
            held: Vec::new(alloc),
            room,
            then: AtBrim::Fails,
        });
        let status = self.run(alloc, recording, &mut output);
        let has_failed = output.has_failed();
        status == ExitStatus::StreamFailed
            && has_failed
            && Some(output.into_inner().held.as_slice()) == text.as_bytes().get(..room)
    }
}

/// Runs `check` on a header and steps.
pub(crate) fn check(alloc: Global, header: &str, steps: &str) -> Result<Played, AllocError> {
    Program::Check.play(alloc, header, steps)
}

/// Runs `upgrade` on a header and steps.
pub(crate) fn upgrade(alloc: Global, header: &str, steps: &str) -> Result<Played, AllocError> {
    Program::Upgrade.play(alloc, header, steps)
}

/// Runs `changes` on a header and steps.
pub(crate) fn changes(alloc: Global, header: &str, steps: &str) -> Result<Played, AllocError> {
    Program::Changes.play(alloc, header, steps)
}

/// Runs `suspects` on a header and steps.
pub(crate) fn suspects(alloc: Global, header: &str, steps: &str) -> Result<Played, AllocError> {
    Program::Suspects.play(alloc, header, steps)
}

/// Returns the recording of a header and steps.
pub(crate) fn record(alloc: Global, header: &str, steps: &str) -> Result<String, AllocError> {
    let mut recording = String::from_str(alloc, header)?;
    recording.push_str(steps)?;
    Ok(recording)
}
