//! Reads a recording, line by line.

ghost use Rattle.std.specs.Prelude.{◌≡◌, ◌<◌, ◌≤◌, [], ◌∷◌, ◌++◌, length, true, IfOk, OnErr, OnOk, Some, option_map, option_to_list};
ghost use Rattle.serde_json.specs.Data.{array};
ghost use Rattle.serde_json.specs.View.{view};
ghost use Rattle.nr_rev.specs.Refusing.{refused_memory};
ghost use Rattle.nr_recording.specs.Part.{rest_of};
ghost use Rattle.nr_recording.specs.Recording.{Recorded};
ghost use Rattle.nr_recording.specs.Auxiliary.Recording.{is_writable};
ghost use Rattle.nr_recording.specs.declared.recording.TheConstants.{MOST_STEPS};
ghost use Rattle.nr_recording.specs.Auxiliary.Faults.{ReadsBy};
ghost use Rattle.nr_recording.specs.Reading.{value_of, is_space, is_blank, lines, nothing, with_value, with_line, recording_at_end, reading};
ghost use Rattle.nr_recording.specs.Auxiliary.Reading.{lines_behind, value_takes_memory, line_takes_memory, IsUnlessMemory, text_takes_memory};
ghost use Rattle.nr_recording.specs.Text.{IsTextOf};

use crate::fault::{Fault, LineError, ReadFault};
use crate::header::{header, version};
use crate::part::{PartList, Parts, elements};
use crate::plain::gather_plain;
use crate::recording::{MOST_STEPS, RecordedStep, Recording};
use crate::steps::step;
use crate::version::Version;
use arrayvec::ArrayVec;
use memchr::memchr;
use nr_rev::{Answer, Limits, Memory, Step};
use serde_json::Value;
use std::alloc::Global;
use std::marker::Model;

#[tactic(auto, using(crate::proofs::LineValueLemmas::value_of_valid, crate::proofs::LineValueLemmas::json_reported))]
fn json_value(alloc: Global, line: &[u8]) -> Result<Value, LineError>
    ensures { ReadsBy view result (value_of line.now) }
{
    Ok(Value::from_slice(alloc, line)?)
}

const MOST_LINE_BYTES: usize = 200_000;

fn is_space(byte: u8) -> bool
    ensures { result ≡ is_space byte }
{
    matches!(byte, b' ' | b'\t' | b'\r')
}

fn is_blank(line: &[u8]) -> bool
    ensures { result ≡ is_blank line.now }
{
    line.iter().all(|byte| is_space(*byte))
}

/// The version and the limits in the header line.
#[derive(Clone, Copy)]
struct Header {
    version: Version,
    limits: Limits,
}

/// The header and the steps of the lines read so far.
#[derive(Drop)]
struct RecordingReader {
    header: Option<Header>,
    steps: Vec<Step>,
    // the answers of the steps; empty if the version has none
    answers: Vec<Answer>,
}

impl Model for RecordingReader {
    ghost use Rattle.std.specs.Prelude.{◌≤◌, length};
    ghost use Rattle.nr_recording.specs.Reading.{Seen};
    ghost use Rattle.nr_recording.specs.Auxiliary.Reading.{IsSeen};
    ghost use Rattle.nr_recording.specs.Recording.{recorded};

    ghost Value = { Seen };

    ghost view = { λ r. record { header = r.header; steps = recorded r.steps.items r.answers.items } };

    ghost invariant = { λ r. IsSeen (record {
      header = r.header;
      steps = recorded r.steps.items r.answers.items;
    }) × (length r.answers.items ≤ length r.steps.items) };
}

/// Appends a step and its answer to the two lists.
#[inline(always)]
fn put(steps: &mut Vec<Step>, answers: &mut Vec<Answer>, last: RecordedStep) -> Result<(), Memory>
    ensures ok { OnOk result (steps.new.items ≡ steps.old.items ++ last.step ∷ []) }
    ensures answer { OnOk result
        (answers.new.items ≡ answers.old.items ++ option_to_list last.answer) }
    ensures steps_stay { OnErr result (steps.new.items ≡ steps.old.items) }
    ensures answers_stay { OnErr result (answers.new.items ≡ answers.old.items) }
{
    steps.try_reserve(1)?;
    if let Some(answer) = last.answer {
        answers.push(answer)?;
    }
    steps.push_reserved(last.step);
    Ok(())
}

impl RecordingReader {
    fn new(alloc: Global) -> RecordingReader
        ensures { result ≡ nothing }
    {
        RecordingReader {
            header: None,
            steps: Vec::new(alloc),
            answers: Vec::new(alloc),
        }
    }

    // Returns the number of steps so far.
    #[tactic(auto, using(crate::proofs::RecordedLemmas::count_is))]
    #[inline(always)]
    fn len(&self) -> usize
        ensures value { result ≡ length self.now.steps }
        ensures few { result ≤ MOST_STEPS }
    {
        self.steps.len()
    }

    // Stores the next step, which is of the header's version.
    #[inline(always)]
    fn keep(&mut self, begun: Header, last: RecordedStep) -> Result<(), Memory>
        requires begun { self.old.header ≡ Some begun }
        requires room { length self.old.steps < MOST_STEPS }
        requires writable { is_writable begun.version last ≡ true }
        ensures { OnOk result
            (self.new ≡ record self.old { steps = self.old.steps ++ last ∷ [] }) }
    {
        put(&mut self.steps, &mut self.answers, last)?;
        Ok(())
    }

    // Reads the next step from the parts of its line.
    fn step(&mut self, begun: Header, alloc: Global, parts: Parts<'_>) -> Result<(), LineError>
        requires { self.old.header ≡ Some begun }
        ensures seen { ReadsBy (λ _. self.new) result
            (with_value self.old self.old.header (array (rest_of parts.entry))) }
        ensures memory { result ≡ Err (LineError.Memory refused_memory)
            → value_takes_memory self.old self.old.header (array (rest_of parts.entry)) ≡ true }
    {
        if self.len() == MOST_STEPS {
            return Err(LineError::Fault(Fault::TooManySteps));
        }
        let step = step(begun.version, alloc, parts)?;
        self.keep(begun, step)?;
        Ok(())
    }

    fn take_value(&mut self, alloc: Global, value: &Value) -> Result<(), LineError>
        ensures seen { ReadsBy (λ _. self.new) result
            (with_value self.old self.old.header (view value.now)) }
        ensures memory { result ≡ Err (LineError.Memory refused_memory)
            → value_takes_memory self.old self.old.header (view value.now) ≡ true }
    {
        let Some(begun) = self.header else {
            let version = version(value)?;
            let limits = header(version, value)?;
            self.header = Some(Header { version, limits });
            return Ok(());
        };
        self.step(begun, alloc, Parts::Values(elements(value).iter()))
    }

    // Reads the next line. `parts` is working space for the call.
    #[tactic(auto, unfolding(crate::specs::Reading::with_line))]
    fn line<'a>(
        &mut self,
        alloc: Global,
        line: &'a [u8],
        parts: &mut PartList<'a>,
    ) -> Result<(), LineError>
        ensures seen { ReadsBy (λ _. self.new) result (with_line self.old line.now) }
        ensures memory { result ≡ Err (LineError.Memory refused_memory) → line_takes_memory line.now ≡ true }
    {
        if line.len() > MOST_LINE_BYTES {
            return Err(LineError::Fault(Fault::Limit));
        }
        if is_blank(line) {
            return Ok(());
        }
        if let Some(begun) = self.header {
            parts.clear();
            if gather_plain(line, parts).is_some() {
                return self.step(begun, alloc, Parts::Plain(parts.as_slice().iter()));
            }
        }
        let value = json_value(alloc, line)?;
        self.take_value(alloc, &value)
    }

    fn finish(self, last: usize) -> Result<Recording, ReadFault>
        ensures { result ≡ recording_at_end last self }
    {
        match self.header {
            None => Err(ReadFault::Line {
                line: last,
                fault: Fault::Header,
            }),
            Some(header) => Ok(Recording::checked(
                header.version,
                header.limits,
                self.steps,
                self.answers,
            )),
        }
    }
}

/// Returns the first line of a text, and the text after its line feed.
#[inline(always)]
fn first_line(text: &[u8]) -> (&[u8], Option<&[u8]>)
    ensures { lines text.now ≡ result.0.now ∷ lines_behind (option_map (λ behind. behind.now) result.1) }
{
    let Some(end) = memchr(b'\n', text) else {
        return (text, None);
    };
    let (line, behind) = text.split_at(end);
    let [_, behind @ ..] = behind else {
        return (line, None);
    };
    (line, Some(behind))
}

fn read_lines(alloc: Global, bytes: &[u8]) -> Result<Recording, ReadFault>
    ensures exact { IsUnlessMemory result (reading bytes.now) }
    ensures memory { result ≡ Err (ReadFault.Memory refused_memory) → text_takes_memory bytes.now ≡ true }
{
    let mut reader = RecordingReader::new(alloc);
    let mut parts = ArrayVec::new();
    let mut number = 0;
    let mut left = Some(bytes);
    while let Some(text) = left {
        let (line, behind) = first_line(text);
        number += 1;
        if let Err(e) = reader.line(alloc, line, &mut parts) {
            return Err(e.at(number));
        }
        left = behind;
    }
    reader.finish(number)
}

/// Parses a recording of either version from its text: a line of JSON for the header and one for
/// each step, possibly with blank lines between them. Fails with the first faulty line and the
/// first fault in it, or with `Memory` if memory runs out. If the header has a key twice, the last
/// value counts.
pub fn read(alloc: Global, bytes: &[u8]) -> Result<Recording, ReadFault>
    // The result is the recording that the text denotes.
    ensures found { IfOk result (λ r. IsTextOf bytes.now r) }

    // Reading a text of a recording returns that recording, unless memory runs out.
    ensures only { (r : Recorded) → IsTextOf bytes.now r → IsUnlessMemory result (Ok r) }

    // The result is the one that `reading` defines, unless memory runs out.
    ensures exact { IsUnlessMemory result (reading bytes.now) }

    // Memory runs out only if the text has a line that is neither blank nor too long.
    ensures memory { result ≡ Err (ReadFault.Memory refused_memory) → text_takes_memory bytes.now ≡ true }
{
    read_lines(alloc, bytes)
}
