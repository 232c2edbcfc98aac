//! A recording: its version, limits and steps.

ghost use Rattle.std.specs.Prelude.{◌≡◌};
ghost use Rattle.nr_recording.specs.Auxiliary.Recording.{fits, has_line, have_lines, make_lines};

use crate::fault::MakeFault;
use crate::version::Version;
use nr_rev::{Answer, Limits, Step};
use std::marker::Model;

/// A step and its recorded answer.
#[derive(Drop)]
pub struct RecordedStep {
    pub step: Step,
    pub answer: Option<Answer>,
}

/// The version of the format, the limits of a run, and its steps. Each step has a recorded answer in version 2, and
/// none in version 1. Each recording can be written as text, and reading that text returns the same recording.
#[derive(Drop)]
pub struct Recording {
    version: Version,
    limits: Limits,
    steps: Vec<Step>,
    // one answer for each step; in version 1 the list is empty and allocates no memory
    answers: Vec<Answer>,
}

impl Model for Recording {
    ghost use Rattle.std.specs.Prelude.{◌≡◌, length};
    ghost use Rattle.nr_recording.specs.Recording.{Recorded, recorded};
    ghost use Rattle.nr_recording.specs.Auxiliary.Recording.{IsRecording};
    ghost use Rattle.nr_recording.specs.Auxiliary.Version.{answer_count};

    ghost Value = { Recorded };

    ghost view = { λ r. record {
      version = r.version;
      limits = r.limits;
      steps = recorded r.steps.items r.answers.items;
    } };

    ghost invariant = { λ r. IsRecording (record {
      version = r.version;
      limits = r.limits;
      steps = recorded r.steps.items r.answers.items;
    }) × (length r.answers.items ≡ answer_count r.version (length r.steps.items)) };
}

/// The maximum number of steps in a recording.
pub const MOST_STEPS: usize = 1_000_000;

/// The maximum number of bytes that a step may carry.
pub(crate) const MOST_BYTES: usize = 65_536;

fn fits(step: &Step) -> bool
    ensures { result ≡ fits step.now }
{
    match step {
        Step::Arrive { bytes, .. } | Step::SysWrite { bytes, .. } => bytes.len() <= MOST_BYTES,
        Step::Tick { time } => *time >= 0,
        _ => true,
    }
}

fn has_line(version: Version, step: &Step) -> bool
    ensures { result ≡ has_line version step.now }
{
    version.has(step.kind()) && fits(step)
}

fn have_lines(version: Version, steps: &[Step]) -> bool
    ensures { result ≡ have_lines version steps.now }
{
    steps.iter().all(|step| has_line(version, step))
}

fn make_lines(version: Version, steps: &[Step], answers: &[Answer]) -> bool
    ensures { result ≡ make_lines version steps.now answers.now }
{
    have_lines(version, steps) && answers.len() == version.answer_count(steps.len())
}

impl Recording {
    ghost use Rattle.std.specs.Prelude.{◌==◌, ◌≤◌, length, slice_get, true, IfSome};
    ghost use Rattle.std.specs.Option.{option_copied};
    ghost use Rattle.nr_rev.specs.Limits.{AreInRange};
    ghost use Rattle.nr_recording.specs.declared.recording.TheConstants.{MOST_STEPS};
    ghost use Rattle.nr_recording.specs.Recording.{recorded, run_of, recorded_at};
    ghost use Rattle.nr_recording.specs.Auxiliary.Recording.{IsRecording, are_writable, recording_of};
    ghost use Rattle.nr_recording.specs.Version.{most_buffer};

    /// Makes a recording from these limits, steps and answers: one answer for each step in version
    /// 2, none in version 1. Fails with `Limit` if a limit is out of its range, and otherwise with
    /// `TooManySteps` if there are more than 1,000,000 steps. Otherwise fails with `Step` if a step
    /// carries more than 65,536 bytes, sets the clock below 0, or shuts a write side in version 1,
    /// or if the number of answers is wrong. If the call fails, the steps are dropped. The ranges
    /// are 1 to 4,096 goroutines, 1 to 256 sockets and descriptors, and a buffer of 1 to 65,536
    /// bytes in version 1 and up to 1,048,576 in version 2.
    pub fn new(
        version: Version,
        limits: Limits,
        steps: Vec<Step>,
        answers: Vec<Answer>,
    ) -> Result<Self, MakeFault>
        ensures { result ≡ recording_of version limits steps.items answers.items }
    {
        if !limits.are_in_range() {
            return Err(MakeFault::Limit);
        }
        if limits.buffer > version.most_buffer() {
            return Err(MakeFault::Limit);
        }
        if steps.len() > MOST_STEPS {
            return Err(MakeFault::TooManySteps);
        }
        if !make_lines(version, &steps, &answers) {
            return Err(MakeFault::Step);
        }
        Ok(Recording {
            version,
            limits,
            steps,
            answers,
        })
    }

    /// Makes a recording from a version, limits, steps and answers that are known to be valid.
    pub(crate) fn checked(
        version: Version,
        limits: Limits,
        steps: Vec<Step>,
        answers: Vec<Answer>,
    ) -> Self
        requires is { IsRecording (record {
          version = version;
          limits = limits;
          steps = recorded steps.items answers.items;
        }) }
        requires answers { length answers.items ≤ length steps.items }
        ensures { result ≡ record {
          version = version;
          limits = limits;
          steps = recorded steps.items answers.items;
        } }
    {
        Recording {
            version,
            limits,
            steps,
            answers,
        }
    }

    /// Returns the version of the format, which applies to all steps.
    pub fn version(&self) -> Version
        ensures value { result ≡ self.now.version }
        ensures writable { are_writable result self.now.steps ≡ true }
    {
        self.version
    }

    /// Returns the limits of the run.
    pub fn limits(&self) -> Limits
        ensures value { result ≡ self.now.limits }
        ensures in_range { AreInRange result }
        ensures in_version { result.buffer ≤ most_buffer self.now.version }
    {
        self.limits
    }

    /// Returns the number of steps.
    #[tactic(auto, using(crate::proofs::RecordedLemmas::count_is))]
    pub fn len(&self) -> usize
        ensures value { result ≡ length self.now.steps }
        ensures few { result ≤ MOST_STEPS }
    {
        self.steps.len()
    }

    /// Returns whether there are no steps.
    pub fn is_empty(&self) -> bool
        ensures { result ≡ (length self.now.steps == 0) }
    {
        self.steps.is_empty()
    }

    /// Returns step n, counted from 0. The step carries at most 65,536 bytes, and does not set the
    /// clock below 0.
    pub fn step(&self, n: usize) -> Option<&Step>
        ensures value { option_copied result ≡ slice_get (run_of self.now).steps n }
        ensures fits { IfSome result (λ step. fits step.now ≡ true) }
    {
        self.steps.get(n)
    }

    /// Returns the recorded answer of step n, counted from 0. Steps of version 1 have none.
    pub fn answer(&self, n: usize) -> Option<Answer>
        ensures { result ≡ recorded_at self.now n }
    {
        self.answers.get(n).copied()
    }

    /// Returns the steps in their order.
    pub fn steps(&self) -> &[Step]
        ensures { result.now ≡ (run_of self.now).steps }
    {
        self.steps.as_slice()
    }
}
