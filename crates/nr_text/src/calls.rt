//! The calls of a reader or a writer so far, and when the reads were made. Only proofs read this
//! log: it doesn't exist at run time.

ghost use Rattle.std.specs.Prelude.{◌≡◌, ℕ, List, [], ◌∷◌, ◌++◌};
ghost use Rattle.std.specs.Borrow.{ftrue};
ghost use Rattle.std.specs.declared.io.ErrorKind.{ErrorKind as CallErrorKind};
ghost use Rattle.nr_text.specs.Calls.{bytes_of, calls_code, finds_end, outcome_of_kind};
ghost use Rattle.nr_text.specs.Moments.{Moment};
ghost use Rattle.nr_text.specs.Auxiliary.Moments.{moments_code};
ghost use Rattle.nr_text.specs.declared.calls.CallOutcome.{CallOutcome as Outcome};

use std::io::ErrorKind;
use std::marker::Model;

/// The outcome of a call of a reader or a writer.
#[derive(Clone, Copy, Debug, PartialEq, Eq)]
pub enum CallOutcome {
    /// The call read or wrote this many bytes, from the start of its buffer.
    Moved(usize),
    /// The call was interrupted, and read or wrote no bytes.
    Interrupted,
    /// The call failed, and read or wrote no bytes.
    Failed,
}

impl CallOutcome {
    // Returns the outcome of a call that returned an error of this kind.
    pub(crate) fn of_kind(kind: ErrorKind) -> CallOutcome
        ensures { result ≡ outcome_of_kind kind }
    {
        match kind {
            ErrorKind::Interrupted => CallOutcome::Interrupted,
            _ => CallOutcome::Failed,
        }
    }
}

/// A call: its buffer after the call, and its outcome.
#[derive(Clone, Copy)]
pub(crate) struct Call<'a> {
    pub(crate) buffer: &'a [u8],
    pub(crate) outcome: CallOutcome,
}

/// The calls so far, in order.
#[derive(Drop)]
pub(crate) struct Calls {
    ghost made: { List (List ℕ × Outcome) } by { calls_code },
}

impl Model for Calls {
    ghost also_owns = { λ _. ftrue };
}

impl Calls {
    // Makes an empty log.
    pub(crate) fn new() -> Calls
        ensures { result.made ≡ [] }
    {
        Calls {}
    }

    // Returns this log with one more call.
    #[inline(always)]
    pub(crate) fn and(&self, _call: &Call<'_>) -> Calls
        ensures { result.made ≡ self.now.made ++ (_call.now.buffer.now, _call.now.outcome) ∷ [] }
    {
        Calls {}
    }
}

/// A log of when the reads were made, with one moment for each read, in order. Each moment has all
/// bytes received and all bytes sent before its read, and whether the previous read found the end.
#[derive(Drop)]
pub(crate) struct Moments {
    ghost passed: { List Moment } by { moments_code },
}

impl Model for Moments {
    ghost also_owns = { λ _. ftrue };
}

impl Moments {
    // Makes an empty log.
    pub(crate) fn new() -> Moments
        ensures { result.passed ≡ [] }
    {
        Moments {}
    }

    // Returns this log with the moment of one more read. These reads and writes came before that
    // read.
    #[inline(always)]
    pub(crate) fn and(&self, _reads: &Calls, _writes: &Calls) -> Moments
        ensures { result.passed ≡ self.now.passed
            ++ record {
              received = bytes_of _reads.now.made;
              sent = bytes_of _writes.now.made;
              ended = finds_end _reads.now.made;
            } ∷ [] }
    {
        Moments {}
    }
}
