//! The conversations between a front and its callers. Conversations exist only in proofs, and take
//! no memory at run time.

ghost use Rattle.std.specs.Prelude.{◌≡◌, ℕ, [], ◌∷◌, ◌++◌, List};
ghost use Rattle.std.specs.Borrow.{ftrue};
ghost use Rattle.nr_serving.specs.Conversations.{Conversation, Passed};
ghost use Rattle.nr_serving.specs.Auxiliary.Conversations.{arrivals_code, conversations_code, numbers_code, passed_code};
ghost use Rattle.nr_serving.specs.declared.conversations.Arrival.{Arrival as DeclaredArrival};

use nr_lines::{End, LineEnd};
use nr_text::{Sink, Source};
use std::io::{Read, Write};
use std::marker::Model;

/// The result of waiting for the next caller.
#[derive(Clone, Copy, Debug, PartialEq, Eq)]
pub enum Arrival {
    /// A caller came.
    Came,
    /// No further caller will come.
    Ended,
    /// Waiting for a caller failed.
    Failed,
}

/// The log of a front and its callers: the results of the waits, and the conversation with each caller, in order.
#[derive(Drop)]
pub struct Conversations {
    pub ghost arrivals: { List DeclaredArrival } by { arrivals_code },
    pub ghost callers: { List Conversation } by { conversations_code },
}

impl Model for Conversations {
    ghost also_owns = { λ _. ftrue };
}

// A log has no fields, so it may go to another thread.
unsafe impl Send for Conversations {}

impl Conversations {
    /// Makes an empty log.
    pub fn new() -> Conversations
        ensures { (result.arrivals ≡ []) × (result.callers ≡ []) }
    {
        Conversations {}
    }

    /// Returns the log with the result of another wait.
    #[inline(always)]
    pub fn arrived(&self, _arrival: &Arrival) -> Conversations
        ensures { (result.arrivals ≡ self.now.arrivals ++ _arrival.now ∷ [])
            × (result.callers ≡ self.now.callers) }
    {
        Conversations {}
    }

    // Returns the log with another conversation, as recorded by its streams.
    #[inline(always)]
    pub(crate) fn and<I: Read, O: Write>(
        &self,
        _source: &Source<I>,
        _sink: &Sink<O>,
        _ending: &Result<End, LineEnd>,
    ) -> Conversations
        ensures { (result.arrivals ≡ self.now.arrivals) × (result.callers ≡ self.now.callers
            ++ record { input = _source.now; output = _sink.now; ending = _ending.now } ∷ []) }
    {
        Conversations {}
    }
}

/// The log of the fronts of a session: the numbers of the fronts whose ports were opened, and the
/// log of each front that has ended.
#[derive(Drop)]
pub struct Fronts {
    pub ghost opened: { List ℕ } by { numbers_code },
    pub ghost ended: { List Passed } by { passed_code },
}

impl Model for Fronts {
    ghost also_owns = { λ _. ftrue };
}

// A log has no fields, so it may go to another thread.
unsafe impl Send for Fronts {}

impl Fronts {
    /// Makes an empty log.
    pub fn new() -> Fronts
        ensures { (result.opened ≡ []) × (result.ended ≡ []) }
    {
        Fronts {}
    }

    /// Returns the log after the port of another front was opened: the front's number is appended.
    #[inline(always)]
    pub fn opened(&self, _number: &usize) -> Fronts
        ensures { (result.opened ≡ self.now.opened ++ _number.now ∷ []) × (result.ended ≡ self.now.ended) }
    {
        Fronts {}
    }

    // Returns the log after another front has ended: the front's conversations are appended.
    #[inline(always)]
    pub(crate) fn ended(&self, _conversations: &Conversations) -> Fronts
        ensures { (result.opened ≡ self.now.opened) × (result.ended ≡ self.now.ended
            ++ record { arrivals = _conversations.now.arrivals; callers = _conversations.now.callers } ∷ []) }
    {
        Fronts {}
    }
}
