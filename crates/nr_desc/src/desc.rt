//! A descriptor, with methods that read it and methods that change its fields.

ghost use Rattle.std.specs.Prelude.{◌≡◌, ◌==◌, ◌<◌, ◌^◌, pos};
ghost use Rattle.nr_rev.specs.Descriptor as spec;
ghost use Rattle.nr_rev.specs.Sides as sides;
ghost use Rattle.nr_desc.specs.Auxiliary.Code.{code_of};
ghost use Rattle.nr_desc.specs.Desc.{DescFits};
ghost use Rattle.nr_desc.specs.Auxiliary.Desc.{marks_number_of};

use crate::code::WordCode;
use crate::marks::Marks;
use nr_rev::{Descriptor, Side, Sides, WaitWord};
use std::marker::Model;

/// A poll descriptor. Contracts describe it as a record of its fields.
#[derive(Clone, Copy, Debug, PartialEq, Eq)]
pub struct Desc {
    pub(crate) words: Sides<WordCode>,
    pub(crate) socket: u32,
    pub(crate) marks: Marks,
    pub(crate) deadlines: Sides<i64>,
    pub(crate) sequences: Sides<u64>,
    pub(crate) fdseq: u64,
}

impl Model for Desc {
    ghost use Rattle.nr_rev.specs.declared.descriptor.Descriptor.{Descriptor};

    ghost Value = { Descriptor };

    ghost view = { λ d. record {
      words = d.words;
      closing = d.marks.closing;
      event_error = d.marks.event_error;
      deadlines = d.deadlines;
      running = d.marks.running;
      sequences = d.sequences;
      fdseq = d.fdseq;
      socket = d.socket;
    } };

    ghost inverse = { λ d. record {
      words = d.words;
      socket = d.socket;
      marks = record { closing = d.closing; event_error = d.event_error; running = d.running };
      deadlines = d.deadlines;
      sequences = d.sequences;
      fdseq = d.fdseq;
    } };
}

impl Desc {
    /// Returns a descriptor that was never opened, with 0 for all numbers.
    #[inline(always)]
    pub fn never_opened() -> Desc
        ensures descriptor { result ≡ spec.never_opened }
        ensures well_formed { DescFits result }
    {
        Desc {
            words: Sides {
                read: WordCode::nil(),
                write: WordCode::nil(),
            },
            socket: 0,
            marks: Marks::none(),
            deadlines: Sides { read: 0, write: 0 },
            sequences: Sides { read: 0, write: 0 },
            fdseq: 0,
        }
    }

    /// Returns the record of the fields.
    #[inline(always)]
    pub fn descriptor(&self) -> Descriptor
        ensures { result ≡ self.now }
    {
        Descriptor {
            words: Sides {
                read: self.words.read.word(),
                write: self.words.write.word(),
            },
            closing: self.marks.closing(),
            event_error: self.marks.event_error(),
            deadlines: self.deadlines,
            running: Sides {
                read: self.marks.is_running(Side::Read),
                write: self.marks.is_running(Side::Write),
            },
            sequences: self.sequences,
            fdseq: self.fdseq,
            socket: self.socket,
        }
    }

    /// Returns a side's word.
    #[inline(always)]
    pub fn word(&self, side: Side) -> WaitWord
        ensures { result ≡ sides.of_side side self.now.words }
    {
        self.words.of(side).word()
    }

    /// Returns the code of a side's word: 0 nil, 1 ready, 2 wait, and for a goroutine its number plus 3.
    #[inline(always)]
    pub fn code(&self, side: Side) -> u32
        ensures { result ≡ code_of (sides.of_side side self.now.words) }
    {
        self.words.of(side).number()
    }

    /// Returns the byte of the marks: the sum of 1 for closing, 2 for an event error, and 4 and 8 for running read and
    /// write timers.
    #[inline(always)]
    pub fn marks(&self) -> u8
        ensures { result ≡ marks_number_of self.now }
    {
        self.marks.number()
    }

    /// Returns whether the descriptor is closing.
    #[inline(always)]
    pub fn closing(&self) -> bool
        ensures { result ≡ self.now.closing }
    {
        self.marks.closing()
    }

    /// Returns whether the last event had an error.
    #[inline(always)]
    pub fn event_error(&self) -> bool
        ensures { result ≡ self.now.event_error }
    {
        self.marks.event_error()
    }

    /// Returns a side's deadline.
    #[inline(always)]
    pub fn deadline(&self, side: Side) -> i64
        ensures { result ≡ sides.of_side side self.now.deadlines }
    {
        self.deadlines.of(side)
    }

    /// Returns whether a side's timer was armed and not stopped.
    #[inline(always)]
    pub fn is_running(&self, side: Side) -> bool
        ensures { result ≡ sides.of_side side self.now.running }
    {
        self.marks.is_running(side)
    }

    /// Returns a side's sequence.
    #[inline(always)]
    pub fn sequence(&self, side: Side) -> u64
        ensures { result ≡ sides.of_side side self.now.sequences }
    {
        self.sequences.of(side)
    }

    /// Returns the tag, by which stale events are recognized.
    #[inline(always)]
    pub fn fdseq(&self) -> u64
        ensures { result ≡ self.now.fdseq }
    {
        self.fdseq
    }

    /// Returns the number of the socket for which the descriptor was opened.
    #[inline(always)]
    pub fn socket(&self) -> u32
        ensures { result ≡ self.now.socket }
    {
        self.socket
    }

    /// Returns the summary: the sum of 1 for closing, 2 for an event error, 4 if the read deadline has passed, and 8 if
    /// the write deadline has passed.
    #[inline(always)]
    pub fn summary(&self) -> u64
        ensures { result ≡ spec.summary self.now }
    {
        u64::from(self.marks.closing())
            + 2 * u64::from(self.marks.event_error())
            + 4 * u64::from(self.is_expired(Side::Read))
            + 8 * u64::from(self.is_expired(Side::Write))
    }

    /// Returns why a side can't wait: 1 if the descriptor is closing, 2 if the deadline has passed, 3 for an event
    /// error when reading, and otherwise 0.
    #[inline(always)]
    pub fn check(&self, side: Side) -> u32
        ensures { result ≡ spec.check side self.now }
    {
        if self.marks.closing() {
            1
        } else if self.is_expired(side) {
            2
        } else if side == Side::Read && self.marks.event_error() {
            3
        } else {
            0
        }
    }

    /// Returns whether a side's deadline has passed.
    #[inline(always)]
    pub(crate) fn is_expired(&self, side: Side) -> bool
        ensures { result ≡ spec.is_expired side self.now }
    {
        self.deadlines.of(side) < 0
    }

    /// Returns whether both sides have the same deadline, and it is in the future.
    #[inline(always)]
    pub(crate) fn is_combo(&self) -> bool
        ensures { result ≡ spec.is_combo self.now }
    {
        self.deadlines.read > 0 && self.deadlines.read == self.deadlines.write
    }

    /// Returns the descriptor with a new word on a side.
    #[inline(always)]
    pub(crate) fn with_wait_word(self, side: Side, word: WordCode) -> Desc
        ensures { result ≡ spec.with_wait_word side word self }
    {
        Desc {
            words: self.words.with(side, word),
            ..self
        }
    }

    /// Returns the descriptor with a side's timer marked as running or not.
    #[inline(always)]
    pub(crate) fn with_running(self, side: Side, running: bool) -> Desc
        ensures { result ≡ record self { running = sides.with_side side running self.running } }
    {
        Desc {
            marks: self.marks.with_running(side, running),
            ..self
        }
    }
}
