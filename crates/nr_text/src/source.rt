//! A reader that remembers what it returned and whether a read failed.

ghost use Rattle.std.specs.Prelude.{◌≡◌, ◌-◌, ◌^◌, ◌≤◌, [], length};
ghost use Rattle.nr_text.specs.Streams.{Passes};
ghost use Rattle.nr_text.specs.Auxiliary.Streams.{Reads, ReadsNow, ReadsSome, unread};

use crate::calls::CallOutcome;
use crate::logged::LoggedReader;
use crate::sink::Sink;
use std::io::{Read, Write};
use std::marker::Model;

/// A reader that remembers what its reads returned and whether one failed. In contracts, its state
/// has the reader's remaining bytes, if they are known, and the bytes that reads returned. It also
/// records whether the last read found the end, whether a read failed, and what had been received
/// and sent at the time of each read. The log of reads and their outcomes exists in proofs only.
#[derive(Drop)]
pub struct Source<R: Read> {
    reader: LoggedReader<R>,
    failed: bool,
}

impl<R: Read> Model for Source<R> {
    ghost use Rattle.std.specs.Prelude.{◌≡◌};
    ghost use Rattle.nr_text.specs.Streams.{Incoming};

    ghost Value = { Incoming };

    ghost view = { λ s. s.reader };

    ghost invariant = { λ s. s.failed ≡ s.reader.failed };
}

/// A read failed.
#[derive(Clone, Copy, Debug, PartialEq, Eq)]
pub struct ReadFailed;

impl<R: Read> Source<R> {
    /// Wraps a reader, with an empty log of reads.
    pub fn new(reader: R) -> Source<R>
        ensures { result ≡ unread (R.remaining reader) }
    {
        Source {
            reader: LoggedReader::new(reader),
            failed: false,
        }
    }

    /// Returns the inner reader.
    pub fn into_inner(self) -> R
        ensures { R.remaining result ≡ self.remaining }
    {
        let Source { reader, failed: _ } = self;
        reader.into_inner()
    }

    /// Returns whether a read failed.
    pub fn has_failed(&self) -> bool
        ensures { result ≡ self.now.failed }
    {
        self.failed
    }

    /// Reads some bytes, or none at the end of the input. The contract relates each read to what
    /// `replies` had written by then. Makes at least one read, and retries an interrupted read, up
    /// to 2^64 - 1 reads in all; then the read counts as failed.
    pub fn read<W: Write>(&mut self, replies: &Sink<W>, buf: &mut [u8]) -> Result<usize, ReadFailed>
        ensures reads { ReadsSome self.old self.new buf.new result }
        ensures moments { ReadsNow self.old self.new replies.now }
    {
        for _ in 0..u64::MAX {
            match self.reader.read(replies.calls(), buf) {
                CallOutcome::Moved(count) => return Ok(count),
                CallOutcome::Interrupted => {}
                CallOutcome::Failed => {
                    self.failed = true;
                    return Err(ReadFailed);
                }
            }
        }
        self.give_up();
        Err(ReadFailed)
    }

    /// Gives up after 2^64 - 1 reads: the last one counts as failed.
    pub fn give_up(&mut self)
        requires { 2 ^ 64 - 1 ≤ length self.old.moments }
        ensures failed { Reads self.old self.new [] CallOutcome.Failed }
        ensures moments { Passes self.old self.new [] }
    {
        self.reader.give_up();
        self.failed = true;
    }
}
