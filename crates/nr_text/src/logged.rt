//! A reader and a writer that remember their calls, in proofs only.

ghost use Rattle.std.specs.Prelude.{◌≡◌, ◌+◌, ◌-◌, ◌^◌, ◌≤◌, [], ◌∷◌, length, false, true};
ghost use Rattle.nr_text.specs.Calls.{bytes_of};
ghost use Rattle.nr_text.specs.Streams.{Passes};
ghost use Rattle.nr_text.specs.Auxiliary.Streams.{Reads, Takes, unread, unwritten};

use crate::calls::{Call, CallOutcome, Calls, Moments};
use std::io::{Read, Write};
use std::marker::Model;

/// A reader that remembers its reads. In contracts, its state has the reader's remaining bytes, if they are known, and
/// the bytes that reads returned. It also records whether the last read found the end, whether a read failed, and what
/// had been received and sent at the time of each read.
#[derive(Drop)]
pub(crate) struct LoggedReader<R: Read> {
    reader: R,
    calls: Calls,
    moments: Moments,
}

impl<R: Read> Model for LoggedReader<R> {
    ghost use Rattle.nr_text.specs.Calls.{a_read_failed, bytes_of, finds_end};
    ghost use Rattle.nr_text.specs.Streams.{Incoming};

    ghost Value = { Incoming };

    ghost view = { λ l. record {
      remaining = R.remaining l.reader;
      received = bytes_of l.calls.made;
      ended = finds_end l.calls.made;
      failed = a_read_failed l.calls.made;
      moments = l.moments.passed;
    } };
}

impl<R: Read> LoggedReader<R> {
    // Wraps a reader that hasn't been read yet.
    pub(crate) fn new(reader: R) -> LoggedReader<R>
        ensures { result ≡ unread (R.remaining reader) }
    {
        LoggedReader {
            reader,
            calls: Calls::new(),
            moments: Moments::new(),
        }
    }

    // Returns the inner reader.
    pub(crate) fn into_inner(self) -> R
        ensures { R.remaining result ≡ self.remaining }
    {
        let LoggedReader {
            reader,
            calls: _,
            moments: _,
        } = self;
        reader
    }

    // Reads once. `writes` are the writes up to now.
    #[inline(always)]
    pub(crate) fn read(&mut self, writes: &Calls, buffer: &mut [u8]) -> CallOutcome
        ensures reads { Reads self.old self.new buffer.new result }
        ensures moment { Passes self.old self.new
            (record { received = self.old.received; sent = bytes_of writes.now.made; ended = self.old.ended } ∷ []) }
    {
        self.moments = self.moments.and(&self.calls, writes);
        let outcome = match self.reader.read(buffer) {
            Ok(count) => CallOutcome::Moved(count),
            Err(error) => CallOutcome::of_kind(error.kind()),
        };
        let buffer: &[u8] = buffer;
        self.calls = self.calls.and(&Call { buffer, outcome });
        outcome
    }

    // Gives up after 2^64 - 1 reads: the last one counts as failed.
    pub(crate) fn give_up(&mut self)
        requires { 2 ^ 64 - 1 ≤ length self.old.moments }
        ensures reads { Reads self.old self.new [] CallOutcome.Failed }
        ensures moments { Passes self.old self.new [] }
    {
        let call = Call {
            buffer: &[],
            outcome: CallOutcome::Failed,
        };
        self.calls = self.calls.and(&call);
    }
}

/// A writer that remembers its writes. In contracts, its state has the writer's contents, if they are known, and the
/// bytes that were written. It also records whether a write failed or wrote none of its bytes, and the number of
/// writes.
#[derive(Drop)]
pub(crate) struct LoggedWriter<W: Write> {
    writer: W,
    calls: Calls,
}

impl<W: Write> Model for LoggedWriter<W> {
    ghost use Rattle.std.specs.Prelude.{length};
    ghost use Rattle.nr_text.specs.Calls.{a_write_failed, bytes_of};
    ghost use Rattle.nr_text.specs.Auxiliary.Streams.{WriterLog};

    ghost Value = { WriterLog };

    ghost view = { λ l. record {
      taken = record {
        contents = W.contents l.writer;
        sent = bytes_of l.calls.made;
        failed = a_write_failed l.calls.made;
      };
      writes = length l.calls.made;
    } };
}

impl<W: Write> LoggedWriter<W> {
    // Wraps a writer, with an empty log.
    pub(crate) fn new(writer: W) -> LoggedWriter<W>
        ensures { result ≡ record { taken = unwritten (W.contents writer); writes = 0 } }
    {
        LoggedWriter {
            writer,
            calls: Calls::new(),
        }
    }

    // Returns the inner writer.
    pub(crate) fn into_inner(self) -> W
        ensures { W.contents result ≡ self.taken.contents }
    {
        let LoggedWriter { writer, calls: _ } = self;
        writer
    }

    // Returns the writes so far.
    pub(crate) fn calls(&self) -> &Calls
        ensures { bytes_of result.now.made ≡ self.now.taken.sent }
    {
        &self.calls
    }

    // Writes once.
    #[inline(always)]
    pub(crate) fn write(&mut self, buffer: &[u8]) -> CallOutcome
        ensures takes { Takes self.old.taken self.new.taken buffer.now result }
        ensures counted { self.new.writes ≡ self.old.writes + 1 }
    {
        let outcome = match self.writer.write(buffer) {
            Ok(count) => CallOutcome::Moved(count),
            Err(error) => CallOutcome::of_kind(error.kind()),
        };
        self.calls = self.calls.and(&Call { buffer, outcome });
        outcome
    }

    // Gives up after 2^64 - 1 writes: the last one counts as failed.
    pub(crate) fn give_up(&mut self)
        requires { 2 ^ 64 - 1 ≤ self.old.writes }
        ensures { Takes self.old.taken self.new.taken [] CallOutcome.Failed }
    {
        let call = Call {
            buffer: &[],
            outcome: CallOutcome::Failed,
        };
        self.calls = self.calls.and(&call);
    }
}
