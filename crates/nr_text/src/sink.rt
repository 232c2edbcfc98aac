//! A writer of whole texts that remembers what it wrote and whether a write failed.

ghost use Rattle.std.specs.Prelude.{◌≡◌, [], false};
ghost use Rattle.nr_text.specs.Calls.{bytes_of};
ghost use Rattle.nr_text.specs.Auxiliary.Streams.{Prints, unwritten};

use crate::buffered::{Buffered, WriteFailed};
use crate::calls::Calls;
use crate::text::Text;
use std::io::Write;
use std::marker::Model;

/// A writer of whole texts that remembers what it wrote and whether a write failed or wrote none of
/// its bytes. It joins the pieces of a text, so a text of up to 512 bytes goes out in one write. In
/// contracts, its state has the writer's contents, if they are known, the bytes that were written,
/// and whether a write failed or wrote none of its bytes. The log of writes and their outcomes
/// exists in proofs only.
#[derive(Drop)]
pub struct Sink<W: Write> {
    writer: Buffered<W>,
    failed: bool,
}

impl<W: Write> Model for Sink<W> {
    ghost use Rattle.std.specs.Prelude.{◌≡◌, []};
    ghost use Rattle.nr_text.specs.Streams.{Outgoing};

    ghost Value = { Outgoing };

    ghost view = { λ s. s.writer.taken };

    ghost invariant = { λ s. (s.writer.held ≡ []) × (s.failed ≡ s.writer.taken.failed) };
}

/// How many bytes of a text, from its start, were written before a write failed or wrote nothing;
/// at most `u64::MAX`.
#[derive(Clone, Copy, Debug, PartialEq, Eq)]
pub struct Part(pub u64);

impl<W: Write> Sink<W> {
    /// Wraps a writer, with an empty log of writes.
    pub fn new(writer: W) -> Sink<W>
        ensures { result ≡ unwritten (W.contents writer) }
    {
        Sink {
            writer: Buffered::new(writer),
            failed: false,
        }
    }

    /// Returns the inner writer. No bytes are still held: a printed text has been written in full.
    pub fn into_inner(self) -> W
        ensures { W.contents result ≡ self.contents }
    {
        let Sink { writer, failed: _ } = self;
        writer.into_inner()
    }

    // Returns the writes so far.
    pub(crate) fn calls(&self) -> &Calls
        ensures { bytes_of result.now.made ≡ self.now.sent }
    {
        self.writer.calls()
    }

    /// Returns whether a write failed, or wrote none of its bytes.
    pub fn has_failed(&self) -> bool
        ensures { result ≡ self.now.failed }
    {
        self.failed
    }

    /// Writes a whole text. If a write fails or writes nothing, `print` writes no more and fails
    /// with `Part`, which says how many bytes of the text were written. Retries an interrupted
    /// write. Takes no memory.
    pub fn print<T: Text>(&mut self, text: &T) -> Result<(), Part>
        ensures { Prints self.old self.new (T.text text.now) result }
    {
        match self.writer.print(text) {
            Ok(()) => Ok(()),
            Err(WriteFailed) => {
                self.failed = true;
                Err(Part(self.writer.out()))
            }
        }
    }
}
