//! A writer that joins the pieces of a text before it writes them.

ghost use Rattle.std.specs.Prelude.{◌≡◌, ◌+◌, ◌≤◌, ◌++◌, [], length, false, OnErr, OnOk};
ghost use Rattle.nr_text.specs.Buffered.{PutsOut, PutsOutSome, SentOrCut, Writes};
ghost use Rattle.nr_text.specs.Calls.{bytes_of};
ghost use Rattle.nr_text.specs.Auxiliary.Streams.{TakesSome, unwritten};
ghost use Rattle.nr_text.specs.declared.buffered.TheConstants.{ROOM};

use crate::calls::{CallOutcome, Calls};
use crate::logged::LoggedWriter;
use crate::text::Text;
use arrayvec::ArrayVec;
use std::io::Write;
use std::marker::Model;

/// The size of the buffer in bytes.
pub(crate) const ROOM: usize = 512;

/// A write failed, or wrote none of its bytes.
#[derive(Clone, Copy, Debug, PartialEq, Eq)]
pub struct WriteFailed;

/// A writer that joins the pieces of a text: it holds them until its buffer is full or the text ends, and allocates no
/// memory. If a write fails, the held bytes are dropped. In contracts, its state has three parts: what the inner writer
/// wrote, the held bytes, and the number of bytes of the text that are written.
#[derive(Drop)]
pub struct Buffered<W: Write> {
    writer: LoggedWriter<W>,
    held: ArrayVec<u8, ROOM>,
    // The number of bytes of the text that are written, at most `u64::MAX`.
    out: u64,
}

impl<W: Write> Model for Buffered<W> {
    ghost use Rattle.nr_text.specs.Buffered.{Buffering};

    ghost Value = { Buffering };

    ghost view = { λ b. record { taken = b.writer.taken; held = b.held.items; out = b.out } };
}

impl<W: Write> Buffered<W> {
    // Makes a writer that holds nothing, before any text.
    pub(crate) fn new(writer: W) -> Buffered<W>
        ensures { result ≡ record {
          taken = unwritten (W.contents writer);
          held = [];
          out = 0;
        } }
    {
        Buffered {
            writer: LoggedWriter::new(writer),
            held: ArrayVec::new(),
            out: 0,
        }
    }

    // Returns the inner writer. Held bytes are dropped.
    pub(crate) fn into_inner(self) -> W
        ensures { W.contents result ≡ self.taken.contents }
    {
        let Buffered {
            writer,
            held: _,
            out: _,
        } = self;
        writer.into_inner()
    }

    // Returns the writes so far.
    pub(crate) fn calls(&self) -> &Calls
        ensures { bytes_of result.now.made ≡ self.now.taken.sent }
    {
        self.writer.calls()
    }

    // Returns how many bytes of the text are written, at most `u64::MAX`.
    pub(crate) fn out(&self) -> u64
        ensures { result ≡ self.now.out }
    {
        self.out
    }

    // Writes a whole text: either all of it is written, or a write fails.
    pub(crate) fn print<T: Text>(&mut self, text: &T) -> Result<(), WriteFailed>
        requires { self.old.held ≡ [] }
        ensures out { SentOrCut self.old.taken (T.text text.now) self.new result }
        ensures empty { self.new.held ≡ [] }
    {
        self.begin();
        text.send(self)?;
        self.put_out_held()
    }

    // Begins the next text: none of it is written yet.
    fn begin(&mut self)
        ensures { self.new ≡ record self.old { out = 0 } }
    {
        self.out = 0;
    }

    /// Sends a piece of a text: holds it, or writes it after the held bytes. Fails if a write
    /// fails.
    pub fn send(&mut self, piece: &[u8]) -> Result<(), WriteFailed>
        ensures { Writes self.old self.new piece.now result }
    {
        if piece.len() <= self.held.remaining_capacity() {
            self.hold(piece);
            return Ok(());
        }
        self.put_out_held()?;
        if piece.len() <= ROOM {
            self.hold(piece);
            return Ok(());
        }
        put_out(piece, &mut self.writer, &mut self.out)
    }

    // Holds a piece that the buffer has room for.
    fn hold(&mut self, piece: &[u8])
        requires { length self.old.held + length piece.now ≤ ROOM }
        ensures { self.new ≡ record self.old { held = self.old.held ++ piece.now } }
    {
        let _ = self.held.try_extend_from_slice(piece);
    }

    // Writes the held bytes.
    fn put_out_held(&mut self) -> Result<(), WriteFailed>
        ensures out { Writes self.old self.new [] result }
        ensures empty { self.new.held ≡ [] }
    {
        let result = put_out(self.held.as_slice(), &mut self.writer, &mut self.out);
        self.held.clear();
        result
    }
}

// Writes the bytes, in as many writes as needed, and counts the bytes written.
fn put_out<W: Write>(
    bytes: &[u8],
    writer: &mut LoggedWriter<W>,
    out: &mut u64,
) -> Result<(), WriteFailed>
    ensures ok { OnOk result (PutsOut bytes.now writer.old.taken writer.new.taken out.old out.new) }
    ensures err { OnErr result (PutsOutSome bytes.now writer.old.taken writer.new.taken out.old out.new) }
{
    let mut sent = 0;
    while sent < bytes.len() {
        match write_some(writer, &bytes[sent..]) {
            Ok(count) if count > 0 => sent += count,
            _ => {
                *out = out.saturating_add(sent as u64);
                return Err(WriteFailed);
            }
        }
    }
    *out = out.saturating_add(sent as u64);
    Ok(())
}

// Writes some of the bytes, and returns how many. It retries an interrupted write, up to 2^64 - 1 times; then the write
// counts as failed.
fn write_some<W: Write>(writer: &mut LoggedWriter<W>, bytes: &[u8]) -> Result<usize, WriteFailed>
    ensures { TakesSome writer.old.taken writer.new.taken bytes.now result }
{
    for _ in 0..u64::MAX {
        match writer.write(bytes) {
            CallOutcome::Moved(count) => return Ok(count),
            CallOutcome::Interrupted => {}
            CallOutcome::Failed => return Err(WriteFailed),
        }
    }
    writer.give_up();
    Err(WriteFailed)
}
