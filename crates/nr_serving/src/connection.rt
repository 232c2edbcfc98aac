//! The callers of fronts, one after the other.

ghost use Rattle.std.specs.Prelude.{◌≡◌, ◌≤◌, ◌*◌, ℕ, List, [], ◌∷◌, ◌++◌, length};
ghost use Rattle.std.specs.Io.KnownBytes.{Consumes};
ghost use Rattle.nr_serving.specs.Auxiliary.Fronts.{arrival_of};
ghost use Rattle.nr_serving.specs.declared.connection.TheConstants.{AT_ONCE, MOST_READS};
ghost use Rattle.nr_serving.specs.declared.conversations.Arrival.{Arrival};

use std::io;
use std::io::{Read, Write};

/// The maximum number of bytes in one read of `read_away`.
const AT_ONCE: usize = 512;

/// The maximum number of reads that `read_away` makes.
const MOST_READS: usize = 64;

/// What a front does after waiting for a caller.
pub enum Next<I, O> {
    /// The front serves a caller: it reads lines from the reader, and writes the replies to the
    /// writer.
    Serve(I, O),
    /// No further caller will come, so the front ends.
    Ended,
    /// Waiting for a caller failed, so the front ends: the port wasn't bound, or a caller wasn't
    /// accepted.
    Failed,
}

/// The callers of a front, one after the other.
pub trait Connections {
    /// The stream from which a caller's lines are read.
    type Reader: Read + Drop + Send;

    /// The stream to which the replies to a caller are written.
    type Writer: Write + Drop + Send;

    /// The results of all waits so far, in order. `Conversations` can log them.
    ghost arrivals: { Self → List Arrival };

    /// Waits for the next caller, once.
    fn next(&mut self) -> Next<Self::Reader, Self::Writer>
        ensures { arrivals self.new ≡ arrivals self.old ++ arrival_of result ∷ [] };

    /// Ends the replies: the caller reads the end of its input after the last reply. After this
    /// call, a read waits only briefly, and fails if no bytes come. If this call fails, nothing
    /// more is read.
    fn end_replies(_writer: &Self::Writer) -> io::Result<()> {
        Ok(())
    }
}

/// The ports of a session, one for each front.
pub trait Ports {
    type Callers: Connections + Drop + Send;

    /// The numbers of the fronts whose callers were returned, in order. `Fronts` can log them.
    ghost opened: { Self → List ℕ };

    /// Returns the callers of the front with this number, counted from 0, before any of them has
    /// come. If the port can't be opened, the first `next` returns the error.
    fn open(&mut self, front: usize) -> Self::Callers
        ensures opened { opened self.new ≡ opened self.old ++ front ∷ [] }
        ensures none { Self.Callers.arrivals result ≡ [] };
}

/// Reads and drops bytes until no more bytes come or a read fails, but at most 64 times 512 bytes.
pub fn read_away<R: Read>(reader: &mut R)
    ensures { (bytes : List ℕ) × Consumes (R.remaining reader.old) (R.remaining reader.new) bytes
        × (length bytes ≤ MOST_READS * AT_ONCE) }
{
    let mut chunk = [0u8; AT_ONCE];
    let mut reads = 0;
    while reads < MOST_READS {
        match reader.read(&mut chunk) {
            Ok(count) if count > 0 => reads += 1,
            _ => return,
        }
    }
}
