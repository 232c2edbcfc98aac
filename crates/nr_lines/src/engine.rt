//! The line loop.

ghost use Rattle.std.specs.Prelude.{◌≡◌, [], false};
ghost use Rattle.nr_lines.specs.Auxiliary.Engine.{AnswersLines, AnswersTogether, is_read_failure, is_write_failure};
ghost use Rattle.nr_lines.specs.LoopInvariant.{AnswersBy};
ghost use Rattle.nr_lines.specs.Outbox.{held_bytes, is_at_once};

use crate::batch::{LINE_ROOM, answer_bytes, answer_last};
use crate::ending::{End, LineEnd, StreamFailure};
use crate::outbox::Outbox;
use crate::page::Page;
use arrayvec::ArrayVec;
use nr_front::Front;
use nr_journal::Journal;
use nr_rev::Worlds;
use nr_search::Finder;
use nr_text::{Sink, Source};
use std::io::{Read, Write};
use std::sync::Wait;

/// The maximum number of bytes in one read.
const CHUNK: usize = 512;

/// Answers the lines of a source, up to the first `quit`, and writes each reply separately. The
/// last line needs no line feed. Before each read, all whole lines so far are answered, and their
/// replies are written.
///
/// The call may read past `quit`, or past the line whose reply wasn't written. If a read fails, the
/// whole lines before it are answered. However the call ends, the front can be used again, and each
/// line up to that point was run, including a line whose reply wasn't written. The call reports a
/// failure if and only if a read or a write failed. It gives up after 2^64 - 1 reads, and reports
/// the last read as failed.
pub fn answer<R: Read, W: Write, S: Worlds + Drop + Sync, F: Finder>(
    r: &mut Source<R>,
    w: &mut Sink<W>,
    front: &mut Front<'_, S, F>,
    journal: &Journal,
) -> Result<End, LineEnd>
where
    S::Delta: Drop,
    S::Snapshot: Drop + Sync,
    requires table { front.old.table ≡ journal.now }
    requires reader { r.old.failed ≡ false }
    requires writer { w.old.failed ≡ false }
    ensures table { front.new.table ≡ front.old.table }
    ensures serves { AnswersLines r.old r.new w.old w.new
        front.old front.new result }
    ensures reader { r.new.failed ≡ is_read_failure result }
    ensures writer { w.new.failed ≡ is_write_failure result }
{
    answer_by(&mut Outbox::AtOnce, r, w, front, journal)
}

/// Does the same as `answer`, for callers whose runtime may wait. The runtime isn't used.
pub fn serve<R: Read, W: Write, S: Worlds + Drop + Sync, F: Finder>(
    _rt: &impl Wait,
    r: &mut Source<R>,
    w: &mut Sink<W>,
    front: &mut Front<'_, S, F>,
    journal: &Journal,
) -> Result<End, LineEnd>
where
    S::Delta: Drop,
    S::Snapshot: Drop + Sync,
    requires table { front.old.table ≡ journal.now }
    requires reader { r.old.failed ≡ false }
    requires writer { w.old.failed ≡ false }
    ensures table { front.new.table ≡ front.old.table }
    ensures serves { AnswersLines r.old r.new w.old w.new
        front.old front.new result }
    ensures reader { r.new.failed ≡ is_read_failure result }
    ensures writer { w.new.failed ≡ is_write_failure result }
{
    answer(r, w, front, journal)
}

/// Does the same as `answer`, but holds the replies to the lines of one read, up to 4 KB, and
/// writes them together before the next read. If a write fails, lines after the line whose reply
/// was cut may have run too.
pub fn answer_together<R: Read, W: Write, S: Worlds + Drop + Sync, F: Finder>(
    r: &mut Source<R>,
    w: &mut Sink<W>,
    front: &mut Front<'_, S, F>,
    journal: &Journal,
) -> Result<End, StreamFailure>
where
    S::Delta: Drop,
    S::Snapshot: Drop + Sync,
    requires table { front.old.table ≡ journal.now }
    requires reader { r.old.failed ≡ false }
    requires writer { w.old.failed ≡ false }
    ensures table { front.new.table ≡ front.old.table }
    ensures serves { AnswersTogether r.old r.new w.old w.new
        front.old front.new result }
{
    match answer_by(&mut Outbox::Held(Page::new()), r, w, front, journal) {
        Ok(end) => Ok(end),
        Err(LineEnd::Read) => Err(StreamFailure::Read),
        Err(LineEnd::Write { .. }) => Err(StreamFailure::Write),
    }
}

/// Answers the lines of a source, up to the first `quit`, through an outbox.
fn answer_by<R: Read, W: Write, S: Worlds + Drop + Sync, F: Finder>(
    outbox: &mut Outbox,
    r: &mut Source<R>,
    w: &mut Sink<W>,
    front: &mut Front<'_, S, F>,
    journal: &Journal,
) -> Result<End, LineEnd>
where
    S::Delta: Drop,
    S::Snapshot: Drop + Sync,
    requires table { front.old.table ≡ journal.now }
    requires reader { r.old.failed ≡ false }
    requires writer { w.old.failed ≡ false }
    requires empty { held_bytes outbox.old ≡ [] }
    ensures table { front.new.table ≡ front.old.table }
    ensures serves { AnswersBy (is_at_once outbox.old) r.old r.new w.old w.new
        front.old front.new result }
    ensures reader { r.new.failed ≡ is_read_failure result }
    ensures writer { w.new.failed ≡ is_write_failure result }
{
    let mut line = ArrayVec::<u8, LINE_ROOM>::new();
    let mut whole = 0u64;
    let mut chunk = [0u8; CHUNK];
    for _ in 0..u64::MAX {
        let Ok(count) = r.read(w, &mut chunk) else {
            return Err(LineEnd::Read);
        };
        if count == 0 {
            if !line.is_empty()
                && answer_last(line.as_slice(), outbox, w, front, journal, &mut whole)?
            {
                return Ok(End::Quit);
            }
            return Ok(End::Closed);
        }
        let bytes = &chunk[..count];
        if answer_bytes(bytes, &mut line, outbox, w, front, journal, &mut whole)? {
            return Ok(End::Quit);
        }
    }
    r.give_up();
    Err(LineEnd::Read)
}
