//! The lines that end in one read.

ghost use Rattle.std.specs.Prelude.{◌≡◌, ℕ, List, [], ◌∷◌, ◌++◌, Err, IfErr, OnOk, take, true};
ghost use Rattle.nr_text.specs.Streams.{WritesAll};
ghost use Rattle.nr_lines.specs.Auxiliary.Engine.{is_write_failure};
ghost use Rattle.nr_lines.specs.Batch.{AnswersBytes, FailsToPutOut, RunsLines};
ghost use Rattle.nr_lines.specs.LoopInvariant.{unfinished_line};
ghost use Rattle.nr_lines.specs.Outbox.{held_bytes, is_at_once};

use crate::ending::LineEnd;
use crate::outbox::Outbox;
use crate::turn::turn;
use arrayvec::ArrayVec;
use nr_command::MAX_LINE;
use nr_front::Front;
use nr_journal::Journal;
use nr_rev::Worlds;
use nr_search::Finder;
use nr_text::{Part, Sink};
use std::io::Write;

/// One more than the length of the longest line, so that a longer line is recognized.
pub(crate) const LINE_ROOM: usize = MAX_LINE + 1;

/// Answers the lines that end in these bytes, up to a `quit`, and writes their replies. Returns
/// whether there was a `quit`. The first line begins with the bytes in `line`. If there was no
/// `quit`, `line` contains what follows the last line feed when the call returns.
pub(crate) fn answer_bytes<W: Write, S: Worlds + Drop + Sync, F: Finder>(
    bytes: &[u8],
    line: &mut ArrayVec<u8, LINE_ROOM>,
    outbox: &mut Outbox,
    w: &mut Sink<W>,
    front: &mut Front<'_, S, F>,
    journal: &Journal,
    whole: &mut u64,
) -> Result<bool, LineEnd>
where
    S::Delta: Drop,
    S::Snapshot: Drop + Sync,
    requires table { front.old.table ≡ journal.now }
    requires empty { held_bytes outbox.old ≡ [] }
    ensures table { front.new.table ≡ front.old.table }
    ensures answers { (before : List ℕ) → line.old.items ≡ take 257 (unfinished_line before)
        → AnswersBytes (is_at_once outbox.old) before bytes.now front.old front.new
        w.old w.new [] line.new.items whole.old whole.new result }
    ensures empty { OnOk result (held_bytes outbox.new ≡ []) }
    ensures kind { is_at_once outbox.new ≡ is_at_once outbox.old }
    ensures calm { OnOk result (w.new.failed ≡ w.old.failed) }
    ensures failed { IfErr result (λ e. (w.new.failed ≡ true) × (is_write_failure (Err e) ≡ true)) }
{
    let quits = answer_lines(bytes, line, outbox, w, front, journal, whole)?;
    put_out(outbox, w, *whole)?;
    Ok(quits)
}

/// Answers the last line, which has no line feed, and writes its reply. Returns whether the line is
/// `quit`.
pub(crate) fn answer_last<W: Write, S: Worlds + Drop + Sync, F: Finder>(
    line: &[u8],
    outbox: &mut Outbox,
    w: &mut Sink<W>,
    front: &mut Front<'_, S, F>,
    journal: &Journal,
    whole: &mut u64,
) -> Result<bool, LineEnd>
where
    S::Delta: Drop,
    S::Snapshot: Drop + Sync,
    requires table { front.old.table ≡ journal.now }
    requires empty { held_bytes outbox.old ≡ [] }
    ensures table { front.new.table ≡ front.old.table }
    ensures answers { (rest : List ℕ) → line.now ≡ take 257 rest
        → RunsLines (is_at_once outbox.old) front.old front.new
        w.old w.new [] (rest ∷ []) whole.old whole.new result }
    ensures calm { OnOk result (w.new.failed ≡ w.old.failed) }
    ensures failed { IfErr result (λ e. (w.new.failed ≡ true) × (is_write_failure (Err e) ≡ true)) }
{
    let quits = turn(line, outbox, w, front, journal, whole)?;
    put_out(outbox, w, *whole)?;
    Ok(quits)
}

/// Answers the lines that end in these bytes, up to a `quit`. Returns whether there was a `quit`.
fn answer_lines<W: Write, S: Worlds + Drop + Sync, F: Finder>(
    bytes: &[u8],
    line: &mut ArrayVec<u8, LINE_ROOM>,
    outbox: &mut Outbox,
    w: &mut Sink<W>,
    front: &mut Front<'_, S, F>,
    journal: &Journal,
    whole: &mut u64,
) -> Result<bool, LineEnd>
where
    S::Delta: Drop,
    S::Snapshot: Drop + Sync,
    requires table { front.old.table ≡ journal.now }
    requires empty { held_bytes outbox.old ≡ [] }
    ensures table { front.new.table ≡ front.old.table }
    ensures answers { (before : List ℕ) → line.old.items ≡ take 257 (unfinished_line before)
        → AnswersBytes (is_at_once outbox.old) before bytes.now front.old front.new
        w.old w.new (held_bytes outbox.new) line.new.items whole.old whole.new result }
    ensures kind { is_at_once outbox.new ≡ is_at_once outbox.old }
    ensures calm { OnOk result (w.new.failed ≡ w.old.failed) }
    ensures failed { IfErr result (λ e. (w.new.failed ≡ true) × (is_write_failure (Err e) ≡ true)) }
{
    for byte in bytes {
        if *byte != b'\n' {
            keep(line, *byte);
        } else {
            let quits = turn(line.as_slice(), outbox, w, front, journal, whole)?;
            line.clear();
            if quits {
                return Ok(true);
            }
        }
    }
    Ok(false)
}

/// Writes the held bytes. `whole` is the number of texts that were printed in full.
fn put_out<W: Write>(outbox: &mut Outbox, w: &mut Sink<W>, whole: u64) -> Result<(), LineEnd>
    ensures ok { OnOk result (WritesAll w.old w.new (held_bytes outbox.old)) }
    ensures err { IfErr result (FailsToPutOut w.old w.new (held_bytes outbox.old) whole) }
    ensures empty { held_bytes outbox.new ≡ [] }
    ensures kind { is_at_once outbox.new ≡ is_at_once outbox.old }
{
    match outbox.put_out(w) {
        Ok(()) => Ok(()),
        Err(Part(part)) => Err(LineEnd::Write { whole, part }),
    }
}

/// Adds a byte to the line, if there is room.
fn keep(line: &mut ArrayVec<u8, LINE_ROOM>, byte: u8)
    ensures { line.new.items ≡ take LINE_ROOM (line.old.items ++ byte ∷ []) }
{
    if !line.is_full() {
        line.push(byte);
    }
}
