//! Sends the list of marks and the list of checkpoints, one line per item.

ghost use Rattle.std.specs.Prelude.{ℕ, List, ◌++◌, codes, decimal, flat_map};
ghost use Rattle.nr_command.specs.Listing.{break_text, checkpoint_line, checkpoints_text, mark_line, marks_text};
ghost use Rattle.nr_command.specs.Auxiliary.Listing.{listing_text};
ghost use Rattle.nr_text.specs.Buffered.{Writes};

use crate::checkpoint::Checkpoint;
use crate::value::Piece;
use nr_marks::{Break, Mark, NumberedMark};
use nr_text::{Buffered, Text, Token, WriteFailed, send_all};
use std::io::Write;

/// An item of a list, printed on a line of its own.
trait Listed {
    /// The item's line.
    ghost line: { Self → List ℕ };

    /// Sends the item's line.
    fn send_line<W: Write>(&self, w: &mut Buffered<W>) -> Result<(), WriteFailed>
        ensures { Writes w.old w.new (line self.now) result };
}

/// A mark prints as its number, followed by the command that made it.
impl Listed for NumberedMark {
    ghost line = { mark_line };

    fn send_line<W: Write>(&self, w: &mut Buffered<W>) -> Result<(), WriteFailed> {
        match self.item {
            Mark::Break(wanted) => send_break(self.number, b" break ", wanted, w),
            Mark::TemporaryBreak(wanted) => send_break(self.number, b" tbreak ", wanted, w),
            Mark::Watch(cell) => {
                let number = Piece::Number(self.number);
                let cell = Piece::Cell(cell);
                send_all(
                    &[number, Piece::Text(b" watch "), cell, Piece::Text(b"\n")],
                    w,
                )
            }
        }
    }
}

/// Writes the line of a break: its number, the command that makes it, and the steps before which it hits.
fn send_break<W: Write>(
    number: u32,
    command: &'static [u8],
    wanted: Break,
    w: &mut Buffered<W>,
) -> Result<(), WriteFailed>
    ensures { Writes w.old w.new
        (decimal number ++ command.now ++ break_text wanted ++ codes "\n") result }
{
    let number = Token::Number(u64::from(number));
    let command = Token::Text(command);
    match wanted {
        Break::Kind(kind) => {
            let kind = Token::Text(kind.name().as_bytes());
            send_all(&[number, command, kind, Token::Text(b"\n")], w)
        }
        Break::Step(step) => {
            let step = Token::Number(u64::from(step.get()));
            send_all(
                &[number, command, Token::Text(b"@"), step, Token::Text(b"\n")],
                w,
            )
        }
    }
}

/// The line of a checkpoint has its number and its position.
impl Listed for Checkpoint {
    ghost line = { checkpoint_line };

    fn send_line<W: Write>(&self, w: &mut Buffered<W>) -> Result<(), WriteFailed> {
        let tokens = [
            Token::Number(u64::from(self.number)),
            Token::Text(b" at "),
            Token::Number(self.item as u64),
            Token::Text(b"\n"),
        ];
        send_all(&tokens, w)
    }
}

/// A part of a list.
#[derive(Clone, Copy)]
enum Listing<'a> {
    /// The noun for the items, and how many there are.
    Heading(&'static [u8], usize),
    /// The marks, one on each line.
    Marks(&'a [NumberedMark]),
    /// The checkpoints, one on each line.
    Checkpoints(&'a [Checkpoint]),
}

impl Text for Listing<'_> {
    ghost text = { listing_text };

    fn send<W: Write>(&self, w: &mut Buffered<W>) -> Result<(), WriteFailed> {
        match self {
            Listing::Heading(name, count) => {
                let count = Token::Number(*count as u64);
                send_all(&[Token::Text(name), count, Token::Text(b"\n")], w)
            }
            Listing::Marks(marks) => send_lines(marks, w),
            Listing::Checkpoints(checkpoints) => send_lines(checkpoints, w),
        }
    }
}

/// Sends the lines of the items, one after the other.
fn send_lines<T: Listed, W: Write>(items: &[T], w: &mut Buffered<W>) -> Result<(), WriteFailed>
    ensures { Writes w.old w.new (flat_map T.line items.now) result }
{
    for item in items {
        item.send_line(w)?;
    }
    Ok(())
}

/// Writes the number of marks, and a line for each mark.
pub(crate) fn send_marks<W: Write>(
    marks: &[NumberedMark],
    w: &mut Buffered<W>,
) -> Result<(), WriteFailed>
    ensures { Writes w.old w.new (marks_text marks.now) result }
{
    let heading = Listing::Heading(b"marks ", marks.len());
    send_all(&[heading, Listing::Marks(marks)], w)
}

/// Writes the number of checkpoints, and a line for each checkpoint.
pub(crate) fn send_checkpoints<W: Write>(
    checkpoints: &[Checkpoint],
    w: &mut Buffered<W>,
) -> Result<(), WriteFailed>
    ensures { Writes w.old w.new (checkpoints_text checkpoints.now) result }
{
    let heading = Listing::Heading(b"checkpoints ", checkpoints.len());
    send_all(&[heading, Listing::Checkpoints(checkpoints)], w)
}
