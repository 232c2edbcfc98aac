//! Writes cells and their values.

ghost use Rattle.std.specs.Prelude.{◌++◌, decimal};
ghost use Rattle.nr_rev.specs.declared.status.Status.TheVariants.{Owing};
ghost use Rattle.nr_text.specs.Buffered.{Writes};
ghost use Rattle.nr_command.specs.Value.{cell_text, side_text, status_text, value_text, wait_word_text};
ghost use Rattle.nr_command.specs.Auxiliary.Value.{piece_text};

use nr_rev::{Cell, CellValue, Side, Status, WaitWord};
use nr_text::{Buffered, Text, Token, WriteFailed, send_all};
use std::io::Write;

/// Writes a cell: its name, and its number after a space if it has one.
pub(crate) fn send_cell<W: Write>(cell: Cell, w: &mut Buffered<W>) -> Result<(), WriteFailed>
    ensures { Writes w.old w.new (cell_text cell) result }
{
    let name = cell.name().as_bytes();
    let Some(index) = cell.index() else {
        return w.send(name);
    };
    let number = Token::Number(u64::from(index));
    send_all(&[Token::Text(name), Token::Text(b" "), number], w)
}

/// Writes the value of a cell.
pub(crate) fn send_value<W: Write>(value: CellValue, w: &mut Buffered<W>) -> Result<(), WriteFailed>
    ensures { Writes w.old w.new (value_text value) result }
{
    match value {
        CellValue::Absent => w.send(b"absent"),
        CellValue::Number(number) => Token::Number(number).send(w),
        CellValue::Time(time) => Token::Time(time).send(w),
        CellValue::WaitWord(word) => send_wait_word(word, w),
        CellValue::Status(status) => send_status(status, w),
    }
}

fn send_wait_word<W: Write>(word: WaitWord, w: &mut Buffered<W>) -> Result<(), WriteFailed>
    ensures { Writes w.old w.new (wait_word_text word) result }
{
    match word {
        WaitWord::Nil => w.send(b"nil"),
        WaitWord::Ready => w.send(b"ready"),
        WaitWord::Wait => w.send(b"wait"),
        WaitWord::Held(goroutine) => send_named(b"g", goroutine, w),
    }
}

fn send_status<W: Write>(status: Status, w: &mut Buffered<W>) -> Result<(), WriteFailed>
    ensures { Writes w.old w.new (status_text status) result }
{
    match status {
        Status::Idle => w.send(b"idle"),
        Status::Acquiring { socket, side } => send_placed(b"acquiring ", socket, side, w),
        Status::Queued { socket, side } => send_placed(b"queued ", socket, side, w),
        Status::Relock { socket, side } => send_placed(b"relock ", socket, side, w),
        Status::Owing {
            socket,
            reads,
            writes,
        } => send_owing(socket, reads, writes, w),
        Status::Entering { descriptor, side } => send_placed(b"entering ", descriptor, side, w),
        Status::Armed { descriptor, side } => send_placed(b"armed ", descriptor, side, w),
        Status::Parking { descriptor, side } => send_placed(b"parking ", descriptor, side, w),
        Status::Parked { descriptor, side } => send_placed(b"parked ", descriptor, side, w),
        Status::Swapping { descriptor, side } => send_placed(b"swapping ", descriptor, side, w),
        Status::Checking { descriptor, side } => send_placed(b"checking ", descriptor, side, w),
        Status::Gone => w.send(b"gone"),
    }
}

fn send_owing<W: Write>(
    socket: u32,
    reads: u32,
    writes: u32,
    w: &mut Buffered<W>,
) -> Result<(), WriteFailed>
    ensures { Writes w.old w.new
        (status_text (Owing socket reads writes)) result }
{
    let tokens = [
        Token::Text(b"owing "),
        Token::Number(u64::from(socket)),
        Token::Text(b" "),
        Token::Number(u64::from(reads)),
        Token::Text(b" "),
        Token::Number(u64::from(writes)),
    ];
    send_all(&tokens, w)
}

/// Writes a name, a number and a side.
fn send_placed<W: Write>(
    name: &'static [u8],
    number: u32,
    side: Side,
    w: &mut Buffered<W>,
) -> Result<(), WriteFailed>
    ensures { Writes w.old w.new
        (name.now ++ decimal number ++ side_text side) result }
{
    let side = match side {
        Side::Read => Token::Text(b" r"),
        Side::Write => Token::Text(b" w"),
    };
    let number = Token::Number(u64::from(number));
    send_all(&[Token::Text(name), number, side], w)
}

/// Writes a name and a number.
fn send_named<W: Write>(
    name: &'static [u8],
    number: u32,
    w: &mut Buffered<W>,
) -> Result<(), WriteFailed>
    ensures { Writes w.old w.new (name.now ++ decimal number) result }
{
    let number = Token::Number(u64::from(number));
    send_all(&[Token::Text(name), number], w)
}

/// A part of a text that shows a cell.
#[derive(Clone, Copy)]
pub(crate) enum Piece {
    Text(&'static [u8]),
    Number(u32),
    Cell(Cell),
    Value(CellValue),
}

impl Text for Piece {
    ghost text = { piece_text };

    fn send<W: Write>(&self, w: &mut Buffered<W>) -> Result<(), WriteFailed> {
        match self {
            Piece::Text(text) => w.send(text),
            Piece::Number(number) => Token::Number(u64::from(*number)).send(w),
            Piece::Cell(cell) => send_cell(*cell, w),
            Piece::Value(value) => send_value(*value, w),
        }
    }
}
