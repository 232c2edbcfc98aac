//! The replies to lines, and their texts.

ghost use Rattle.std.specs.Prelude.{◌≡◌, ◌++◌, codes, decimal};
ghost use Rattle.nr_command.specs.declared.reply.Fault.TheVariants as faults;
ghost use Rattle.nr_command.specs.declared.reply.Reply.TheVariants as replies;
ghost use Rattle.nr_command.specs.Reply.{direction_text, reply_fault_text, text_of};
ghost use Rattle.nr_text.specs.Buffered.{Writes};
ghost use Rattle.nr_text.specs.Auxiliary.Text.{token_text};

use crate::checkpoint::{Checkpoint, CheckpointFault, MOST_CHECKPOINTS};
use crate::command::LineFault;
use crate::listing::{send_checkpoints, send_marks};
use crate::value::Piece;
use arrayvec::ArrayVec;
use nr_marks::{MOST_MARKS, MarkFault, NumberedMark};
use nr_rev::{Bytes, Cell, CellValue, Memory, Queue, Side};
use nr_search::Direction;
use nr_text::{Buffered, Part, Sink, Text, Token, WriteFailed, send_all};
use std::io::Write;

/// The reply to a line.
#[derive(Drop)]
pub enum Reply {
    /// The debugger is at this position.
    At(usize),
    /// The debugger is at the last position, and can't go further.
    AtEnd(usize),
    /// The debugger is at position 0, and can't go further back.
    AtStart,
    /// The debugger is at a position at which these marks hit. Their numbers are in ascending
    /// order.
    AtHit {
        position: usize,
        marks: ArrayVec<u32, MOST_MARKS>,
    },
    /// Later commands go in this direction.
    Direction(Direction),
    /// A mark with this number was made.
    MarkMade(u32),
    /// The mark with this number was deleted.
    MarkDeleted(u32),
    /// A checkpoint was made.
    CheckpointMade(Checkpoint),
    /// The checkpoint with this number was deleted.
    CheckpointDeleted(u32),
    /// A cell and its value.
    Printed {
        cell: Cell,
        value: CellValue,
    },
    /// The bytes in a socket's buffer, or `None` if the socket doesn't exist.
    Bytes {
        side: Side,
        socket: u32,
        bytes: Option<Bytes>,
    },
    /// The goroutines queued at a socket's semaphore, front first, or `None` if the socket doesn't exist.
    Queue {
        side: Side,
        socket: u32,
        queue: Option<Queue>,
    },
    /// The position of the debugger, the last position of the recording, and the direction.
    Position {
        position: usize,
        last: usize,
        direction: Direction,
    },
    /// The marks, in ascending order of their numbers.
    Marks(ArrayVec<NumberedMark, MOST_MARKS>),
    /// The checkpoints, in ascending order of their numbers.
    Checkpoints(ArrayVec<Checkpoint, MOST_CHECKPOINTS>),
    /// No reply is owed.
    NothingOwed,
    /// The line was `quit`.
    Bye,
    /// The line did nothing.
    Fault(Fault),
}

/// Why a line did nothing.
#[derive(Clone, Copy, Debug, PartialEq, Eq)]
pub enum Fault {
    /// The line isn't a request.
    Line(LineFault),
    /// The line ran out of memory.
    Memory(Memory),
    /// The command at this index of the journal, counted from 1, ran out of memory. The command's
    /// reply is still owed.
    Placed(usize),
    /// The journal is full.
    JournalFull,
    Mark(MarkFault),
    Checkpoint(CheckpointFault),
}

impl Reply {
    ghost use Rattle.nr_text.specs.Auxiliary.Streams.{Prints};

    /// Writes the reply's text. If a write fails or accepts no bytes, it stops, and `Part(k)` says
    /// that exactly the first k bytes were written. Writing a reply allocates no memory.
    pub fn print<W: Write>(&self, out: &mut Sink<W>) -> Result<(), Part>
        ensures { Prints out.old out.new (text_of self.now) result }
    {
        out.print(self)
    }
}

/// The text of a reply is one line; for a list, it is a line with the number of items and then a
/// line for each item.
impl Text for Reply {
    ghost text = { text_of };

    fn send<W: Write>(&self, w: &mut Buffered<W>) -> Result<(), WriteFailed> {
        match self {
            Reply::At(position) => send_position(*position, b"\n", w),
            Reply::AtEnd(position) => send_position(*position, b" end\n", w),
            Reply::AtStart => w.send(b"at 0 start\n"),
            Reply::AtHit { position, marks } => send_hit(*position, marks.as_slice(), w),
            Reply::Direction(direction) => send_direction(*direction, w),
            Reply::MarkMade(number) => send_numbered(b"mark ", *number, w),
            Reply::MarkDeleted(number) => send_numbered(b"deleted mark ", *number, w),
            Reply::CheckpointMade(checkpoint) => send_checkpoint(*checkpoint, w),
            Reply::CheckpointDeleted(number) => send_numbered(b"deleted checkpoint ", *number, w),
            Reply::Printed { cell, value } => send_printed(*cell, *value, w),
            Reply::Bytes {
                side,
                socket,
                bytes,
            } => send_bytes(*side, *socket, bytes, w),
            Reply::Queue {
                side,
                socket,
                queue,
            } => send_queue(*side, *socket, queue, w),
            Reply::Position {
                position,
                last,
                direction,
            } => send_place(*position, *last, *direction, w),
            Reply::Marks(marks) => send_marks(marks.as_slice(), w),
            Reply::Checkpoints(checkpoints) => send_checkpoints(checkpoints.as_slice(), w),
            Reply::NothingOwed => w.send(b"nothing owed\n"),
            Reply::Bye => w.send(b"bye\n"),
            Reply::Fault(fault) => send_fault(*fault, w),
        }
    }
}

fn send_position<W: Write>(
    position: usize,
    end: &'static [u8],
    w: &mut Buffered<W>,
) -> Result<(), WriteFailed>
    ensures { Writes w.old w.new
        (codes "at " ++ decimal position ++ end.now) result }
{
    let number = Token::Number(position as u64);
    send_all(&[Token::Text(b"at "), number, Token::Text(end)], w)
}

fn send_hit<W: Write>(
    position: usize,
    marks: &[u32],
    w: &mut Buffered<W>,
) -> Result<(), WriteFailed>
    ensures { Writes w.old w.new
        (text_of (replies.AtHit position (record { items = marks.now }))) result }
{
    let tokens = [
        Token::Text(b"at "),
        Token::Number(position as u64),
        Token::Text(b" by"),
        Token::Numbers(marks),
        Token::Text(b"\n"),
    ];
    send_all(&tokens, w)
}

fn send_direction<W: Write>(direction: Direction, w: &mut Buffered<W>) -> Result<(), WriteFailed>
    ensures { Writes w.old w.new
        (text_of (replies.Direction direction)) result }
{
    let way = direction_token(direction);
    send_all(&[Token::Text(b"direction "), way, Token::Text(b"\n")], w)
}

fn direction_token(direction: Direction) -> Token<'static>
    ensures { token_text result ≡ direction_text direction }
{
    match direction {
        Direction::Forward => Token::Text(b"forward"),
        Direction::Backward => Token::Text(b"reverse"),
    }
}

/// Writes a label and a number.
fn send_numbered<W: Write>(
    name: &'static [u8],
    number: u32,
    w: &mut Buffered<W>,
) -> Result<(), WriteFailed>
    ensures { Writes w.old w.new
        (name.now ++ decimal number ++ codes "\n") result }
{
    let number = Token::Number(u64::from(number));
    send_all(&[Token::Text(name), number, Token::Text(b"\n")], w)
}

fn send_checkpoint<W: Write>(checkpoint: Checkpoint, w: &mut Buffered<W>) -> Result<(), WriteFailed>
    ensures { Writes w.old w.new
        (text_of (replies.CheckpointMade checkpoint)) result }
{
    let tokens = [
        Token::Text(b"checkpoint "),
        Token::Number(u64::from(checkpoint.number)),
        Token::Text(b" at "),
        Token::Number(checkpoint.item as u64),
        Token::Text(b"\n"),
    ];
    send_all(&tokens, w)
}

/// Writes the line that shows a cell with its value, which is the reply to `print`.
pub fn send_printed<W: Write>(
    cell: Cell,
    value: CellValue,
    w: &mut Buffered<W>,
) -> Result<(), WriteFailed>
    ensures { Writes w.old w.new
        (text_of (replies.Printed cell value)) result }
{
    let pieces = [
        Piece::Cell(cell),
        Piece::Text(b" = "),
        Piece::Value(value),
        Piece::Text(b"\n"),
    ];
    send_all(&pieces, w)
}

fn send_bytes<W: Write>(
    side: Side,
    socket: u32,
    bytes: &Option<Bytes>,
    w: &mut Buffered<W>,
) -> Result<(), WriteFailed>
    ensures { Writes w.old w.new
        (text_of (replies.Bytes side socket bytes.now)) result }
{
    let name = match side {
        Side::Read => b"in ".as_slice(),
        Side::Write => b"out ".as_slice(),
    };
    let query_reply = match bytes {
        None => Token::Text(b"absent"),
        Some(bytes) if bytes.is_empty() => Token::Text(b"-"),
        Some(bytes) => Token::Hex(bytes.as_slice()),
    };
    send_dump(name, socket, b" = ", query_reply, w)
}

fn send_queue<W: Write>(
    side: Side,
    socket: u32,
    queue: &Option<Queue>,
    w: &mut Buffered<W>,
) -> Result<(), WriteFailed>
    ensures { Writes w.old w.new
        (text_of (replies.Queue side socket queue.now)) result }
{
    let name = match side {
        Side::Read => b"rq ".as_slice(),
        Side::Write => b"wq ".as_slice(),
    };
    let query_reply = match queue {
        None => Token::Text(b" absent"),
        Some(queue) if queue.as_slice().is_empty() => Token::Text(b" -"),
        Some(queue) => Token::Numbers(queue.as_slice()),
    };
    send_dump(name, socket, b" =", query_reply, w)
}

fn send_dump<W: Write>(
    name: &'static [u8],
    socket: u32,
    equals: &'static [u8],
    query_reply: Token<'_>,
    w: &mut Buffered<W>,
) -> Result<(), WriteFailed>
    ensures { Writes w.old w.new
        (name.now ++ decimal socket ++ equals.now ++ token_text query_reply.entry ++ codes "\n") result }
{
    let tokens = [
        Token::Text(name),
        Token::Number(u64::from(socket)),
        Token::Text(equals),
        query_reply,
        Token::Text(b"\n"),
    ];
    send_all(&tokens, w)
}

fn send_place<W: Write>(
    position: usize,
    last: usize,
    direction: Direction,
    w: &mut Buffered<W>,
) -> Result<(), WriteFailed>
    ensures { Writes w.old w.new
        (text_of (replies.Position position last direction)) result }
{
    let tokens = [
        Token::Text(b"at "),
        Token::Number(position as u64),
        Token::Text(b" of "),
        Token::Number(last as u64),
        Token::Text(b" "),
        direction_token(direction),
        Token::Text(b"\n"),
    ];
    send_all(&tokens, w)
}

fn send_fault<W: Write>(fault: Fault, w: &mut Buffered<W>) -> Result<(), WriteFailed>
    ensures { Writes w.old w.new (reply_fault_text fault) result }
{
    match fault {
        Fault::Line(fault) => w.send(line_fault(fault)),
        Fault::Memory(_) => w.send(b"fault 301 memory\n"),
        Fault::Placed(place) => send_placed(place, w),
        Fault::JournalFull => w.send(b"fault 303 journal full\n"),
        Fault::Mark(fault) => w.send(mark_fault(fault)),
        Fault::Checkpoint(fault) => w.send(checkpoint_fault(fault)),
    }
}

fn line_fault(fault: LineFault) -> &'static [u8]
    ensures { result.now ≡ reply_fault_text (faults.Line fault) }
{
    match fault {
        LineFault::UnknownCommand => b"fault 201 unknown command\n",
        LineFault::BadArgument => b"fault 202 bad argument\n",
        LineFault::TooLong => b"fault 203 line too long\n",
    }
}

fn send_placed<W: Write>(place: usize, w: &mut Buffered<W>) -> Result<(), WriteFailed>
    ensures { Writes w.old w.new (reply_fault_text (faults.Placed place)) result }
{
    let tokens = [
        Token::Text(b"fault 302 memory, placed "),
        Token::Number(place as u64),
        Token::Text(b"\n"),
    ];
    send_all(&tokens, w)
}

fn mark_fault(fault: MarkFault) -> &'static [u8]
    ensures { result.now ≡ reply_fault_text (faults.Mark fault) }
{
    match fault {
        MarkFault::NoSuchMark => b"fault 401 no such mark\n",
        MarkFault::MarksFull => b"fault 402 marks full\n",
    }
}

fn checkpoint_fault(fault: CheckpointFault) -> &'static [u8]
    ensures { result.now ≡ reply_fault_text (faults.Checkpoint fault) }
{
    match fault {
        CheckpointFault::NoSuchCheckpoint => b"fault 403 no such checkpoint\n",
        CheckpointFault::CheckpointsFull => b"fault 404 checkpoints full\n",
    }
}
