//! Parses the lines that a client sends.

ghost use Rattle.std.specs.Prelude.{◌≡◌, ◌∷◌, map, take};
ghost use Rattle.std.specs.Str.{bytes_eq};
ghost use Rattle.nr_command.specs.Command.{alone, at_least_one, break_at, break_of, buffer_or_queue, cell_of, count_of, deletion_of, direction_of, dump_of, info_of, meaning_of, meaning_of_words, number_of, only_number, setting_of, topic_of, way_of, without_return, words};

use crate::command::{Command, Line, LineFault, Query};
use crate::count::from_one;
use arrayvec::ArrayVec;
use nr_marks::Break;
use nr_rev::{Cell, Kind, Side};
use nr_search::Direction;
use std::num::NonZeroU32;

/// The length of the longest valid line, in bytes.
pub const MAX_LINE: usize = 256;

/// One more than the number of words in the longest request.
const MAX_WORDS: usize = 4;

impl Command {
    /// Returns the request that a line makes. The line is given without its line feed. Takes no memory.
    ///
    /// The words are those of GDB's manual, chapters "Running Programs Backward" and "Setting a
    /// Bookmark to Return to Later". The commands are `stepi` and `reverse-stepi` with a count,
    /// `continue`, `reverse-continue`, `set exec-direction`, `break` and `tbreak` with a kind of
    /// step or `@` and a step's number, `watch` with a cell, `delete` and `delete checkpoint`,
    /// `checkpoint`, and `restart`. The queries are `print`, `dump` and `info`. The other requests
    /// are `resume` and `quit`.
    ///
    /// Words are separated by spaces. One carriage return at the end of the line is ignored. A line
    /// of more than 256 bytes is too long, whatever it contains. The fault is an unknown command if
    /// the first word isn't one of these words, and otherwise a bad argument.
    pub fn parse(line: &[u8]) -> Result<Line, LineFault>
        ensures { result ≡ meaning_of line.now }
    {
        if line.len() > MAX_LINE {
            return Err(LineFault::TooLong);
        }
        let words = first_words(trim_return(line));
        match words.as_slice().split_first() {
            Some((verb, rest)) => request(verb, rest),
            None => Ok(Line::Empty),
        }
    }
}

/// Returns the request that a line means: `verb` is its first word, and `rest` are its other words.
fn request(verb: &[u8], rest: &[&[u8]]) -> Result<Line, LineFault>
    ensures { result ≡ meaning_of_words (verb.now ∷ map (λ word. word.now) rest.now) }
{
    let run = match verb {
        _ if is(verb, b"stepi") || is(verb, b"si") => Command::Step(count(rest)?),
        _ if is(verb, b"reverse-stepi") || is(verb, b"rsi") => Command::ReverseStep(count(rest)?),
        _ if is(verb, b"continue") || is(verb, b"c") => return alone(
            Line::Run(Command::Continue),
            rest,
        ),
        _ if is(verb, b"reverse-continue") || is(verb, b"rc") => {
            return alone(Line::Run(Command::ReverseContinue), rest);
        }
        _ if is(verb, b"set") => Command::SetDirection(setting(rest)?),
        _ if is(verb, b"break") || is(verb, b"b") => Command::Break(break_of(rest)?),
        _ if is(verb, b"tbreak") || is(verb, b"tb") => Command::TemporaryBreak(break_of(rest)?),
        _ if is(verb, b"watch") => Command::Watch(cell(rest)?),
        _ if is(verb, b"delete") => deletion(rest)?,
        _ if is(verb, b"checkpoint") => return alone(Line::Run(Command::Checkpoint), rest),
        _ if is(verb, b"restart") => Command::Restart(only_number(rest)?),
        _ if is(verb, b"print") || is(verb, b"p") => return Ok(Line::Look(Query::Print(cell(
            rest,
        )?))),
        _ if is(verb, b"dump") => return Ok(Line::Look(dump(rest)?)),
        _ if is(verb, b"info") => return Ok(Line::Look(info(rest)?)),
        _ if is(verb, b"resume") => return alone(Line::Resume, rest),
        _ if is(verb, b"quit") || is(verb, b"q") => return alone(Line::Quit, rest),
        _ => return Err(LineFault::UnknownCommand),
    };
    Ok(Line::Run(run))
}

/// Returns the line without the carriage return at its end, if it has one.
fn trim_return(line: &[u8]) -> &[u8]
    ensures { result.now ≡ without_return line.now }
{
    match line.split_last() {
        Some((b'\r', front)) => front,
        _ => line,
    }
}

/// Returns the first words of a line, which are enough to determine its request.
fn first_words(line: &[u8]) -> ArrayVec<&[u8], MAX_WORDS>
    ensures { map (λ word. word.now) result.items ≡ take MAX_WORDS (words line.now) }
{
    let mut first = ArrayVec::new();
    let words = line
        .split(|byte| *byte == b' ')
        .filter(|word| !word.is_empty());
    for word in words.take(MAX_WORDS) {
        first.push(word);
    }
    first
}

fn is(word: &[u8], name: &[u8]) -> bool
    ensures { result ≡ bytes_eq word.now name.now }
{
    word == name
}

/// Returns a request that takes no further words.
fn alone(line: Line, rest: &[&[u8]]) -> Result<Line, LineFault>
    ensures { result ≡ alone line (map (λ word. word.now) rest.now) }
{
    match rest {
        [] => Ok(line),
        _ => Err(LineFault::BadArgument),
    }
}

/// Reads a count of at least 1. Without a word, the count is 1.
fn count(words: &[&[u8]]) -> Result<NonZeroU32, LineFault>
    ensures { result ≡ count_of (map (λ word. word.now) words.now) }
{
    match words {
        [] => at_least_one(1),
        [word] => at_least_one(number(word)?),
        _ => Err(LineFault::BadArgument),
    }
}

/// Reads a single number.
fn only_number(words: &[&[u8]]) -> Result<u32, LineFault>
    ensures { result ≡ only_number (map (λ word. word.now) words.now) }
{
    match words {
        [word] => number(word),
        _ => Err(LineFault::BadArgument),
    }
}

/// Reads the direction in the words after `set`.
fn setting(words: &[&[u8]]) -> Result<Direction, LineFault>
    ensures { result ≡ setting_of (map (λ word. word.now) words.now) }
{
    match words {
        [what, way] => way_of(what, way),
        _ => Err(LineFault::BadArgument),
    }
}

fn way_of(what: &[u8], way: &[u8]) -> Result<Direction, LineFault>
    ensures { result ≡ way_of what.now way.now }
{
    if is(what, b"exec-direction") {
        direction(way)
    } else {
        Err(LineFault::BadArgument)
    }
}

fn direction(way: &[u8]) -> Result<Direction, LineFault>
    ensures { result ≡ direction_of way.now }
{
    match way {
        _ if is(way, b"forward") => Ok(Direction::Forward),
        _ if is(way, b"reverse") => Ok(Direction::Backward),
        _ => Err(LineFault::BadArgument),
    }
}

/// Reads the steps before which a break hits.
fn break_of(words: &[&[u8]]) -> Result<Break, LineFault>
    ensures { result ≡ break_of (map (λ word. word.now) words.now) }
{
    match words {
        [word] => break_at(word),
        _ => Err(LineFault::BadArgument),
    }
}

fn break_at(word: &[u8]) -> Result<Break, LineFault>
    ensures { result ≡ break_at word.now }
{
    match word.split_first() {
        Some((b'@', digits)) => Ok(Break::Step(at_least_one(number(digits)?)?)),
        _ => match Kind::named(word) {
            Some(kind) => Ok(Break::Kind(kind)),
            None => Err(LineFault::BadArgument),
        },
    }
}

/// Reads a cell: its name, and its number if it has one.
fn cell(words: &[&[u8]]) -> Result<Cell, LineFault>
    ensures { result ≡ cell_of (map (λ word. word.now) words.now) }
{
    match words {
        [name] => Cell::named(name, None).ok_or(LineFault::BadArgument),
        [name, word] => {
            let index = number(word)?;
            Cell::named(name, Some(index)).ok_or(LineFault::BadArgument)
        }
        _ => Err(LineFault::BadArgument),
    }
}

/// Reads the command that deletes a mark or a checkpoint.
fn deletion(words: &[&[u8]]) -> Result<Command, LineFault>
    ensures { result ≡ deletion_of (map (λ word. word.now) words.now) }
{
    match words {
        [word] => Ok(Command::Delete(number(word)?)),
        [what, word] if is(what, b"checkpoint") => Ok(Command::DeleteCheckpoint(number(word)?)),
        _ => Err(LineFault::BadArgument),
    }
}

/// Reads which buffer or queue to dump, from a word and a socket's number.
fn dump(words: &[&[u8]]) -> Result<Query, LineFault>
    ensures { result ≡ dump_of (map (λ word. word.now) words.now) }
{
    match words {
        [kind, word] => buffer_or_queue(kind, number(word)?),
        _ => Err(LineFault::BadArgument),
    }
}

/// Returns the query for a socket's buffer or queue with this name.
fn buffer_or_queue(kind: &[u8], socket: u32) -> Result<Query, LineFault>
    ensures { result ≡ buffer_or_queue kind.now socket }
{
    let (read, write) = (Side::Read, Side::Write);
    match kind {
        _ if is(kind, b"in") => Ok(Query::DumpBytes { side: read, socket }),
        _ if is(kind, b"out") => Ok(Query::DumpBytes {
            side: write,
            socket,
        }),
        _ if is(kind, b"rq") => Ok(Query::DumpQueue { side: read, socket }),
        _ if is(kind, b"wq") => Ok(Query::DumpQueue {
            side: write,
            socket,
        }),
        _ => Err(LineFault::BadArgument),
    }
}

/// Reads the topic of an `info`.
fn info(words: &[&[u8]]) -> Result<Query, LineFault>
    ensures { result ≡ info_of (map (λ word. word.now) words.now) }
{
    match words {
        [topic] => topic_of(topic),
        _ => Err(LineFault::BadArgument),
    }
}

fn topic_of(topic: &[u8]) -> Result<Query, LineFault>
    ensures { result ≡ topic_of topic.now }
{
    match topic {
        _ if is(topic, b"position") => Ok(Query::Position),
        _ if is(topic, b"breakpoints") => Ok(Query::Breakpoints),
        _ if is(topic, b"checkpoints") => Ok(Query::Checkpoints),
        _ => Err(LineFault::BadArgument),
    }
}

/// Returns a number, which must be at least 1.
fn at_least_one(number: u32) -> Result<NonZeroU32, LineFault>
    ensures { result ≡ at_least_one number }
{
    from_one(number).ok_or(LineFault::BadArgument)
}

/// Reads a number below 2^32 in decimal digits, with or without leading zeros. Fails with
/// `BadArgument` if the word isn't such a number.
pub fn number(word: &[u8]) -> Result<u32, LineFault>
    ensures { result ≡ number_of word.now }
{
    if word.is_empty() {
        return Err(LineFault::BadArgument);
    }
    let mut value = 0u32;
    for digit in word {
        if !digit.is_ascii_digit() {
            return Err(LineFault::BadArgument);
        }
        let next = u64::from(value) * 10 + u64::from(*digit - b'0');
        let Ok(next) = u32::try_from(next) else {
            return Err(LineFault::BadArgument);
        };
        value = next;
    }
    Ok(value)
}
