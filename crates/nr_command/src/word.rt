//! Encodes a command and its tag as a word, which is one 64-bit number, and decodes the word.

ghost use Rattle.std.specs.Prelude.{◌≡◌, ◌<◌, ◌/◌, ◌%◌, ◌^◌, Some};
ghost use Rattle.nr_rev.specs.Kind.{kind_numbered};
ghost use Rattle.nr_journal.specs.Auxiliary.Rule.{HasOpcode};
ghost use Rattle.nr_command.specs.Word.{argument_of, break_number, break_numbered, cell_at, command_of, command_with, direction_numbered, from_one_below, only_without, opcode_of, small, watch_at, word_of};
ghost use Rattle.nr_command.specs.Auxiliary.Word.{HasTypedNumbers, HasTypedStep};

use crate::command::Command;
use crate::count::from_one;
use nr_marks::Break;
use nr_rev::{Cell, Kind};
use nr_search::Direction;
use std::num::NonZeroU32;

impl Command {
    /// Returns the command and the tag as one number: the command's opcode, plus 256 times the tag,
    /// plus 65,536 times the command's argument. The opcode is one that the journal accepts.
    pub fn to_word(&self, tag: u8) -> u64
        ensures word { result ≡ word_of tag self.now }
        ensures back { command_of result ≡ Some (tag, self.now) }
        ensures opcode { HasOpcode result }
        ensures tag { result / 256 % 256 ≡ tag }
    {
        u64::from(self.opcode()) + 256 * u64::from(tag) + 65536 * self.argument()
    }

    /// Returns the tag and the command of a word, or `None` for a number that isn't the word of any
    /// command.
    pub fn of_word(word: u64) -> Option<(u8, Command)>
        ensures { result ≡ command_of word }
    {
        let tag = (word / 256 % 256) as u8;
        let command = with_argument(word % 256, word / 65536)?;
        Some((tag, command))
    }

    fn opcode(self) -> u8
        ensures { result ≡ opcode_of self }
    {
        match self {
            Command::Step(_) => 1,
            Command::ReverseStep(_) => 2,
            Command::Continue => 3,
            Command::ReverseContinue => 4,
            Command::SetDirection(_) => 5,
            Command::Break(_) => 6,
            Command::Watch(_) => 7,
            Command::Delete(_) => 8,
            Command::Checkpoint => 9,
            Command::Restart(_) => 10,
            Command::DeleteCheckpoint(_) => 11,
            Command::TemporaryBreak(_) => 12,
        }
    }

    /// Returns the command's argument, in 48 bits.
    fn argument(self) -> u64
        ensures value { result ≡ argument_of self }
        ensures fits { result < 2 ^ 48 }
        ensures typed { HasTypedNumbers self }
    {
        match self {
            Command::Step(count) | Command::ReverseStep(count) => u64::from(count.get()),
            Command::Continue | Command::ReverseContinue | Command::Checkpoint => 0,
            Command::SetDirection(Direction::Forward) => 0,
            Command::SetDirection(Direction::Backward) => 1,
            Command::Break(wanted) | Command::TemporaryBreak(wanted) => break_number(wanted),
            Command::Watch(cell) => {
                u64::from(cell.number()) + 256 * u64::from(cell.index().unwrap_or(0))
            }
            Command::Delete(number)
            | Command::Restart(number)
            | Command::DeleteCheckpoint(number) => { u64::from(number) }
        }
    }
}

/// Returns a break as a number, whose lowest byte says whether the break names a kind or a step.
fn break_number(wanted: Break) -> u64
    ensures value { result ≡ break_number wanted }
    ensures fits { result < 2 ^ 48 }
    ensures typed { HasTypedStep wanted }
{
    match wanted {
        Break::Kind(kind) => 256 * u64::from(kind.number()),
        Break::Step(step) => 1 + 256 * u64::from(step.get()),
    }
}

/// Returns the command with this opcode and argument.
fn with_argument(opcode: u64, argument: u64) -> Option<Command>
    ensures { result ≡ command_with opcode argument }
{
    match opcode {
        1 => Some(Command::Step(from_one_below(argument)?)),
        2 => Some(Command::ReverseStep(from_one_below(argument)?)),
        3 => only_without(argument, Command::Continue),
        4 => only_without(argument, Command::ReverseContinue),
        5 => Some(Command::SetDirection(direction_numbered(argument)?)),
        6 => Some(Command::Break(break_numbered(argument)?)),
        7 => Some(Command::Watch(watch_at(argument)?)),
        8 => Some(Command::Delete(small(argument)?)),
        9 => only_without(argument, Command::Checkpoint),
        10 => Some(Command::Restart(small(argument)?)),
        11 => Some(Command::DeleteCheckpoint(small(argument)?)),
        12 => Some(Command::TemporaryBreak(break_numbered(argument)?)),
        _ => None,
    }
}

/// Returns the command, which takes no argument, if the word's argument is 0.
fn only_without(argument: u64, command: Command) -> Option<Command>
    ensures { result ≡ only_without argument command }
{
    if argument == 0 { Some(command) } else { None }
}

/// Returns the number if it is below 2^32.
fn small(argument: u64) -> Option<u32>
    ensures { result ≡ small argument }
{
    u32::try_from(argument).ok()
}

/// Returns the number if it is between 1 and 2^32 - 1.
fn from_one_below(argument: u64) -> Option<NonZeroU32>
    ensures { result ≡ from_one_below argument }
{
    from_one(small(argument)?)
}

fn direction_numbered(argument: u64) -> Option<Direction>
    ensures { result ≡ direction_numbered argument }
{
    match argument {
        0 => Some(Direction::Forward),
        1 => Some(Direction::Backward),
        _ => None,
    }
}

/// Returns the break that this number represents.
fn break_numbered(argument: u64) -> Option<Break>
    ensures { result ≡ break_numbered argument }
{
    match argument % 256 {
        0 => Some(Break::Kind(kind_numbered(argument / 256)?)),
        1 => Some(Break::Step(from_one_below(argument / 256)?)),
        _ => None,
    }
}

fn kind_numbered(number: u64) -> Option<Kind>
    ensures { result ≡ kind_numbered number }
{
    match u8::try_from(number) {
        Ok(number) => Kind::numbered(number),
        Err(_) => None,
    }
}

/// Returns the cell that a word's argument represents.
fn watch_at(argument: u64) -> Option<Cell>
    ensures { result ≡ watch_at argument }
{
    let number = (argument % 256) as u8;
    let index = small(argument / 256)?;
    cell_at(number, index)
}

/// Returns the cell with this number and index. The index 0 also stands for no index.
fn cell_at(number: u8, index: u32) -> Option<Cell>
    ensures { result ≡ cell_at number index }
{
    if index == 0
        && let Some(cell) = Cell::numbered(number, None)
    {
        return Some(cell);
    }
    Cell::numbered(number, Some(index))
}
