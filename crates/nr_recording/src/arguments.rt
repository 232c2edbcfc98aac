//! The arguments of a step. Each function reads one argument from the front of the line's remaining
//! parts.

ghost use Rattle.std.specs.Prelude.{◌≡◌, true};
ghost use Rattle.nr_rev.specs.Refusing.{refused_memory};
ghost use Rattle.nr_recording.specs.Numbers.{u32_of};
ghost use Rattle.nr_recording.specs.Part.{part_data, rest_of};
ghost use Rattle.nr_recording.specs.Arguments.{side_named, side_of, mode_named, mode_of, bit_named, bit_of, time_of, number as number_in, side as side_in, mode as mode_in, answer as answer_in, tag as tag_in, bit as bit_in, moment as moment_in, time as time_in, bytes as bytes_in};
ghost use Rattle.nr_recording.specs.Auxiliary.Arguments.{with_rest, first_takes_memory};
ghost use Rattle.nr_recording.specs.Auxiliary.Faults.{ReadsBy};

use crate::fault::{Fault, LineError};
use crate::part::{Part, Parts};
use crate::recording::MOST_BYTES;
use nr_rev::{Answer, Bytes, Mode, Side};
use std::alloc::Global;

const MOST_DIGITS: usize = 2 * MOST_BYTES;

/// Returns the 32-bit number that a part denotes.
fn u32_of(part: Part<'_>) -> Option<u32>
    ensures { result ≡ u32_of (part_data part.entry) }
{
    u32::try_from(part.as_u64()?).ok()
}

fn bit_named(number: u64) -> Option<bool>
    ensures { result ≡ bit_named number }
{
    match number {
        0 => Some(false),
        1 => Some(true),
        _ => None,
    }
}

fn bit_of(part: Part<'_>) -> Option<bool>
    ensures { result ≡ bit_of (part_data part.entry) }
{
    bit_named(part.as_u64()?)
}

fn time_of(part: Part<'_>) -> Option<i64>
    ensures { result ≡ time_of (part_data part.entry) }
{
    part.as_i64().filter(|time| *time >= 0)
}

fn side_named(name: &[u8]) -> Option<Side>
    ensures { result ≡ side_named name.now }
{
    match name {
        b"r" => Some(Side::Read),
        b"w" => Some(Side::Write),
        _ => None,
    }
}

fn side_of(part: Part<'_>) -> Option<Side>
    ensures { result ≡ side_of (part_data part.entry) }
{
    side_named(part.as_bytes()?)
}

fn mode_named(name: &[u8]) -> Option<Mode>
    ensures { result ≡ mode_named name.now }
{
    match name {
        b"r" => Some(Mode::Read),
        b"w" => Some(Mode::Write),
        b"rw" => Some(Mode::Both),
        _ => None,
    }
}

fn mode_of(part: Part<'_>) -> Option<Mode>
    ensures { result ≡ mode_of (part_data part.entry) }
{
    mode_named(part.as_bytes()?)
}

/// Reads an unsigned 32-bit number.
pub(crate) fn number(arguments: &mut Parts<'_>) -> Result<u32, Fault>
    ensures { number_in (rest_of arguments.old) ≡ with_rest (rest_of arguments.new) result }
{
    arguments.next().and_then(u32_of).ok_or(Fault::Arguments)
}

/// Reads an unsigned 64-bit number.
pub(crate) fn tag(arguments: &mut Parts<'_>) -> Result<u64, Fault>
    ensures { tag_in (rest_of arguments.old) ≡ with_rest (rest_of arguments.new) result }
{
    arguments
        .next()
        .and_then(Part::as_u64)
        .ok_or(Fault::Arguments)
}

/// Reads a bit, 0 or 1, and returns whether it is 1.
pub(crate) fn bit(arguments: &mut Parts<'_>) -> Result<bool, Fault>
    ensures { bit_in (rest_of arguments.old) ≡ with_rest (rest_of arguments.new) result }
{
    arguments.next().and_then(bit_of).ok_or(Fault::Arguments)
}

/// Reads a time in nanoseconds, which may be negative.
pub(crate) fn moment(arguments: &mut Parts<'_>) -> Result<i64, Fault>
    ensures { moment_in (rest_of arguments.old) ≡ with_rest (rest_of arguments.new) result }
{
    arguments
        .next()
        .and_then(Part::as_i64)
        .ok_or(Fault::Arguments)
}

/// Reads a time in nanoseconds that is at least 0.
pub(crate) fn time(arguments: &mut Parts<'_>) -> Result<i64, Fault>
    ensures { time_in (rest_of arguments.old) ≡ with_rest (rest_of arguments.new) result }
{
    arguments.next().and_then(time_of).ok_or(Fault::Arguments)
}

/// Reads a side.
pub(crate) fn side(arguments: &mut Parts<'_>) -> Result<Side, Fault>
    ensures { side_in (rest_of arguments.old) ≡ with_rest (rest_of arguments.new) result }
{
    arguments.next().and_then(side_of).ok_or(Fault::Arguments)
}

/// Reads a mode: one side or both.
pub(crate) fn mode(arguments: &mut Parts<'_>) -> Result<Mode, Fault>
    ensures { mode_in (rest_of arguments.old) ≡ with_rest (rest_of arguments.new) result }
{
    arguments.next().and_then(mode_of).ok_or(Fault::Arguments)
}

/// Reads a recorded answer.
pub(crate) fn answer(arguments: &mut Parts<'_>) -> Result<Answer, Fault>
    ensures { answer_in (rest_of arguments.old) ≡ with_rest (rest_of arguments.new) result }
{
    arguments
        .next()
        .and_then(Part::answer)
        .ok_or(Fault::Arguments)
}

/// Reads bytes, written as hexadecimal digits.
pub(crate) fn bytes(alloc: Global, arguments: &mut Parts<'_>) -> Result<Bytes, LineError>
    ensures found { ReadsBy (λ bytes. (bytes, rest_of arguments.new)) result
        (bytes_in (rest_of arguments.old)) }
    ensures memory { result ≡ Err (LineError.Memory refused_memory)
        → first_takes_memory (rest_of arguments.old) ≡ true }
{
    let text = arguments
        .next()
        .and_then(Part::as_bytes)
        .ok_or(Fault::Arguments)?;
    if text.len() > MOST_DIGITS {
        return Err(LineError::Fault(Fault::Arguments));
    }
    Ok(Bytes::new(hex::decode(alloc, text)?))
}
