//! The parts that texts are made of.

ghost use Rattle.std.specs.Prelude.{flat_map};
ghost use Rattle.nr_text.specs.Buffered.{Writes};
ghost use Rattle.nr_text.specs.Text.{hex_pair, spaced_number};
ghost use Rattle.nr_text.specs.Auxiliary.Text.{token_text};

use crate::buffered::{Buffered, WriteFailed};
use crate::text::{HexPair, Spaced, Text};
use itoa::Buffer;
use std::io::Write;

/// A part of a text.
#[derive(Clone, Copy)]
pub enum Token<'a> {
    /// Bytes that are written as they are.
    Text(&'static [u8]),
    /// A number in decimal digits.
    Number(u64),
    /// A time in decimal digits, with a minus sign if it is negative.
    Time(i64),
    /// Bytes, each as two hexadecimal digits.
    Hex(&'a [u8]),
    /// Numbers, each after a space.
    Numbers(&'a [u32]),
}

impl Text for Token<'_> {
    ghost text = { token_text };

    fn send<W: Write>(&self, w: &mut Buffered<W>) -> Result<(), WriteFailed> {
        let mut digits = Buffer::new();
        match self {
            Token::Text(text) => w.send(text),
            Token::Number(number) => w.send(digits.format(*number).as_bytes()),
            Token::Time(time) => w.send(digits.format(*time).as_bytes()),
            Token::Hex(bytes) => send_hex(bytes, w),
            Token::Numbers(numbers) => send_numbers(numbers, w),
        }
    }
}

/// Sends each byte as two hexadecimal digits.
fn send_hex<W: Write>(bytes: &[u8], w: &mut Buffered<W>) -> Result<(), WriteFailed>
    ensures { Writes w.old w.new (flat_map hex_pair bytes.now) result }
{
    for byte in bytes {
        HexPair(*byte).send(w)?;
    }
    Ok(())
}

/// Sends each number after a space.
fn send_numbers<W: Write>(numbers: &[u32], w: &mut Buffered<W>) -> Result<(), WriteFailed>
    ensures { Writes w.old w.new (flat_map spaced_number numbers.now) result }
{
    for number in numbers {
        Spaced(*number).send(w)?;
    }
    Ok(())
}
