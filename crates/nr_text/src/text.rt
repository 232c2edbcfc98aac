//! Values that have a text and are written piece by piece.

ghost use Rattle.std.specs.Prelude.{ℕ, List};
ghost use Rattle.nr_text.specs.Buffered.{Writes};
ghost use Rattle.nr_text.specs.Text.{hex_pair, spaced_number};
ghost use Rattle.nr_text.specs.Auxiliary.Text.{text_of_parts};

use crate::buffered::{Buffered, WriteFailed};
use itoa::Buffer;
use std::io::Write;

/// A value that has a text and is written piece by piece.
pub trait Text {
    /// The text.
    ghost text: { Self → List ℕ };

    /// Sends the text to a writer that joins pieces.
    fn send<W: Write>(&self, w: &mut Buffered<W>) -> Result<(), WriteFailed>
        ensures { Writes w.old w.new (text self.now) result };
}

/// A byte as two hexadecimal digits, in lower case.
#[derive(Clone, Copy)]
pub(crate) struct HexPair(pub(crate) u8);

impl Text for HexPair {
    ghost text = { λ pair. hex_pair pair.0 };

    fn send<W: Write>(&self, w: &mut Buffered<W>) -> Result<(), WriteFailed> {
        let mut digits = [0u8; 2];
        let Ok(()) = hex::encode_to_slice(&[self.0], &mut digits) else {
            unreachable!()
        };
        w.send(&digits)
    }
}

/// A number after a space.
#[derive(Clone, Copy)]
pub(crate) struct Spaced(pub(crate) u32);

impl Text for Spaced {
    ghost text = { λ spaced. spaced_number spaced.0 };

    fn send<W: Write>(&self, w: &mut Buffered<W>) -> Result<(), WriteFailed> {
        let mut digits = Buffer::new();
        let digits = digits.format(self.0).as_bytes();
        send_all(&[b" ".as_slice(), digits], w)
    }
}

/// The text of a byte slice is its bytes.
impl Text for &[u8] {
    ghost text = { λ bytes. bytes.now };

    fn send<W: Write>(&self, w: &mut Buffered<W>) -> Result<(), WriteFailed> {
        w.send(self)
    }
}

/// Several texts, one after the other.
#[derive(Clone, Copy)]
pub struct Parts<'a, P: Text>(pub &'a [P]);

impl<P: Text> Text for Parts<'_, P> {
    ghost text = { λ parts. text_of_parts P.text parts.0.now };

    fn send<W: Write>(&self, w: &mut Buffered<W>) -> Result<(), WriteFailed> {
        send_all(self.0, w)
    }
}

/// Sends texts one after the other.
pub fn send_all<P: Text, W: Write>(parts: &[P], w: &mut Buffered<W>) -> Result<(), WriteFailed>
    ensures { Writes w.old w.new (text_of_parts P.text parts.now) result }
{
    for part in parts {
        part.send(w)?;
    }
    Ok(())
}
