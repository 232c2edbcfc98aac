//! Readers and writers that move byte by byte, are interrupted, and stop.
ghost use Rattle.std.specs.Prelude.{Some};

use std::io;
use std::io::{ErrorKind, Read, Write};

/// A reader that returns one byte per call, and fails after `left` bytes.
#[derive(Drop)]
pub struct Drip<'a> {
    pub bytes: &'a [u8],
    pub left: usize,
}

impl Read for Drip<'_> {
    ghost remaining = { λ s. Some s.bytes.now };

    fn read(&mut self, buf: &mut [u8]) -> io::Result<usize> {
        if self.left == 0 {
            return Err(ErrorKind::Other.into());
        }
        match self.bytes.split_first() {
            Some((first, rest)) if !buf.is_empty() => {
                buf[0] = *first;
                self.bytes = rest;
                self.left -= 1;
                Ok(1)
            }
            _ => Ok(0),
        }
    }
}

/// What a full writer does.
#[derive(Clone, Copy, Debug, PartialEq, Eq)]
pub enum AtBrim {
    Fails,
    TakesNothing,
}

/// A writer that accepts one byte per call, until it has `room` bytes.
#[derive(Drop)]
pub struct Cup {
    pub held: Vec<u8>,
    pub room: usize,
    pub then: AtBrim,
}

impl Write for Cup {
    ghost contents = { λ s. Some s.held.items };

    fn write(&mut self, buf: &[u8]) -> io::Result<usize> {
        if self.held.len() >= self.room {
            match self.then {
                AtBrim::Fails => return Err(ErrorKind::Other.into()),
                AtBrim::TakesNothing => return Ok(0),
            }
        }
        match buf.split_first() {
            Some((first, _)) => {
                self.held.push(*first)?;
                Ok(1)
            }
            None => Ok(0),
        }
    }

    fn flush(&mut self) -> io::Result<()> {
        Ok(())
    }
}

/// A stream that is interrupted at every second call.
#[derive(Drop)]
pub struct Stutter<S> {
    pub stream: S,
    is_turn: bool,
}

impl<S> Stutter<S> {
    pub fn new(stream: S) -> Stutter<S> {
        Stutter {
            stream,
            is_turn: false,
        }
    }
}

impl<R: Read> Read for Stutter<R> {
    ghost remaining = { λ s. R.remaining s.stream };

    fn read(&mut self, buf: &mut [u8]) -> io::Result<usize> {
        self.is_turn = !self.is_turn;
        if self.is_turn {
            return Err(ErrorKind::Interrupted.into());
        }
        self.stream.read(buf)
    }
}

impl<W: Write> Write for Stutter<W> {
    ghost contents = { λ s. W.contents s.stream };

    fn write(&mut self, buf: &[u8]) -> io::Result<usize> {
        self.is_turn = !self.is_turn;
        if self.is_turn {
            return Err(ErrorKind::Interrupted.into());
        }
        self.stream.write(buf)
    }

    fn flush(&mut self) -> io::Result<()> {
        self.stream.flush()
    }
}

/// A writer that accepts all bytes, and counts the calls.
#[derive(Drop)]
pub struct Counted {
    pub held: Vec<u8>,
    pub calls: usize,
}

impl Write for Counted {
    ghost contents = { λ s. Some s.held.items };

    fn write(&mut self, buf: &[u8]) -> io::Result<usize> {
        self.calls = self.calls.saturating_add(1);
        self.held.extend_from_slice(buf)?;
        Ok(buf.len())
    }

    fn flush(&mut self) -> io::Result<()> {
        Ok(())
    }
}
