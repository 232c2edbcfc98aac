//! The errors when a recording is made, read or written.

ghost use Rattle.std.specs.Prelude.{◌≡◌, Some};
ghost use Rattle.nr_rev.specs.Refusing.{refused_memory};
ghost use Rattle.nr_recording.specs.declared.fault.LineError.TheVariants.{Memory as LineMemory, Fault as AFault};
ghost use Rattle.nr_recording.specs.declared.fault.WriteFault.TheVariants.{Memory as NoMemory, Device as DeviceFailed};
ghost use Rattle.nr_recording.specs.Faults.{fault_text, memory_line, read_fault_line};
ghost use Rattle.nr_recording.specs.Auxiliary.Faults.{of_hex, of_json};

use hex::FromHexError;
use nr_rev::Memory;
use nr_text::{Buffered, Part, Text, Token, WriteFailed, send_all};
use serde_json::Category;
use std::alloc::AllocError;
use std::fmt::{Display, Formatter, Write};
use std::{fmt, io};
use thiserror::Error;

/// The reason why a line is faulty.
#[derive(Clone, Copy, Debug, PartialEq, Eq)]
pub enum Fault {
    /// The text has only blank lines, or the first other line is not a valid header object: a key
    /// is missing or unknown, the version is unknown, or a value is not an unsigned number.
    Header,
    /// The line is not JSON, or is nested more than 127 levels deep.
    NotJson,
    /// The line is not an array that begins with the name of a kind.
    UnknownStep,
    /// The arguments don't match the kind.
    Arguments,
    /// The line has more than 200,000 bytes, or a limit is out of its range.
    Limit,
    /// The line would be the 1,000,001st step.
    TooManySteps,
}

impl Fault {
    /// Returns the fault's number and text, as in `102 not JSON`.
    pub fn text(self) -> &'static str
        ensures { result.now ≡ fault_text self }
    {
        match self {
            Fault::Header => "101 header",
            Fault::NotJson => "102 not JSON",
            Fault::UnknownStep => "103 unknown step",
            Fault::Arguments => "104 arguments",
            Fault::Limit => "105 limit",
            Fault::TooManySteps => "106 too many steps",
        }
    }
}

impl Display for Fault {
    ghost output = { λ fault. Some (fault_text fault) };

    fn fmt<W: Write>(&self, f: &mut Formatter<W>) -> fmt::Result {
        f.write_str(self.text())
    }
}

/// The error of a failed allocation.
#[derive(Clone, Copy, Debug, PartialEq, Eq)]
pub struct OutOfMemory(pub Memory);

/// The text of this error is the line `fault 108 memory`.
impl Text for OutOfMemory {
    ghost text = { λ _. memory_line };

    fn send<W: io::Write>(&self, w: &mut Buffered<W>) -> Result<(), WriteFailed> {
        w.send(b"fault 108 memory\n")
    }
}

/// The reason why a text could not be read.
#[derive(Clone, Copy, Debug, PartialEq, Eq, Error)]
pub enum ReadFault {
    /// The first faulty line, counted from 1, and its fault.
    #[error("line {line}: fault {fault}")]
    Line { line: usize, fault: Fault },
    /// Memory ran out.
    #[error("fault 108 memory")]
    Memory(Memory),
}

/// The text of a fault is a line such as `line 6: fault 102 not JSON` or `fault 108 memory`.
impl Text for ReadFault {
    ghost text = { read_fault_line };

    fn send<W: io::Write>(&self, w: &mut Buffered<W>) -> Result<(), WriteFailed> {
        match self {
            ReadFault::Line { line, fault } => {
                let parts = [
                    Token::Text(b"line "),
                    Token::Number(*line as u64),
                    Token::Text(b": fault "),
                    Token::Text(fault.text().as_bytes()),
                    Token::Text(b"\n"),
                ];
                send_all(&parts, w)
            }
            ReadFault::Memory(refused) => OutOfMemory(*refused).send(w),
        }
    }
}

/// The reason why limits, steps and answers don't make a recording.
#[derive(Clone, Copy, Debug, PartialEq, Eq, Error)]
pub enum MakeFault {
    /// A limit is out of its range.
    #[error("a limit is out of its range")]
    Limit,
    /// There are more than 1,000,000 steps.
    #[error("more than 1,000,000 steps")]
    TooManySteps,
    /// A step carries more than 65,536 bytes, sets the clock below 0, or shuts a write side in
    /// version 1. This is also the error for a wrong number of answers. Version 1 allows no
    /// answers, and version 2 requires one for each step.
    #[error("a step carries too many bytes, sets the clock below 0 or is not of the version")]
    Step,
}

/// The reason why a line could not be read.
#[derive(Debug, Drop)]
pub(crate) enum LineError {
    Memory(Memory),
    Fault(Fault),
}

impl From<Fault> for LineError {
    ghost from_gives = { λ f e. e ≡ AFault f };

    fn from(fault: Fault) -> LineError {
        LineError::Fault(fault)
    }
}

/// Converts an error from the hexadecimal decoder. Unless memory ran out, the argument is faulty.
impl From<FromHexError> for LineError {
    ghost from_gives = { λ error e. e ≡ of_hex error };

    fn from(error: FromHexError) -> LineError {
        match error {
            FromHexError::OutOfMemory => LineError::Memory(AllocError.into()),
            _ => LineError::Fault(Fault::Arguments),
        }
    }
}

/// Converts an error of the JSON reader: unless memory ran out, the line is not JSON.
impl From<serde_json::Error> for LineError {
    ghost from_gives = { λ error e. e ≡ of_json error };

    fn from(error: serde_json::Error) -> LineError {
        match error.classify() {
            Category::Memory => LineError::Memory(AllocError.into()),
            _ => LineError::Fault(Fault::NotJson),
        }
    }
}

impl From<Memory> for LineError {
    ghost from_gives = { λ _ e. e ≡ LineMemory refused_memory };

    fn from(refused: Memory) -> LineError {
        LineError::Memory(refused)
    }
}

impl LineError {
    ghost use Rattle.nr_recording.specs.Auxiliary.Reading.{read_fault_at};

    /// Converts the error of a line to the error of the text, given the number of the line.
    pub(crate) fn at(self, line: usize) -> ReadFault
        ensures { result ≡ read_fault_at line self }
    {
        match self {
            LineError::Memory(refused) => ReadFault::Memory(refused),
            LineError::Fault(fault) => ReadFault::Line { line, fault },
        }
    }
}

/// The reason why a recording was not written.
#[derive(Clone, Copy, Debug, PartialEq, Eq, Error)]
pub enum WriteFault {
    /// Memory ran out. Only whole lines were written, from the first on, and not all of them.
    #[error("memory")]
    Memory(Memory),
    /// A write failed or accepted no bytes. The beginning of the text may have been written, but
    /// not all of it.
    #[error("device")]
    Device,
}

impl From<Memory> for WriteFault {
    ghost from_gives = { λ _ e. e ≡ NoMemory refused_memory };

    fn from(refused: Memory) -> WriteFault {
        WriteFault::Memory(refused)
    }
}

impl From<Part> for WriteFault {
    ghost from_gives = { λ _ e. e ≡ DeviceFailed };

    fn from(_e: Part) -> WriteFault {
        WriteFault::Device
    }
}
