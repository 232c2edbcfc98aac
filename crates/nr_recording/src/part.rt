//! The parts of a line, which is an array: JSON values, or texts and numbers borrowed from the line
//! itself.

ghost use Rattle.std.specs.Prelude.{◌≡◌, MatchOption, option_map};
ghost use Rattle.serde_json.specs.Data.{no_items, item};
ghost use Rattle.serde_json.specs.Find.{as_str};
ghost use Rattle.serde_json.specs.View.{items_view, view};
ghost use Rattle.nr_recording.specs.Answer.{answer_of};
ghost use Rattle.nr_recording.specs.Arguments.{i64_of, u64_of};
ghost use Rattle.nr_recording.specs.Part.{part_data, elements, rest_of};

use crate::answer::{answer_of, counted, worded};
use arrayvec::ArrayVec;
use nr_rev::Answer;
use serde_json::Value;
use std::slice::Iter;

/// The maximum number of parts in a step's line: the kind's name, four arguments and an answer.
pub(crate) const MOST_PARTS: usize = 6;

/// A part of a line.
#[derive(Clone, Copy)]
pub(crate) enum Part<'a> {
    Text(&'a [u8]),
    Number(u64),
    /// A text and a number in brackets: an answer with a count.
    Pair(&'a [u8], u64),
    Value(&'a Value),
}

// Fills the unused places in a list.
impl<'a> Default for Part<'a> {
    fn default() -> Part<'a> {
        Part::Number(0)
    }
}

impl<'a> Part<'a> {
    /// Returns the part as an unsigned 64-bit number, if it is one.
    pub(crate) fn as_u64(self) -> Option<u64>
        ensures { result ≡ u64_of (part_data self.entry) }
    {
        match self {
            Part::Number(number) => Some(number),
            Part::Value(value) => value.as_u64(),
            Part::Text(_) | Part::Pair(..) => None,
        }
    }

    /// Returns the part as a signed 64-bit number, if it is one.
    pub(crate) fn as_i64(self) -> Option<i64>
        ensures { result ≡ i64_of (part_data self.entry) }
    {
        match self {
            Part::Number(number) => i64::try_from(number).ok(),
            Part::Value(value) => value.as_i64(),
            Part::Text(_) | Part::Pair(..) => None,
        }
    }

    /// Returns the bytes of the part, if it is a text.
    pub(crate) fn as_bytes(self) -> Option<&'a [u8]>
        ensures { option_map (λ text. text.now) result ≡ as_str (part_data self.entry) }
    {
        match self {
            Part::Text(text) => Some(text),
            Part::Value(value) => Some(value.as_str()?.as_bytes()),
            Part::Number(_) | Part::Pair(..) => None,
        }
    }

    /// Returns the part as an answer, if it is one.
    pub(crate) fn answer(self) -> Option<Answer>
        ensures { result ≡ answer_of (part_data self.entry) }
    {
        match self {
            Part::Text(word) => worded(word),
            Part::Pair(word, count) => counted(word, u32::try_from(count).ok()?),
            Part::Value(value) => answer_of(value),
            Part::Number(_) => None,
        }
    }
}

/// The parts of a line.
pub(crate) type PartList<'a> = ArrayVec<Part<'a>, MOST_PARTS>;

/// Returns the values of an array, or none if the value isn't an array.
pub(crate) fn elements(value: &Value) -> &[Value]
    ensures { items_view result.now ≡ elements (view value.now) }
{
    match value {
        Value::Array(parts) => parts.as_slice(),
        _ => &[],
    }
}

/// The parts of a line that haven't been read yet.
#[derive(Drop)]
pub(crate) enum Parts<'a> {
    Values(Iter<'a, Value>),
    Plain(Iter<'a, Part<'a>>),
}

impl<'a> Parts<'a> {
    /// Returns the next part.
    pub(crate) fn next(&mut self) -> Option<Part<'a>>
        ensures { MatchOption result (rest_of self.old ≡ no_items)
            (λ part. rest_of self.old ≡ item (part_data part) (rest_of self.new)) }
    {
        match self {
            Parts::Values(values) => Some(Part::Value(values.next()?)),
            Parts::Plain(parts) => parts.next().copied(),
        }
    }
}
