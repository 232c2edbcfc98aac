//! The JSON of a recorded answer: a word, or a word and a number.

ghost use Rattle.std.specs.Prelude.{◌≡◌, IfOk};
ghost use Rattle.serde_json.specs.View.{view, items_view};
ghost use Rattle.nr_recording.specs.Answer.{worded, counted, counted_of, answer_of};
ghost use Rattle.nr_recording.specs.Auxiliary.Answer.{counted_data, IsAnswer};

use nr_rev::Answer;
use serde_json::{Value, json};
use std::alloc::{AllocError, Global};

pub(crate) fn worded(word: &[u8]) -> Option<Answer>
    ensures { result ≡ worded word.now }
{
    match word {
        b"done" => Some(Answer::Done),
        b"yes" => Some(Answer::Yes),
        b"no" => Some(Answer::No),
        b"wait" => Some(Answer::Wait),
        b"last" => Some(Answer::Last),
        b"notlast" => Some(Answer::NotLast),
        b"eof" => Some(Answer::Eof),
        b"again" => Some(Answer::Again),
        b"stale" => Some(Answer::Stale),
        b"pipe" => Some(Answer::Pipe),
        _ => None,
    }
}

pub(crate) fn counted(word: &[u8], count: u32) -> Option<Answer>
    ensures { result ≡ counted word.now count }
{
    match word {
        b"number" => Some(Answer::Number(count)),
        b"code" => Some(Answer::Code(count)),
        b"got" => Some(Answer::Got(count)),
        b"put" => Some(Answer::Put(count)),
        _ => None,
    }
}

fn counted_of(parts: &[Value]) -> Option<Answer>
    ensures { result ≡ counted_of (items_view parts.now) }
{
    match parts {
        [word, count] => counted(
            word.as_str()?.as_bytes(),
            u32::try_from(count.as_u64()?).ok()?,
        ),
        _ => None,
    }
}

/// Returns the answer that a JSON value denotes, if any.
pub(crate) fn answer_of(value: &Value) -> Option<Answer>
    ensures { result ≡ answer_of (view value.now) }
{
    match value {
        Value::String(word) => worded(word.as_bytes()),
        Value::Array(parts) => counted_of(parts.as_slice()),
        _ => None,
    }
}

fn counted_value(alloc: Global, word: &str, count: u32) -> Result<Value, AllocError>
    ensures { IfOk result (λ v. view v ≡ counted_data word.now count) }
{
    json!(in alloc; [word, count])
}

/// Makes the JSON value of an answer.
pub(crate) fn answer_value(alloc: Global, answer: Answer) -> Result<Value, AllocError>
    ensures { IfOk result (λ v. IsAnswer (view v) answer) }
{
    match answer {
        Answer::Number(number) => counted_value(alloc, "number", number),
        Answer::Code(code) => counted_value(alloc, "code", code),
        Answer::Got(count) => counted_value(alloc, "got", count),
        Answer::Put(count) => counted_value(alloc, "put", count),
        Answer::Done => json!(in alloc; "done"),
        Answer::Yes => json!(in alloc; "yes"),
        Answer::No => json!(in alloc; "no"),
        Answer::Wait => json!(in alloc; "wait"),
        Answer::Last => json!(in alloc; "last"),
        Answer::NotLast => json!(in alloc; "notlast"),
        Answer::Eof => json!(in alloc; "eof"),
        Answer::Again => json!(in alloc; "again"),
        Answer::Stale => json!(in alloc; "stale"),
        Answer::Pipe => json!(in alloc; "pipe"),
    }
}
