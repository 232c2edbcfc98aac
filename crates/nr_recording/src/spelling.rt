//! Makes the JSON value of a line to write. The value consists of a name and arguments; each shape
//! has its own function.

ghost use Rattle.std.specs.Prelude.{◌≡◌, IfOk, [], ◌∷◌};
ghost use Rattle.serde_json.specs.View.{view};
ghost use Rattle.nr_recording.specs.Spelling.{numeral, digits, tag as tag_argument, time as time_argument, side as side_argument, mode as mode_argument, bit};
ghost use Rattle.nr_recording.specs.Auxiliary.Spelling.{side_name, mode_name, IsSpelling};

use nr_rev::{Mode, Side};
use serde_json::{Value, json};
use std::alloc::{AllocError, Global};

fn side_name(side: Side) -> &'static str
    ensures { result.now ≡ side_name side }
{
    match side {
        Side::Read => "r",
        Side::Write => "w",
    }
}

fn mode_name(mode: Mode) -> &'static str
    ensures { result.now ≡ mode_name mode }
{
    match mode {
        Mode::Read => "r",
        Mode::Write => "w",
        Mode::Both => "rw",
    }
}

pub(crate) fn bare(alloc: Global, name: &str) -> Result<Value, AllocError>
    ensures { IfOk result (λ v. IsSpelling (view v) (name.now, [])) }
{
    json!(in alloc; [name])
}

pub(crate) fn one(alloc: Global, name: &str, n: u32) -> Result<Value, AllocError>
    ensures { IfOk result (λ v. IsSpelling (view v) (name.now, numeral n ∷ [])) }
{
    json!(in alloc; [name, n])
}

pub(crate) fn pair(alloc: Global, name: &str, first: u32, second: u32) -> Result<Value, AllocError>
    ensures { IfOk result
        (λ v. IsSpelling (view v) (name.now, numeral first ∷ numeral second ∷ [])) }
{
    json!(in alloc; [name, first, second])
}

pub(crate) fn triple(
    alloc: Global,
    name: &str,
    first: u32,
    second: u32,
    third: u32,
) -> Result<Value, AllocError>
    ensures { IfOk result
        (λ v. IsSpelling (view v) (name.now, numeral first ∷ numeral second ∷ numeral third ∷ [])) }
{
    json!(in alloc; [name, first, second, third])
}

pub(crate) fn sided(
    alloc: Global,
    name: &str,
    first: u32,
    second: u32,
    side: Side,
) -> Result<Value, AllocError>
    ensures { IfOk result (λ v. IsSpelling (view v)
        (name.now, numeral first ∷ numeral second ∷ side_argument side ∷ [])) }
{
    json!(in alloc; [name, first, second, side_name(side)])
}

pub(crate) fn arrival(
    alloc: Global,
    name: &str,
    socket: u32,
    bytes: &[u8],
) -> Result<Value, AllocError>
    ensures { IfOk result (λ v. IsSpelling (view v)
        (name.now, numeral socket ∷ digits bytes.now ∷ [])) }
{
    let digits = hex::encode(alloc, bytes)?;
    json!(in alloc; [name, socket, digits.as_str()])
}

pub(crate) fn transfer(
    alloc: Global,
    name: &str,
    goroutine: u32,
    socket: u32,
    bytes: &[u8],
) -> Result<Value, AllocError>
    ensures { IfOk result (λ v. IsSpelling (view v)
        (name.now, numeral goroutine ∷ numeral socket ∷ digits bytes.now ∷ [])) }
{
    let text = hex::encode(alloc, bytes)?;
    json!(in alloc; [name, goroutine, socket, text.as_str()])
}

pub(crate) fn deadline(
    alloc: Global,
    name: &str,
    goroutine: u32,
    descriptor: u32,
    mode: Mode,
    time: i64,
) -> Result<Value, AllocError>
    ensures { IfOk result (λ v. IsSpelling (view v) (
      name.now,
      numeral goroutine ∷ numeral descriptor ∷ mode_argument mode ∷ time_argument time ∷ [],
    )) }
{
    json!(in alloc; [name, goroutine, descriptor, mode_name(mode), time])
}

pub(crate) fn event(
    alloc: Global,
    name: &str,
    descriptor: u32,
    tag: u64,
    mode: Mode,
    error: bool,
) -> Result<Value, AllocError>
    ensures { IfOk result (λ v. IsSpelling (view v) (
      name.now,
      numeral descriptor ∷ tag_argument tag ∷ mode_argument mode ∷ bit error ∷ [],
    )) }
{
    json!(in alloc; [name, descriptor, tag, mode_name(mode), u32::from(error)])
}

pub(crate) fn timed(alloc: Global, name: &str, time: i64) -> Result<Value, AllocError>
    ensures { IfOk result (λ v. IsSpelling (view v) (name.now, time_argument time ∷ [])) }
{
    json!(in alloc; [name, time])
}
