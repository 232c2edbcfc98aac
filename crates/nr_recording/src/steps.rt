//! Converts between steps and the values of their lines, with two rows for each kind.

ghost use Rattle.std.specs.Prelude.{◌≡◌, true, IfOk, ℕ, List, [], ◌∷◌, ◌++◌};
ghost use Rattle.serde_json.specs.Data.{array};
ghost use Rattle.serde_json.specs.View.{view};
ghost use Rattle.nr_rev.specs.Refusing.{refused_memory};
ghost use Rattle.nr_recording.specs.Auxiliary.Arguments.{with_rest};
ghost use Rattle.nr_recording.specs.Auxiliary.Faults.{Reads, ReadsBy};
ghost use Rattle.nr_recording.specs.Part.{rest_of};
ghost use Rattle.nr_recording.specs.Spelling.{Argument, answer as answer_argument};
ghost use Rattle.nr_recording.specs.Auxiliary.Spelling.{IsSpelling};
ghost use Rattle.nr_recording.specs.Steps.{step_in, answer_in, step_of};
ghost use Rattle.nr_recording.specs.Auxiliary.Steps.{kind_takes_memory, step_spelling, spelling_of, step_takes_memory};

use crate::answer::answer_value;
use crate::arguments::{answer, bit, bytes, mode, moment, number, side, tag, time};
use crate::fault::{Fault, LineError};
use crate::part::{Part, Parts};
use crate::recording::RecordedStep;
use crate::spelling::{arrival, bare, deadline, event, one, pair, sided, timed, transfer, triple};
use crate::version::Version;
use nr_rev::{Answer, Kind, Memory, Step};
use serde_json::Value;
use std::alloc::{AllocError, Global};

/// Reads a step of this kind, but not what follows its arguments.
#[tactic(auto, unfolding(crate::specs::Arguments::none))]
fn step_in(alloc: Global, kind: Kind, arguments: &mut Parts<'_>) -> Result<Step, LineError>
    ensures found { ReadsBy (λ step. (step, rest_of arguments.new)) result
        (step_in kind (rest_of arguments.old)) }
    ensures memory { result ≡ Err (LineError.Memory refused_memory)
        → kind_takes_memory kind (rest_of arguments.old) ≡ true }
{
    match kind {
        Kind::Spawn => Ok(Step::Spawn),
        Kind::Exit => Ok(Step::Exit {
            goroutine: number(arguments)?,
        }),
        Kind::SockOpen => Ok(Step::SockOpen {
            read_capacity: number(arguments)?,
            write_capacity: number(arguments)?,
        }),
        Kind::Arrive => Ok(Step::Arrive {
            socket: number(arguments)?,
            bytes: bytes(alloc, arguments)?,
        }),
        Kind::PeerClose => Ok(Step::PeerClose {
            socket: number(arguments)?,
        }),
        Kind::SysRead => Ok(Step::SysRead {
            goroutine: number(arguments)?,
            socket: number(arguments)?,
            count: number(arguments)?,
        }),
        Kind::SysWrite => Ok(Step::SysWrite {
            goroutine: number(arguments)?,
            socket: number(arguments)?,
            bytes: bytes(alloc, arguments)?,
        }),
        Kind::Drain => Ok(Step::Drain {
            socket: number(arguments)?,
            count: number(arguments)?,
        }),
        Kind::Incref => Ok(Step::Incref {
            goroutine: number(arguments)?,
            socket: number(arguments)?,
        }),
        Kind::IncrefClose => Ok(Step::IncrefClose {
            goroutine: number(arguments)?,
            socket: number(arguments)?,
        }),
        Kind::Decref => Ok(Step::Decref {
            goroutine: number(arguments)?,
            socket: number(arguments)?,
        }),
        Kind::RwLock => Ok(Step::RwLock {
            goroutine: number(arguments)?,
            socket: number(arguments)?,
            side: side(arguments)?,
        }),
        Kind::RwUnlock => Ok(Step::RwUnlock {
            goroutine: number(arguments)?,
            socket: number(arguments)?,
            side: side(arguments)?,
        }),
        Kind::Acquire => Ok(Step::Acquire {
            goroutine: number(arguments)?,
        }),
        Kind::Release => Ok(Step::Release {
            goroutine: number(arguments)?,
        }),
        Kind::PollOpen => Ok(Step::PollOpen {
            goroutine: number(arguments)?,
            socket: number(arguments)?,
        }),
        Kind::PollClose => Ok(Step::PollClose {
            goroutine: number(arguments)?,
            descriptor: number(arguments)?,
        }),
        Kind::PollReset => Ok(Step::PollReset {
            goroutine: number(arguments)?,
            descriptor: number(arguments)?,
            side: side(arguments)?,
        }),
        Kind::WaitBegin => Ok(Step::WaitBegin {
            goroutine: number(arguments)?,
            descriptor: number(arguments)?,
            side: side(arguments)?,
        }),
        Kind::BlockArm => Ok(Step::BlockArm {
            goroutine: number(arguments)?,
        }),
        Kind::BlockCheck => Ok(Step::BlockCheck {
            goroutine: number(arguments)?,
        }),
        Kind::ParkCommit => Ok(Step::ParkCommit {
            goroutine: number(arguments)?,
        }),
        Kind::BlockSwap => Ok(Step::BlockSwap {
            goroutine: number(arguments)?,
        }),
        Kind::WaitCheck => Ok(Step::WaitCheck {
            goroutine: number(arguments)?,
        }),
        Kind::SetDeadline => Ok(Step::SetDeadline {
            goroutine: number(arguments)?,
            descriptor: number(arguments)?,
            mode: mode(arguments)?,
            time: moment(arguments)?,
        }),
        Kind::Evict => Ok(Step::Evict {
            goroutine: number(arguments)?,
            descriptor: number(arguments)?,
        }),
        Kind::PollEvent => Ok(Step::PollEvent {
            descriptor: number(arguments)?,
            tag: tag(arguments)?,
            mode: mode(arguments)?,
            error: bit(arguments)?,
        }),
        Kind::Tick => Ok(Step::Tick {
            time: time(arguments)?,
        }),
        Kind::Pop => Ok(Step::Pop),
        Kind::Fire => Ok(Step::Fire {
            place: number(arguments)?,
        }),
        Kind::CloseWrite => Ok(Step::CloseWrite {
            goroutine: number(arguments)?,
            socket: number(arguments)?,
        }),
    }
}

/// Makes the value of a step from its kind's name and its arguments.
fn step_value(alloc: Global, step: &Step) -> Result<Value, AllocError>
    ensures { IfOk result (λ v. IsSpelling (view v) (step_spelling step.now)) }
{
    let name = step.kind().name();
    match step {
        Step::Spawn => bare(alloc, name),
        Step::Exit { goroutine } => one(alloc, name, *goroutine),
        Step::SockOpen {
            read_capacity,
            write_capacity,
        } => pair(alloc, name, *read_capacity, *write_capacity),
        Step::Arrive { socket, bytes } => arrival(alloc, name, *socket, bytes.as_slice()),
        Step::PeerClose { socket } => one(alloc, name, *socket),
        Step::SysRead {
            goroutine,
            socket,
            count,
        } => triple(alloc, name, *goroutine, *socket, *count),
        Step::SysWrite {
            goroutine,
            socket,
            bytes,
        } => transfer(alloc, name, *goroutine, *socket, bytes.as_slice()),
        Step::Drain { socket, count } => pair(alloc, name, *socket, *count),
        Step::Incref { goroutine, socket } => pair(alloc, name, *goroutine, *socket),
        Step::IncrefClose { goroutine, socket } => pair(alloc, name, *goroutine, *socket),
        Step::Decref { goroutine, socket } => pair(alloc, name, *goroutine, *socket),
        Step::RwLock {
            goroutine,
            socket,
            side,
        } => sided(alloc, name, *goroutine, *socket, *side),
        Step::RwUnlock {
            goroutine,
            socket,
            side,
        } => sided(alloc, name, *goroutine, *socket, *side),
        Step::Acquire { goroutine } => one(alloc, name, *goroutine),
        Step::Release { goroutine } => one(alloc, name, *goroutine),
        Step::PollOpen { goroutine, socket } => pair(alloc, name, *goroutine, *socket),
        Step::PollClose {
            goroutine,
            descriptor,
        } => pair(alloc, name, *goroutine, *descriptor),
        Step::PollReset {
            goroutine,
            descriptor,
            side,
        } => sided(alloc, name, *goroutine, *descriptor, *side),
        Step::WaitBegin {
            goroutine,
            descriptor,
            side,
        } => sided(alloc, name, *goroutine, *descriptor, *side),
        Step::BlockArm { goroutine } => one(alloc, name, *goroutine),
        Step::BlockCheck { goroutine } => one(alloc, name, *goroutine),
        Step::ParkCommit { goroutine } => one(alloc, name, *goroutine),
        Step::BlockSwap { goroutine } => one(alloc, name, *goroutine),
        Step::WaitCheck { goroutine } => one(alloc, name, *goroutine),
        Step::SetDeadline {
            goroutine,
            descriptor,
            mode,
            time,
        } => deadline(alloc, name, *goroutine, *descriptor, *mode, *time),
        Step::Evict {
            goroutine,
            descriptor,
        } => pair(alloc, name, *goroutine, *descriptor),
        Step::PollEvent {
            descriptor,
            tag,
            mode,
            error,
        } => event(alloc, name, *descriptor, *tag, *mode, *error),
        Step::Tick { time } => timed(alloc, name, *time),
        Step::Pop => bare(alloc, name),
        Step::Fire { place } => one(alloc, name, *place),
        Step::CloseWrite { goroutine, socket } => pair(alloc, name, *goroutine, *socket),
    }
}

/// Reads the answer that follows a step's arguments, if the version has answers.
fn answer_in(version: Version, arguments: &mut Parts<'_>) -> Result<Option<Answer>, Fault>
    ensures { answer_in version (rest_of arguments.old) ≡ with_rest (rest_of arguments.new) result }
{
    match version {
        Version::One => Ok(None),
        Version::Two => Ok(Some(answer(arguments)?)),
    }
}

/// Appends an answer to the value of a line.
fn with_answer(alloc: Global, line: Value, answer: Answer) -> Result<Value, Memory>
    ensures { (name : List ℕ) (arguments : List Argument) → IsSpelling (view line) (name, arguments)
        → IfOk result (λ v. IsSpelling (view v) (name, arguments ++ answer_argument answer ∷ [])) }
{
    match line {
        Value::Array(mut parts) => {
            parts.push(answer_value(alloc, answer)?)?;
            Ok(Value::Array(parts))
        }
        other => Ok(other),
    }
}

/// Makes the value of a line from the name of the step's kind, its arguments, and its recorded
/// answer, if any.
pub(crate) fn line_value(
    alloc: Global,
    step: &Step,
    answer: Option<Answer>,
) -> Result<Value, Memory>
    ensures { IfOk result (λ v.
        IsSpelling (view v) (spelling_of (record { step = step.now; answer = answer }))) }
{
    let line = step_value(alloc, step)?;
    match answer {
        None => Ok(line),
        Some(answer) => with_answer(alloc, line, answer),
    }
}

/// Returns the step that the parts of a line denote, with its recorded answer.
#[tactic(auto, unfolding(crate::specs::Steps::step_of, crate::specs::Auxiliary::Steps::step_takes_memory))]
pub(crate) fn step(
    version: Version,
    alloc: Global,
    parts: Parts<'_>,
) -> Result<RecordedStep, LineError>
    ensures found { Reads result (step_of version (array (rest_of parts.entry))) }
    ensures memory { result ≡ Err (LineError.Memory refused_memory)
        → step_takes_memory version (array (rest_of parts.entry)) ≡ true }
{
    let mut parts = parts;
    let name = parts
        .next()
        .and_then(Part::as_bytes)
        .ok_or(Fault::UnknownStep)?;
    let kind = version.kind(name).ok_or(Fault::UnknownStep)?;
    let step = step_in(alloc, kind, &mut parts)?;
    let answer = answer_in(version, &mut parts)?;
    if parts.next().is_some() {
        return Err(LineError::Fault(Fault::Arguments));
    }
    Ok(RecordedStep { step, answer })
}
