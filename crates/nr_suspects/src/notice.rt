//! Notices: the effects of a step from which suspects are found.

ghost use Rattle.std.specs.Prelude.{◌≡◌, Ok, Err, IfOk, IfErr, OnErr, Some, None, not, ◌&&◌, if◌then◌else◌};
ghost use Rattle.nr_rev.specs.Cell.{cell};
ghost use Rattle.nr_rev.specs.Step.{outcome};
ghost use Rattle.nr_suspects.specs.declared.notice.Notice.{Notice as NoticeNames};
ghost use Rattle.nr_suspects.specs.Notices.{checking, deadline_cell, fired_descriptor, has_passed, held_goroutine, if_answered, is_ready, notice, noticed, notice_of_opening, notice_of_socket, running, visit, visit_of, visiting, wait_place, word_cell};

use nr_changes::TouchesCells;
use nr_rev::{Answer, Cell, CellValue, Mode, Refusal, Side, Sides, Status, Step, WaitWord, Worlds};

/// A goroutine at a side of a descriptor.
#[derive(Clone, Copy, Debug, PartialEq, Eq)]
pub struct Visit {
    /// The goroutine.
    pub goroutine: u32,
    /// The descriptor.
    pub descriptor: u32,
    /// The side.
    pub side: Side,
}

/// Says that a deadline passed.
#[derive(Clone, Copy, Debug, PartialEq, Eq)]
pub struct Passing {
    /// The goroutine that was parked at the side and is woken.
    pub woken: Option<u32>,
}

/// The part of a step's effect from which suspects are found.
#[derive(Clone, Copy, Debug, PartialEq, Eq)]
pub enum Notice {
    /// The descriptor was opened for the socket.
    Opened {
        descriptor: u32,
        socket: u32,
    },
    /// An event came for sides of the descriptor.
    Event {
        descriptor: u32,
        mode: Mode,
    },
    /// A read or a write of the socket was answered `Again`.
    Tried {
        socket: u32,
        side: Side,
    },
    /// The side's word was `ready`, and the goroutine consumed this notification.
    TookReadiness(Visit),
    /// The goroutine checked the side and got this code.
    Checked {
        visit: Visit,
        code: u32,
    },
    /// The goroutine set one or both deadlines of the descriptor.
    SetDeadline {
        goroutine: u32,
        descriptor: u32,
        mode: Mode,
    },
    /// A timer ran, so deadlines of the descriptor's sides may have passed.
    PassedDeadline {
        descriptor: u32,
        passings: Sides<Option<Passing>>,
    },
    /// The goroutine took a reference to the socket.
    TookReference {
        goroutine: u32,
        socket: u32,
    },
    /// The goroutine returned a reference to the socket.
    GaveReference {
        goroutine: u32,
        socket: u32,
    },
    /// The socket was opened with this much room for writing.
    SocketOpened {
        socket: u32,
        capacity: u32,
    },
    /// The socket's peer closed.
    PeerClosed {
        socket: u32,
    },
    /// None of these effects.
    Nothing,
}

// Returns the descriptor and side at which a goroutine with this status waits.
fn wait_place(value: CellValue) -> Option<(u32, Side)>
    ensures { result ≡ wait_place value }
{
    let CellValue::Status(status) = value else {
        return None;
    };
    match status {
        Status::Entering { descriptor, side }
        | Status::Armed { descriptor, side }
        | Status::Parking { descriptor, side }
        | Status::Parked { descriptor, side }
        | Status::Swapping { descriptor, side }
        | Status::Checking { descriptor, side } => Some((descriptor, side)),
        _ => None,
    }
}

// Returns the visit of the goroutine to the side at which it waits, if it waits.
fn visit_of<W: Worlds>(world: &W, goroutine: u32) -> Option<Visit>
    requires { W.is_well_formed world.now }
    ensures { result ≡ visit_of (W.world world.now) goroutine }
{
    let (descriptor, side) = wait_place(world.cell(Cell::Goroutine(goroutine)))?;
    Some(Visit {
        goroutine,
        descriptor,
        side,
    })
}

// Returns the side that the step visits.
fn visited<W: Worlds>(world: &W, step: &Step) -> Option<Visit>
    requires { W.is_well_formed world.now }
    ensures { result ≡ visit (W.world world.now) step.now }
{
    match step {
        Step::PollReset {
            goroutine,
            descriptor,
            side,
        }
        | Step::WaitBegin {
            goroutine,
            descriptor,
            side,
        } => Some(Visit {
            goroutine: *goroutine,
            descriptor: *descriptor,
            side: *side,
        }),
        Step::BlockArm { goroutine }
        | Step::BlockSwap { goroutine }
        | Step::WaitCheck { goroutine } => visit_of(world, *goroutine),
        _ => None,
    }
}

/// Returns the cell of the wait word of a descriptor's side.
pub(crate) fn word_cell(descriptor: u32, side: Side) -> Cell
    ensures { result ≡ word_cell descriptor side }
{
    match side {
        Side::Read => Cell::ReadWord(descriptor),
        Side::Write => Cell::WriteWord(descriptor),
    }
}

// Returns the cell of the deadline of a descriptor's side.
fn deadline_cell(descriptor: u32, side: Side) -> Cell
    ensures { result ≡ deadline_cell descriptor side }
{
    match side {
        Side::Read => Cell::ReadDeadline(descriptor),
        Side::Write => Cell::WriteDeadline(descriptor),
    }
}

// Returns whether the word of a descriptor's side is `ready`.
fn is_ready<W: Worlds>(world: &W, descriptor: u32, side: Side) -> bool
    requires { W.is_well_formed world.now }
    ensures { result ≡ is_ready (W.world world.now) descriptor side }
{
    matches!(
        world.cell(word_cell(descriptor, side)),
        CellValue::WaitWord(WaitWord::Ready)
    )
}

/// Returns whether the deadline of a descriptor's side has passed.
pub(crate) fn has_passed<W: Worlds>(world: &W, descriptor: u32, side: Side) -> bool
    requires { W.is_well_formed world.now }
    ensures { result ≡ has_passed (W.world world.now) descriptor side }
{
    match world.cell(deadline_cell(descriptor, side)) {
        CellValue::Time(time) => time < 0,
        _ => false,
    }
}

// Returns the goroutine that the word of a descriptor's side holds.
fn held_goroutine<W: Worlds>(world: &W, descriptor: u32, side: Side) -> Option<u32>
    requires { W.is_well_formed world.now }
    ensures { result ≡ held_goroutine (cell (W.world world.now) (word_cell descriptor side)) }
{
    match world.cell(word_cell(descriptor, side)) {
        CellValue::WaitWord(WaitWord::Held(goroutine)) => Some(goroutine),
        _ => None,
    }
}

// Returns the given notice if the answer is the expected one, and otherwise `Nothing`.
fn if_answered(wanted: Answer, answer: Answer, notice: Notice) -> Notice
    ensures { result ≡ if_answered wanted answer notice }
{
    if answer == wanted {
        notice
    } else {
        Notice::Nothing
    }
}

// Returns the notice that a descriptor was opened for the socket.
fn notice_of_opening(socket: u32, answer: Answer) -> Notice
    ensures { result ≡ notice_of_opening socket answer }
{
    match answer {
        Answer::Number(descriptor) => Notice::Opened { descriptor, socket },
        _ => Notice::Nothing,
    }
}

// Returns the notice that a socket with this much room for writing was opened.
fn notice_of_socket(capacity: u32, answer: Answer) -> Notice
    ensures { result ≡ notice_of_socket capacity answer }
{
    match answer {
        Answer::Number(socket) => Notice::SocketOpened { socket, capacity },
        _ => Notice::Nothing,
    }
}

// If the answer is a code, returns the notice that the visiting goroutine checked its side and got
// this code.
fn checking(visit: Visit, answer: Answer) -> Notice
    ensures { result ≡ checking visit answer }
{
    match answer {
        Answer::Code(code) => Notice::Checked { visit, code },
        _ => Notice::Nothing,
    }
}

// The state of a side before a timer is run.
#[derive(Clone, Copy)]
struct SideBefore {
    // True if the side's deadline has passed.
    has_passed: bool,
    // The goroutine that the side's word holds.
    held: Option<u32>,
}

impl SideBefore {
    // Returns the state of a side of the descriptor.
    fn of<W: Worlds>(world: &W, descriptor: u32, side: Side) -> SideBefore
        requires { W.is_well_formed world.now }
        ensures passed { result.has_passed ≡ has_passed (W.world world.now) descriptor side }
        ensures held { result.held ≡ held_goroutine (cell (W.world world.now) (word_cell descriptor side)) }
    {
        SideBefore {
            has_passed: has_passed(world, descriptor, side),
            held: held_goroutine(world, descriptor, side),
        }
    }

    // Returns `Some` if the side's deadline passed in this step: it hadn't passed before the step,
    // and has passed in this world.
    fn passing<W: Worlds>(self, world: &W, descriptor: u32, side: Side) -> Option<Passing>
        requires { W.is_well_formed world.now }
        ensures { result ≡ (if not self.has_passed && has_passed (W.world world.now) descriptor side
            then Some (record { woken = self.held }) else None) }
    {
        if !self.has_passed && has_passed(world, descriptor, side) {
            Some(Passing { woken: self.held })
        } else {
            None
        }
    }
}

// Returns the descriptor of the timer that the step runs, or `None` if it runs no timer.
fn fired_descriptor<W: TouchesCells>(world: &W, step: &Step) -> Option<u32>
    requires { W.is_well_formed world.now }
    ensures { result ≡ fired_descriptor (W.world world.now) step.now }
{
    match step {
        Step::Fire { .. } => world.touched(step).descriptor(),
        _ => None,
    }
}

// Runs a timer for the descriptor, and returns the answer and the notice of the deadlines that
// passed.
fn run_timer<W: Worlds>(
    world: &mut W,
    step: &Step,
    descriptor: u32,
) -> Result<(Answer, Notice), Refusal>
    requires { W.is_well_formed world.old }
    ensures step { IfOk result (λ made.
        outcome (W.world world.old) step.now ≡ Ok (made.0, W.world world.new)) }
    ensures seen { IfOk result (λ made. (other : NoticeNames) → made.1
        ≡ running (W.world world.old) (W.world world.new) (Some descriptor) other) }
    ensures well_formed { W.is_well_formed world.new }
    ensures refusal { IfErr result (λ reason. outcome (W.world world.old) step.now ≡ Err reason) }
    ensures unchanged { OnErr result (world.new ≡ world.old) }
{
    let read = SideBefore::of(world, descriptor, Side::Read);
    let write = SideBefore::of(world, descriptor, Side::Write);
    let answer = world.advance(step)?;
    let passings = Sides {
        read: read.passing(world, descriptor, Side::Read),
        write: write.passing(world, descriptor, Side::Write),
    };
    Ok((
        answer,
        Notice::PassedDeadline {
            descriptor,
            passings,
        },
    ))
}

// Applies a step that may visit a side, and returns the answer and the notice of the visit.
fn visit_side<W: Worlds>(world: &mut W, step: &Step) -> Result<(Answer, Notice), Refusal>
    requires { W.is_well_formed world.old }
    ensures step { IfOk result (λ made.
        outcome (W.world world.old) step.now ≡ Ok (made.0, W.world world.new)) }
    ensures seen { IfOk result (λ made. made.1
        ≡ visiting (W.world world.old) (W.world world.new) made.0 (visit (W.world world.old) step.now)) }
    ensures well_formed { W.is_well_formed world.new }
    ensures refusal { IfErr result (λ reason. outcome (W.world world.old) step.now ≡ Err reason) }
    ensures unchanged { OnErr result (world.new ≡ world.old) }
{
    let Some(at) = visited(world, step) else {
        let answer = world.advance(step)?;
        return Ok((answer, Notice::Nothing));
    };
    let was_ready = is_ready(world, at.descriptor, at.side);
    let answer = world.advance(step)?;
    if was_ready && !is_ready(world, at.descriptor, at.side) {
        Ok((answer, Notice::TookReadiness(at)))
    } else {
        Ok((answer, checking(at, answer)))
    }
}

// Returns the notice of a step with this answer. `other` is the notice of a step that runs a timer
// or visits a side.
fn noticed(step: &Step, answer: Answer, other: Notice) -> Notice
    ensures { result ≡ noticed step.now answer other }
{
    match step {
        Step::SockOpen { write_capacity, .. } => notice_of_socket(*write_capacity, answer),
        Step::PeerClose { socket } => Notice::PeerClosed { socket: *socket },
        Step::PollOpen { socket, .. } => notice_of_opening(*socket, answer),
        Step::PollEvent {
            descriptor,
            mode,
            ..
        } => if_answered(
            Answer::Done,
            answer,
            Notice::Event {
                descriptor: *descriptor,
                mode: *mode,
            },
        ),
        Step::SysRead { socket, .. } => if_answered(
            Answer::Again,
            answer,
            Notice::Tried {
                socket: *socket,
                side: Side::Read,
            },
        ),
        Step::SysWrite { socket, .. } => if_answered(
            Answer::Again,
            answer,
            Notice::Tried {
                socket: *socket,
                side: Side::Write,
            },
        ),
        Step::Incref { goroutine, socket }
        | Step::IncrefClose { goroutine, socket }
        | Step::RwLock {
            goroutine,
            socket,
            ..
        } => if_answered(
            Answer::Yes,
            answer,
            Notice::TookReference {
                goroutine: *goroutine,
                socket: *socket,
            },
        ),
        Step::Decref { goroutine, socket }
        | Step::RwUnlock {
            goroutine,
            socket,
            ..
        } => Notice::GaveReference {
            goroutine: *goroutine,
            socket: *socket,
        },
        Step::SetDeadline {
            goroutine,
            descriptor,
            mode,
            ..
        } => Notice::SetDeadline {
            goroutine: *goroutine,
            descriptor: *descriptor,
            mode: *mode,
        },
        _ => other,
    }
}

/// Applies the step without an undo record, and returns its answer and its notice. If the step is refused, the world
/// stays as it was. Allocates no memory.
pub fn advance<W: TouchesCells>(world: &mut W, step: &Step) -> Result<(Answer, Notice), Refusal>
    requires { W.is_well_formed world.old }
    ensures step { IfOk result (λ made.
        outcome (W.world world.old) step.now ≡ Ok (made.0, W.world world.new)) }
    ensures notice { IfOk result (λ made.
        made.1 ≡ notice (W.world world.old) step.now made.0 (W.world world.new)) }
    ensures well_formed { W.is_well_formed world.new }
    ensures refusal { IfErr result (λ reason. outcome (W.world world.old) step.now ≡ Err reason) }
    ensures unchanged { OnErr result (world.new ≡ world.old) }
{
    let Some(descriptor) = fired_descriptor(world, step) else {
        let (answer, other) = visit_side(world, step)?;
        return Ok((answer, noticed(step, answer, other)));
    };
    let (answer, other) = run_timer(world, step, descriptor)?;
    Ok((answer, noticed(step, answer, other)))
}
