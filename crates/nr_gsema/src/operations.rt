//! The single operations.

ghost use Rattle.std.specs.Prelude.{◌≡◌, ◌+◌, ◌^◌, ◌<◌, ◌&&◌, slice_get, true};
ghost use Rattle.std.specs.Bool.{OnTrue};
ghost use Rattle.nr_rev.specs.Step as step;
ghost use Rattle.nr_rev.specs.WellFormed.{socket_named};
ghost use Rattle.nr_gsema.specs.Auxiliary.Applying.{Applies};
ghost use Rattle.nr_gsema.specs.Delta.{HasSemaphore};
ghost use Rattle.nr_gsema.specs.SemaphoreChange.{released_once};
ghost use Rattle.nr_gsema.specs.Step.{is_movable, names_within, same_status, side_owed, tries_again};
ghost use Rattle.nr_gsema.specs.Auxiliary.Table.{on_semaphore, queue_at};
ghost use Rattle.nr_gsema.specs.declared.operation.GOperation.TheVariants as operation;

use crate::delta::GUndo;
use crate::table::GTable;
use nr_rev::{Answer, Refusal, Side, Sides, Status};

/// Returns the status of a goroutine that exists and hasn't ended.
#[inline(always)]
fn alive(status: Option<Status>) -> Result<Status, Refusal>
    ensures { result ≡ step.alive status }
{
    match status {
        None | Some(Status::Gone) => Err(Refusal::NoSuchGoroutine),
        Some(status) => Ok(status),
    }
}

/// Returns the socket and side whose semaphore a goroutine with this status acquires.
#[inline(always)]
fn acquiring_of(status: Status) -> Result<(u32, Side), Refusal>
    ensures { result ≡ step.acquiring_of status }
{
    match status {
        Status::Acquiring { socket, side } => Ok((socket, side)),
        _ => Err(Refusal::NotThere),
    }
}

/// Returns the socket and the releases that a goroutine with this status owes.
#[inline(always)]
fn owing_of(status: Status) -> Result<(u32, Sides<u32>), Refusal>
    ensures { result ≡ step.owing_of status }
{
    match status {
        Status::Owing {
            socket,
            reads,
            writes,
        } => Ok((
            socket,
            Sides {
                read: reads,
                write: writes,
            },
        )),
        _ => Err(Refusal::NotThere),
    }
}

/// Returns the status of a goroutine that owes these releases: idle if it owes none.
#[inline(always)]
fn owing(socket: u32, owed: Sides<u32>) -> Status
    ensures { result ≡ step.owing socket owed }
{
    if owed.read == 0 && owed.write == 0 {
        return Status::Idle;
    }
    Status::Owing {
        socket,
        reads: owed.read,
        writes: owed.write,
    }
}

/// Returns whether the status is idle.
#[inline(always)]
fn is_idle(status: Status) -> bool
    ensures { result ≡ step.is_idle status }
{
    matches!(status, Status::Idle)
}

/// Returns whether two statuses are equal.
#[inline(always)]
fn same_status(status: Status, other: Status) -> bool
    ensures value { result ≡ same_status status other }
    ensures same { OnTrue result (status ≡ other) }
{
    status.is(other)
}

/// Returns whether a goroutine with this status may be moved from `from` to `to`.
#[inline(always)]
fn may_move(status: Status, from: Status, to: Status) -> bool
    ensures value { result ≡ (same_status status from && (is_movable from && is_movable to)) }
    ensures same { OnTrue result (status ≡ from) }
    ensures movable { OnTrue result ((is_movable from ≡ true) × (is_movable to ≡ true)) }
{
    same_status(status, from) && (is_movable(from) && is_movable(to))
}

/// Returns whether a goroutine may be moved from and to this status.
#[inline(always)]
fn is_movable(status: Status) -> bool
    ensures { result ≡ is_movable status }
{
    !matches!(status, Status::Queued { .. } | Status::Gone)
}

/// Returns the socket that a status names, if any.
#[inline(always)]
fn socket_named(status: Status) -> Option<u32>
    ensures { result ≡ socket_named status }
{
    match status {
        Status::Acquiring { socket, .. }
        | Status::Queued { socket, .. }
        | Status::Relock { socket, .. }
        | Status::Owing { socket, .. } => Some(socket),
        _ => None,
    }
}

/// Returns whether the socket, if one is given, is below the limit.
#[inline(always)]
fn names_within(sockets: usize, socket: Option<u32>) -> bool
    ensures { result ≡ names_within sockets socket }
{
    match socket {
        None => true,
        Some(socket) => (socket as usize) < sockets,
    }
}

/// Returns the side of the next release.
#[inline(always)]
pub(crate) fn side_owed(owed: Sides<u32>) -> Side
    ensures { result ≡ side_owed owed }
{
    if owed.read > 0 {
        Side::Read
    } else {
        Side::Write
    }
}

impl GTable {
    /// Makes an idle goroutine.
    #[inline(always)]
    pub(crate) fn spawn(&mut self) -> Result<(Answer, GUndo), Refusal>
        ensures { Applies operation.Spawn self.old result self.new }
    {
        let made = self.made();
        if made >= self.limit() {
            return Err(Refusal::TableFull);
        }
        self.push();
        Ok((Answer::Number(made), GUndo::Spawned))
    }

    /// Ends an idle goroutine.
    #[inline(always)]
    pub(crate) fn exit(&mut self, goroutine: u32) -> Result<(Answer, GUndo), Refusal>
        ensures { Applies (operation.Exit goroutine) self.old result self.new }
    {
        let status = alive(self.status(goroutine))?;
        if !is_idle(status) {
            return Err(Refusal::NotThere);
        }
        self.set_status(goroutine, Status::Gone);
        Ok((Answer::Done, GUndo::Moved { goroutine, status }))
    }

    /// Changes a goroutine's status.
    #[inline(always)]
    pub(crate) fn move_to(
        &mut self,
        goroutine: u32,
        from: Status,
        to: Status,
    ) -> Result<(Answer, GUndo), Refusal>
        ensures { Applies (operation.Move goroutine from to) self.old result self.new }
    {
        let status = alive(self.status(goroutine))?;
        if !may_move(status, from, to) {
            return Err(Refusal::NotThere);
        }
        if !names_within(self.sockets(), socket_named(to)) {
            return Err(Refusal::NoSuchSocket);
        }
        self.set_status(goroutine, to);
        Ok((Answer::Done, GUndo::Moved { goroutine, status }))
    }

    /// Decreases a semaphore's count for the goroutine, or queues it.
    pub(crate) fn acquire(&mut self, goroutine: u32) -> Result<(Answer, GUndo), Refusal>
        ensures { Applies (operation.Acquire goroutine) self.old result self.new }
    {
        let status = alive(self.status(goroutine))?;
        let (socket, side) = acquiring_of(status)?;
        let Some(count) = self.count(socket, side) else {
            return Err(Refusal::NoSuchSocket);
        };
        let Some(left) = count.checked_sub(1) else {
            self.join_back(goroutine, socket, side);
            let undo = GUndo::Queued {
                goroutine,
                socket,
                side,
            };
            return Ok((Answer::Wait, undo));
        };
        self.set_count(socket, side, left);
        self.set_status(goroutine, Status::Relock { socket, side });
        let undo = GUndo::Acquired {
            goroutine,
            socket,
            side,
        };
        Ok((Answer::Yes, undo))
    }

    /// Makes one of the releases that the goroutine owes.
    pub(crate) fn release(&mut self, goroutine: u32) -> Result<(Answer, GUndo), Refusal>
        ensures { Applies (operation.Release goroutine) self.old result self.new }
    {
        let status = alive(self.status(goroutine))?;
        let (socket, owed) = owing_of(status)?;
        let side = side_owed(owed);
        let Some(count) = self.count(socket, side) else {
            return Err(Refusal::NoSuchSocket);
        };
        if count == u32::MAX {
            return Err(Refusal::FieldOverflow);
        }
        self.queues_hold_the_queued();
        let front = self.release_semaphore(socket, side, count);
        let left = owed.with(side, owed.of(side).saturating_sub(1));
        self.set_status(goroutine, owing(socket, left));
        let undo = GUndo::Released {
            goroutine,
            socket,
            reads: owed.read,
            writes: owed.write,
            front,
        };
        Ok((Answer::Done, undo))
    }

    /// Releases, once, a semaphore that has this count. Returns the goroutine that leaves the queue, if any.
    #[inline(always)]
    fn release_semaphore(&mut self, socket: u32, side: Side, count: u32) -> Option<u32>
        requires { HasSemaphore socket side (λ semaphore. (semaphore.count ≡ count) × (semaphore.count + 1 < 2 ^ 32)) self.old }
        ensures front { result ≡ slice_get (queue_at socket side self.old) 0 }
        ensures after { self.new
            ≡ tries_again socket side result (on_semaphore socket side released_once self.old) }
    {
        let front = self.front_of(socket, side);
        match front {
            None => {
                self.set_count(socket, side, count + 1);
                None
            }
            Some(goroutine) => {
                self.leave_front(goroutine, socket, side);
                front
            }
        }
    }
}
