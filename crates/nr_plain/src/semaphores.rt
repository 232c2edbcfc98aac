//! The steps on a socket's semaphores.

ghost use Rattle.std.specs.Prelude.{◌≡◌, ◌<◌, IfOk, IfSome, length, slice_get};
ghost use Rattle.nr_rev.specs.Sides.{of_side};
ghost use Rattle.nr_rev.specs.declared.step.Step.TheVariants as steps;
ghost use Rattle.nr_rev.specs.Step as step;
ghost use Rattle.nr_rev.specs.WellFormed.{WellFormed};
ghost use Rattle.nr_plain.specs.Plan.{Plans};
ghost use Rattle.nr_plain.specs.Reads.{acquiring_by};

use crate::edit::Edit;
use crate::plan::Plan;
use crate::socket_edit::SocketEdit;
use crate::world::PlainWorld;
use nr_rev::{Answer, Refusal, Side, Sides, Status};

impl PlainWorld {
    /// Returns the plan of `acquire`.
    pub(crate) fn acquire<'a>(&self, goroutine: u32) -> Result<Plan<'a>, Refusal>
        requires { WellFormed self.now }
        ensures { Plans (steps.Acquire goroutine) self.now result }
    {
        let (socket, side) = self.acquiring(goroutine)?;
        let semaphore = self.socket_of(socket)?.semaphore(side);
        if semaphore.count > 0 {
            let count = semaphore.count - 1;
            let edit = SocketEdit::Count { side, count };
            let status = Status::Relock { socket, side };
            return Ok(
                Plan::new(Answer::Yes)
                    .then(Edit::Socket { socket, edit })
                    .then(Edit::Status { goroutine, status }),
            );
        }
        let edit = SocketEdit::Enqueue { side, goroutine };
        let status = Status::Queued { socket, side };
        Ok(
            Plan::new(Answer::Wait)
                .then(Edit::Socket { socket, edit })
                .then(Edit::Status { goroutine, status }),
        )
    }

    /// Returns the socket and side whose semaphore the goroutine acquires, if the queue has room.
    fn acquiring(&self, goroutine: u32) -> Result<(u32, Side), Refusal>
        requires { WellFormed self.now }
        ensures place { result ≡ acquiring_by goroutine self.now }
        ensures room { IfOk result
            (λ p. IfSome (slice_get self.now.sockets p.0)
            (λ socket. length (of_side p.1 socket.semaphores).queue < self.now.limits.goroutines)) }
    {
        let status = self.status_of(goroutine)?;
        acquiring_of(status)
    }

    /// Returns the plan of `release`.
    pub(crate) fn release<'a>(&self, goroutine: u32) -> Result<Plan<'a>, Refusal>
        ensures { Plans (steps.Release goroutine) self.now result }
    {
        let status = self.status_of(goroutine)?;
        let (socket, owed) = owing_of(status)?;
        let row = self.socket_of(socket)?;
        let side = if owed.read > 0 {
            Side::Read
        } else {
            Side::Write
        };
        let semaphore = row.semaphore(side);
        if semaphore.count == u32::MAX {
            return Err(Refusal::FieldOverflow);
        }
        let edit = SocketEdit::Release { side };
        let plan = Plan::new(Answer::Done).then(Edit::Socket { socket, edit });
        let plan = match semaphore.queue.first().copied() {
            None => plan,
            Some(front) => plan.then(Edit::Status {
                goroutine: front,
                status: Status::Acquiring { socket, side },
            }),
        };
        let left = owed.with(side, owed.of(side).saturating_sub(1));
        let status = Status::owing(socket, left);
        Ok(plan.then(Edit::Status { goroutine, status }))
    }
}

/// Returns the socket and side whose semaphore a goroutine with this status acquires.
fn acquiring_of(status: Status) -> Result<(u32, Side), Refusal>
    ensures { result ≡ step.acquiring_of status }
{
    match status {
        Status::Acquiring { socket, side } => Ok((socket, side)),
        _ => Err(Refusal::NotThere),
    }
}

/// Returns the socket and the releases that a goroutine with this status owes.
fn owing_of(status: Status) -> Result<(u32, Sides<u32>), Refusal>
    ensures { result ≡ step.owing_of status }
{
    match status {
        Status::Owing {
            socket,
            reads,
            writes,
        } => Ok((
            socket,
            Sides {
                read: reads,
                write: writes,
            },
        )),
        _ => Err(Refusal::NotThere),
    }
}
