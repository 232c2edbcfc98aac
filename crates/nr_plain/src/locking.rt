//! The steps on a socket's lock.

ghost use Rattle.std.specs.Prelude.{◌≡◌, ◌∷◌, []};
ghost use Rattle.nr_rev.specs.Sides as sides;
ghost use Rattle.nr_rev.specs.declared.step.Step.TheVariants as steps;
ghost use Rattle.nr_rev.specs.Step as step;
ghost use Rattle.nr_plain.specs.declared.edit.Edit.TheVariants as edit;
ghost use Rattle.nr_plain.specs.declared.socket_edit.SocketEdit.TheVariants as socket_edit;
ghost use Rattle.nr_plain.specs.Plan.{Plans};

use crate::edit::Edit;
use crate::lock;
use crate::plan::Plan;
use crate::socket_edit::SocketEdit;
use crate::world::PlainWorld;
use nr_rev::{Answer, LockOutcome, Refusal, Side, Sides, Status};

impl PlainWorld {
    /// Returns the plan of `incref`.
    pub(crate) fn incref<'a>(&self, goroutine: u32, socket: u32) -> Result<Plan<'a>, Refusal>
        ensures { Plans (steps.Incref goroutine socket) self.now result }
    {
        self.idle(goroutine)?;
        let row = self.socket_of(socket)?;
        let left = lock::incref(row.state().lock)?;
        Ok(left_lock(goroutine, Status::Idle, socket, left))
    }

    /// Returns the plan of `increfclose`.
    pub(crate) fn increfclose<'a>(&self, goroutine: u32, socket: u32) -> Result<Plan<'a>, Refusal>
        ensures { Plans (steps.IncrefClose goroutine socket) self.now result }
    {
        self.idle(goroutine)?;
        let row = self.socket_of(socket)?;
        let left = lock::incref_close(row.state().lock)?;
        let status = Status::owing(socket, left.owed);
        Ok(left_lock(goroutine, status, socket, left))
    }

    /// Returns the plan of `decref`.
    pub(crate) fn decref<'a>(&self, goroutine: u32, socket: u32) -> Result<Plan<'a>, Refusal>
        ensures { Plans (steps.Decref goroutine socket) self.now result }
    {
        self.idle(goroutine)?;
        let row = self.socket_of(socket)?;
        let left = lock::decref(row.state().lock)?;
        Ok(left_lock(goroutine, Status::Idle, socket, left))
    }

    /// Returns the plan of `rwlock`.
    pub(crate) fn rwlock<'a>(
        &self,
        goroutine: u32,
        socket: u32,
        side: Side,
    ) -> Result<Plan<'a>, Refusal>
        ensures { Plans (steps.RwLock goroutine socket side) self.now result }
    {
        let status = self.status_of(goroutine)?;
        if !status.may_lock(socket, side) {
            return Err(Refusal::NotThere);
        }
        let row = self.socket_of(socket)?;
        let left = lock::rw_lock(side, row.state().lock)?;
        let status = Status::after_lock(socket, side, left.answer);
        Ok(left_lock(goroutine, status, socket, left))
    }

    /// Returns the plan of `rwunlock`.
    pub(crate) fn rwunlock<'a>(
        &self,
        goroutine: u32,
        socket: u32,
        side: Side,
    ) -> Result<Plan<'a>, Refusal>
        ensures { Plans (steps.RwUnlock goroutine socket side) self.now result }
    {
        self.idle(goroutine)?;
        let row = self.socket_of(socket)?;
        let left = lock::rw_unlock(side, row.state().lock)?;
        let status = Status::owing(socket, left.owed);
        Ok(left_lock(goroutine, status, socket, left))
    }
}

/// Returns the plan that sets the lock to this result and the goroutine to this status.
fn left_lock<'a>(goroutine: u32, status: Status, socket: u32, left: LockOutcome) -> Plan<'a>
    ensures answer { result.answer ≡ left.answer }
    ensures edits { result.edits.items
        ≡ edit.Socket socket (socket_edit.Lock left.lock) ∷ edit.Status goroutine status ∷ [] }
{
    let edit = SocketEdit::Lock(left.lock);
    Plan::new(left.answer)
        .then(Edit::Socket { socket, edit })
        .then(Edit::Status { goroutine, status })
}
