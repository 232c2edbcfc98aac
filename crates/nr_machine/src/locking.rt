//! The steps on a socket's lock.

ghost use Rattle.std.specs.Prelude.{◌≡◌, Ok, true, []};
ghost use Rattle.nr_rev.specs.Sides as sides;
ghost use Rattle.nr_rev.specs.Step as step;
ghost use Rattle.nr_rev.specs.declared.lock.Lock.{Lock};
ghost use Rattle.nr_gsema.specs.Step.{is_movable};
ghost use Rattle.nr_lock.specs.Op.{left as left_of};
ghost use Rattle.nr_machine.specs.Fits.{IsWorld};
ghost use Rattle.nr_machine.specs.Locking.{locking, status_left};
ghost use Rattle.nr_machine.specs.Auxiliary.Made.{Makes};
ghost use Rattle.nr_machine.specs.World.{meant};

use crate::delta::WorldUndo;
use crate::world::World;
use nr_lock::{LockAnswer, LockOp};
use nr_rev::{Answer, Keeper, Refusal, Side, Sides, Status};

impl World {
    /// `incref`.
    #[inline(always)]
    pub(crate) fn incref<K: Keeper<WorldUndo>>(
        &mut self,
        goroutine: u32,
        socket: u32,
        way: &mut K,
    ) -> Result<Answer, Refusal>
        requires { IsWorld self.old }
        ensures { Makes K.holds way.new (step.incref goroutine socket (meant self.old)) [] self.old result self.new }
    {
        self.idle(goroutine)?;
        self.lock(goroutine, Status::Idle, socket, LockOp::Incref, way)
    }

    /// `increfclose`.
    #[inline(always)]
    pub(crate) fn increfclose<K: Keeper<WorldUndo>>(
        &mut self,
        goroutine: u32,
        socket: u32,
        way: &mut K,
    ) -> Result<Answer, Refusal>
        requires { IsWorld self.old }
        ensures { Makes K.holds way.new (step.increfclose goroutine socket (meant self.old)) []
            self.old result self.new }
    {
        self.idle(goroutine)?;
        self.lock(goroutine, Status::Idle, socket, LockOp::IncrefClose, way)
    }

    /// `decref`.
    #[inline(always)]
    pub(crate) fn decref<K: Keeper<WorldUndo>>(
        &mut self,
        goroutine: u32,
        socket: u32,
        way: &mut K,
    ) -> Result<Answer, Refusal>
        requires { IsWorld self.old }
        ensures { Makes K.holds way.new (step.decref goroutine socket (meant self.old)) [] self.old result self.new }
    {
        self.idle(goroutine)?;
        self.lock(goroutine, Status::Idle, socket, LockOp::Decref, way)
    }

    /// `rwlock`.
    #[inline(always)]
    pub(crate) fn rwlock<K: Keeper<WorldUndo>>(
        &mut self,
        goroutine: u32,
        socket: u32,
        side: Side,
        way: &mut K,
    ) -> Result<Answer, Refusal>
        requires { IsWorld self.old }
        ensures { Makes K.holds way.new (step.rwlock goroutine socket side (meant self.old)) []
            self.old result self.new }
    {
        let from = self.status_of(goroutine)?;
        if !from.may_lock(socket, side) {
            return Err(Refusal::NotThere);
        }
        self.lock(goroutine, from, socket, LockOp::RwLock(side), way)
    }

    /// `rwunlock`.
    #[inline(always)]
    pub(crate) fn rwunlock<K: Keeper<WorldUndo>>(
        &mut self,
        goroutine: u32,
        socket: u32,
        side: Side,
        way: &mut K,
    ) -> Result<Answer, Refusal>
        requires { IsWorld self.old }
        ensures { Makes K.holds way.new (step.rwunlock goroutine socket side (meant self.old)) []
            self.old result self.new }
    {
        self.idle(goroutine)?;
        self.lock(goroutine, Status::Idle, socket, LockOp::RwUnlock(side), way)
    }

    /// Applies an operation to a socket's lock for a goroutine that may try it, and changes the
    /// goroutine's status accordingly.
    #[inline(always)]
    fn lock<K: Keeper<WorldUndo>>(
        &mut self,
        goroutine: u32,
        from: Status,
        socket: u32,
        op: LockOp,
        way: &mut K,
    ) -> Result<Answer, Refusal>
        requires world { IsWorld self.old }
        requires there { step.status_of goroutine (meant self.old) ≡ Ok from }
        requires movable { is_movable from ≡ true }
        ensures { Makes K.holds way.new (locking goroutine socket op (meant self.old)) [] self.old result self.new }
    {
        let (left, lock) = self.core.lock(socket, op)?;
        let to = status_left(socket, op, left);
        let moved = self.core.move_on(goroutine, from, to);
        way.put(WorldUndo::Locked { lock, moved });
        Ok(left.answer)
    }
}

/// Returns the status of a goroutine after an operation on a socket's lock.
#[inline(always)]
fn status_left(socket: u32, op: LockOp, left: LockAnswer) -> Status
    ensures { (lock : Lock) → result ≡ status_left socket op (left_of left lock) }
{
    match op {
        LockOp::Incref | LockOp::Decref => Status::Idle,
        LockOp::IncrefClose | LockOp::RwUnlock(_) => Status::owing(socket, left.owed),
        LockOp::RwLock(side) => Status::after_lock(socket, side, left.answer),
    }
}
