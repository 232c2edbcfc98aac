//! The changes to the core, each with its undo.

ghost use Rattle.std.specs.Prelude.{◌≡◌, ℕ, ◌+◌, ◌-◌, ◌^◌, ◌<◌, ◌++◌, ◌∷◌, [], length, slice_get, Some, Err, IfOk, IfErr, OnErr};
ghost use Rattle.nr_desc.specs.Desc.{DescFits};
ghost use Rattle.nr_gsema.specs.Applying.{IsQueuedUp};
ghost use Rattle.nr_rev.specs.Lock.{open_lock};
ghost use Rattle.nr_rev.specs.WellFormed.{LockFits};
ghost use Rattle.nr_rev.specs.declared.descriptor.Descriptor.{Descriptor};
ghost use Rattle.nr_rev.specs.declared.lock.Lock.{Lock};
ghost use Rattle.nr_rev.specs.declared.status.Status.TheVariants.{Parked};
ghost use Rattle.nr_machine.specs.Changing.{desc_outcome};
ghost use Rattle.nr_machine.specs.Auxiliary.Changing.{CanMove, DescBack, DescribesSome, LockBack, LocksSome, Moves, MovesOn, WakeBack, lock_outcome, with_descriptor, woken};
ghost use Rattle.nr_machine.specs.Delta.{ParkBack};
ghost use Rattle.nr_machine.specs.Waiting.{core_parked};
ghost use Rattle.nr_machine.specs.declared.world_core.Core.{Core as Parts};

use crate::delta::{DescUndo, LockUndo};
use crate::world_core::Core;
use nr_desc::{Desc, DescAnswer, DescOp};
use nr_gsema::{GDelta, GOperation};
use nr_lock::{LockAnswer, LockOp, LockWord};
use nr_rev::{Refusal, Reversible, Side, Status};

impl Core {
    /// Changes a goroutine's status from one to another.
    #[inline(always)]
    pub(crate) fn move_to(&mut self, goroutine: u32, from: Status, to: Status) -> GDelta
        requires { CanMove self.old goroutine from to }
        ensures { Moves self.old goroutine to result self.new }
    {
        let op = GOperation::Move {
            goroutine,
            from,
            to,
        };
        match self.goroutines.apply(&op) {
            Ok((_, delta)) => delta,
            Err(_) => unreachable!(),
        }
    }

    /// Changes a goroutine's status from one to another, or does nothing if the two are the same.
    #[inline(always)]
    #[tactic(auto, using(crate::proofs::ChangingLemmas::stays))]
    pub(crate) fn move_on(&mut self, goroutine: u32, from: Status, to: Status) -> Option<GDelta>
        requires { CanMove self.old goroutine from to }
        ensures { MovesOn self.old goroutine to result self.new }
    {
        if from.is(to) {
            return None;
        }
        Some(self.move_to(goroutine, from, to))
    }

    /// Applies an operation to the lock of a socket.
    #[inline(always)]
    pub(crate) fn lock(
        &mut self,
        socket: u32,
        op: LockOp,
    ) -> Result<(LockAnswer, LockUndo), Refusal>
        requires { (s : ℕ) (lock : Lock) → slice_get self.old.locks.items s ≡ Some lock → LockFits lock }
        ensures ok { IfOk result (λ r. LocksSome self.old socket op r self.new) }
        ensures err { IfErr result (λ e. lock_outcome socket op self.old ≡ Err e) }
        ensures unchanged { OnErr result (self.new ≡ self.old) }
    {
        let Some(mut word) = self.locks.get(socket as usize) else {
            return Err(Refusal::NoSuchSocket);
        };
        let (answer, before) = word.apply(&op)?;
        let _ = self.locks.replace(socket as usize, word);
        Ok((answer, LockUndo { socket, before }))
    }

    /// Restores a lock. Steps never remove a lock, so the branch for a missing lock is never taken.
    /// `LockBack` also changes nothing there, so callers don't have to prove that the lock exists.
    #[inline(always)]
    #[tactic(auto, using(crate::proofs::ChangingLemmas::lock_nowhere))]
    pub(crate) fn unlock(&mut self, undo: LockUndo)
        ensures { LockBack undo self.old self.new }
    {
        let LockUndo { socket, before } = undo;
        let Some(mut word) = self.locks.get(socket as usize) else {
            return;
        };
        word.undo(before);
        let _ = self.locks.replace(socket as usize, word);
    }

    /// Applies an operation to a descriptor. The operation has no timer orders and wakes no
    /// goroutine.
    #[inline(always)]
    pub(crate) fn describe(
        &mut self,
        descriptor: u32,
        op: &DescOp,
    ) -> Result<(DescAnswer, DescUndo), Refusal>
        requires { (d : ℕ) (x : Descriptor) → slice_get self.old.descriptors.items d ≡ Some x → DescFits x }
        ensures ok { IfOk result (λ r. DescribesSome self.old descriptor op.now r self.new) }
        ensures err { IfErr result (λ e. desc_outcome descriptor op.now self.old ≡ Err e) }
        ensures unchanged { OnErr result (self.new ≡ self.old) }
    {
        let Some(mut desc) = self.descriptors.get(descriptor as usize) else {
            return Err(Refusal::NoSuchDescriptor);
        };
        let (answer, before) = desc.apply(op)?;
        self.set_descriptor(descriptor, desc);
        Ok((answer, DescUndo { descriptor, before }))
    }

    /// Replaces a descriptor.
    #[inline(always)]
    pub(crate) fn set_descriptor(&mut self, descriptor: u32, desc: Desc)
        ensures { self.new ≡ with_descriptor descriptor desc self.old }
    {
        let _ = self.descriptors.replace(descriptor as usize, desc);
    }

    /// Restores a descriptor. Steps never remove a descriptor, so the branch for a missing
    /// descriptor is never taken. `DescBack` also changes nothing there, so callers don't have to
    /// prove that the descriptor exists.
    #[inline(always)]
    #[tactic(auto, using(crate::proofs::ChangingLemmas::descriptor_nowhere))]
    pub(crate) fn undescribe(&mut self, undo: DescUndo)
        ensures { DescBack undo self.old self.new }
    {
        let DescUndo { descriptor, before } = undo;
        let Some(mut desc) = self.descriptors.get(descriptor as usize) else {
            return;
        };
        desc.undo(before);
        self.set_descriptor(descriptor, desc);
    }

    /// Adds the lock of a newly opened socket.
    #[inline(always)]
    pub(crate) fn add_lock(&mut self)
        requires { length self.old.locks.items < self.old.locks.room }
        ensures { self.new ≡ record self.old
            { locks = record self.old.locks { items = self.old.locks.items ++ open_lock ∷ [] } } }
    {
        self.locks.push(LockWord::open());
    }

    /// Wakes a goroutine that a word held.
    #[inline(always)]
    pub(crate) fn wake(&mut self, goroutine: u32, descriptor: u32, side: Side)
        requires there { slice_get self.old.goroutines.goroutines goroutine
            ≡ Some (Parked descriptor side) }
        requires some { 0 < self.old.waiters }
        requires queued { IsQueuedUp self.old.goroutines }
        ensures woken { self.new ≡ woken goroutine descriptor side self.old }
        ensures queued { IsQueuedUp self.new.goroutines }
        ensures back { WakeBack goroutine self.new self.old }
    {
        let from = Status::Parked { descriptor, side };
        let to = Status::Swapping { descriptor, side };
        let _ = self.move_to(goroutine, from, to);
        self.waiters -= 1;
    }

    /// Parks a woken goroutine again.
    #[inline(always)]
    pub(crate) fn unwake(&mut self, goroutine: u32)
        requires { (old : Parts) × WakeBack goroutine self.old old }
        ensures { WakeBack goroutine self.old self.new }
    {
        let Some(from) = self.goroutines.status(goroutine) else {
            unreachable!()
        };
        let Status::Swapping { descriptor, side } = from else {
            unreachable!()
        };
        let to = Status::Parked { descriptor, side };
        let _ = self.move_to(goroutine, from, to);
        self.waiters += 1;
    }

    /// Adds a waiter if a goroutine parked.
    #[inline(always)]
    pub(crate) fn park(&mut self, parked: bool)
        requires { self.old.waiters + 1 < 2 ^ 64 }
        ensures parked { self.new ≡ core_parked parked self.old }
        ensures back { ParkBack parked self.new self.old }
    {
        if parked {
            self.waiters += 1;
        }
    }
}
