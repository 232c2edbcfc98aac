//! Undoes steps: restores the parts that a step changed, from the last change to the first.

ghost use Rattle.nr_machine.specs.Auxiliary.Changing.{DescBack, GoroutineBack, IfAny, LockBack, Then, TimersBack, WakeBack};
ghost use Rattle.nr_machine.specs.Delta.{GiveBack, ObeyBack, OpenedBack, ParkBack, SockBack, TakeBack, UndoBack, WokenBack};
ghost use Rattle.nr_machine.specs.World.{WorldParts};
ghost use Rattle.nr_machine.specs.declared.world_core.Core.{Core as Parts};

use crate::delta::{DescUndo, LockUndo, WorldUndo};
use crate::world::World;
use crate::world_core::Core;
use nr_gsema::GDelta;
use nr_rev::{Reversible, Sides};
use nr_sockbuf::SockDelta;
use nr_timers::TimersDelta;

impl Core {
    /// Restores the status of a goroutine, if it changed.
    #[inline(always)]
    fn unmove(&mut self, moved: Option<GDelta>)
        requires { (old : Parts) × IfAny GoroutineBack moved self.old old }
        ensures { IfAny GoroutineBack moved self.old self.new }
    {
        if let Some(delta) = moved {
            self.goroutines.undo(delta);
        }
    }

    /// Restores a lock, and the status of the goroutine that used it.
    #[inline(always)]
    fn unlock_moved(&mut self, lock: LockUndo, moved: Option<GDelta>)
        requires { (old : Parts) × Then (IfAny GoroutineBack moved) (LockBack lock) self.old old }
        ensures { Then (IfAny GoroutineBack moved) (LockBack lock) self.old self.new }
    {
        self.unmove(moved);
        self.unlock(lock);
    }

    /// Removes a waiter if a goroutine parked.
    #[inline(always)]
    fn unpark(&mut self, parked: bool)
        requires { (old : Parts) × ParkBack parked self.old old }
        ensures { ParkBack parked self.old self.new }
    {
        if parked {
            self.waiters -= 1;
        }
    }

    /// Restores a descriptor, the status of a goroutine inside a wait for it, and the number of
    /// waiters.
    #[inline(always)]
    fn unwait(&mut self, desc: DescUndo, moved: GDelta, parked: bool)
        requires { (old : Parts)
            × Then (ParkBack parked) (Then (GoroutineBack moved) (DescBack desc)) self.old old }
        ensures { Then (ParkBack parked) (Then (GoroutineBack moved) (DescBack desc))
            self.old self.new }
    {
        self.unpark(parked);
        self.goroutines.undo(moved);
        self.undescribe(desc);
    }

    /// Makes the reopened descriptor the first free one again.
    #[inline(always)]
    fn free_again(&mut self, desc: DescUndo)
        requires { (old : Parts) × Then (DescBack desc) (TakeBack desc.descriptor) self.old old }
        ensures { Then (DescBack desc) (TakeBack desc.descriptor) self.old self.new }
    {
        let descriptor = desc.descriptor;
        self.undescribe(desc);
        self.free.insert(0, descriptor);
    }

    /// Opens the closed descriptor again.
    #[inline(always)]
    fn unclose(&mut self, desc: DescUndo)
        ensures { Then GiveBack (DescBack desc) self.old self.new }
    {
        let _ = self.free.take_first();
        self.undescribe(desc);
    }

    /// Restores the timer of a side, if it changed.
    #[inline(always)]
    pub(crate) fn unorder(&mut self, order: Option<TimersDelta>)
        requires { (old : Parts) × IfAny TimersBack order self.old old }
        ensures { IfAny TimersBack order self.old self.new }
    {
        if let Some(delta) = order {
            self.timers.undo(delta);
        }
    }

    /// Restores the timers of both sides, if they changed.
    #[inline(always)]
    fn unobey(&mut self, orders: Sides<Option<TimersDelta>>)
        requires { (old : Parts) × ObeyBack orders self.old old }
        ensures { ObeyBack orders self.old self.new }
    {
        self.unorder(orders.write);
        self.unorder(orders.read);
    }

    /// Parks the goroutine of a side again, if one was woken.
    #[inline(always)]
    fn unwake_any(&mut self, woken: Option<u32>)
        requires { (old : Parts) × IfAny WakeBack woken self.old old }
        ensures { IfAny WakeBack woken self.old self.new }
    {
        if let Some(goroutine) = woken {
            self.unwake(goroutine);
        }
    }

    /// Parks the woken goroutines of both sides again.
    #[inline(always)]
    fn unwake_both(&mut self, woken: Sides<Option<u32>>)
        requires { (old : Parts) × WokenBack woken self.old old }
        ensures { WokenBack woken self.old self.new }
    {
        self.unwake_any(woken.write);
        self.unwake_any(woken.read);
    }

    /// Restores the descriptor, its timers and the goroutines that it woke.
    #[inline(always)]
    fn unchange(
        &mut self,
        desc: DescUndo,
        timers: Sides<Option<TimersDelta>>,
        woken: Sides<Option<u32>>,
    )
        requires { (old : Parts)
            × Then (WokenBack woken) (Then (DescBack desc) (ObeyBack timers)) self.old old }
        ensures { Then (WokenBack woken) (Then (DescBack desc) (ObeyBack timers))
            self.old self.new }
    {
        self.unwake_both(woken);
        self.undescribe(desc);
        self.unobey(timers);
    }
}

impl World {
    /// Restores the buffers of a socket.
    #[inline(always)]
    fn untransfer(&mut self, socket: usize, delta: &SockDelta)
        requires { (old : WorldParts) × SockBack socket delta.now self.old old }
        ensures { SockBack socket delta.now self.old self.new }
    {
        let sock = &mut self.socks[socket];
        sock.lead_back(&delta.undo);
    }

    /// Removes the socket that was opened last.
    #[inline(always)]
    fn unopen(&mut self, delta: &SockDelta)
        requires { (old : WorldParts) × OpenedBack delta.now self.old old }
        ensures { OpenedBack delta.now self.old self.new }
    {
        self.core.locks.drop_last();
        let socket = self.core.locks.len();
        self.untransfer(socket, delta);
    }

    /// Undoes the step that made this undo, and doesn't change the undo.
    #[inline(always)]
    pub(crate) fn lead_back(&mut self, undo: &WorldUndo)
        requires { (old : WorldParts) × UndoBack undo.now self.old old }
        ensures { UndoBack undo.now self.old self.new }
    {
        match undo {
            WorldUndo::Still => {}
            WorldUndo::Goroutine(delta) => self.core.goroutines.undo(*delta),
            WorldUndo::Locked { lock, moved } => self.core.unlock_moved(*lock, *moved),
            WorldUndo::Sock { socket, delta } => self.untransfer(*socket as usize, delta),
            WorldUndo::Opened(delta) => self.unopen(delta),
            WorldUndo::Made => self.core.descriptors.drop_last(),
            WorldUndo::Reopened(desc) => self.core.free_again(*desc),
            WorldUndo::Closed(desc) => self.core.unclose(*desc),
            WorldUndo::Described(desc) => self.core.undescribe(*desc),
            WorldUndo::Waited {
                desc,
                moved,
                parked,
            } => self.core.unwait(*desc, *moved, *parked),
            WorldUndo::Clock(before) => self.core.clock = *before,
            WorldUndo::Timers(delta) => self.core.timers.undo(*delta),
            WorldUndo::Changed {
                desc,
                timers,
                woken,
            } => self.core.unchange(*desc, *timers, *woken),
        }
    }
}
