//! Performing the operations on timers: arm, stop, pop, and take a firing.

ghost use Rattle.nr_timers.specs.declared.op.TimersOp.TheVariants.{Arm, Pop, Stop, TakeFiring};
ghost use Rattle.nr_timers.specs.Performing.{Performs};
ghost use Rattle.nr_timers.specs.State.{IsTimers};

use crate::delta::TimersUndo;
use crate::entries::{key, key_of};
use crate::op::TimersOp;
use crate::timers::Timers;
use nr_rev::{Entry, Refusal, Side, Timer, TimerFunction};

impl Timers {
    /// Performs an operation and returns its undo. If the operation is refused, changes nothing and returns the reason.
    #[inline(always)]
    pub(crate) fn perform(&mut self, op: &TimersOp) -> Result<TimersUndo, Refusal>
        requires { IsTimers self.old }
        ensures { Performs self.old op.now result self.new }
    {
        match *op {
            TimersOp::Arm {
                descriptor,
                side,
                due,
                function,
                sequence,
            } => self.arm(descriptor, side, due, function, sequence),
            TimersOp::Stop { descriptor, side } => self.stop(descriptor, side),
            TimersOp::Pop { now } => self.pop(now),
            TimersOp::TakeFiring { place } => self.take_firing(place),
        }
    }

    /// Arms the timer of a descriptor's side, and replaces any armed one.
    #[inline(always)]
    fn arm(
        &mut self,
        descriptor: u32,
        side: Side,
        due: i64,
        function: TimerFunction,
        sequence: u64,
    ) -> Result<TimersUndo, Refusal>
        requires { IsTimers self.old }
        ensures { Performs self.old (Arm descriptor side due function sequence) result self.new }
    {
        if descriptor >= self.descriptors {
            return Err(Refusal::NoSuchDescriptor);
        }
        if self.next == u64::MAX {
            return Err(Refusal::LastNumber);
        }
        let armed = Entry {
            descriptor,
            side,
            timer: Timer {
                due,
                number: self.next,
                function,
                sequence,
            },
        };
        let gone = self.heap.clear(key(&armed));
        let to = self.heap.insert(armed);
        self.next += 1;
        Ok(TimersUndo::of_arming(to as u32, gone))
    }

    /// Stops the timer of a descriptor's side, if one is armed.
    #[inline(always)]
    fn stop(&mut self, descriptor: u32, side: Side) -> Result<TimersUndo, Refusal>
        requires { IsTimers self.old }
        ensures { Performs self.old (Stop descriptor side) result self.new }
    {
        if descriptor >= self.descriptors {
            return Err(Refusal::NoSuchDescriptor);
        }
        let gone = self.heap.clear(key_of(descriptor, side));
        Ok(TimersUndo::of_stop(gone))
    }

    /// Moves the least entry to the end of the firings, if it is due.
    #[inline(always)]
    fn pop(&mut self, now: i64) -> Result<TimersUndo, Refusal>
        requires { IsTimers self.old }
        ensures { Performs self.old (Pop now) result self.new }
    {
        let Some(least) = self.heap.get(0) else {
            return Err(Refusal::NoTimerDue);
        };
        if least.timer.due > now {
            return Err(Refusal::NoTimerDue);
        }
        if self.firings.len() >= 2 * self.descriptors as usize {
            return Err(Refusal::FiringsFull);
        }
        let (entry, last) = self.heap.remove(0);
        self.firings.push(entry);
        Ok(TimersUndo::Popped { last: last as u32 })
    }

    /// Removes the firing at a place.
    #[inline(always)]
    fn take_firing(&mut self, place: u32) -> Result<TimersUndo, Refusal>
        requires { IsTimers self.old }
        ensures { Performs self.old (TakeFiring place) result self.new }
    {
        if place as usize >= self.firings.len() {
            return Err(Refusal::NoSuchFiring);
        }
        let entry = self.firings.remove(place as usize);
        Ok(TimersUndo::Taken { place, entry })
    }
}
