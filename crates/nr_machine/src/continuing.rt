//! The common part of steps that change a descriptor with its timers: carrying out timer orders and
//! waking goroutines.

ghost use Rattle.std.specs.Prelude.{◌≡◌, ◌∷◌, [], ◌<◌, ◌≤◌, length, slice_get, option_to_list, Some, Ok, Err, IfSome, IfErr, OnErr, OnOk};
ghost use Rattle.nr_rev.specs.Step as step;
ghost use Rattle.nr_rev.specs.Weight.{option_weight, sides_weight};
ghost use Rattle.nr_rev.specs.declared.status.Status.TheVariants.{Parked};
ghost use Rattle.nr_desc.specs.Change.{listed};
ghost use Rattle.nr_gsema.specs.Applying.{IsQueuedUp};
ghost use Rattle.nr_timers.specs.Back.{delta_weight};
ghost use Rattle.nr_timers.specs.State.{IsTimers};
ghost use Rattle.nr_timers.specs.TimersOf.{timers_of};
ghost use Rattle.nr_timers.specs.declared.op.TimersOp.TheVariants.{TakeFiring};
ghost use Rattle.nr_machine.specs.Asked.{asked_at, timers_op};
ghost use Rattle.nr_machine.specs.Auxiliary.Changing.{IfAny, TimersBack, WakeBack};
ghost use Rattle.nr_machine.specs.Continuing.{CanWake, Obeyed, TakesFiring, changing, orders_outcome, without_firing, woken_any, woken_both};
ghost use Rattle.nr_machine.specs.Delta.{ObeyBack, WokenBack};
ghost use Rattle.nr_machine.specs.Fits.{IsWorld};
ghost use Rattle.nr_machine.specs.Auxiliary.Made.{Makes};
ghost use Rattle.nr_machine.specs.Rows.{row_of};
ghost use Rattle.nr_machine.specs.World.{meant};
ghost use Rattle.nr_machine.specs.declared.world_core.Core.{Core as Parts};

use crate::delta::{DescUndo, WorldUndo};
use crate::world::World;
use crate::world_core::Core;
use nr_desc::{Desc, DescOp};
use nr_rev::{Answer, Keeper, Refusal, Reversible, Side, Sides, TimerOrder};
use nr_timers::{TimersDelta, TimersOp};

impl World {
    /// Applies an operation to a descriptor that has been read, carries out its timer orders, and
    /// wakes the goroutines that its words held.
    #[inline(always)]
    pub(crate) fn change<K: Keeper<WorldUndo>>(
        &mut self,
        descriptor: u32,
        desc: Desc,
        op: &DescOp,
        way: &mut K,
    ) -> Result<Answer, Refusal>
        requires world { IsWorld self.old }
        requires there { step.row_of descriptor (meant self.old)
            ≡ Ok (row_of desc (timers_of self.old.core.timers.entries descriptor)) }
        ensures { Makes K.holds way.new (changing descriptor op.now (meant self.old)) (asked_at descriptor op.now self.old)
            self.old result self.new }
    {
        let mut desc = desc;
        match desc.apply(op) {
            Ok((left, before)) => {
                let mut timers = Sides::twice(None);
                self.core
                    .obey(descriptor, left.orders.sides(), &mut timers)?;
                self.core.set_descriptor(descriptor, desc);
                self.core.wake_both(descriptor, left.woken);
                way.put(WorldUndo::Changed {
                    desc: DescUndo { descriptor, before },
                    timers,
                    woken: left.woken,
                });
                Ok(left.answer)
            }
            Err(refusal) => Err(refusal),
        }
    }

    /// Applies the operation of a firing to a descriptor that has been read. Then removes the
    /// firing, and wakes the goroutines that the descriptor's words held. The operation must not
    /// request timer changes.
    #[inline(always)]
    pub(crate) fn change_by_firing<K: Keeper<WorldUndo>>(
        &mut self,
        place: u32,
        descriptor: u32,
        desc: Desc,
        op: &DescOp,
        way: &mut K,
    ) -> Result<Answer, Refusal>
        requires world { IsWorld self.old }
        requires within { place < length self.old.core.timers.firings }
        requires there { step.row_of descriptor (meant self.old)
            ≡ Ok (row_of desc (timers_of self.old.core.timers.entries descriptor)) }
        requires quiet { asked_at descriptor op.now self.old ≡ [] }
        ensures { Makes K.holds way.new (changing descriptor op.now (without_firing place (meant self.old)))
            (TakeFiring place ∷ []) self.old result self.new }
    {
        let mut desc = desc;
        let (left, before) = desc.apply(op)?;
        let taken = self.core.take_firing(place);
        self.core.set_descriptor(descriptor, desc);
        self.core.wake_both(descriptor, left.woken);
        way.put(WorldUndo::Changed {
            desc: DescUndo { descriptor, before },
            timers: Sides {
                read: Some(taken),
                write: None,
            },
            woken: left.woken,
        });
        Ok(left.answer)
    }
}

impl Core {
    /// Removes a firing.
    #[inline(always)]
    fn take_firing(&mut self, place: u32) -> TimersDelta
        requires timers { IsTimers self.old.timers }
        requires within { place < length self.old.timers.firings }
        ensures { TakesFiring self.old place result self.new }
    {
        match self.timers.apply(&TimersOp::TakeFiring { place }) {
            Ok((_, delta)) => delta,
            Err(_) => unreachable!(),
        }
    }

    /// Carries out the read side's timer order and then the write side's: either both or neither.
    /// Doesn't touch the heap if there are no orders.
    #[inline(always)]
    fn obey(
        &mut self,
        descriptor: u32,
        orders: Sides<Option<TimerOrder>>,
        deltas: &mut Sides<Option<TimersDelta>>,
    ) -> Result<(), Refusal>
        requires timers { IsTimers self.old.timers }
        requires below { descriptor < self.old.timers.descriptors }
        ensures obeyed { OnOk result (Obeyed self.old descriptor (listed orders) self.new) }
        ensures back { OnOk result (ObeyBack deltas.new self.new self.old) }
        ensures light { OnOk result (sides_weight (option_weight delta_weight) deltas.new ≤ 20) }
        ensures err { IfErr result (λ e. orders_outcome descriptor (listed orders) self.old ≡ Err e) }
        ensures unchanged { OnErr result (self.new ≡ self.old) }
    {
        if orders.read.is_none() && orders.write.is_none() {
            *deltas = Sides::twice(None);
            return Ok(());
        }
        self.obey_both(descriptor, orders, deltas)
    }

    /// Carries out the orders to both sides' timers, at least one of which exists.
    #[inline(always)]
    fn obey_both(
        &mut self,
        descriptor: u32,
        orders: Sides<Option<TimerOrder>>,
        deltas: &mut Sides<Option<TimersDelta>>,
    ) -> Result<(), Refusal>
        requires timers { IsTimers self.old.timers }
        requires below { descriptor < self.old.timers.descriptors }
        ensures obeyed { OnOk result (Obeyed self.old descriptor (listed orders) self.new) }
        ensures back { OnOk result (ObeyBack deltas.new self.new self.old) }
        ensures light { OnOk result (sides_weight (option_weight delta_weight) deltas.new ≤ 20) }
        ensures err { IfErr result (λ e. orders_outcome descriptor (listed orders) self.old ≡ Err e) }
        ensures unchanged { OnErr result (self.new ≡ self.old) }
    {
        self.obey_one(descriptor, orders.read, &mut deltas.read)?;
        match self.obey_one(descriptor, orders.write, &mut deltas.write) {
            Ok(()) => Ok(()),
            Err(refusal) => {
                self.unorder(deltas.read);
                Err(refusal)
            }
        }
    }

    /// Carries out the order to the timer of a side, if any.
    #[inline(always)]
    fn obey_one(
        &mut self,
        descriptor: u32,
        order: Option<TimerOrder>,
        delta: &mut Option<TimersDelta>,
    ) -> Result<(), Refusal>
        requires timers { IsTimers self.old.timers }
        requires below { descriptor < self.old.timers.descriptors }
        ensures obeyed { OnOk result (Obeyed self.old descriptor (option_to_list order) self.new) }
        ensures back { OnOk result (IfAny TimersBack delta.new self.new self.old) }
        ensures light { OnOk result (option_weight delta_weight delta.new ≤ 10) }
        ensures err { IfErr result (λ e. orders_outcome descriptor (option_to_list order) self.old ≡ Err e) }
        ensures unchanged { OnErr result (self.new ≡ self.old) }
    {
        let Some(order) = order else {
            *delta = None;
            return Ok(());
        };
        let (_, made) = self.timers.apply(&ordered(descriptor, order))?;
        *delta = Some(made);
        Ok(())
    }

    /// Wakes the reader, if any, and then the writer, if any.
    #[inline(always)]
    pub(crate) fn wake_both(&mut self, descriptor: u32, woken: Sides<Option<u32>>)
        requires { CanWake descriptor woken self.old }
        ensures woken { self.new ≡ woken_both descriptor woken self.old }
        ensures queued { IsQueuedUp self.new.goroutines }
        ensures back { WokenBack woken self.new self.old }
    {
        self.wake_any(woken.read, descriptor, Side::Read);
        self.wake_any(woken.write, descriptor, Side::Write);
    }

    /// Wakes the goroutine of a side, if any.
    #[inline(always)]
    fn wake_any(&mut self, woken: Option<u32>, descriptor: u32, side: Side)
        requires there { IfSome woken (λ g. (slice_get self.old.goroutines.goroutines g
            ≡ Some (Parked descriptor side)) × (0 < self.old.waiters)) }
        requires queued { IsQueuedUp self.old.goroutines }
        ensures woken { self.new ≡ woken_any descriptor side woken self.old }
        ensures queued { IsQueuedUp self.new.goroutines }
        ensures back { IfAny WakeBack woken self.new self.old }
    {
        if let Some(goroutine) = woken {
            self.wake(goroutine, descriptor, side);
        }
    }
}

/// Returns the operation for an order to the timer of a descriptor.
#[inline(always)]
fn ordered(descriptor: u32, order: TimerOrder) -> TimersOp
    ensures { result ≡ timers_op descriptor order }
{
    match order {
        TimerOrder::Arm {
            side,
            due,
            function,
            sequence,
        } => TimersOp::Arm {
            descriptor,
            side,
            due,
            function,
            sequence,
        },
        TimerOrder::Stop { side } => TimersOp::Stop { descriptor, side },
    }
}
