//! Lookups that steps use, with the reasons for which they fail.

ghost use Rattle.std.specs.Prelude.{◌≡◌};
ghost use Rattle.nr_rev.specs.Step as step;
ghost use Rattle.nr_rev.specs.World.{is_free_number, is_waited};
ghost use Rattle.nr_rev.specs.Auxiliary.Refusing.{Gives};
ghost use Rattle.nr_machine.specs.Rows.{row_of};
ghost use Rattle.nr_machine.specs.World.{meant};
ghost use Rattle.nr_timers.specs.TimersOf.{timers_of};

use crate::world::World;
use nr_desc::Desc;
use nr_rev::{Refusal, Side, Status};

impl World {
    /// Returns the status of a goroutine that exists and hasn't ended.
    #[inline(always)]
    pub(crate) fn status_of(&self, goroutine: u32) -> Result<Status, Refusal>
        ensures { result ≡ step.status_of goroutine (meant self.now) }
    {
        match self.core.goroutines.status(goroutine) {
            None | Some(Status::Gone) => Err(Refusal::NoSuchGoroutine),
            Some(status) => Ok(status),
        }
    }

    /// Checks that a goroutine is idle.
    #[inline(always)]
    pub(crate) fn idle(&self, goroutine: u32) -> Result<(), Refusal>
        ensures { result ≡ step.idle goroutine (meant self.now) }
    {
        match self.status_of(goroutine)? {
            Status::Idle => Ok(()),
            _ => Err(Refusal::NotThere),
        }
    }

    /// Returns a descriptor that exists.
    #[inline(always)]
    #[tactic(auto, using(crate::proofs::RowsLemmas::row_at, crate::proofs::RowsLemmas::row_past))]
    pub(crate) fn desc_of(&self, descriptor: u32) -> Result<Desc, Refusal>
        ensures { Gives (λ x. row_of x (timers_of self.now.core.timers.entries descriptor)) result
            (step.row_of descriptor (meant self.now)) }
    {
        self.core
            .descriptors
            .get(descriptor as usize)
            .ok_or(Refusal::NoSuchDescriptor)
    }

    /// Returns a descriptor that is open.
    #[inline(always)]
    pub(crate) fn open_desc_of(&self, descriptor: u32) -> Result<Desc, Refusal>
        ensures { Gives (λ x. row_of x (timers_of self.now.core.timers.entries descriptor)) result
            (step.open_row_of descriptor (meant self.now)) }
    {
        if self.is_free(descriptor) {
            return Err(Refusal::NoSuchDescriptor);
        }
        self.desc_of(descriptor)
    }

    /// Returns whether a descriptor is free.
    #[inline(always)]
    pub(crate) fn is_free(&self, descriptor: u32) -> bool
        ensures { result ≡ is_free_number descriptor (meant self.now).free }
    {
        self.core
            .free
            .as_slice()
            .iter()
            .any(|free| descriptor == *free)
    }

    /// Returns whether a goroutine is inside a wait for this side of the descriptor.
    #[inline(always)]
    pub(crate) fn is_waited(&self, descriptor: u32, side: Side) -> bool
        ensures { result ≡ is_waited descriptor side (meant self.now).goroutines }
    {
        self.core.goroutines.is_waited(descriptor, side)
    }
}
