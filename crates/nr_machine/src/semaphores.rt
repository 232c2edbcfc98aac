//! The steps on a socket's semaphores.

ghost use Rattle.std.specs.Prelude.{[]};
ghost use Rattle.nr_rev.specs.Step as step;
ghost use Rattle.nr_machine.specs.Fits.{IsWorld};
ghost use Rattle.nr_machine.specs.Auxiliary.Made.{Makes};
ghost use Rattle.nr_machine.specs.World.{meant};

use crate::delta::WorldUndo;
use crate::world::World;
use nr_gsema::GOperation;
use nr_rev::{Answer, Keeper, Refusal};

impl World {
    /// `acquire`.
    #[inline(always)]
    pub(crate) fn acquire<K: Keeper<WorldUndo>>(
        &mut self,
        goroutine: u32,
        way: &mut K,
    ) -> Result<Answer, Refusal>
        requires { IsWorld self.old }
        ensures { Makes K.holds way.new (step.acquire goroutine (meant self.old)) [] self.old result self.new }
    {
        self.goroutine(GOperation::Acquire { goroutine }, way)
    }

    /// `release`.
    #[inline(always)]
    pub(crate) fn release<K: Keeper<WorldUndo>>(
        &mut self,
        goroutine: u32,
        way: &mut K,
    ) -> Result<Answer, Refusal>
        requires { IsWorld self.old }
        ensures { Makes K.holds way.new (step.release goroutine (meant self.old)) [] self.old result self.new }
    {
        self.goroutine(GOperation::Release { goroutine }, way)
    }
}
