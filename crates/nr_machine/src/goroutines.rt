//! The steps by which goroutines begin and end.

ghost use Rattle.std.specs.Prelude.{[]};
ghost use Rattle.nr_rev.specs.Step as step;
ghost use Rattle.nr_machine.specs.Fits.{IsWorld};
ghost use Rattle.nr_machine.specs.Goroutines.{IsStep, goroutine_outcome};
ghost use Rattle.nr_machine.specs.Auxiliary.Made.{Makes};
ghost use Rattle.nr_machine.specs.World.{meant};

use crate::delta::WorldUndo;
use crate::world::World;
use nr_gsema::GOperation;
use nr_rev::{Answer, Keeper, Refusal, Reversible};

impl World {
    /// Applies an operation that changes only goroutines and semaphores.
    #[inline(always)]
    pub(crate) fn goroutine<K: Keeper<WorldUndo>>(
        &mut self,
        op: GOperation,
        way: &mut K,
    ) -> Result<Answer, Refusal>
        requires world { IsWorld self.old }
        requires step { IsStep op }
        ensures { Makes K.holds way.new (goroutine_outcome op (meant self.old)) [] self.old result self.new }
    {
        let (answer, delta) = self.core.goroutines.apply(&op)?;
        way.put(WorldUndo::Goroutine(delta));
        Ok(answer)
    }

    /// `spawn`.
    #[inline(always)]
    pub(crate) fn spawn<K: Keeper<WorldUndo>>(&mut self, way: &mut K) -> Result<Answer, Refusal>
        requires { IsWorld self.old }
        ensures { Makes K.holds way.new (step.spawn (meant self.old)) [] self.old result self.new }
    {
        self.goroutine(GOperation::Spawn, way)
    }

    /// `exit`.
    #[inline(always)]
    pub(crate) fn exit<K: Keeper<WorldUndo>>(
        &mut self,
        goroutine: u32,
        way: &mut K,
    ) -> Result<Answer, Refusal>
        requires { IsWorld self.old }
        ensures { Makes K.holds way.new (step.exit goroutine (meant self.old)) [] self.old result self.new }
    {
        self.goroutine(GOperation::Exit { goroutine }, way)
    }
}
