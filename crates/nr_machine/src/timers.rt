//! The steps of the clock and of timers: advancing the clock, popping a due timer and running a
//! firing.

ghost use Rattle.std.specs.Prelude.{◌∷◌, []};
ghost use Rattle.nr_rev.specs.Step as step;
ghost use Rattle.nr_machine.specs.Fits.{IsWorld};
ghost use Rattle.nr_machine.specs.Auxiliary.Made.{Makes};
ghost use Rattle.nr_machine.specs.World.{meant};
ghost use Rattle.nr_timers.specs.declared.op.TimersOp.TheVariants as timers;

use crate::delta::WorldUndo;
use crate::world::World;
use nr_desc::DescOp;
use nr_rev::{Answer, Keeper, Refusal, Reversible};
use nr_timers::TimersOp;
use nr_timers::laws::entries_are_the_descriptors;

impl World {
    /// `tick`.
    #[inline(always)]
    pub(crate) fn tick<K: Keeper<WorldUndo>>(
        &mut self,
        time: i64,
        way: &mut K,
    ) -> Result<Answer, Refusal>
        requires { IsWorld self.old }
        ensures { Makes K.holds way.new (step.tick time (meant self.old)) [] self.old result self.new }
    {
        let before = self.core.clock;
        if time < before {
            return Err(Refusal::ClockGoesBack);
        }
        self.core.clock = time;
        way.put(WorldUndo::Clock(before));
        Ok(Answer::Done)
    }

    /// `pop`.
    #[inline(always)]
    pub(crate) fn pop<K: Keeper<WorldUndo>>(&mut self, way: &mut K) -> Result<Answer, Refusal>
        requires { IsWorld self.old }
        ensures { Makes K.holds way.new (step.pop (meant self.old)) (timers.Pop self.old.core.clock ∷ []) self.old result self.new }
    {
        // This call only states a law: the heap's first entry is the least of all descriptors'
        // timers.
        entries_are_the_descriptors();
        let now = self.core.clock;
        let (_, delta) = self.core.timers.apply(&TimersOp::Pop { now })?;
        way.put(WorldUndo::Timers(delta));
        Ok(Answer::Done)
    }

    /// `fire`.
    #[inline(always)]
    pub(crate) fn fire<K: Keeper<WorldUndo>>(
        &mut self,
        place: u32,
        way: &mut K,
    ) -> Result<Answer, Refusal>
        requires { IsWorld self.old }
        ensures { Makes K.holds way.new (step.fire place (meant self.old)) (timers.TakeFiring place ∷ [])
            self.old result self.new }
    {
        let Some(entry) = self.core.timers.firing(place as usize) else {
            return Err(Refusal::NoSuchFiring);
        };
        let desc = self.desc_of(entry.descriptor)?;
        let op = DescOp::Fire {
            function: entry.timer.function,
            sequence: entry.timer.sequence,
        };
        self.change_by_firing(place, entry.descriptor, desc, &op, way)
    }
}
