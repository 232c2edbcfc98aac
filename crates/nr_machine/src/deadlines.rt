//! The step that sets deadlines: Go's `poll_runtime_pollSetDeadline`.

ghost use Rattle.nr_rev.specs.Step as step;
ghost use Rattle.nr_desc.specs.declared.op.DescOp.TheVariants as desc;
ghost use Rattle.nr_machine.specs.Asked.{asked_at};
ghost use Rattle.nr_machine.specs.Fits.{IsWorld};
ghost use Rattle.nr_machine.specs.Auxiliary.Made.{Makes};
ghost use Rattle.nr_machine.specs.World.{meant};

use crate::delta::WorldUndo;
use crate::world::World;
use nr_desc::DescOp;
use nr_rev::{Answer, Keeper, Mode, Refusal};

impl World {
    /// `setdeadline`.
    #[inline(always)]
    pub(crate) fn setdeadline<K: Keeper<WorldUndo>>(
        &mut self,
        goroutine: u32,
        descriptor: u32,
        mode: Mode,
        time: i64,
        way: &mut K,
    ) -> Result<Answer, Refusal>
        requires { IsWorld self.old }
        ensures { Makes K.holds way.new (step.setdeadline goroutine descriptor mode time (meant self.old))
            (asked_at descriptor (desc.SetDeadline self.old.core.clock mode time) self.old)
            self.old result self.new }
    {
        self.idle(goroutine)?;
        let desc = self.open_desc_of(descriptor)?;
        let clock = self.core.clock;
        self.change(
            descriptor,
            desc,
            &DescOp::SetDeadline { clock, mode, time },
            way,
        )
    }
}
