//! The step that sets deadlines: Go's `poll_runtime_pollSetDeadline`.

ghost use Rattle.nr_rev.specs.declared.step.Step.TheVariants as steps;
ghost use Rattle.nr_plain.specs.Plan.{Plans};

use crate::change::change_by_deadline;
use crate::plan::Plan;
use crate::world::PlainWorld;
use nr_rev::{Answer, Mode, Refusal};

impl PlainWorld {
    /// Returns the plan of `setdeadline`.
    pub(crate) fn setdeadline<'a>(
        &self,
        goroutine: u32,
        descriptor: u32,
        mode: Mode,
        time: i64,
    ) -> Result<Plan<'a>, Refusal>
        ensures { Plans (steps.SetDeadline goroutine descriptor mode time) self.now result }
    {
        self.idle(goroutine)?;
        let row = self.open_row_of(descriptor)?;
        let change = change_by_deadline(self.clock, mode, time, row.descriptor)?;
        self.then_changed(Plan::new(Answer::Done), descriptor, row, change)
    }
}
