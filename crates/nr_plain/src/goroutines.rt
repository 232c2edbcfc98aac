//! The steps that start and end goroutines.

ghost use Rattle.nr_rev.specs.declared.step.Step.TheVariants as steps;
ghost use Rattle.nr_plain.specs.Plan.{Plans};

use crate::edit::Edit;
use crate::plan::Plan;
use crate::world::PlainWorld;
use nr_rev::{Answer, Refusal, Status};

impl PlainWorld {
    /// Returns the plan of `spawn`.
    pub(crate) fn spawn<'a>(&self) -> Result<Plan<'a>, Refusal>
        ensures { Plans steps.Spawn self.now result }
    {
        let made = self.goroutines.len();
        if made >= self.limits.goroutines as usize {
            return Err(Refusal::TableFull);
        }
        Ok(Plan::new(Answer::Number(made as u32)).then(Edit::AddGoroutine))
    }

    /// Returns the plan of `exit`.
    pub(crate) fn exit<'a>(&self, goroutine: u32) -> Result<Plan<'a>, Refusal>
        ensures { Plans (steps.Exit goroutine) self.now result }
    {
        self.idle(goroutine)?;
        Ok(Plan::new(Answer::Done).then(Edit::Status {
            goroutine,
            status: Status::Gone,
        }))
    }
}
