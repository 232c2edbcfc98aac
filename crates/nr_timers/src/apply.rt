//! `Reversible` for timers.

use crate::delta::TimersDelta;
use crate::op::TimersOp;
use crate::timers::Timers;
use nr_rev::{Refusal, Reversible};

/// An entry and its places suffice for an undo, since an operation moves the heap's entries along one path to the root.
impl Reversible for Timers {
    ghost use Rattle.nr_timers.specs.Back.{TimersBack, delta_weight, op_allowance};
    ghost use Rattle.nr_timers.specs.ReversibleLaws.{TimersBack-unique, memory_is_no_reason, refused_has_no_step, steps_unique, weight_is_within};
    ghost use Rattle.nr_timers.specs.State.{IsTimers};
    ghost use Rattle.nr_timers.specs.Step.{TimersStep};
    ghost use Rattle.nr_timers.specs.Auxiliary.Step.{TakesMemory, timers_reason};

    type Op = TimersOp;

    type Answer = ();

    type Delta = TimersDelta;

    const WORDS: u32 = 9;

    ghost WORDS = { 9 };

    ghost is_well_formed = { IsTimers };

    ghost steps = { TimersStep };

    ghost reason = { timers_reason };

    ghost takes_memory = { TakesMemory };

    ghost back = { TimersBack };

    ghost weight = { delta_weight };

    ghost allowance = { op_allowance };

    ghost bytes_out = { λ _ _. 0 };

    #[inline(always)]
    fn apply(&mut self, op: &TimersOp) -> Result<((), TimersDelta), Refusal> {
        match self.perform(op) {
            Ok(undo) => Ok(((), TimersDelta { undo })),
            Err(refusal) => Err(refusal),
        }
    }

    #[inline(always)]
    fn undo(&mut self, delta: TimersDelta) {
        self.lead_back(delta.undo);
    }

    ghost back_is_unique = { TimersBack-unique };

    ghost refused_has_no_step = { refused_has_no_step };

    ghost memory_is_no_reason = { memory_is_no_reason };

    ghost steps_unique = { steps_unique };

    ghost allowance_is_within = { weight_is_within };
}
