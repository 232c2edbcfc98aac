//! Applying and undoing operations.

ghost use Rattle.nr_gsema.specs.Applying.{IsQueuedUp};
ghost use Rattle.nr_gsema.specs.Auxiliary.Applying.{Applies};

use crate::delta::{GDelta, GUndo};
use crate::operation::GOperation;
use crate::table::GTable;
use nr_rev::{Answer, Refusal, Reversible, Side, Sides, Status};

/// The maximum number of words in a delta.
pub(crate) const MOST_WORDS: u32 = 7;

impl GTable {
    /// Applies the operation, and returns its answer and undo. If the operation is refused, changes nothing and returns
    /// the reason.
    #[inline(always)]
    fn run(&mut self, op: &GOperation) -> Result<(Answer, GUndo), Refusal>
        ensures { Applies op.now self.old result self.new }
    {
        match *op {
            GOperation::Spawn => self.spawn(),
            GOperation::Exit { goroutine } => self.exit(goroutine),
            GOperation::Move {
                goroutine,
                from,
                to,
            } => self.move_to(goroutine, from, to),
            GOperation::Acquire { goroutine } => self.acquire(goroutine),
            GOperation::Release { goroutine } => self.release(goroutine),
        }
    }

    /// Does nothing. The contract of this method says that a queue contains a goroutine, once, if and only if the
    /// goroutine's status says that it is queued there. This is a method, not a law, because it follows from the type's
    /// invariant, which the view doesn't show; reading a field brings the invariant into a proof.
    #[inline(always)]
    pub fn queues_hold_the_queued(&self)
        ensures { IsQueuedUp self.now }
    {
        let _ = &self.nodes;
    }
}

/// An operation changes at most three nodes and one semaphore, and so does its undo. No operation allocates memory.
impl Reversible for GTable {
    ghost use Rattle.nr_gsema.specs.declared.apply.TheConstants.{MOST_WORDS};
    ghost use Rattle.nr_gsema.specs.Applying.{IsQueuedUp};
    ghost use Rattle.nr_gsema.specs.Delta.{LeadsBack, delta_weight, weight_allowed};
    ghost use Rattle.nr_gsema.specs.Step.{StepTo, table_reason};
    ghost use Rattle.nr_gsema.specs.ReversibleLaws.{LeadsBack-unique, memory_is_no_reason, refused_has_no_step, steps_unique, weight_is_within};

    type Op = GOperation;

    type Answer = Answer;

    type Delta = GDelta;

    const WORDS: u32 = MOST_WORDS;

    ghost WORDS = { MOST_WORDS };

    ghost is_well_formed = { IsQueuedUp };

    ghost steps = { StepTo };

    ghost reason = { table_reason };

    ghost takes_memory = { λ _ _. ⊥ };

    ghost back = { LeadsBack };

    ghost weight = { delta_weight };

    ghost allowance = { weight_allowed };

    ghost bytes_out = { λ _ _. 0 };

    #[inline(always)]
    fn apply(&mut self, op: &GOperation) -> Result<(Answer, GDelta), Refusal> {
        let result = self.run(op);
        self.queues_hold_the_queued();
        let (answer, undo) = result?;
        Ok((answer, GDelta { undo }))
    }

    #[inline(always)]
    fn undo(&mut self, delta: GDelta) {
        match delta.undo {
            GUndo::Spawned => self.pop(),
            GUndo::Moved { goroutine, status } => self.set_status(goroutine, status),
            GUndo::Acquired {
                goroutine,
                socket,
                side,
            } => self.unacquire(goroutine, socket, side),
            GUndo::Queued {
                goroutine,
                socket,
                side,
            } => self.leave_back(goroutine, socket, side),
            GUndo::Released {
                goroutine,
                socket,
                reads,
                writes,
                front,
            } => self.unrelease(
                goroutine,
                socket,
                Sides {
                    read: reads,
                    write: writes,
                },
                front,
            ),
        }
    }

    ghost back_is_unique = { LeadsBack-unique };

    ghost refused_has_no_step = { refused_has_no_step };

    ghost memory_is_no_reason = { memory_is_no_reason };

    ghost steps_unique = { steps_unique };

    ghost allowance_is_within = { weight_is_within };
}
