//! Applying and undoing operations.

ghost use Rattle.std.specs.Prelude.{◌≡◌, None};
ghost use Rattle.nr_desc.specs.Auxiliary.Change.{made_view};
ghost use Rattle.nr_desc.specs.declared.op.DescOp.TheVariants as op;
ghost use Rattle.nr_desc.specs.Auxiliary.Op.{ComesTo};
ghost use Rattle.nr_rev.specs.Sides as sides;
ghost use Rattle.nr_rev.specs.Descriptor as spec;

use crate::change::{DescChange, change_by_event, quiet};
use crate::deadline::change_by_deadline;
use crate::desc::Desc;
use crate::firing::change_by_firing;
use crate::op::{DescAnswer, DescOp, Goroutine, Orders};
use crate::opening::change_by_evict;
use crate::waiting::Answered;
use nr_rev::{Answer, Mode, Refusal, Reversible, Side, TimerFunction};

/// The maximum number of words in a delta.
pub(crate) const MOST_WORDS: u32 = 9;

/// The data that undoes an operation: the previous descriptor, in nine numbers.
#[derive(Clone, Copy, Debug, PartialEq, Eq)]
pub struct DescDelta {
    before: Desc,
}

impl Default for DescDelta {
    fn default() -> Self {
        DescDelta {
            before: Desc::never_opened(),
        }
    }
}

/// An answer, and the change that the operation makes.
#[derive(Clone, Copy)]
pub(crate) struct Made {
    pub(crate) answer: Answer,
    pub(crate) change: DescChange,
}

/// Returns an answer that gives no orders and wakes no goroutine.
#[inline(always)]
fn made_quiet(answer: Answer, desc: Desc) -> Made
    ensures viewed { made_view result ≡ (answer, spec.quiet desc) }
    ensures woken { result.change.woken ≡ sides.twice None }
    ensures desc { result.change.desc ≡ desc }
{
    Made {
        answer,
        change: quiet(desc),
    }
}

// Each operation is a method of its own, because a function clears all its locals on entry.
impl Desc {
    /// Returns the outcome of an operation.
    #[inline(always)]
    fn made(self, op: DescOp) -> Result<Made, Refusal>
        ensures { ComesTo op self result }
    {
        match op {
            DescOp::Open { socket } => self.made_by_open(socket),
            DescOp::Close => self.made_by_close(),
            DescOp::Reset(side) => self.made_by_reset(side),
            DescOp::Check(side) => self.made_by_check(side),
            DescOp::Arm(side) => self.made_by_arm(side),
            DescOp::Commit(side, goroutine) => self.made_by_commit(side, goroutine),
            DescOp::Swap(side) => self.made_by_swap(side),
            DescOp::SetDeadline { clock, mode, time } => self.made_by_deadline(clock, mode, time),
            DescOp::Evict => self.made_by_evict(),
            DescOp::Fire { function, sequence } => self.made_by_firing(function, sequence),
            DescOp::Event { tag, mode, error } => self.made_by_event(tag, mode, error),
        }
    }

    #[inline(always)]
    fn made_by_open(self, socket: u32) -> Result<Made, Refusal>
        ensures { ComesTo (op.Open socket) self result }
    {
        let desc = self.opened_for(socket)?;
        Ok(made_quiet(Answer::Done, desc))
    }

    #[inline(always)]
    fn made_by_close(self) -> Result<Made, Refusal>
        ensures { ComesTo op.Close self result }
    {
        let desc = self.closed()?;
        Ok(made_quiet(Answer::Done, desc))
    }

    #[inline(always)]
    fn made_by_reset(self, side: Side) -> Result<Made, Refusal>
        ensures { ComesTo (op.Reset side) self result }
    {
        let Answered { answer, desc } = self.reset(side)?;
        Ok(made_quiet(answer, desc))
    }

    #[inline(always)]
    fn made_by_check(self, side: Side) -> Result<Made, Refusal>
        ensures { ComesTo (op.Check side) self result }
    {
        Ok(made_quiet(Answer::Code(self.check(side)), self))
    }

    #[inline(always)]
    fn made_by_arm(self, side: Side) -> Result<Made, Refusal>
        ensures { ComesTo (op.Arm side) self result }
    {
        let Answered { answer, desc } = self.arm(side)?;
        Ok(made_quiet(answer, desc))
    }

    #[inline(always)]
    fn made_by_commit(self, side: Side, goroutine: Goroutine) -> Result<Made, Refusal>
        ensures { ComesTo (op.Commit side goroutine) self result }
    {
        let Answered { answer, desc } = self.commit(side, goroutine.number());
        Ok(made_quiet(answer, desc))
    }

    #[inline(always)]
    fn made_by_swap(self, side: Side) -> Result<Made, Refusal>
        ensures { ComesTo (op.Swap side) self result }
    {
        let Answered { answer, desc } = self.swap(side);
        Ok(made_quiet(answer, desc))
    }

    #[inline(always)]
    fn made_by_deadline(self, clock: i64, mode: Mode, time: i64) -> Result<Made, Refusal>
        ensures { ComesTo (op.SetDeadline clock mode time) self result }
    {
        match change_by_deadline(clock, mode, time, self) {
            Ok(change) => Ok(Made {
                answer: Answer::Done,
                change,
            }),
            Err(refusal) => Err(refusal),
        }
    }

    #[inline(always)]
    fn made_by_evict(self) -> Result<Made, Refusal>
        ensures { ComesTo op.Evict self result }
    {
        Ok(Made {
            answer: Answer::Done,
            change: change_by_evict(self)?,
        })
    }

    #[inline(always)]
    fn made_by_firing(self, function: TimerFunction, sequence: u64) -> Result<Made, Refusal>
        ensures { ComesTo (op.Fire function sequence) self result }
    {
        match change_by_firing(function, sequence, self)? {
            Some(change) => Ok(Made {
                answer: Answer::Done,
                change,
            }),
            None => Ok(made_quiet(Answer::Stale, self)),
        }
    }

    #[inline(always)]
    fn made_by_event(self, tag: u64, mode: Mode, error: bool) -> Result<Made, Refusal>
        ensures { ComesTo (op.Event tag mode error) self result }
    {
        if tag != self.fdseq() {
            return Ok(made_quiet(Answer::Stale, self));
        }
        Ok(Made {
            answer: Answer::Done,
            change: change_by_event(mode, error, self),
        })
    }
}

/// Each operation writes a few numbers, and their previous values undo it.
impl Reversible for Desc {
    ghost use Rattle.nr_desc.specs.declared.reversible.TheConstants.{MOST_WORDS};
    ghost use Rattle.nr_desc.specs.Delta.{DescBack, delta_weight};
    ghost use Rattle.nr_desc.specs.Desc.{DescFits};
    ghost use Rattle.nr_desc.specs.Laws.{DescBack-unique, memory_is_no_reason, refused_has_no_step, steps_unique, weight_is_within};
    ghost use Rattle.nr_desc.specs.Auxiliary.Op.{StepTo, desc_reason};

    type Op = DescOp;

    type Answer = DescAnswer;

    type Delta = DescDelta;

    const WORDS: u32 = MOST_WORDS;

    ghost WORDS = { MOST_WORDS };

    ghost is_well_formed = { DescFits };

    ghost steps = { StepTo };

    ghost reason = { desc_reason };

    ghost takes_memory = { λ _ _. ⊥ };

    ghost back = { DescBack };

    ghost weight = { delta_weight };

    ghost allowance = { λ _. MOST_WORDS };

    ghost bytes_out = { λ _ _. 0 };

    #[inline(always)]
    fn apply(&mut self, op: &DescOp) -> Result<(DescAnswer, DescDelta), Refusal> {
        let before = *self;
        match before.made(*op) {
            Ok(Made { answer, change }) => {
                *self = change.desc;
                let answer = DescAnswer {
                    answer,
                    orders: Orders::new(change.orders),
                    woken: change.woken,
                };
                Ok((answer, DescDelta { before }))
            }
            Err(refusal) => Err(refusal),
        }
    }

    #[inline(always)]
    fn undo(&mut self, delta: DescDelta) {
        *self = delta.before;
    }

    ghost back_is_unique = { DescBack-unique };

    ghost refused_has_no_step = { refused_has_no_step };

    ghost memory_is_no_reason = { memory_is_no_reason };

    ghost steps_unique = { steps_unique };

    ghost allowance_is_within = { weight_is_within };
}
