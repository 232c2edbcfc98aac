//! Waits: the operations on a side's word.

ghost use Rattle.std.specs.Prelude.{◌≡◌, ◌+◌, ◌<◌, ◌^◌};
ghost use Rattle.nr_rev.specs.Sides as sides;
ghost use Rattle.nr_rev.specs.Auxiliary.Refusing.{Gives};
ghost use Rattle.nr_desc.specs.Auxiliary.Change.{answered_view};
ghost use Rattle.nr_desc.specs.Op as spec;

use crate::code::WordCode;
use crate::desc::Desc;
use nr_rev::{Answer, Refusal, Side, WaitWord};

/// The result of an operation on a word: the answer and the descriptor.
#[derive(Clone, Copy)]
pub(crate) struct Answered {
    pub(crate) answer: Answer,
    pub(crate) desc: Desc,
}

impl Desc {
    /// Makes a side's word nil, if nothing prevents a wait (Go's `poll_runtime_pollReset`).
    #[inline(always)]
    pub(crate) fn reset(self, side: Side) -> Result<Answered, Refusal>
        ensures { Gives answered_view result (spec.reset side self) }
    {
        let code = self.check(side);
        if code != 0 {
            return Ok(Answered {
                answer: Answer::Code(code),
                desc: self,
            });
        }
        if self.words.of(side).is_awaited() {
            return Err(Refusal::WaiterInside);
        }
        Ok(Answered {
            answer: Answer::Code(0),
            desc: self.with_wait_word(side, WordCode::nil()),
        })
    }

    /// Makes a side's word wait, or consumes it if it is ready (the first half of Go's
    /// `netpollblock`).
    #[inline(always)]
    pub(crate) fn arm(self, side: Side) -> Result<Answered, Refusal>
        ensures { Gives answered_view result (spec.armed_by side (sides.of_side side self.words) self) }
    {
        match self.words.of(side).word() {
            WaitWord::Nil => Ok(Answered {
                answer: Answer::Wait,
                desc: self.with_wait_word(side, WordCode::wait()),
            }),
            WaitWord::Ready => Ok(Answered {
                answer: Answer::Code(0),
                desc: self.with_wait_word(side, WordCode::nil()),
            }),
            _ => Err(Refusal::DoubleWait),
        }
    }

    /// Makes a side's word hold the goroutine, if the word is wait (Go's `netpollblockcommit`).
    #[inline(always)]
    pub(crate) fn commit(self, side: Side, goroutine: u32) -> Answered
        requires { goroutine + 3 < 2 ^ 32 }
        ensures { answered_view result
            ≡ spec.committed_by side goroutine (sides.of_side side self.words) self }
    {
        match self.words.of(side).word() {
            WaitWord::Wait => Answered {
                answer: Answer::Yes,
                desc: self.with_wait_word(side, WordCode::held(goroutine)),
            },
            _ => Answered {
                answer: Answer::No,
                desc: self,
            },
        }
    }

    /// Makes a side's word nil (the second half of Go's `netpollblock`).
    #[inline(always)]
    pub(crate) fn swap(self, side: Side) -> Answered
        ensures { answered_view result ≡ spec.swapped_by side (sides.of_side side self.words) self }
    {
        let answer = match self.words.of(side).word() {
            WaitWord::Ready => Answer::Yes,
            _ => Answer::No,
        };
        Answered {
            answer,
            desc: self.with_wait_word(side, WordCode::nil()),
        }
    }
}
