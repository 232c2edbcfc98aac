//! Opening, closing and evicting a descriptor.

ghost use Rattle.std.specs.Prelude.{◌≡◌, IfOk, option_to_list};
ghost use Rattle.nr_rev.specs.Descriptor as spec;
ghost use Rattle.nr_rev.specs.Auxiliary.Refusing.{Gives};
ghost use Rattle.nr_desc.specs.Auxiliary.Change.{both_let_go, change_view, viewed_as_it_is};
ghost use Rattle.nr_desc.specs.Op.{closed_by_words};

use crate::change::DescChange;
use crate::code::WordCode;
use crate::desc::Desc;
use nr_rev::{Refusal, Side, Sides, TimerOrder, both_raised, raised_sequence};

/// Returns an order to stop a side's timer, if it runs.
#[inline(always)]
fn stop_if(running: bool, side: Side) -> Option<TimerOrder>
    ensures { option_to_list result ≡ spec.stop_if running side }
{
    if running {
        Some(TimerOrder::Stop { side })
    } else {
        None
    }
}

impl Desc {
    /// Returns the descriptor opened for a socket (Go's `poll_runtime_pollOpen`).
    #[inline(always)]
    pub(crate) fn opened_for(self, socket: u32) -> Result<Desc, Refusal>
        ensures { Gives viewed_as_it_is result (spec.opened_for socket self) }
    {
        let sequences = both_raised(self.sequences)?;
        Ok(Desc {
            words: Sides {
                read: WordCode::nil(),
                write: WordCode::nil(),
            },
            socket,
            marks: self.marks.opened(),
            deadlines: Sides { read: 0, write: 0 },
            sequences,
            fdseq: self.fdseq.max(1),
        })
    }

    /// Returns the closed descriptor (Go's `poll_runtime_pollClose`). Only its marks and words
    /// decide whether it may be closed.
    #[inline(always)]
    pub(crate) fn closed(self) -> Result<Desc, Refusal>
        ensures { Gives viewed_as_it_is result (closed_by_words self) }
    {
        if !self.marks.closing() {
            return Err(Refusal::CloseWithoutUnblock);
        }
        let words = self.words;
        if words.read.is_awaited() || words.write.is_awaited() {
            return Err(Refusal::WaiterInside);
        }
        let fdseq = raised_sequence(self.fdseq)?;
        Ok(Desc { fdseq, ..self })
    }
}

/// Evicts a descriptor (Go's `poll_runtime_pollUnblock`): marks it as closing, stops its timers,
/// and unblocks both sides.
pub(crate) fn change_by_evict(desc: Desc) -> Result<DescChange, Refusal>
    ensures viewed { Gives change_view result (spec.change_by_evict desc) }
    ensures woken { IfOk result (λ change. change.woken ≡ both_let_go desc.words change.desc.words) }
{
    if desc.marks.closing() {
        return Err(Refusal::AlreadyClosing);
    }
    let sequences = both_raised(desc.sequences)?;
    let stopped = DescChange {
        desc: Desc {
            marks: desc.marks.evicted(),
            sequences,
            ..desc
        },
        orders: Sides {
            read: stop_if(desc.marks.is_running(Side::Read), Side::Read),
            write: stop_if(desc.marks.is_running(Side::Write), Side::Write),
        },
        woken: Sides {
            read: None,
            write: None,
        },
    };
    Ok(
        stopped
            .unblock(Side::Read, false)
            .unblock(Side::Write, false),
    )
}
