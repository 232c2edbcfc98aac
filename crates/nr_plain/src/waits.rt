//! The steps of a wait for a descriptor's side: Go's `poll_runtime_pollReset`,
//! `poll_runtime_pollWait`, `netpollblock` and `netpollblockcommit`.

ghost use Rattle.std.specs.Prelude.{◌≡◌, ◌+◌, ◌∷◌, []};
ghost use Rattle.nr_rev.specs.declared.step.Step.TheVariants as steps;
ghost use Rattle.nr_rev.specs.Descriptor as spec;
ghost use Rattle.nr_rev.specs.WellFormed.{WellFormed};
ghost use Rattle.nr_plain.specs.declared.edit.Edit.TheVariants as edit;
ghost use Rattle.nr_plain.specs.Plan.{Plans};

use crate::descriptor::{check, with_wait_word};
use crate::edit::Edit;
use crate::plan::Plan;
use crate::world::PlainWorld;
use nr_rev::{Answer, DescriptorRow, Refusal, Side, Status, WaitWord};

impl PlainWorld {
    /// Returns the plan of `pollreset`.
    pub(crate) fn pollreset<'a>(
        &self,
        goroutine: u32,
        descriptor: u32,
        side: Side,
    ) -> Result<Plan<'a>, Refusal>
        ensures { Plans (steps.PollReset goroutine descriptor side) self.now result }
    {
        self.idle(goroutine)?;
        let row = self.open_row_of(descriptor)?;
        let code = check(side, row.descriptor);
        if code == 0 && self.is_waited(descriptor, side) {
            return Err(Refusal::WaiterInside);
        }
        if code != 0 {
            return Ok(Plan::new(Answer::Code(code)));
        }
        let row = reworded(row, side, WaitWord::Nil);
        Ok(Plan::new(Answer::Code(code)).then(Edit::Row { descriptor, row }))
    }

    /// Returns the plan of `waitbegin`.
    pub(crate) fn waitbegin<'a>(
        &self,
        goroutine: u32,
        descriptor: u32,
        side: Side,
    ) -> Result<Plan<'a>, Refusal>
        ensures { Plans (steps.WaitBegin goroutine descriptor side) self.now result }
    {
        self.idle(goroutine)?;
        let row = self.open_row_of(descriptor)?;
        let code = check(side, row.descriptor);
        if code == 0 && self.is_waited(descriptor, side) {
            return Err(Refusal::DoubleWait);
        }
        if code != 0 {
            return Ok(Plan::new(Answer::Code(code)));
        }
        let status = Status::Entering { descriptor, side };
        Ok(Plan::new(Answer::Code(code)).then(Edit::Status { goroutine, status }))
    }

    /// Returns the plan of `blockarm`.
    pub(crate) fn blockarm<'a>(&self, goroutine: u32) -> Result<Plan<'a>, Refusal>
        ensures { Plans (steps.BlockArm goroutine) self.now result }
    {
        let status = self.status_of(goroutine)?;
        let Status::Entering { descriptor, side } = status else {
            return Err(Refusal::NotThere);
        };
        let row = self.row_in(descriptor)?;
        let (answer, word, status) = match row.descriptor.words.of(side) {
            WaitWord::Nil => (
                Answer::Wait,
                WaitWord::Wait,
                Status::Armed { descriptor, side },
            ),
            WaitWord::Ready => (Answer::Code(0), WaitWord::Nil, Status::Idle),
            _ => return Err(Refusal::DoubleWait),
        };
        Ok(moved(
            answer,
            goroutine,
            status,
            descriptor,
            reworded(row, side, word),
        ))
    }

    /// Returns the plan of `blockcheck`.
    pub(crate) fn blockcheck<'a>(&self, goroutine: u32) -> Result<Plan<'a>, Refusal>
        ensures { Plans (steps.BlockCheck goroutine) self.now result }
    {
        let status = self.status_of(goroutine)?;
        let Status::Armed { descriptor, side } = status else {
            return Err(Refusal::NotThere);
        };
        let row = self.row_in(descriptor)?;
        let code = check(side, row.descriptor);
        let status = if code == 0 {
            Status::Parking { descriptor, side }
        } else {
            Status::Swapping { descriptor, side }
        };
        Ok(Plan::new(Answer::Code(code)).then(Edit::Status { goroutine, status }))
    }

    /// Returns the plan of `parkcommit`.
    pub(crate) fn parkcommit<'a>(&self, goroutine: u32) -> Result<Plan<'a>, Refusal>
        requires { WellFormed self.now }
        ensures { Plans (steps.ParkCommit goroutine) self.now result }
    {
        let status = self.status_of(goroutine)?;
        let Status::Parking { descriptor, side } = status else {
            return Err(Refusal::NotThere);
        };
        let row = self.row_in(descriptor)?;
        match row.descriptor.words.of(side) {
            WaitWord::Wait => {
                let status = Status::Parked { descriptor, side };
                let row = reworded(row, side, WaitWord::Held(goroutine));
                let count = self.one_waiter_more();
                let plan = moved(Answer::Yes, goroutine, status, descriptor, row);
                Ok(plan.then(Edit::Waiters { count }))
            }
            _ => {
                let status = Status::Swapping { descriptor, side };
                Ok(Plan::new(Answer::No).then(Edit::Status { goroutine, status }))
            }
        }
    }

    /// Returns the count of waiters plus one. A well-formed world has at most two waiters per
    /// descriptor, so `min` changes nothing; it only helps to prove that the sum fits.
    #[tactic(auto, using(nr_laws::proofs::WaitersLemmas::waiters_within))]
    fn one_waiter_more(&self) -> u64
        requires { WellFormed self.now }
        ensures { result ≡ self.now.waiters + 1 }
    {
        let most = 2 * u64::from(self.limits.descriptors);
        self.waiters.min(most) + 1
    }

    /// Returns the plan of `blockswap`.
    pub(crate) fn blockswap<'a>(&self, goroutine: u32) -> Result<Plan<'a>, Refusal>
        ensures { Plans (steps.BlockSwap goroutine) self.now result }
    {
        let status = self.status_of(goroutine)?;
        let Status::Swapping { descriptor, side } = status else {
            return Err(Refusal::NotThere);
        };
        let row = self.row_in(descriptor)?;
        let (answer, status) = match row.descriptor.words.of(side) {
            WaitWord::Ready => (Answer::Yes, Status::Idle),
            _ => (Answer::No, Status::Checking { descriptor, side }),
        };
        Ok(moved(
            answer,
            goroutine,
            status,
            descriptor,
            reworded(row, side, WaitWord::Nil),
        ))
    }

    /// Returns the plan of `waitcheck`.
    pub(crate) fn waitcheck<'a>(&self, goroutine: u32) -> Result<Plan<'a>, Refusal>
        ensures { Plans (steps.WaitCheck goroutine) self.now result }
    {
        let status = self.status_of(goroutine)?;
        let Status::Checking { descriptor, side } = status else {
            return Err(Refusal::NotThere);
        };
        let row = self.row_in(descriptor)?;
        let code = check(side, row.descriptor);
        let status = if code == 0 {
            Status::Entering { descriptor, side }
        } else {
            Status::Idle
        };
        Ok(Plan::new(Answer::Code(code)).then(Edit::Status { goroutine, status }))
    }
}

/// Returns the row after a side's word is set.
fn reworded(row: DescriptorRow, side: Side, word: WaitWord) -> DescriptorRow
    ensures { result ≡ record row { descriptor = spec.with_wait_word side word row.descriptor } }
{
    DescriptorRow {
        descriptor: with_wait_word(side, word, row.descriptor),
        ..row
    }
}

/// Returns the plan that sets the descriptor and the goroutine's next status.
fn moved<'a>(
    answer: Answer,
    goroutine: u32,
    status: Status,
    descriptor: u32,
    row: DescriptorRow,
) -> Plan<'a>
    ensures answer { result.answer ≡ answer }
    ensures edits { result.edits.items
        ≡ edit.Row descriptor row ∷ edit.Status goroutine status ∷ [] }
{
    Plan::new(answer)
        .then(Edit::Row { descriptor, row })
        .then(Edit::Status { goroutine, status })
}
