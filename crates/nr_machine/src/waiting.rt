//! The steps of a wait for a descriptor's side: Go's `poll_runtime_pollReset`, `poll_runtime_pollWait`,
//! `netpollblock` and `netpollblockcommit`.

ghost use Rattle.std.specs.Prelude.{◌≡◌, Ok, true, None, []};
ghost use Rattle.nr_rev.specs.Step as step;
ghost use Rattle.nr_rev.specs.WellFormed.{socket_named};
ghost use Rattle.nr_rev.specs.World.{with_status};
ghost use Rattle.nr_gsema.specs.Step.{is_movable};
ghost use Rattle.nr_machine.specs.Fits.{IsWorld};
ghost use Rattle.nr_machine.specs.Auxiliary.Made.{Makes};
ghost use Rattle.nr_machine.specs.Waiting.{parks, status_after, waiting};
ghost use Rattle.nr_machine.specs.World.{meant};

use crate::delta::WorldUndo;
use crate::world::World;
use nr_desc::{DescOp, Goroutine};
use nr_rev::{Answer, Keeper, Refusal, Side, Status};

impl World {
    /// `pollreset`.
    #[inline(always)]
    pub(crate) fn pollreset<K: Keeper<WorldUndo>>(
        &mut self,
        goroutine: u32,
        descriptor: u32,
        side: Side,
        way: &mut K,
    ) -> Result<Answer, Refusal>
        requires { IsWorld self.old }
        ensures { Makes K.holds way.new (step.pollreset goroutine descriptor side (meant self.old)) [] self.old result self.new }
    {
        self.idle(goroutine)?;
        let code = self.open_desc_of(descriptor)?.check(side);
        if code != 0 {
            way.put(WorldUndo::Still);
            return Ok(Answer::Code(code));
        }
        if self.is_waited(descriptor, side) {
            return Err(Refusal::WaiterInside);
        }
        let (_, desc) = self.core.describe(descriptor, &DescOp::Reset(side))?;
        way.put(WorldUndo::Described(desc));
        Ok(Answer::Code(0))
    }

    /// `waitbegin`.
    #[inline(always)]
    pub(crate) fn waitbegin<K: Keeper<WorldUndo>>(
        &mut self,
        goroutine: u32,
        descriptor: u32,
        side: Side,
        way: &mut K,
    ) -> Result<Answer, Refusal>
        requires { IsWorld self.old }
        ensures { Makes K.holds way.new (step.waitbegin goroutine descriptor side (meant self.old)) [] self.old result self.new }
    {
        self.idle(goroutine)?;
        let code = self.open_desc_of(descriptor)?.check(side);
        if code != 0 {
            way.put(WorldUndo::Still);
            return Ok(Answer::Code(code));
        }
        if self.is_waited(descriptor, side) {
            return Err(Refusal::DoubleWait);
        }
        let to = Status::Entering { descriptor, side };
        Ok(self.go_on(Answer::Code(0), goroutine, Status::Idle, to, way))
    }

    /// `blockarm`.
    #[inline(always)]
    #[tactic(auto, using(crate::proofs::WaitingLemmas::blockarm_is))]
    pub(crate) fn blockarm<K: Keeper<WorldUndo>>(
        &mut self,
        goroutine: u32,
        way: &mut K,
    ) -> Result<Answer, Refusal>
        requires { IsWorld self.old }
        ensures { Makes K.holds way.new (step.blockarm goroutine (meant self.old)) [] self.old result self.new }
    {
        let from = self.status_of(goroutine)?;
        let Status::Entering { descriptor, side } = from else {
            return Err(Refusal::NotThere);
        };
        self.wait(goroutine, from, descriptor, &DescOp::Arm(side), way)
    }

    /// `blockcheck`.
    #[inline(always)]
    pub(crate) fn blockcheck<K: Keeper<WorldUndo>>(
        &mut self,
        goroutine: u32,
        way: &mut K,
    ) -> Result<Answer, Refusal>
        requires { IsWorld self.old }
        ensures { Makes K.holds way.new (step.blockcheck goroutine (meant self.old)) [] self.old result self.new }
    {
        let from = self.status_of(goroutine)?;
        let Status::Armed { descriptor, side } = from else {
            return Err(Refusal::NotThere);
        };
        let code = self.desc_of(descriptor)?.check(side);
        let to = if code == 0 {
            Status::Parking { descriptor, side }
        } else {
            Status::Swapping { descriptor, side }
        };
        Ok(self.go_on(Answer::Code(code), goroutine, from, to, way))
    }

    /// `parkcommit`.
    #[inline(always)]
    #[tactic(auto, using(crate::proofs::WaitingLemmas::below_most))]
    pub(crate) fn parkcommit<K: Keeper<WorldUndo>>(
        &mut self,
        goroutine: u32,
        way: &mut K,
    ) -> Result<Answer, Refusal>
        requires { IsWorld self.old }
        ensures { Makes K.holds way.new (step.parkcommit goroutine (meant self.old)) [] self.old result self.new }
    {
        let from = self.status_of(goroutine)?;
        let Status::Parking { descriptor, side } = from else {
            return Err(Refusal::NotThere);
        };
        let op = DescOp::Commit(side, Goroutine::of_number(goroutine));
        self.wait(goroutine, from, descriptor, &op, way)
    }

    /// `blockswap`.
    #[inline(always)]
    #[tactic(auto, using(crate::proofs::WaitingLemmas::blockswap_is))]
    pub(crate) fn blockswap<K: Keeper<WorldUndo>>(
        &mut self,
        goroutine: u32,
        way: &mut K,
    ) -> Result<Answer, Refusal>
        requires { IsWorld self.old }
        ensures { Makes K.holds way.new (step.blockswap goroutine (meant self.old)) [] self.old result self.new }
    {
        let from = self.status_of(goroutine)?;
        let Status::Swapping { descriptor, side } = from else {
            return Err(Refusal::NotThere);
        };
        self.wait(goroutine, from, descriptor, &DescOp::Swap(side), way)
    }

    /// `waitcheck`.
    #[inline(always)]
    pub(crate) fn waitcheck<K: Keeper<WorldUndo>>(
        &mut self,
        goroutine: u32,
        way: &mut K,
    ) -> Result<Answer, Refusal>
        requires { IsWorld self.old }
        ensures { Makes K.holds way.new (step.waitcheck goroutine (meant self.old)) [] self.old result self.new }
    {
        let from = self.status_of(goroutine)?;
        let Status::Checking { descriptor, side } = from else {
            return Err(Refusal::NotThere);
        };
        let code = self.desc_of(descriptor)?.check(side);
        let to = if code == 0 {
            Status::Entering { descriptor, side }
        } else {
            Status::Idle
        };
        Ok(self.go_on(Answer::Code(code), goroutine, from, to, way))
    }

    /// Applies an operation of a goroutine inside a wait to the wait word, and changes the
    /// goroutine's status accordingly.
    #[inline(always)]
    fn wait<K: Keeper<WorldUndo>>(
        &mut self,
        goroutine: u32,
        from: Status,
        descriptor: u32,
        op: &DescOp,
        way: &mut K,
    ) -> Result<Answer, Refusal>
        requires world { IsWorld self.old }
        requires there { step.status_of goroutine (meant self.old) ≡ Ok from }
        requires movable { is_movable from ≡ true }
        ensures { Makes K.holds way.new (waiting goroutine descriptor op.now (meant self.old)) [] self.old result self.new }
    {
        let (left, desc) = self.core.describe(descriptor, op)?;
        let answer = left.answer;
        let to = status_after(descriptor, op, answer);
        let moved = self.core.move_to(goroutine, from, to);
        let parked = parks(op, answer);
        self.core.park(parked);
        way.put(WorldUndo::Waited {
            desc,
            moved,
            parked,
        });
        Ok(answer)
    }

    /// Changes only the status of a goroutine inside a wait. The new status may end the wait.
    #[inline(always)]
    fn go_on<K: Keeper<WorldUndo>>(
        &mut self,
        answer: Answer,
        goroutine: u32,
        from: Status,
        to: Status,
        way: &mut K,
    ) -> Answer
        requires world { IsWorld self.old }
        requires there { step.status_of goroutine (meant self.old) ≡ Ok from }
        requires from { is_movable from ≡ true }
        requires to { is_movable to ≡ true }
        requires named { socket_named to ≡ None }
        ensures { Makes K.holds way.new (Ok (answer, with_status goroutine to (meant self.old))) []
            self.old (Ok result) self.new }
    {
        let moved = self.core.move_to(goroutine, from, to);
        way.put(WorldUndo::Goroutine(moved));
        answer
    }
}

/// Returns the status of a goroutine after it applies an operation to a wait word and gets this
/// answer.
#[inline(always)]
fn status_after(descriptor: u32, op: &DescOp, answer: Answer) -> Status
    ensures { result ≡ status_after descriptor op.now answer }
{
    match op {
        DescOp::Arm(side) => match answer {
            Answer::Wait => Status::Armed {
                descriptor,
                side: *side,
            },
            _ => Status::Idle,
        },
        DescOp::Commit(side, _) => match answer {
            Answer::Yes => Status::Parked {
                descriptor,
                side: *side,
            },
            _ => Status::Swapping {
                descriptor,
                side: *side,
            },
        },
        DescOp::Swap(side) => match answer {
            Answer::No => Status::Checking {
                descriptor,
                side: *side,
            },
            _ => Status::Idle,
        },
        _ => Status::Idle,
    }
}

/// Returns whether the goroutine is parked after an operation with this answer.
#[inline(always)]
fn parks(op: &DescOp, answer: Answer) -> bool
    ensures { result ≡ parks op.now answer }
{
    match op {
        DescOp::Commit(_, _) => match answer {
            Answer::Yes => true,
            _ => false,
        },
        _ => false,
    }
}
