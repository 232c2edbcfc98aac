//! Applies and undoes steps.

ghost use Rattle.nr_rev.specs.Auxiliary.Step.{IsTimely};
ghost use Rattle.nr_machine.specs.Fits.{IsWorld};
ghost use Rattle.nr_machine.specs.Auxiliary.Made.{MakesStep};

use crate::delta::{MOST_WORDS, WorldDelta, WorldUndo};
use crate::world::World;
use nr_rev::{Answer, Keeper, Refusal, Reversible, Step};

impl World {
    /// Applies a step by changing the parts. If the step does not apply, changes nothing and
    /// returns the reason.
    #[inline(always)]
    #[tactic(auto, using(crate::proofs::MadeLemmas::makes_step))]
    pub(crate) fn make<K: Keeper<WorldUndo>>(
        &mut self,
        step: &Step,
        way: &mut K,
    ) -> Result<Answer, Refusal>
        requires { IsWorld self.old }
        ensures made { MakesStep K.KEEPS K.holds way.new step.now self.old result self.new }
        ensures timely { IsTimely step.now }
    {
        match step {
            Step::Spawn => self.spawn(way),
            Step::Exit { goroutine } => self.exit(*goroutine, way),
            Step::SockOpen { .. } => self.sockopen(step, way),
            Step::Arrive { socket, .. } => self.transfer(*socket, step, way),
            Step::PeerClose { socket } => self.transfer(*socket, step, way),
            Step::SysRead {
                goroutine,
                socket,
                ..
            } => self.transfer_of(*goroutine, *socket, step, way),
            Step::SysWrite {
                goroutine,
                socket,
                ..
            } => self.transfer_of(*goroutine, *socket, step, way),
            Step::Drain { socket, .. } => self.transfer(*socket, step, way),
            Step::CloseWrite { goroutine, socket } => self.transfer_of(
                *goroutine, *socket, step, way,
            ),
            Step::Incref { goroutine, socket } => self.incref(*goroutine, *socket, way),
            Step::IncrefClose { goroutine, socket } => self.increfclose(*goroutine, *socket, way),
            Step::Decref { goroutine, socket } => self.decref(*goroutine, *socket, way),
            Step::RwLock {
                goroutine,
                socket,
                side,
            } => self.rwlock(*goroutine, *socket, *side, way),
            Step::RwUnlock {
                goroutine,
                socket,
                side,
            } => self.rwunlock(*goroutine, *socket, *side, way),
            Step::Acquire { goroutine } => self.acquire(*goroutine, way),
            Step::Release { goroutine } => self.release(*goroutine, way),
            Step::PollOpen { goroutine, socket } => self.pollopen(*goroutine, *socket, way),
            Step::PollClose {
                goroutine,
                descriptor,
            } => self.pollclose(*goroutine, *descriptor, way),
            Step::PollReset {
                goroutine,
                descriptor,
                side,
            } => self.pollreset(*goroutine, *descriptor, *side, way),
            Step::WaitBegin {
                goroutine,
                descriptor,
                side,
            } => self.waitbegin(*goroutine, *descriptor, *side, way),
            Step::BlockArm { goroutine } => self.blockarm(*goroutine, way),
            Step::BlockCheck { goroutine } => self.blockcheck(*goroutine, way),
            Step::ParkCommit { goroutine } => self.parkcommit(*goroutine, way),
            Step::BlockSwap { goroutine } => self.blockswap(*goroutine, way),
            Step::WaitCheck { goroutine } => self.waitcheck(*goroutine, way),
            Step::SetDeadline {
                goroutine,
                descriptor,
                mode,
                time,
            } => self.setdeadline(*goroutine, *descriptor, *mode, *time, way),
            Step::Evict {
                goroutine,
                descriptor,
            } => self.evict(*goroutine, *descriptor, way),
            Step::PollEvent {
                descriptor,
                tag,
                mode,
                error,
            } => self.pollevent(*descriptor, *tag, *mode, *error, way),
            Step::Tick { time } => self.tick(*time, way),
            Step::Pop => self.pop(way),
            Step::Fire { place } => self.fire(*place, way),
        }
    }
}

/// A step consists of changes to the parts, each with its undo. Undoing the step undoes the changes, from the last to
/// the first.
impl Reversible for World {
    ghost use Rattle.nr_rev.specs.Worlds.{bytes_left};
    ghost use Rattle.nr_machine.specs.declared.delta.TheConstants.{MOST_WORDS};
    ghost use Rattle.nr_machine.specs.Delta.{WorldBack, delta_weight};
    ghost use Rattle.nr_machine.specs.DeltaLaws.{WorldBack-unique};
    ghost use Rattle.nr_machine.specs.Fits.{IsWorld};
    ghost use Rattle.nr_machine.specs.Made.{TakesMemory, parts_reason};
    ghost use Rattle.nr_machine.specs.ReversibleLaws.{memory_is_no_reason, refused_has_no_step, steps_unique, weight_is_within};
    ghost use Rattle.nr_machine.specs.Step.{StepTo};

    type Op = Step;

    type Answer = Answer;

    type Delta = WorldDelta;

    const WORDS: u32 = MOST_WORDS;

    ghost WORDS = { MOST_WORDS };

    ghost is_well_formed = { IsWorld };

    ghost steps = { StepTo };

    ghost reason = { parts_reason };

    ghost takes_memory = { TakesMemory };

    ghost back = { WorldBack };

    ghost weight = { delta_weight };

    ghost allowance = { λ _. MOST_WORDS };

    ghost bytes_out = { bytes_left };

    #[inline(always)]
    #[tactic(auto, using(crate::proofs::MadeLemmas::made_fits))]
    fn apply(&mut self, step: &Step) -> Result<(Answer, WorldDelta), Refusal> {
        let mut undo = WorldUndo::Still;
        let answer = self.make(step, &mut undo)?;
        Ok((answer, WorldDelta { undo }))
    }

    #[inline(always)]
    fn undo(&mut self, delta: WorldDelta) {
        self.lead_back(&delta.undo);
    }

    ghost back_is_unique = { WorldBack-unique };

    ghost refused_has_no_step = { refused_has_no_step };

    ghost memory_is_no_reason = { memory_is_no_reason };

    ghost steps_unique = { steps_unique };

    ghost allowance_is_within = { weight_is_within };
}
