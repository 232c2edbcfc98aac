//! Applying and undoing steps.

ghost use Rattle.std.specs.Prelude.{◌≡◌, ◌≤◌, ◌+◌, length, sum_by};
ghost use Rattle.nr_rev.specs.Auxiliary.Step.{IsTimely};
ghost use Rattle.nr_rev.specs.Transaction.{LeadsBack};
ghost use Rattle.nr_rev.specs.WellFormed.{WellFormed};
ghost use Rattle.nr_plain.specs.Edit.{Undoes, undo_weight};
ghost use Rattle.nr_plain.specs.Making.{Makes};
ghost use Rattle.nr_plain.specs.Plan.{CanEditAll, IsPlanned, Plans, after_edits, total_weight};

use crate::delta::{MOST_WORDS, PlainDelta};
use crate::edit::{Edit, Undo};
use crate::plan::{MOST_EDITS, Plan};
use crate::world::PlainWorld;
use arrayvec::ArrayVec;
use nr_rev::{Answer, Keeper, Refusal, Reversible, Step};

impl PlainWorld {
    /// Applies the step and stores its undo. If the step is refused, changes nothing and returns the reason.
    #[tactic(auto, using(crate::proofs::PlanLemmas::makes_well_formed))]
    pub(crate) fn make<K: Keeper<PlainDelta>>(
        &mut self,
        step: &Step,
        way: &mut K,
    ) -> Result<Answer, Refusal>
        requires { WellFormed self.old }
        ensures made { Makes K.KEEPS K.holds way.new step.now self.old result self.new }
        ensures fits { WellFormed self.new }
    {
        match step {
            Step::SysRead {
                goroutine,
                socket,
                count,
            } => self.sysread(*goroutine, *socket, *count, way),
            Step::Drain { socket, count } => self.drain(*socket, *count, way),
            _ => {
                let Plan { answer, edits } = self.plan(step)?;
                let undos = self.perform_all(edits);
                way.put(PlainDelta { undos });
                Ok(answer)
            }
        }
    }

    /// Plans a step that removes no bytes from a buffer: returns its answer and the changes to make, or why it is
    /// refused.
    fn plan<'a>(&self, step: &'a Step) -> Result<Plan<'a>, Refusal>
        requires fits { WellFormed self.now }
        requires planned { IsPlanned step.now }
        ensures plans { Plans step.now self.now result }
        ensures timely { IsTimely step.now }
    {
        match step {
            Step::Spawn => self.spawn(),
            Step::Exit { goroutine: g } => self.exit(*g),
            Step::SockOpen {
                read_capacity: rc,
                write_capacity: wc,
            } => self.sockopen(*rc, *wc),
            Step::Arrive { socket: s, bytes } => self.arrive(*s, bytes),
            Step::PeerClose { socket: s } => self.peerclose(*s),
            Step::SysWrite {
                goroutine: g,
                socket: s,
                bytes,
            } => self.syswrite(*g, *s, bytes),
            Step::CloseWrite {
                goroutine: g,
                socket: s,
            } => self.closewrite(*g, *s),
            Step::Incref {
                goroutine: g,
                socket: s,
            } => self.incref(*g, *s),
            Step::IncrefClose {
                goroutine: g,
                socket: s,
            } => self.increfclose(*g, *s),
            Step::Decref {
                goroutine: g,
                socket: s,
            } => self.decref(*g, *s),
            Step::RwLock {
                goroutine: g,
                socket: s,
                side,
            } => self.rwlock(*g, *s, *side),
            Step::RwUnlock {
                goroutine: g,
                socket: s,
                side,
            } => self.rwunlock(*g, *s, *side),
            Step::Acquire { goroutine: g } => self.acquire(*g),
            Step::Release { goroutine: g } => self.release(*g),
            Step::PollOpen {
                goroutine: g,
                socket: s,
            } => self.pollopen(*g, *s),
            Step::PollClose {
                goroutine: g,
                descriptor: d,
            } => self.pollclose(*g, *d),
            Step::PollReset {
                goroutine: g,
                descriptor: d,
                side,
            } => self.pollreset(*g, *d, *side),
            Step::WaitBegin {
                goroutine: g,
                descriptor: d,
                side,
            } => self.waitbegin(*g, *d, *side),
            Step::BlockArm { goroutine: g } => self.blockarm(*g),
            Step::BlockCheck { goroutine: g } => self.blockcheck(*g),
            Step::ParkCommit { goroutine: g } => self.parkcommit(*g),
            Step::BlockSwap { goroutine: g } => self.blockswap(*g),
            Step::WaitCheck { goroutine: g } => self.waitcheck(*g),
            Step::SetDeadline {
                goroutine: g,
                descriptor: d,
                mode,
                time,
            } => self.setdeadline(*g, *d, *mode, *time),
            Step::Evict {
                goroutine: g,
                descriptor: d,
            } => self.evict(*g, *d),
            Step::PollEvent {
                descriptor: d,
                tag,
                mode,
                error,
            } => self.pollevent(*d, *tag, *mode, *error),
            Step::Tick { time } => self.tick(*time),
            Step::Pop => self.pop(),
            Step::Fire { place } => self.fire(*place),
            Step::SysRead { .. } | Step::Drain { .. } => unreachable!(),
        }
    }

    /// Makes the changes in order, and returns their undos.
    fn perform_all(&mut self, mut edits: ArrayVec<Edit, MOST_EDITS>) -> ArrayVec<Undo, MOST_EDITS>
        requires few { length edits.items ≤ MOST_EDITS }
        requires can { CanEditAll edits.items self.old }
        ensures after { self.new ≡ after_edits edits.entry.items self.old }
        ensures back { LeadsBack Undoes result.items self.new self.old }
        ensures light { sum_by undo_weight result.items ≤ total_weight edits.entry.items }
    {
        let mut undos = ArrayVec::new();
        while let Some(edit) = edits.pop_at(0) {
            undos.push(self.perform(edit));
        }
        undos
    }
}

/// A refused step changes nothing. Undoing a step undoes its changes, from the last to the first.
impl Reversible for PlainWorld {
    ghost use Rattle.nr_rev.specs.Auxiliary.Step.{StepTo};
    ghost use Rattle.nr_rev.specs.WellFormed.{WellFormed};
    ghost use Rattle.nr_rev.specs.Worlds.{LosesBytes, bytes_left};
    ghost use Rattle.nr_plain.specs.declared.delta.TheConstants.{MOST_WORDS};
    ghost use Rattle.nr_plain.specs.Delta.{PlainBack, delta_weight};
    ghost use Rattle.nr_plain.specs.Plan.{world_reason};
    ghost use Rattle.nr_plain.specs.ReversibleLaws.{PlainBack-unique, memory_is_no_reason, refused_has_no_step, weight_is_within, steps_unique};

    type Op = Step;

    type Answer = Answer;

    type Delta = PlainDelta;

    const WORDS: u32 = MOST_WORDS;

    ghost WORDS = { MOST_WORDS };

    ghost is_well_formed = { WellFormed };

    ghost steps = { StepTo };

    ghost reason = { world_reason };

    ghost takes_memory = { LosesBytes };

    ghost back = { PlainBack };

    ghost weight = { delta_weight };

    ghost allowance = { λ _. MOST_WORDS };

    ghost bytes_out = { bytes_left };

    fn apply(&mut self, step: &Step) -> Result<(Answer, PlainDelta), Refusal> {
        let mut delta = PlainDelta::default();
        let answer = self.make(step, &mut delta)?;
        Ok((answer, delta))
    }

    fn undo(&mut self, delta: PlainDelta) {
        let PlainDelta { mut undos } = delta;
        while let Some(undo) = undos.pop() {
            self.revert(undo);
        }
    }

    ghost back_is_unique = { PlainBack-unique };

    ghost refused_has_no_step = { refused_has_no_step };

    ghost memory_is_no_reason = { memory_is_no_reason };

    ghost steps_unique = { steps_unique };

    ghost allowance_is_within = { weight_is_within };
}
