//! A world that counts the calls to it, and refuses copies as the test requests.

ghost use Rattle.std.specs.Prelude.{◌≡◌};

use nr_plain::PlainWorld;
use nr_rev::{
    Answer, Bytes, Cell, CellValue, Limits, Memory, Queue, Refusal, Reversible, Side, Step, Worlds,
};
use std::alloc::{AllocError, Global};
use std::marker::Model;
use std::sync::Arc;
use std::sync::atomic::{AtomicU32, Ordering};

/// A world over lists that counts the calls to it, and whose copies may run out of memory. The
/// world's model shows neither the counts nor which copies are refused.
#[derive(Drop)]
pub struct Observed {
    world: PlainWorld,
    // the number of calls of `apply` and of `undo` since the world was made
    applies: u32,
    undos: u32,
    // the number of calls of `was_seen`
    seen: AtomicU32,
    // which copies are refused; a world shares these bits with its copies and its snapshots
    refusals: Arc<AtomicU32>,
}

impl Model for Observed {
    ghost use Rattle.nr_rev.specs.World.{World};

    ghost Value = { World };

    ghost view = { λ o. o.world };
}

/// A snapshot of an observed world.
#[derive(Drop)]
pub struct ObservedSnapshot {
    world: <PlainWorld as Worlds>::Snapshot,
    refusals: Arc<AtomicU32>,
}

impl Model for ObservedSnapshot {
    ghost use Rattle.nr_rev.specs.World.{World};

    ghost Value = { World };

    ghost view = { λ s. s.world };
}

// Returns another handle to the shared bits.
fn share(refusals: &Arc<AtomicU32>) -> Result<Arc<AtomicU32>, Memory> {
    match Arc::try_clone(refusals) {
        Ok(shared) => Ok(shared),
        Err(_) => Err(Memory::from(AllocError)),
    }
}

// Fails with `Memory` if the lowest bit says that this copy is refused. The next bit is for the next copy, and so on.
fn allow(refusals: &Arc<AtomicU32>) -> Result<(), Memory> {
    let bits = refusals.load(Ordering::SeqCst);
    refusals.store(bits / 2, Ordering::SeqCst);
    if bits % 2 == 1 {
        return Err(Memory::from(AllocError));
    }
    Ok(())
}

impl Observed {
    fn around(world: PlainWorld, refusals: Arc<AtomicU32>) -> Observed
        ensures { result ≡ world }
    {
        Observed {
            world,
            applies: 0,
            undos: 0,
            seen: AtomicU32::new(0),
            refusals,
        }
    }

    /// Returns how many steps were applied and undone since the world was made or restored.
    pub fn moves(&self) -> (u32, u32) {
        (self.applies, self.undos)
    }

    /// Returns whether `was_seen` was called on this world before. A copy or a restored world
    /// starts with no calls.
    pub fn was_seen(&self) -> bool {
        self.seen.fetch_add(1, Ordering::SeqCst) > 0
    }

    /// Sets which of the next copies and restored worlds are refused. Each has one bit of `refusals`, and the
    /// lowest bit is for the first.
    pub fn refuse(&self, refusals: u32) {
        self.refusals.store(refusals, Ordering::SeqCst);
    }
}

impl Reversible for Observed {
    ghost use Rattle.nr_rev.specs.Auxiliary.Step.{StepTo};
    ghost use Rattle.nr_rev.specs.WellFormed.{WellFormed};
    ghost use Rattle.nr_rev.specs.Worlds.{LosesBytes, bytes_left};
    ghost use Rattle.nr_plain.specs.Delta.{PlainBack, delta_weight};
    ghost use Rattle.nr_plain.specs.Plan.{world_reason};
    ghost use Rattle.nr_plain.specs.ReversibleLaws.{PlainBack-unique, memory_is_no_reason, refused_has_no_step, weight_is_within, steps_unique};

    type Op = Step;

    type Answer = Answer;

    type Delta = <PlainWorld as Reversible>::Delta;

    const WORDS: u32 = 64;

    ghost WORDS = { 64 };

    ghost is_well_formed = { WellFormed };

    ghost steps = { StepTo };

    ghost reason = { world_reason };

    ghost takes_memory = { LosesBytes };

    ghost back = { PlainBack };

    ghost weight = { delta_weight };

    ghost allowance = { λ _. 64 };

    ghost bytes_out = { bytes_left };

    fn apply(&mut self, step: &Step) -> Result<(Answer, Self::Delta), Refusal> {
        self.applies = self.applies.wrapping_add(1);
        self.world.apply(step)
    }

    fn undo(&mut self, delta: Self::Delta) {
        self.undos = self.undos.wrapping_add(1);
        self.world.undo(delta);
    }

    ghost back_is_unique = { PlainBack-unique };

    ghost refused_has_no_step = { refused_has_no_step };

    ghost memory_is_no_reason = { memory_is_no_reason };

    ghost steps_unique = { steps_unique };

    ghost allowance_is_within = { weight_is_within };
}

impl Worlds for Observed {
    ghost use Rattle.nr_plain.specs.Worlds.{meant, steps_are, reasons_are, memory_is_for_bytes, bytes_out_are, means_well_formed};

    type Snapshot = ObservedSnapshot;

    ghost world = { meant };

    ghost kept = { λ snapshot. snapshot };

    fn fresh(alloc: Global, limits: Limits) -> Result<Self, Memory> {
        let refusals = Arc::new(alloc, AtomicU32::new(0))?;
        Ok(Observed::around(PlainWorld::fresh(alloc, limits)?, refusals))
    }

    fn try_copy(&self) -> Result<Self, Memory> {
        allow(&self.refusals)?;
        Ok(Observed::around(self.world.try_copy()?, share(&self.refusals)?))
    }

    fn snapshot(&self, last: Option<&Self::Snapshot>) -> Result<Self::Snapshot, Memory> {
        let last = match last {
            Some(last) => Some(&last.world),
            None => None,
        };
        Ok(ObservedSnapshot {
            world: self.world.snapshot(last)?,
            refusals: share(&self.refusals)?,
        })
    }

    fn restored(snapshot: &Self::Snapshot) -> Result<Self, Memory> {
        allow(&snapshot.refusals)?;
        let world = PlainWorld::restored(&snapshot.world)?;
        Ok(Observed::around(world, share(&snapshot.refusals)?))
    }

    fn restore(&mut self, snapshot: &Self::Snapshot) -> Result<(), Memory> {
        self.world.restore(&snapshot.world)?;
        self.applies = 0;
        self.undos = 0;
        self.seen.store(0, Ordering::SeqCst);
        Ok(())
    }

    fn no_delta() -> Self::Delta {
        PlainWorld::no_delta()
    }

    fn apply_to(&mut self, step: &Step, delta: &mut Self::Delta) -> Result<Answer, Refusal> {
        self.applies = self.applies.wrapping_add(1);
        self.world.apply_to(step, delta)
    }

    fn undo_from(&mut self, delta: &mut Self::Delta) {
        self.undos = self.undos.wrapping_add(1);
        self.world.undo_from(delta);
    }

    fn advance(&mut self, step: &Step) -> Result<Answer, Refusal> {
        self.world.advance(step)
    }

    fn cell(&self, what: Cell) -> CellValue {
        self.world.cell(what)
    }

    fn bytes(&self, socket: u32, side: Side) -> Result<Option<Bytes>, Memory> {
        self.world.bytes(socket, side)
    }

    fn queue(&self, socket: u32, side: Side) -> Result<Option<Queue>, Memory> {
        self.world.queue(socket, side)
    }

    ghost steps_are = { steps_are };

    ghost reasons_are = { reasons_are };

    ghost memory_is_for_bytes = { memory_is_for_bytes };

    ghost bytes_out_are = { bytes_out_are };

    ghost means_well_formed = { means_well_formed };
}
