//! The contract of a world, independent of its representation.

ghost use Rattle.std.specs.Prelude.{◌≡◌, ◌≢◌, Ok, Some, IfOk, IfErr, OnOk, OnErr};
ghost use Rattle.nr_rev.specs.Cell.{cell, bytes_of, queue_of};
ghost use Rattle.nr_rev.specs.Reversible.{Refuses};
ghost use Rattle.nr_rev.specs.Auxiliary.Reversible.{IsLight};
ghost use Rattle.nr_rev.specs.Step.{outcome};
ghost use Rattle.nr_rev.specs.WellFormed.{WellFormed};
ghost use Rattle.nr_rev.specs.World.{World, empty_world};
ghost use Rattle.nr_rev.specs.Limits.{AreInRange};
ghost use Rattle.nr_rev.specs.Worlds.{LosesBytes, bytes_left, refusal_of};
ghost use Rattle.nr_rev.specs.Auxiliary.Worlds.{HasItems};
ghost use Rattle.nr_rev.specs.declared.answer.Answer.{Answer};
ghost use Rattle.nr_rev.specs.declared.step.Step.{Step};

use crate::Memory;
use crate::answer::Answer;
use crate::bytes::Bytes;
use crate::cell::Cell;
use crate::cell_value::CellValue;
use crate::limits::Limits;
use crate::queue::Queue;
use crate::refusal::Refusal;
use crate::reversible::Reversible;
use crate::sides::Side;
use crate::step::Step;
use std::alloc::Global;

/// A machine of goroutines, sockets, descriptors and timers that replays recorded steps and undoes them.
pub trait Worlds: Reversible<Op = Step, Answer = Answer> + Sized {
    /// A stored world, as a film keeps it: its contents, without spare room.
    type Snapshot;

    /// The abstract world that a state represents.
    ghost world: { Self → World };

    /// The state that a snapshot stores.
    ghost kept: { Self.Snapshot → Self };

    /// Makes the world before the first step: goroutine 0 is idle, and nothing else exists. Allocates all the memory
    /// that a world within these limits can need, so a later step allocates memory only if its delta keeps bytes.
    fn fresh(alloc: Global, limits: Limits) -> Result<Self, Memory>
        requires { AreInRange limits }
        ensures well_formed { IfOk result (λ w. Self.is_well_formed w) }
        ensures world { IfOk result (λ w. world w ≡ empty_world limits) };

    /// Returns an equal world with memory of its own.
    fn try_copy(&self) -> Result<Self, Memory>
        ensures { IfOk result (λ w. w ≡ self.now) };

    /// Returns a snapshot of the world. Parts that are the same in the snapshot `last` may be shared with it. Allocates
    /// memory for the contents, but not for the spare room that the limits allow.
    fn snapshot(&self, last: Option<&Self::Snapshot>) -> Result<Self::Snapshot, Memory>
        ensures { IfOk result (λ snapshot. kept snapshot ≡ self.now) };

    /// Returns the world that the snapshot stores, with all the room that its limits allow.
    fn restored(snapshot: &Self::Snapshot) -> Result<Self, Memory>
        ensures { IfOk result (λ w. w ≡ kept snapshot.now) };

    /// Becomes the world that the snapshot stores. If both have the same limits, the call reuses this world's memory,
    /// allocates none and can't fail.
    fn restore(&mut self, snapshot: &Self::Snapshot) -> Result<(), Memory>
        requires well_formed { Self.is_well_formed self.old }
        requires kept { Self.is_well_formed (kept snapshot.now) }
        ensures ok { OnOk result (self.new ≡ kept snapshot.now) }
        ensures unchanged { OnErr result (self.new ≡ self.old) }
        ensures limits { OnErr result ((world self.old).limits ≢ (world (kept snapshot.now)).limits) };

    /// Returns an empty delta, as a place for `apply_to` to write to.
    fn no_delta() -> Self::Delta;

    /// Applies the step as `apply` does, and stores its delta in `delta`. If the step does not apply, `delta` may hold
    /// anything afterwards.
    fn apply_to(&mut self, step: &Step, delta: &mut Self::Delta) -> Result<Answer, Refusal>
        requires { Self.is_well_formed self.old }
        ensures step { IfOk result (λ answer. Self.steps self.old step.now answer self.new) }
        ensures well_formed { Self.is_well_formed self.new }
        ensures back { OnOk result (Self.back delta.new self.new self.old) }
        ensures weight { IfOk result (λ answer. IsLight Self.weight Self.allowance Self.bytes_out step.now answer delta.new) }
        ensures refusal { IfErr result (Refuses Self.reason Self.takes_memory self.old step.now) }
        ensures unchanged { OnErr result (self.new ≡ self.old) };

    /// Undoes, as `undo` does, the step whose delta is in `delta`. Afterwards `delta` may hold anything.
    fn undo_from(&mut self, delta: &mut Self::Delta)
        requires { (old : Self) × Self.back delta.old self.old old }
        ensures { Self.back delta.old self.old self.new };

    /// Applies the step as `apply` does, without a delta. Allocates no memory.
    fn advance(&mut self, step: &Step) -> Result<Answer, Refusal>
        requires { Self.is_well_formed self.old }
        ensures step { IfOk result (λ answer. Self.steps self.old step.now answer self.new) }
        ensures well_formed { Self.is_well_formed self.new }
        ensures refusal { IfErr result (λ e. Self.reason self.old step.now ≡ Some e) }
        ensures unchanged { OnErr result (self.new ≡ self.old) };

    /// Returns the value of a cell.
    fn cell(&self, what: Cell) -> CellValue
        requires { Self.is_well_formed self.now }
        ensures { result ≡ cell (world self.now) what };

    /// Returns the bytes in a socket's buffer, the input for the read side, or `None` if the socket doesn't exist.
    /// Allocates memory only for these bytes, so it can't fail if there are none.
    fn bytes(&self, socket: u32, side: Side) -> Result<Option<Bytes>, Memory>
        ensures ok { IfOk result (λ bytes. bytes ≡ bytes_of (world self.now) socket side) }
        ensures some { OnErr result (HasItems (bytes_of (world self.now) socket side)) };

    /// Returns the goroutines queued at a socket's semaphore, front first, or `None` if the socket doesn't exist.
    /// Allocates memory only for their numbers, so it can't fail if the queue is empty.
    fn queue(&self, socket: u32, side: Side) -> Result<Option<Queue>, Memory>
        ensures ok { IfOk result (λ queue. queue ≡ queue_of (world self.now) socket side) }
        ensures some { OnErr result (HasItems (queue_of (world self.now) socket side)) };

    /// A step of this type gives the answer and the world that the machine's definition gives.
    ghost steps_are: { (old : Self) (step : Step) (answer : Answer) (new : Self)
        → Self.steps old step answer new → outcome (world old) step ≡ Ok (answer, world new) };

    /// `reason` gives the reason for which the machine's definition refuses the step, or `None`.
    ghost reasons_are: { (old : Self) (step : Step) → Self.reason old step
        ≡ refusal_of (outcome (world old) step) };

    /// A step allocates memory only if bytes leave a buffer, since undoing needs these bytes.
    ghost memory_is_for_bytes: { (old : Self) (step : Step) → Self.takes_memory old step
        → LosesBytes (world old) step };

    /// The bytes for which a delta may have extra words are the bytes that leave a buffer.
    ghost bytes_out_are: { (step : Step) (answer : Answer) → Self.bytes_out step answer
        ≡ bytes_left step answer };

    /// A well-formed state represents a well-formed world.
    ghost means_well_formed: { (state : Self) → Self.is_well_formed state
        → WellFormed (world state) };
}
