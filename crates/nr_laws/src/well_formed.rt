//! The invariant of worlds, and the steps that preserve it.

ghost use Rattle.std.specs.Prelude.{All, ◌≡◌, ◌≢◌, ◌⊎◌, ℕ, Ok, Err, slice_get, Some, ◌<◌};
ghost use Rattle.nr_rev.specs.declared.answer.Answer.{Answer};
ghost use Rattle.nr_rev.specs.declared.limits.Limits.{Limits};
ghost use Rattle.nr_rev.specs.declared.sides.Side.{Side};
ghost use Rattle.nr_rev.specs.Socket.{Socket};
ghost use Rattle.nr_rev.specs.declared.timer.Entry.{Entry};
ghost use Rattle.nr_rev.specs.declared.descriptor.DescriptorRow.{DescriptorRow};
ghost use Rattle.nr_rev.specs.World.{World, empty_world};
ghost use Rattle.nr_rev.specs.declared.refusal.Refusal.TheVariants.{CorruptedDescriptor};
ghost use Rattle.nr_rev.specs.declared.step.Step.{Step};
ghost use Rattle.nr_rev.specs.declared.descriptor.WaitWord.{WaitWord};
ghost use Rattle.nr_rev.specs.declared.descriptor.WaitWord.TheVariants.{Nil, Ready, Held};
ghost use Rattle.nr_rev.specs.declared.status.Status.TheVariants.{Entering, Swapping};
ghost use Rattle.nr_rev.specs.Run.{Recording, world_at};
ghost use Rattle.nr_rev.specs.Step.{outcome};
ghost use Rattle.nr_rev.specs.Auxiliary.Step.{IsTimely};
ghost use Rattle.nr_rev.specs.WellFormed.{WellFormed, HasWaitWord, IsInside, HasView, socket_named, TimerPlace, timer_at};

/// The first world of a recording is well formed.
pub fn empty_world_fits()
    ensures { (limits : Limits) → 0 < limits.goroutines → WellFormed (empty_world limits) }
{}

/// A step leaves a well-formed world well formed. The time in the step has 64 bits, as its type says.
pub fn steps_keep_well_formedness()
    ensures { (w : World) (step : Step) (answer : Answer) (next : World)
        → IsTimely step → WellFormed w → outcome w step ≡ Ok (answer, next) → WellFormed next }
{}

/// No step of a well-formed world is refused for a corrupted descriptor.
pub fn no_step_finds_corruption()
    ensures { (w : World) (step : Step) → WellFormed w → outcome w step ≢ Err CorruptedDescriptor }
{}

/// The world at each position of a recording is well formed.
pub fn positions_are_well_formed()
    ensures { (r : Recording) (n : ℕ) → 0 < r.limits.goroutines → All IsTimely r.steps
        → WellFormed (world_at r n) }
{}

/// At blockarm, a goroutine finds its wait word nil or ready. At blockswap, it finds a word that holds no goroutine.
pub fn words_where_taken_up()
    ensures arm { (w : World) (g d : ℕ) (side : Side) (word : WaitWord) → WellFormed w
        → slice_get w.goroutines g ≡ Some (Entering d side)
        → HasWaitWord w.descriptors d side word → (word ≡ Nil) ⊎ (word ≡ Ready) }
    ensures swap { (w : World) (g k d : ℕ) (side : Side) → WellFormed w
        → slice_get w.goroutines g ≡ Some (Swapping d side)
        → ¬ HasWaitWord w.descriptors d side (Held k) }
{}

/// If a status, a heap entry or a firing names a descriptor or socket, that descriptor or socket exists, and looking it
/// up never fails.
pub fn what_is_named_is_there()
    ensures place { (w : World) (g d : ℕ) (side : Side) → WellFormed w
        → IsInside w.goroutines g d side
        → (row : DescriptorRow) × (slice_get w.descriptors d ≡ Some row) }
    ensures socket { (w : World) (g s : ℕ) → WellFormed w → HasView socket_named w.goroutines g s
        → (socket : Socket) × (slice_get w.sockets s ≡ Some socket) }
    ensures entry { (w : World) (p : TimerPlace) (e : Entry) → WellFormed w
        → timer_at w.descriptors w.firings p ≡ Some e
        → (row : DescriptorRow) × (slice_get w.descriptors e.descriptor ≡ Some row) }
{}
