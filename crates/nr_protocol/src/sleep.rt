//! No goroutine sleeps past a close or a deadline.

ghost use Rattle.std.specs.Prelude.{All, ◌≡◌, ◌⊎◌, ℕ, Bool, true, false, Ok, slice_get, Some, ◌<◌, ◌++◌, ◌∷◌, [], ◌*◌, int_le, length, nat_lt};
ghost use Rattle.nr_rev.specs.declared.answer.Answer.{Answer};
ghost use Rattle.nr_rev.specs.declared.limits.Limits.{Limits};
ghost use Rattle.nr_rev.specs.declared.sides.Side.{Side};
ghost use Rattle.nr_rev.specs.declared.sides.Side.TheVariants.{Read};
ghost use Rattle.nr_rev.specs.declared.descriptor.DescriptorRow.{DescriptorRow};
ghost use Rattle.nr_rev.specs.declared.answer.Answer.TheVariants.{Done};
ghost use Rattle.nr_rev.specs.declared.status.Status.TheVariants.{Parked, Swapping};
ghost use Rattle.nr_rev.specs.declared.timer.Entry.{Entry};
ghost use Rattle.nr_rev.specs.World.{World, empty_world, least_entry};
ghost use Rattle.nr_rev.specs.declared.step.Step.{Step};
ghost use Rattle.nr_rev.specs.Run.{Recording, world_at};
ghost use Rattle.nr_rev.specs.Step.{outcome};
ghost use Rattle.nr_rev.specs.Auxiliary.Step.{IsTimely};
ghost use Rattle.nr_rev.specs.Descriptor.{check, is_expired, is_positive};
ghost use Rattle.nr_rev.specs.WellFormed.{WellFormed, HasView, IsCurrent, parked_of};
ghost use Rattle.nr_rev.specs.Sides.{covers_side, of_side};
ghost use Rattle.nr_protocol.specs.Deadlines.{DeadlinesTimed, WillPass};
ghost use Rattle.nr_protocol.specs.Sleep.{IsOfLinux, SleepersFit};

/// In the first world of a recording, no goroutine sleeps.
pub fn no_goroutine_sleeps_at_the_start()
    ensures { (exact : Bool) (limits : Limits) → SleepersFit exact (empty_world limits).goroutines (empty_world limits).descriptors }
{}

/// A step leaves no goroutine asleep past a close or a deadline, and none falls asleep past one.
pub fn steps_let_no_goroutine_oversleep()
    ensures { (exact : Bool) (w : World) (step : Step) (answer : Answer) (next : World)
        → (exact ≡ true → IsOfLinux step) → WellFormed w
        → SleepersFit exact w.goroutines w.descriptors → outcome w step ≡ Ok (answer, next)
        → SleepersFit exact next.goroutines next.descriptors }
{}

/// No goroutine sleeps past a close or a deadline: at each position of a recording, if a goroutine is parked at a side,
/// its descriptor isn't closing, and the side's deadline hasn't passed. So a check of the side is 0, or 3 for reading. If the
/// side has a deadline, a current timer, armed or gone off, will make it pass.
pub fn no_goroutine_sleeps_past_a_close_or_a_deadline()
    ensures not_closing { (r : Recording) (n g d : ℕ) (side : Side) (row : DescriptorRow)
        → 0 < r.limits.goroutines → All IsTimely r.steps
        → HasView parked_of (world_at r n).goroutines g (d, side)
        → slice_get (world_at r n).descriptors d ≡ Some row → row.descriptor.closing ≡ false }
    ensures not_expired { (r : Recording) (n g d : ℕ) (side : Side) (row : DescriptorRow)
        → 0 < r.limits.goroutines → All IsTimely r.steps
        → HasView parked_of (world_at r n).goroutines g (d, side)
        → slice_get (world_at r n).descriptors d ≡ Some row → is_expired side row.descriptor ≡ false }
    ensures checked { (r : Recording) (n g d : ℕ) (side : Side) (row : DescriptorRow)
        → 0 < r.limits.goroutines → All IsTimely r.steps
        → HasView parked_of (world_at r n).goroutines g (d, side)
        → slice_get (world_at r n).descriptors d ≡ Some row
        → (check side row.descriptor ≡ 0) ⊎ ((side ≡ Read) × (check side row.descriptor ≡ 3)) }
    ensures timed { (r : Recording) (n g d : ℕ) (side : Side) (row : DescriptorRow)
        → 0 < r.limits.goroutines → All IsTimely r.steps
        → HasView parked_of (world_at r n).goroutines g (d, side)
        → slice_get (world_at r n).descriptors d ≡ Some row
        → is_positive (of_side side row.descriptor.deadlines) ≡ true
        → WillPass (world_at r n).descriptors (world_at r n).firings d side row }
{}

/// With Linux's events, the check is 0 where a goroutine is parked.
pub fn on_linux_the_check_is_zero_where_a_goroutine_is_parked()
    ensures { (r : Recording) (n g d : ℕ) (side : Side) (row : DescriptorRow)
        → 0 < r.limits.goroutines → All IsTimely r.steps → All IsOfLinux r.steps
        → HasView parked_of (world_at r n).goroutines g (d, side)
        → slice_get (world_at r n).descriptors d ≡ Some row → check side row.descriptor ≡ 0 }
{}

/// A step leaves each deadline its timer.
pub fn steps_keep_deadlines_timed()
    ensures { (w : World) (step : Step) (answer : Answer) (next : World) → WellFormed w
        → DeadlinesTimed w.descriptors w.firings → outcome w step ≡ Ok (answer, next)
        → DeadlinesTimed next.descriptors next.firings }
{}

/// At each position of a recording, each future deadline of a descriptor that isn't closing has a current timer, which is
/// armed for it, or has gone off and waits to be run.
pub fn each_deadline_has_its_timer()
    ensures { (r : Recording) (n d : ℕ) (side : Side) (row : DescriptorRow)
        → 0 < r.limits.goroutines → All IsTimely r.steps
        → slice_get (world_at r n).descriptors d ≡ Some row → row.descriptor.closing ≡ false
        → is_positive (of_side side row.descriptor.deadlines) ≡ true
        → WillPass (world_at r n).descriptors (world_at r n).firings d side row }
{}

/// Running a current firing wakes each goroutine that is parked at a side that the firing covers. The step always applies.
pub fn a_firing_wakes_the_parked_goroutine()
    ensures { (w : World) (i g : ℕ) (side : Side) (e : Entry) → WellFormed w
        → slice_get w.firings i ≡ Some e → covers_side e.timer.function side ≡ true
        → IsCurrent w.descriptors e → slice_get w.goroutines g ≡ Some (Parked e.descriptor side)
        → (next : World) × (outcome w (Step.Fire i) ≡ Ok (Done, next))
        × (slice_get next.goroutines g ≡ Some (Swapping e.descriptor side)) }
{}

/// Whenever the earliest timer is due, `pop` applies: the timer goes off, and waits to be run after the others. Only a full list
/// of firings refuses that.
pub fn a_due_timer_goes_off()
    ensures { (w : World) (e : Entry) → least_entry w ≡ Some e
        → int_le e.timer.due w.clock ≡ true → nat_lt (length w.firings) (2 * w.limits.descriptors) ≡ true
        → (next : World) × (outcome w Step.Pop ≡ Ok (Done, next)) × (next.firings ≡ w.firings ++ e ∷ []) }
{}
