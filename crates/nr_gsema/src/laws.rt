//! Laws about the definitions: the equality of statuses, the contents of a delta, and the numbers.

ghost use Rattle.std.specs.Prelude.{◌≡◌, ◌↔◌, ℕ, true, Some, Ok, Err};
ghost use Rattle.nr_rev.specs.declared.answer.Answer.TheVariants.{Done};
ghost use Rattle.nr_rev.specs.declared.refusal.Refusal.TheVariants.{FieldOverflow};
ghost use Rattle.nr_rev.specs.declared.status.Status.{Status};
ghost use Rattle.nr_rev.specs.declared.status.Status.TheVariants.{Idle, Owing};
ghost use Rattle.nr_gsema.specs.declared.apply.TheConstants.{MOST_WORDS};
ghost use Rattle.nr_gsema.specs.declared.delta.GDelta.{GDelta};
ghost use Rattle.nr_gsema.specs.declared.delta.GUndo.TheVariants.{Released};
ghost use Rattle.nr_gsema.specs.declared.operation.GOperation.TheVariants.{Release};
ghost use Rattle.nr_gsema.specs.Delta.{undo_weight};
ghost use Rattle.nr_gsema.specs.Step.{outcome, same_status};
ghost use Rattle.nr_gsema.specs.Worked.{one_at};

/// `same_status` is true if and only if the two statuses are equal. `Move` uses it to compare a goroutine's status with
/// `from`.
pub fn just_equals_are_the_same()
    ensures { (a b : Status) → (same_status a b ≡ true) ↔ (a ≡ b) }
{}

/// A delta consists of its undo and nothing else.
pub fn delta_is_its_undo()
    ensures { (delta : GDelta) → delta ≡ record { undo = delta.undo } }
{}

/// A delta has at most seven words. It has exactly seven if it undoes a release that let a goroutine leave the queue.
pub fn the_numbers()
    ensures words { MOST_WORDS ≡ 7 }
    ensures reached { (g s reads writes front : ℕ)
        → undo_weight (Released g s reads writes (Some front)) ≡ 7 }
{}

/// The count of a semaphore is at most 4,294,967,295: a release at this count is refused, and a
/// release at a lower count applies.
pub fn the_greatest_count()
    ensures refused { outcome (one_at 4294967295 (Owing 0 1 0)) (Release 0) ≡ Err FieldOverflow }
    ensures made { outcome (one_at 4294967294 (Owing 0 1 0)) (Release 0)
        ≡ Ok (Done, one_at 4294967295 Idle) }
{}
