//! The cells that a step doesn't change.

ghost use Rattle.std.specs.Prelude.{false, ◌≡◌, Ok};
ghost use Rattle.nr_rev.specs.declared.answer.Answer.{Answer};
ghost use Rattle.nr_rev.specs.World.{World};
ghost use Rattle.nr_rev.specs.declared.step.Step.{Step};
ghost use Rattle.nr_rev.specs.Step.{outcome};
ghost use Rattle.nr_rev.specs.Cell.{cell};
ghost use Rattle.nr_rev.specs.Aspect.{can_change};
ghost use Rattle.nr_rev.specs.declared.cell.Cell.{Cell};
ghost use Rattle.nr_rev.specs.Kind.{kind_of};

/// A step changes no cell that its kind cannot change, in any world.
pub fn steps_change_their_aspects_alone()
    ensures { (w : World) (step : Step) (answer : Answer) (next : World) (c : Cell)
        → outcome w step ≡ Ok (answer, next) → can_change (kind_of step) c ≡ false
        → cell next c ≡ cell w c }
{}
