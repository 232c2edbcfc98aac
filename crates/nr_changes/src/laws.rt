//! Laws about what steps touch: public functions with an empty body, whose contract is the law.

ghost use Rattle.std.specs.Prelude.{◌≡◌, ◌≢◌, ◌↔◌, ◌≤◌, ℕ, Ok, Contains, length};
ghost use Rattle.std.specs.List.Sorted.{IsStrictlySortedBy};
ghost use Rattle.nr_rev.specs.declared.answer.Answer.{Answer};
ghost use Rattle.nr_rev.specs.declared.cell.Cell.{Cell};
ghost use Rattle.nr_rev.specs.declared.step.Step.{Step};
ghost use Rattle.nr_rev.specs.Cell.{cell};
ghost use Rattle.nr_rev.specs.Step.{outcome};
ghost use Rattle.nr_rev.specs.World.{World};
ghost use Rattle.nr_changes.specs.Touched.{touched};
ghost use Rattle.nr_changes.specs.Changed.{changed_cells, listing_order, touched_cells};
ghost use Rattle.nr_changes.specs.Changes.{differing_cells};

/// A step changes only cells that it touches, in any world.
pub fn steps_change_what_they_touch_alone()
    ensures { (w : World) (step : Step) (answer : Answer) (next : World) (c : Cell)
        → outcome w step ≡ Ok (answer, next) → ¬ Contains (touched_cells w step) c
        → cell next c ≡ cell w c }
{}

/// `differing_cells` lists exactly the cells whose value differs in the next world.
pub fn just_what_shows_another_value_differs()
    ensures { (w next : World) (c : Cell)
        → Contains (differing_cells w next) c ↔ (cell next c ≢ cell w c) }
{}

/// After a step, `changed_cells` and `differing_cells` are the same list.
pub fn what_differs_was_touched()
    ensures { (w : World) (step : Step) (answer : Answer) (next : World)
        → outcome w step ≡ Ok (answer, next) → changed_cells w step next ≡ differing_cells w next }
{}

/// Lists of cells are ordered by kind and then by number, and contain each cell once.
pub fn cells_are_listed_in_order()
    ensures touched { (w : World) (step : Step)
        → IsStrictlySortedBy listing_order (touched_cells w step) }
    ensures differing { (w next : World)
        → IsStrictlySortedBy listing_order (differing_cells w next) }
{}

/// A step touches at most three goroutines.
pub fn few_are_touched()
    ensures { (w : World) (step : Step) → length (touched w step).goroutines ≤ 3 }
{}
