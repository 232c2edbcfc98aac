//! Laws of hits: each is a public function with an empty body, and its contract is the law.

ghost use Rattle.std.specs.Prelude.{◌≡◌, ◌↔◌, ◌∷◌, [], ℕ, true};
ghost use Rattle.nr_rev.specs.Cell.{same_value};
ghost use Rattle.nr_rev.specs.Kind.{same_kind};
ghost use Rattle.nr_rev.specs.Run.{Recording};
ghost use Rattle.nr_rev.specs.declared.cell.Cell.{Cell};
ghost use Rattle.nr_rev.specs.declared.cell_value.CellValue.{CellValue};
ghost use Rattle.nr_rev.specs.declared.kind.Kind.{Kind};
ghost use Rattle.nr_marks.specs.Hit.{hits_at};
ghost use Rattle.nr_marks.specs.declared.mark.Mark.TheVariants.{Watch};
ghost use Rattle.nr_marks.specs.declared.numbered.TheConstants.{MOST_NUMBERED};

/// `==`, which decides whether watches and breaks hit, is true only of equal values and equal
/// kinds.
pub fn just_equals_are_the_same()
    ensures values { (a b : CellValue) → (same_value a b ≡ true) ↔ (a ≡ b) }
    ensures kinds { (a b : Kind) → (same_kind a b ≡ true) ↔ (a ≡ b) }
{}

/// No watch hits at position 0, because nothing has changed before it.
pub fn no_watch_hits_at_the_start()
    ensures { (r : Recording) (number : ℕ) (c : Cell)
        → hits_at r (record { number = number; item = Watch c } ∷ []) 0 ≡ [] }
{}

/// At most 64 marks exist at once.
pub fn the_numbers()
    ensures numbered { MOST_NUMBERED ≡ 64 }
{}
