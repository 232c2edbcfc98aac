//! Laws of searches: public functions with an empty body, whose contract is the law.

ghost use Rattle.std.specs.Prelude.{◌≡◌, ◌≢◌, ◌+◌, ◌-◌, ◌≤◌, ◌<◌, ◌∷◌, [], length, List, ℕ};
ghost use Rattle.nr_rev.specs.Cell.{cell};
ghost use Rattle.nr_rev.specs.declared.cell.Cell.{Cell};
ghost use Rattle.nr_marks.specs.declared.mark.Mark.TheVariants.{Watch};
ghost use Rattle.nr_marks.specs.Hit.{hits_at};
ghost use Rattle.nr_marks.specs.Marks.{NumberedMark};
ghost use Rattle.nr_rev.specs.Run.{Recording, world_at};
ghost use Rattle.nr_search.specs.Nearest.{nearest_hit};
ghost use Rattle.nr_search.specs.Auxiliary.Nearest.{IsFound, IsNearest};
ghost use Rattle.nr_search.specs.declared.direction.Direction.TheVariants.{Forward, Backward};
ghost use Rattle.nr_search.specs.declared.workers.TheConstants.{LEAST_WORKERS, MOST_WORKERS};

/// Forwards, the nearest hit from position n is the least hit above n, up to the end; backwards, it
/// is the greatest hit below n. A search finds nothing if and only if no mark hits at any of those
/// positions.
pub fn the_nearest_hit_is_nearest()
    ensures forward { (r : Recording) (marks : List NumberedMark) (n : ℕ) → n ≤ length r.steps
        → IsFound Forward (hits_at r marks) (n + 1) (length r.steps + 1)
        (nearest_hit Forward r marks n) }
    ensures backward { (r : Recording) (marks : List NumberedMark) (n : ℕ)
        → IsFound Backward (hits_at r marks) 0 n (nearest_hit Backward r marks n) }
{}

/// A backward search for a watch's hit stops at the last write to the watched cell. One position
/// earlier, the cell has another value. From the hit to the last position before the search's
/// start, the cell's value stays the same.
pub fn going_back_leads_to_the_last_write()
    ensures steady { (r : Recording) (number n p : ℕ) (c : Cell) (ms : List ℕ)
        → IsNearest Backward (hits_at r (record { number = number; item = Watch c } ∷ [])) 0 n p ms
        → (q : ℕ) → p ≤ q → q < n → cell (world_at r q) c ≡ cell (world_at r p) c }
    ensures written { (r : Recording) (number n p : ℕ) (c : Cell) (ms : List ℕ)
        → IsNearest Backward (hits_at r (record { number = number; item = Watch c } ∷ [])) 0 n p ms
        → cell (world_at r (p - 1)) c ≢ cell (world_at r p) c }
{}

/// A search has 1 to 16 workers.
pub fn the_numbers()
    ensures least { LEAST_WORKERS ≡ 1 }
    ensures most { MOST_WORKERS ≡ 16 }
{}
