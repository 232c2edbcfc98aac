//! Laws about the definitions: a heap and the timers of descriptors, the least entry, and the fixed numbers.

ghost use Rattle.std.specs.Prelude.{◌≡◌, ◌↔◌, ℕ, ℤ, ◌+◌, ◌*◌, ◌<◌, ◌≤◌, true, List, Option, length, slice_get};
ghost use Rattle.nr_rev.specs.declared.sides.Side.{Side};
ghost use Rattle.nr_rev.specs.declared.sides.Sides.{Sides};
ghost use Rattle.nr_rev.specs.declared.timer.Timer.{Timer};
ghost use Rattle.nr_rev.specs.declared.timer.TimerFunction.{TimerFunction};
ghost use Rattle.nr_rev.specs.Timer.{entries_from, least_of};
ghost use Rattle.nr_timers.specs.declared.delta.TimersDelta.{TimersDelta};
ghost use Rattle.nr_timers.specs.declared.op.TimersOp.TheVariants.{Arm, Pop, Stop, TakeFiring};
ghost use Rattle.nr_timers.specs.Back.{delta_weight, op_allowance};
ghost use Rattle.nr_timers.specs.PathToRoot.{parent};
ghost use Rattle.nr_timers.specs.Order.{at, is_less};
ghost use Rattle.nr_timers.specs.State.{IsTimers, State};
ghost use Rattle.nr_timers.specs.Auxiliary.TimersOf.{AreTimers};

/// A heap that contains the timers of descriptors has one entry for each timer. Its least entry is
/// at place 0.
pub fn entries_are_the_descriptors()
    ensures count { (t : State) (timers : List (Sides (Option Timer))) → IsTimers t
        → AreTimers t.entries timers → length t.entries ≡ length (entries_from 0 timers) }
    ensures least { (t : State) (timers : List (Sides (Option Timer))) → IsTimers t
        → AreTimers t.entries timers
        → slice_get t.entries 0 ≡ least_of (entries_from 0 timers) }
{}

/// The entry at place 0 goes off before every other entry.
pub fn the_first_is_the_least()
    ensures { (t : State) (place : ℕ) → IsTimers t → 0 < place → place < length t.entries
        → is_less (at t.entries 0) (at t.entries place) ≡ true }
{}

/// The children of place i are the four places from 4 i + 1 to 4 i + 4.
pub fn four_children_a_place()
    ensures { (place child : ℕ) → 0 < child
        → (parent child ≡ place) ↔ ((4 * place + 1 ≤ child) × (child ≤ 4 * place + 4)) }
{}

/// A delta consists of its undo and nothing else.
pub fn delta_is_its_undo()
    ensures { (delta : TimersDelta) → delta ≡ record { undo = delta.undo } }
{}

/// A delta has at most nine words; the clauses give the limit for each operation.
pub fn the_numbers()
    ensures words { (delta : TimersDelta) → delta_weight delta ≤ 9 }
    ensures arm { (d : ℕ) (side : Side) (due : ℤ) (function : TimerFunction) (sequence : ℕ)
        → op_allowance (Arm d side due function sequence) ≡ 8 }
    ensures stop { (d : ℕ) (side : Side) → op_allowance (Stop d side) ≡ 9 }
    ensures pop { (now : ℤ) → op_allowance (Pop now) ≡ 2 }
    ensures take_firing { (place : ℕ) → op_allowance (TakeFiring place) ≡ 8 }
{}
