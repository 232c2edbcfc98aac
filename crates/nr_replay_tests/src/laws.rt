//! A law about films of packed worlds, for any walk over them.

ghost use Rattle.std.specs.Prelude.{◌≡◌, ℕ};
ghost use Rattle.nr_snaps.specs.Film.{IsFrame, Reel};
ghost use Rattle.nr_machine.specs.Fits.{IsWorld};
ghost use Rattle.nr_machine.specs.Step.{StepTo};
ghost use Rattle.nr_machine.specs.World.{WorldParts, meant};

/// If two walks of a film end at the same position, their heaps of timers are equal, place by
/// place. So each heap equals the heap after a walk that goes only forwards.
pub fn walks_have_one_heap()
    ensures { (film : Reel WorldParts) (n : ℕ) (a b : WorldParts)
        → IsFrame IsWorld meant StepTo film n a → IsFrame IsWorld meant StepTo film n b
        → a.core.timers.entries ≡ b.core.timers.entries }
{}
