//! Laws about the crate's definitions.

ghost use Rattle.std.specs.Prelude.{◌≡◌, ℕ};
ghost use Rattle.nr_rev.specs.Run.{IsGood, Recording};
ghost use Rattle.nr_recording.specs.Recording.{Recorded, run_of};
ghost use Rattle.nr_snaps.specs.Answers.{AnswersAgree};
ghost use Rattle.nr_snaps.specs.Auxiliary.Answers.{answered};
ghost use Rattle.nr_snaps.specs.Fault.{IsStepFault};
ghost use Rattle.nr_snaps.specs.declared.fault.LoadFault.{LoadFault};
ghost use Rattle.nr_snaps.specs.Film.{IsFrame, Reel};
ghost use Rattle.nr_snaps.specs.declared.film.TheConstants.{LEAST_EVERY, MOST_EVERY};

use nr_rev::Worlds;

/// A film has only one state at each position: two replays that end there have exactly the same
/// state.
pub fn a_position_has_one_frame<W: Worlds>()
    ensures { (film : Reel W) (n : ℕ) (a b : W)
        → IsFrame W.is_well_formed W.world W.steps film n a
        → IsFrame W.is_well_formed W.world W.steps film n b → a ≡ b }
{}

/// The copies of a film are 64 to 65,536 steps apart.
pub fn the_numbers()
    ensures least { LEAST_EVERY ≡ 64 }
    ensures most { MOST_EVERY ≡ 65536 }
{}

/// If a recording has a fault at a step, then some step is refused or gives an answer other than
/// the recorded one, and the recording has no other fault. So `load` can report only this step and
/// this reason.
pub fn a_recording_has_one_fault()
    ensures bad { (r : Recorded) (fault : LoadFault) → IsStepFault r fault → ¬ (IsGood (run_of r) × AnswersAgree r) }
    ensures exact { (r : Recorded) (fault other : LoadFault) → IsStepFault r fault → IsStepFault r other → fault ≡ other }
{}

/// Adding answers to a recording doesn't change its run. So the recording with answers loads as the
/// same film, and adding answers again changes nothing.
pub fn answers_leave_the_run()
    ensures { (r : Recording) → run_of (answered r) ≡ r }
{}
