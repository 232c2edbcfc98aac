//! Replays a recording once, and keeps copies of the world along the way.

ghost use Rattle.std.specs.Prelude.{◌≡◌, ◌≢◌, ◌≤◌, ◌<◌, ◌+◌, length, IfOk, IfErr, OnOk, OnErr, MatchBool, Some};
ghost use Rattle.nr_recording.specs.Recording.{run_of};
ghost use Rattle.nr_rev.specs.Run.{IsGood};
ghost use Rattle.nr_rev.specs.Auxiliary.Run.{IsRefusedFor, IsWorldAt};
ghost use Rattle.nr_rev.specs.Refusing.{out_of_memory};
ghost use Rattle.nr_snaps.specs.Answers.{Agrees, AnswersAgree, AnswersAgreeTo, Differs, answer_at};
ghost use Rattle.nr_snaps.specs.Fault.{IsStepFault};
ghost use Rattle.nr_snaps.specs.Auxiliary.Fault.{IsLoadFault};
ghost use Rattle.nr_snaps.specs.Film.{HasCopies, IsFrame, Reel};
ghost use Rattle.nr_snaps.specs.Replay.{LeadsOn};
ghost use Rattle.nr_snaps.specs.declared.film.TheConstants.{LEAST_EVERY, MOST_EVERY};

use crate::fault::LoadFault;
use crate::film::Film;
use nr_recording::Recording;
use nr_rev::{Answer, Memory, Refusal, Worlds};
use std::alloc::Global;

/// The loader of films.
pub struct Snaps;

impl Snaps {
    /// Replays the recording once, and keeps a copy of the world at position 0 and after every
    /// `every` steps, up to the end.
    ///
    /// Fails at the first step that does not apply (`Refused`, with the reason) or that gives an
    /// answer other than the recorded one (`OtherAnswer`), with the step's number, counted from 1.
    /// Fails with `Memory` if memory runs out for the world at position 0, the copies or their
    /// list; steps allocate no memory.
    pub fn load<W: Worlds + Drop>(
        alloc: Global,
        recording: Recording,
        every: usize,
    ) -> Result<Film<W>, LoadFault>
    where
        W::Snapshot: Drop,
        requires least { LEAST_EVERY ≤ every }
        requires most { every ≤ MOST_EVERY }
        ensures film { IfOk result (λ film. film
            ≡ record { recording = run_of recording; every = every; origin = film.origin }) }
        ensures origin { IfOk result (λ film.
            IsWorldAt W.is_well_formed W.world (run_of recording) 0 film.origin) }
        ensures good { OnOk result (IsGood (run_of recording)) }
        ensures answers { OnOk result (AnswersAgree recording) }
        ensures fault { IfErr result (IsLoadFault recording) }
    {
        let start = W::fresh(alloc, recording.limits())?;
        let first = first_copy(&start)?;
        let later = replay(alloc, &start, &recording, every)?;
        Ok(Film {
            alloc,
            recording,
            every,
            start,
            first,
            later,
        })
    }
}

// Returns the copy at position 0, which shares no buffers with another copy.
fn first_copy<W: Worlds>(start: &W) -> Result<W::Snapshot, Memory>
where
    W::Snapshot: Drop,
    ensures { IfOk result (λ snapshot. W.kept snapshot ≡ start.now) }
{
    let none: Option<W::Snapshot> = None;
    start.snapshot(none.as_ref())
}

// Replays all steps, and returns the snapshots after position 0.
fn replay<W: Worlds + Drop>(
    alloc: Global,
    start: &W,
    recording: &Recording,
    every: usize,
) -> Result<Vec<W::Snapshot>, LoadFault>
where
    W::Snapshot: Drop,
    ghost film: { Reel W }
    requires is { film ≡ record { recording = run_of recording.now; every = every; origin = start.now } }
    requires origin { IsWorldAt W.is_well_formed W.world (run_of recording.now) 0 start.now }
    requires some { 0 < every }
    ensures copies { IfOk result (λ later.
        HasCopies W.is_well_formed W.world W.steps W.kept film later.items) }
    ensures good { OnOk result (IsGood (run_of recording.now)) }
    ensures answers { OnOk result (AnswersAgree recording.now) }
    ensures fault { IfErr result (IsLoadFault recording.now) }
{
    let mut world = start.try_copy()?;
    let count = recording.len() / every;
    let mut later = Vec::with_capacity(alloc, count)?;
    for i in 0..count {
        play(&mut world, recording, i * every, (i + 1) * every)?;
        let snapshot = world.snapshot(later.last())?;
        later.push_reserved(snapshot);
    }
    play(&mut world, recording, count * every, recording.len())?;
    Ok(later)
}

// Moves the world from one position to another. Allocates no memory, so an error is always that of
// a step.
fn play<W: Worlds>(
    world: &mut W,
    recording: &Recording,
    from: usize,
    to: usize,
) -> Result<(), LoadFault>
    ghost film: { Reel W }
    requires is { film.recording ≡ run_of recording.now }
    requires origin { IsWorldAt W.is_well_formed W.world (run_of recording.now) 0 film.origin }
    requires frame { IsFrame W.is_well_formed W.world W.steps film from world.old }
    requires agree { AnswersAgreeTo recording.now from }
    requires order { from ≤ to }
    requires within { to ≤ length recording.now.steps }
    ensures frame { OnOk result (IsFrame W.is_well_formed W.world W.steps film to world.new) }
    ensures agree { OnOk result (AnswersAgreeTo recording.now to) }
    ensures fault { IfErr result (IsStepFault recording.now) }
{
    for n in from..to {
        let given = match advance(world, recording, n) {
            Ok(given) => given,
            Err(reason) => {
                return Err(LoadFault::Refused {
                    step: n + 1,
                    reason,
                });
            }
        };
        if differs(recording.answer(n), given) {
            return Err(LoadFault::OtherAnswer { step: n + 1 });
        }
    }
    Ok(())
}

/// Returns whether a step has a recorded answer and gave another one.
pub fn differs(recorded: Option<Answer>, given: Answer) -> bool
    ensures { MatchBool result (Differs recorded given) (Agrees recorded given) }
{
    match recorded {
        Some(answer) => !answer.is(given),
        None => false,
    }
}

// Applies the step after position n, and returns its answer. Stores no delta and allocates no
// memory.
#[inline(always)]
fn advance<W: Worlds>(world: &mut W, recording: &Recording, n: usize) -> Result<Answer, Refusal>
    requires is_at { IsWorldAt W.is_well_formed W.world (run_of recording.now) n world.old }
    requires below { n < length recording.now.steps }
    ensures leads { OnOk result (LeadsOn W.steps (run_of recording.now) n world.old world.new) }
    ensures answer { IfOk result (λ answer. answer_at (run_of recording.now) n ≡ Some answer) }
    ensures well_formed { W.is_well_formed world.new }
    ensures refused { IfErr result (IsRefusedFor (run_of recording.now) n) }
    ensures no_memory { IfErr result (λ reason. reason ≢ out_of_memory) }
{
    let Some(step) = recording.step(n) else {
        unreachable!()
    };
    world.advance(step)
}
