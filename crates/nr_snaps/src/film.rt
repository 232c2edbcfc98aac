//! A film: a recording whose steps all apply, with copies of its world.

ghost use Rattle.std.specs.Prelude.{◌≡◌, ◌<◌, ◌≤◌, ◌+◌, ◌*◌, ◌/◌, length, slice_get, IfOk, OnOk, OnErr, Some};
ghost use Rattle.std.specs.Option.{option_copied};
ghost use Rattle.nr_recording.specs.declared.recording.TheConstants.{MOST_STEPS};
ghost use Rattle.nr_rev.specs.Run.{IsGood};
ghost use Rattle.nr_rev.specs.Auxiliary.Run.{LosesBytesAt};
ghost use Rattle.nr_snaps.specs.Answers.{answer_at};
ghost use Rattle.nr_snaps.specs.Film.{IsFrame};
ghost use Rattle.nr_snaps.specs.declared.film.TheConstants.{LEAST_EVERY, MOST_EVERY};

use nr_recording::Recording;
use nr_rev::{Answer, Memory, Refusal, Step, Worlds};
use std::alloc::Global;
use std::marker::Model;

/// The minimum number of steps between two copies.
pub const LEAST_EVERY: usize = 64;

/// The maximum number of steps between two copies.
pub const MOST_EVERY: usize = 65_536;

/// A recording whose steps all apply, with a copy of its world at position 0 and after every
/// `every` steps, up to the end. The copies after position 0 are snapshots, which store only the
/// contents, without unused room. No call changes a film.
#[derive(Drop)]
pub struct Film<W: Worlds + Drop>
where
    W::Snapshot: Drop,
{
    pub(crate) alloc: Global,
    pub(crate) recording: Recording,
    pub(crate) every: usize,
    // the world at position 0, and a snapshot of it
    pub(crate) start: W,
    pub(crate) first: W::Snapshot,
    // the snapshots at `every`, twice `every` and so on
    pub(crate) later: Vec<W::Snapshot>,
}

impl<W: Worlds + Drop> Model for Film<W>
where
    W::Snapshot: Drop,
{
    ghost use Rattle.nr_recording.specs.Recording.{run_of};
    ghost use Rattle.std.specs.Prelude.{◌≡◌};
    ghost use Rattle.nr_snaps.specs.Film.{Reel, IsFilm};

    ghost Value = { Reel W };

    ghost view = { λ f. record { recording = run_of f.recording; every = f.every; origin = f.start } };

    ghost invariant = { λ f. IsFilm W.is_well_formed W.world W.steps W.kept
        (record { recording = run_of f.recording; every = f.every; origin = f.start }) f.later.items
        × (W.kept f.first ≡ f.start) };
}

impl<W: Worlds + Drop> Film<W>
where
    W::Snapshot: Drop,
{
    /// Returns the number of steps.
    pub fn len(&self) -> usize
        ensures is { result ≡ length self.now.recording.steps }
        ensures within { result ≤ MOST_STEPS }
        ensures good { IsGood self.now.recording }
    {
        self.recording.len()
    }

    /// Returns the number of steps between two copies.
    pub fn every(&self) -> usize
        ensures is { result ≡ self.now.every }
        ensures least { LEAST_EVERY ≤ result }
        ensures most { result ≤ MOST_EVERY }
    {
        self.every
    }

    /// Returns the step after position n: `step(0)` is the first one. Returns `None` at the end of
    /// the recording and beyond.
    pub fn step(&self, n: usize) -> Option<&Step>
        ensures { option_copied result ≡ slice_get self.now.recording.steps n }
    {
        self.recording.step(n)
    }

    /// Returns the world at position 0.
    pub fn start(&self) -> &W
        ensures { IsFrame W.is_well_formed W.world W.steps self.now 0 result.now }
    {
        &self.start
    }

    /// Returns the copy at position n, or the nearest copy before n. Allocates no memory.
    pub fn snap_below(&self, n: usize) -> &W::Snapshot
        requires { n ≤ length self.now.recording.steps }
        ensures { IsFrame W.is_well_formed W.world W.steps self.now
            (n / self.now.every * self.now.every) (W.kept result.now) }
    {
        let copy = n / self.every;
        if copy == 0 {
            &self.first
        } else {
            &self.later[copy - 1]
        }
    }

    /// Makes a world, with memory of its own, that is equal to the copy at position n, or to the
    /// nearest copy before n. Fails if memory runs out.
    pub fn world_below(&self, n: usize) -> Result<W, Memory>
        requires { n ≤ length self.now.recording.steps }
        ensures { IfOk result (λ world. IsFrame W.is_well_formed W.world W.steps self.now
            (n / self.now.every * self.now.every) world) }
    {
        W::restored(self.snap_below(n))
    }

    /// Makes a world equal to the copy at position n, or to the nearest copy before n. If the world
    /// has the limits of the copy, reuses its memory and allocates none. If memory runs out, the
    /// world is unchanged.
    pub fn restore_below(&self, world: &mut W, n: usize) -> Result<(), Memory>
        requires within { n ≤ length self.now.recording.steps }
        requires well_formed { W.is_well_formed world.old }
        ensures frame { OnOk result (IsFrame W.is_well_formed W.world W.steps self.now
            (n / self.now.every * self.now.every) world.new) }
        ensures unchanged { OnErr result (world.new ≡ world.old) }
    {
        world.restore(self.snap_below(n))
    }

    /// Moves a world from position n to the next position, and stores the delta that undoes the
    /// step in `delta`. Only a step that removes bytes from a buffer can run out of memory. If that
    /// happens, the world is unchanged, and `delta` may contain anything.
    #[inline(always)]
    pub fn apply(&self, world: &mut W, n: usize, delta: &mut W::Delta) -> Result<(), Memory>
        requires frame { IsFrame W.is_well_formed W.world W.steps self.now n world.old }
        requires below { n < length self.now.recording.steps }
        ensures frame { OnOk result (IsFrame W.is_well_formed W.world W.steps self.now (n + 1) world.new) }
        ensures back { OnOk result (W.back delta.new world.new world.old) }
        ensures refused { OnErr result (LosesBytesAt self.now.recording n) }
        ensures unchanged { OnErr result (world.new ≡ world.old) }
    {
        let Some(step) = self.recording.step(n) else {
            unreachable!()
        };
        match world.apply_to(step, delta) {
            Ok(_) => Ok(()),
            Err(Refusal::Memory(refused)) => Err(refused),
            Err(_) => unreachable!(),
        }
    }

    /// Moves a world from position n to the next position, and returns the answer of the step.
    /// Stores no delta and allocates no memory.
    #[inline(always)]
    pub fn advance(&self, world: &mut W, n: usize) -> Answer
        requires frame { IsFrame W.is_well_formed W.world W.steps self.now n world.old }
        requires below { n < length self.now.recording.steps }
        ensures frame { IsFrame W.is_well_formed W.world W.steps self.now (n + 1) world.new }
        ensures answer { answer_at self.now.recording n ≡ Some result }
    {
        let Some(step) = self.recording.step(n) else {
            unreachable!()
        };
        let Ok(answer) = world.advance(step) else {
            unreachable!()
        };
        answer
    }
}
