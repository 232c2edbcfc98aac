//! The nearest hit.

ghost use Rattle.std.specs.Prelude.{◌≡◌, ℕ, ◌<◌, ◌≤◌, ◌+◌, true, length, IfNone, IfOk, IfSome, OnErr};
ghost use Rattle.nr_marks.specs.Hit.{hits_at};
ghost use Rattle.nr_marks.specs.Marks.{any_watch};
ghost use Rattle.nr_search.specs.Nearest.{NeedsCopy, nearest_hit};
ghost use Rattle.nr_search.specs.Auxiliary.Nearest.{IsFound, Rises};
ghost use Rattle.nr_search.specs.declared.direction.Direction.TheVariants.{Forward, Backward};

use crate::direction::Direction;
use crate::found::Found;
use crate::gate::{Gate, Open};
use crate::search::Search;
use crate::steps::nearest_step;
use crate::stretch::hits_at_start;
use crate::workers::{Claims, ManyWorkers, search_by};
use nr_marks::Marks;
use nr_rev::{Memory, Worlds};
use nr_snaps::Film;
use std::marker::PhantomData;
use std::thread::Threads;

/// A method of searching: with one worker or with several. `nearest_hit` returns the same result
/// for every `Finder`, so its callers can be generic.
pub trait Finder {
    /// The runtime that starts the threads.
    type Runtime: Threads + Sync;

    /// The gate that is notified when a worker searches.
    type Gate: Gate + Sync;

    /// The number of workers: 1 if the caller's thread searches alone.
    ghost count: { Self → ℕ };

    /// Returns the workers, or `None` if the caller's thread searches alone.
    fn workers(&self) -> Option<&ManyWorkers<Self::Runtime, Self::Gate>>
        ensures many { IfSome result (λ many. many.now ≡ count self.now) }
        ensures alone { IfNone result (count self.now ≡ 1) };

    /// Returns the claims with which a search begins. The result of the search doesn't depend on
    /// them.
    fn claims(&self) -> Claims;
}

/// A search in the caller's thread alone. The runtime, which could start threads, is only a type
/// parameter.
#[derive(Clone, Copy, Debug)]
pub struct OneWorker<R> {
    _runtime: PhantomData<R>,
}

impl<R: Threads + Sync> OneWorker<R> {
    /// Makes a finder with one worker.
    pub fn new() -> OneWorker<R> {
        OneWorker {
            _runtime: PhantomData,
        }
    }
}

impl<R: Threads + Sync> Finder for OneWorker<R> {
    type Runtime = R;

    type Gate = Open;

    ghost count = { λ _. 1 };

    fn workers(&self) -> Option<&ManyWorkers<R, Open>> {
        None
    }

    fn claims(&self) -> Claims {
        Claims::new()
    }
}

impl<R: Threads + Sync, G: Gate + Sync> Finder for ManyWorkers<R, G> {
    type Runtime = R;

    type Gate = G;

    ghost count = { λ many. many };

    fn workers(&self) -> Option<&ManyWorkers<R, G>> {
        Some(self)
    }

    fn claims(&self) -> Claims {
        Claims::new()
    }
}

impl<F: Finder> Finder for &F {
    type Runtime = F::Runtime;

    type Gate = F::Gate;

    ghost count = { λ finder. F.count finder.now };

    fn workers(&self) -> Option<&ManyWorkers<F::Runtime, F::Gate>> {
        (**self).workers()
    }

    fn claims(&self) -> Claims {
        (**self).claims()
    }
}

/// Returns the position nearest to n at which a mark hits, with the numbers of the marks that hit
/// there. Forwards, it is the least such position above n, up to the end; backwards, it is the
/// greatest below n. If a mark is a watch, the search allocates memory for copies of the film's
/// worlds and for the reports of several workers, and fails if memory runs out. If all marks are
/// breaks, the search runs in the caller's thread, only reads the recorded steps, and allocates no
/// memory. A search that visits no position other than the start allocates no memory either.
pub fn nearest_hit<W: Worlds + Drop + Sync, F: Finder>(
    finder: &F,
    film: &Film<W>,
    marks: &Marks,
    direction: Direction,
    n: usize,
) -> Result<Found, Memory>
where
    W::Snapshot: Drop + Sync,
    requires { n ≤ length film.now.recording.steps }
    ensures found { IfOk result (λ found. found
        ≡ nearest_hit direction film.now.recording marks.now.present n) }
    ensures rising { IfOk result (Rises marks.now.made) }
    ensures copy { OnErr result (NeedsCopy direction film.now.recording n) }
    ensures marks { OnErr result (0 < length marks.now.present) }
    ensures watch { OnErr result (any_watch marks.now.present ≡ true) }
{
    if marks.as_slice().is_empty() {
        return Ok(Found::Nothing);
    }
    if !marks.any_watch() {
        return Ok(nearest_step(film, marks, direction, n));
    }
    match direction {
        Direction::Forward => {
            search_between(finder, film, marks, Direction::Forward, n, film.len())
        }
        Direction::Backward => last_hit_below(finder, film, marks, n),
    }
}

/// Returns the least position above n, up to the end, at which a mark hits, with the numbers of the
/// marks that hit there. This is `nearest_hit` forwards.
pub fn first_after<W: Worlds + Drop + Sync, F: Finder>(
    finder: &F,
    film: &Film<W>,
    marks: &Marks,
    n: usize,
) -> Result<Found, Memory>
where
    W::Snapshot: Drop + Sync,
    requires { n ≤ length film.now.recording.steps }
    ensures found { IfOk result (λ found. found
        ≡ nearest_hit Forward film.now.recording marks.now.present n) }
    ensures rising { IfOk result (Rises marks.now.made) }
    ensures copy { OnErr result (NeedsCopy Forward film.now.recording n) }
    ensures marks { OnErr result (0 < length marks.now.present) }
    ensures watch { OnErr result (any_watch marks.now.present ≡ true) }
{
    nearest_hit(finder, film, marks, Direction::Forward, n)
}

/// Returns the greatest position below n at which a mark hits, with the numbers of the marks that
/// hit there. This is `nearest_hit` backwards.
pub fn last_before<W: Worlds + Drop + Sync, F: Finder>(
    finder: &F,
    film: &Film<W>,
    marks: &Marks,
    n: usize,
) -> Result<Found, Memory>
where
    W::Snapshot: Drop + Sync,
    requires { n ≤ length film.now.recording.steps }
    ensures found { IfOk result (λ found. found
        ≡ nearest_hit Backward film.now.recording marks.now.present n) }
    ensures rising { IfOk result (Rises marks.now.made) }
    ensures copy { OnErr result (NeedsCopy Backward film.now.recording n) }
    ensures marks { OnErr result (0 < length marks.now.present) }
    ensures watch { OnErr result (any_watch marks.now.present ≡ true) }
{
    nearest_hit(finder, film, marks, Direction::Backward, n)
}

// Returns the greatest hit below position n. Position 0 is the last one in search order, and
// searching it needs no copy.
fn last_hit_below<W: Worlds + Drop + Sync, F: Finder>(
    finder: &F,
    film: &Film<W>,
    marks: &Marks,
    n: usize,
) -> Result<Found, Memory>
where
    W::Snapshot: Drop + Sync,
    requires { n ≤ length film.now.recording.steps }
    ensures found { IfOk result
        (IsFound Backward (hits_at film.now.recording marks.now.present) 0 n) }
    ensures copy { OnErr result (1 < n) }
{
    if n == 0 {
        return Ok(Found::Nothing);
    }
    let mut found = search_between(finder, film, marks, Direction::Backward, 0, n - 1)?;
    if !found.is_hit() {
        found.look_at(0, &hits_at_start(film, marks));
    }
    Ok(found)
}

// Returns the nearest hit after position `after` and up to position `last`, using one worker or
// several.
fn search_between<W: Worlds + Drop + Sync, F: Finder>(
    finder: &F,
    film: &Film<W>,
    marks: &Marks,
    direction: Direction,
    after: usize,
    last: usize,
) -> Result<Found, Memory>
where
    W::Snapshot: Drop + Sync,
    requires order { after ≤ last }
    requires within { last ≤ length film.now.recording.steps }
    ensures found { IfOk result
        (IsFound direction (hits_at film.now.recording marks.now.present)
        (after + 1) (last + 1)) }
    ensures copy { OnErr result (after < last) }
{
    if after == last {
        return Ok(Found::Nothing);
    }
    let search = Search::new(film, marks, direction, after, last);
    match finder.workers() {
        Some(many) => search_by(many, &search, &finder.claims()),
        None => search.decide(&[]),
    }
}
