//! A search of a stretch of a film, position by position.

ghost use Rattle.std.specs.Prelude.{◌≡◌, ◌<◌, ◌≤◌, ◌+◌, ◌*◌, ◌/◌, length, slice_get, false, IfOk, IfSome};
ghost use Rattle.nr_marks.specs.Hit.{hits_at, numbered};
ghost use Rattle.nr_search.specs.Auxiliary.Nearest.{IsFound};
ghost use Rattle.nr_search.specs.Quiet.{IsOutlook};
ghost use Rattle.nr_search.specs.Search.{Remembers, is_decided};
ghost use Rattle.nr_marks.specs.declared.marks.TheConstants.{MOST_MARKS};
ghost use Rattle.nr_snaps.specs.Film.{IsFrame};

use crate::direction::Direction;
use crate::found::{Found, Numbers};
use crate::quiet::{Outlook, is_quiet, outlook_of};
use crate::watched::find_hits;
use arrayvec::ArrayVec;
use nr_marks::{MOST_MARKS, Marks, NextStep, NumberedMark};
use nr_rev::{CellValue, Memory, Worlds};
use nr_snaps::Film;

/// Returns the step that follows position n, if any.
#[inline(always)]
pub(crate) fn next_step<W: Worlds + Drop>(film: &Film<W>, n: usize) -> Option<NextStep>
where
    W::Snapshot: Drop,
    requires { n ≤ length film.now.recording.steps }
    ensures { result ≡ numbered n (slice_get film.now.recording.steps n) }
{
    // The length of a film is bounded, so the number of a step, n + 1, doesn't overflow.
    let _ = film.len();
    NextStep::at(n, film.step(n))
}

// Moves the world from position n to the next position, and returns the numbers of the marks that
// hit there. `values` contains the watched values at position n, which are replaced by those at the
// next position. If the kinds of the steps around that position rule out a hit, reads no cell.
#[inline(always)]
fn advance_finding_hits<W: Worlds + Drop>(
    film: &Film<W>,
    marks: &[NumberedMark],
    outlook: &Outlook,
    values: &mut [CellValue; MOST_MARKS],
    hits: &mut Numbers,
    world: &mut W,
    n: usize,
)
where
    W::Snapshot: Drop,
    requires frame { IsFrame W.is_well_formed W.world W.steps film.now n world.old }
    requires below { n < length film.now.recording.steps }
    requires few { length marks.now ≤ MOST_MARKS }
    requires outlook { IsOutlook marks.now outlook.now }
    requires values { Remembers (W.world world.old) marks.now values.old }
    ensures hits { hits.new.items ≡ hits_at film.now.recording marks.now (n + 1) }
    ensures frame { IsFrame W.is_well_formed W.world W.steps film.now (n + 1) world.new }
    ensures values { Remembers (W.world world.new) marks.now values.new }
{
    // The length of a film is bounded, so n + 1 is a position.
    let _ = film.len();
    let made = next_step(film, n);
    let next = next_step(film, n + 1);
    film.advance(world, n);
    if is_quiet(marks, outlook, made, next) {
        hits.clear();
        return;
    }
    find_hits(marks, values, hits, world, next);
}

/// Returns the nearest hit after position `at` and up to position `to`. The world starts at `at`,
/// and is moved to `to` unless a hit ends the search.
pub(crate) fn search_stretch<W: Worlds + Drop>(
    film: &Film<W>,
    marks: &Marks,
    direction: Direction,
    world: &mut W,
    at: usize,
    to: usize,
) -> Found
where
    W::Snapshot: Drop,
    requires frame { IsFrame W.is_well_formed W.world W.steps film.now at world.old }
    requires order { at ≤ to }
    requires within { to ≤ length film.now.recording.steps }
    ensures found { IsFound direction (hits_at film.now.recording marks.now.present)
        (at + 1) (to + 1) result }
    ensures led { is_decided direction result ≡ false
        → IsFrame W.is_well_formed W.world W.steps film.now to world.new }
{
    let marks = marks.as_slice();
    let mut values = [CellValue::Absent; MOST_MARKS];
    let mut hits = ArrayVec::new();
    let outlook = outlook_of(marks);
    find_hits(marks, &mut values, &mut hits, world, None);
    let mut found = Found::Nothing;
    for n in at..to {
        advance_finding_hits(film, marks, &outlook, &mut values, &mut hits, world, n);
        found.look_at(n + 1, &hits);
        if found.is_decided(direction) {
            return found;
        }
    }
    found
}

/// A world and its position.
#[derive(Drop)]
pub(crate) struct WorldAt<W: Worlds + Drop> {
    pub position: usize,
    pub world: W,
}

impl<W: Worlds + Drop> WorldAt<W>
where
    W::Snapshot: Drop,
{
    // Moves the world forward to position n.
    fn lead_to(self, film: &Film<W>, n: usize) -> W
        requires frame { IsFrame W.is_well_formed W.world W.steps film.now self.position self.world }
        requires below { self.position ≤ n }
        requires within { n ≤ length film.now.recording.steps }
        ensures { IsFrame W.is_well_formed W.world W.steps film.now n result }
    {
        let mut world = self.world;
        for k in self.position..n {
            film.advance(&mut world, k);
        }
        world
    }
}

/// Returns a world at position n: the world in `held` if it is at n, or else the film's copy at or
/// below n, moved forward. The copy is restored into the world in `held`, or into a new world if
/// `held` is empty.
pub(crate) fn world_at<W: Worlds + Drop>(
    film: &Film<W>,
    held: Option<WorldAt<W>>,
    n: usize,
) -> Result<W, Memory>
where
    W::Snapshot: Drop,
    requires held { IfSome held (λ h. IsFrame W.is_well_formed W.world W.steps film.now h.position h.world) }
    requires within { n ≤ length film.now.recording.steps }
    ensures { IfOk result (λ world. IsFrame W.is_well_formed W.world W.steps film.now n world) }
{
    match held {
        Some(held) if held.position == n => Ok(held.world),
        Some(held) => {
            let mut world = held.world;
            film.restore_below(&mut world, n)?;
            Ok(led_on(film, world, n))
        }
        None => {
            let world = film.world_below(n)?;
            Ok(led_on(film, world, n))
        }
    }
}

// Takes a world that was restored from the film's copy at or below position n, and moves it forward
// to n.
fn led_on<W: Worlds + Drop>(film: &Film<W>, world: W, n: usize) -> W
where
    W::Snapshot: Drop,
    requires within { n ≤ length film.now.recording.steps }
    requires frame { IsFrame W.is_well_formed W.world W.steps film.now
        (n / film.now.every * film.now.every) world }
    ensures { IsFrame W.is_well_formed W.world W.steps film.now n result }
{
    let every = film.every();
    let below = WorldAt {
        position: n / every * every,
        world,
    };
    below.lead_to(film, n)
}

/// Returns the numbers of the marks that hit at position 0, in ascending order.
pub(crate) fn hits_at_start<W: Worlds + Drop>(film: &Film<W>, marks: &Marks) -> Numbers
where
    W::Snapshot: Drop,
    ensures { result.items ≡ hits_at film.now.recording marks.now.present 0 }
{
    let start = film.start();
    let first = match film.step(0) {
        Some(step) => Some((1, step)),
        None => None,
    };
    marks.hits(start, start, first)
}
