//! A search for breaks only, which uses the recorded steps and needs no world.

ghost use Rattle.std.specs.Prelude.{◌≡◌, ◌≤◌, ◌+◌, length, false};
ghost use Rattle.nr_marks.specs.Hit.{hits_at};
ghost use Rattle.nr_marks.specs.Marks.{any_watch};
ghost use Rattle.nr_marks.specs.declared.marks.TheConstants.{MOST_MARKS};
ghost use Rattle.nr_search.specs.Nearest.{nearest_hit};
ghost use Rattle.nr_search.specs.Auxiliary.Nearest.{IsFound};

use crate::direction::Direction;
use crate::found::{Found, Hit, Numbers};
use crate::stretch::next_step;
use arrayvec::ArrayVec;
use nr_marks::{MOST_MARKS, Marks, NumberedMark};
use nr_rev::{CellValue, Worlds};
use nr_snaps::Film;

// Returns the numbers of the marks that hit at position p. All marks are breaks, so only the next
// step matters.
#[inline(always)]
fn look_at_step<W: Worlds + Drop>(
    film: &Film<W>,
    marks: &[NumberedMark],
    hits: &mut Numbers,
    p: usize,
)
where
    W::Snapshot: Drop,
    requires within { p ≤ length film.now.recording.steps }
    requires few { length marks.now ≤ MOST_MARKS }
    requires breaks { any_watch marks.now ≡ false }
    ensures { hits.new.items ≡ hits_at film.now.recording marks.now p }
{
    let next = next_step(film, p);
    hits.clear();
    for numbered in marks {
        let mark = numbered.item;
        if mark.hits(CellValue::Absent, CellValue::Absent, next) {
            hits.push(numbered.number);
        }
    }
}

// Returns the nearest hit from position `low` up to but not including `high`, if no mark is a
// watch.
fn search_steps<W: Worlds + Drop>(
    film: &Film<W>,
    marks: &Marks,
    direction: Direction,
    low: usize,
    high: usize,
) -> Found
where
    W::Snapshot: Drop,
    requires order { low ≤ high }
    requires within { high ≤ length film.now.recording.steps + 1 }
    requires breaks { any_watch marks.now.present ≡ false }
    ensures { IsFound direction (hits_at film.now.recording marks.now.present) low high result }
{
    // The length of a film is bounded, so a position fits into its type.
    let _ = film.len();
    let marks = marks.as_slice();
    let count = high - low;
    let mut hits = ArrayVec::new();
    for k in 0..count {
        let position = direction.nth(low, count, k);
        look_at_step(film, marks, &mut hits, position);
        if !hits.is_empty() {
            return Found::Hit(Hit {
                position,
                marks: hits,
            });
        }
    }
    Found::Nothing
}

/// Returns the nearest hit from position n, if no mark is a watch. Only reads the recorded steps,
/// and allocates no memory.
pub(crate) fn nearest_step<W: Worlds + Drop>(
    film: &Film<W>,
    marks: &Marks,
    direction: Direction,
    n: usize,
) -> Found
where
    W::Snapshot: Drop,
    requires within { n ≤ length film.now.recording.steps }
    requires breaks { any_watch marks.now.present ≡ false }
    ensures { result ≡ nearest_hit direction film.now.recording marks.now.present n }
{
    let last = film.len();
    match direction {
        Direction::Forward => search_steps(film, marks, Direction::Forward, n + 1, last + 1),
        Direction::Backward => search_steps(film, marks, Direction::Backward, 0, n),
    }
}
