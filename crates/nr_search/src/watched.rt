//! The watched values, which are kept from one position to the next.

ghost use Rattle.std.specs.Prelude.{◌≡◌, ◌≤◌, length};
ghost use Rattle.nr_marks.specs.Hit.{hits_between};
ghost use Rattle.nr_marks.specs.declared.marks.TheConstants.{MOST_MARKS};
ghost use Rattle.nr_rev.specs.World.{World};
ghost use Rattle.nr_search.specs.Search.{Remembers};

use crate::found::Numbers;
use nr_marks::{MOST_MARKS, NextStep, NumberedMark};
use nr_rev::{CellValue, Worlds};

/// Finds the marks that hit, and stores their numbers in `hits`. `values` contains the watched
/// values one step before; they are replaced with the current values.
#[inline(always)]
pub(crate) fn find_hits<W: Worlds>(
    marks: &[NumberedMark],
    values: &mut [CellValue; MOST_MARKS],
    hits: &mut Numbers,
    world: &W,
    next: Option<NextStep>,
)
    requires well_formed { W.is_well_formed world.now }
    requires few { length marks.now ≤ MOST_MARKS }
    ensures hits { (before : World) → Remembers before marks.now values.old
        → hits.new.items ≡ hits_between before (W.world world.now) next marks.now }
    ensures values { Remembers (W.world world.now) marks.now values.new }
{
    hits.clear();
    for (i, numbered) in marks.iter().enumerate() {
        let mark = numbered.item;
        let value = mark.watched(world);
        if mark.hits(values[i], value, next) {
            hits.push(numbered.number);
        }
        values[i] = value;
    }
}
