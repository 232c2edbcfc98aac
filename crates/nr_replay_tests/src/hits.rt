//! The marks that hit between two worlds.

use crate::films::LIMITS;
use arrayvec::ArrayVec;
use nr_machine::World;
use nr_marks::{Break, MOST_MARKS, Marks};
use nr_rev::{Cell, Kind, Step, Worlds};
use std::alloc::Global;
use std::num::NonZeroU32;
use std::test::Fail;

/// Returns marks in the order of their numbers: a watch of the clock, a break at ticks, breaks at steps 2 and 3, and a
/// break at spawns.
fn marks() -> Option<Marks> {
    let mut marks = Marks::new();
    marks.add_watch(Cell::Clock).ok()?;
    marks.add_break(Break::Kind(Kind::Tick)).ok()?;
    marks.add_break(Break::Step(NonZeroU32::new(2)?)).ok()?;
    marks.add_break(Break::Step(NonZeroU32::new(3)?)).ok()?;
    marks.add_break(Break::Kind(Kind::Spawn)).ok()?;
    Some(marks)
}

/// Returns the hits after a tick, given the next step, and the hits at the end of an empty
/// recording.
fn hits_of(alloc: Global, next: &Step) -> Option<[ArrayVec<u32, MOST_MARKS>; 2]> {
    let marks = marks()?;
    let Ok(mut after) = World::fresh(alloc, LIMITS) else {
        return None;
    };
    let Ok(_) = after.advance(&Step::Tick { time: 5 }) else {
        return None;
    };
    let Ok(before) = World::fresh(alloc, LIMITS) else {
        return None;
    };
    Some([
        marks.hits(&before, &after, Some((2, next))),
        marks.hits(&before, &before, None),
    ])
}

#[test]
fn a_watch_hits_behind_a_step_and_a_break_before_one(rt: HostRuntime) -> Result<(), Fail> {
    let hits = hits_of(rt.alloc(), &Step::Tick { time: 6 }).ok_or("no memory")?;
    assert_eq!(rt; hits[0].as_slice(), [1, 2, 3].as_slice());
    assert_eq!(rt; hits[1].as_slice(), [].as_slice());
    Ok(())
}
