//! Searches, with one worker and with three.

use crate::films::film;
use crate::twice::{Came, Twice, grant, refuse};
use nr_machine::World;
use nr_marks::{Break, Marks};
use nr_rev::{Cell, Memory};
use nr_search::{Direction, Finder, Found, ManyWorkers, OneWorker, Open, nearest_hit};
use nr_snaps::Film;
use std::num::NonZeroU32;
use std::thread::Threads;

// Returns marks that watch the number of unread bytes and break before step 151.
fn marks() -> Marks {
    let mut marks = Marks::new();
    let _ = marks.add_watch(Cell::Input(0));
    let _ = marks.add_break(Break::Step(NonZeroU32::MIN.saturating_add(150)));
    marks
}

// Returns the start of the search, and the expected position and mark.
fn places(direction: Direction) -> (usize, usize, u32) {
    match direction {
        Direction::Forward => (11, 150, 2),
        Direction::Backward => (149, 11, 1),
    }
}

fn came_of_finding(direction: Direction, found: Result<Found, Memory>) -> Came {
    let (_, position, mark) = places(direction);
    match found {
        Ok(Found::Hit(hit)) => {
            Came::of(hit.position == position && hit.marks.as_slice() == [mark].as_slice())
        }
        Ok(Found::Nothing) => Came::Wrong,
        Err(_) => Came::Refused,
    }
}

// Tests a search over a film.
fn search_over<F: Finder>(
    rt: &HostRuntime,
    film: &Film<World>,
    finder: &F,
    direction: Direction,
) -> Option<Twice> {
    let marks = marks();
    let (from, _, _) = places(direction);
    if from > film.len() {
        return None;
    }
    refuse(rt);
    let first = nearest_hit(finder, film, &marks, direction, from);
    grant(rt);
    let again = nearest_hit(finder, film, &marks, direction, from);
    Some(Twice {
        first: came_of_finding(direction, first),
        again: came_of_finding(direction, again),
    })
}

/// Tests a search with one worker.
pub(crate) fn search_twice<H: Threads + Sync>(
    rt: &HostRuntime,
    _handles: &H,
    direction: Direction,
) -> Option<Twice> {
    let film = film(rt.alloc())?;
    search_over(rt, &film, &OneWorker::<H>::new(), direction)
}

/// Tests a search with three workers in threads of their own.
pub(crate) fn search_by_many_twice<H: Threads + Sync>(
    rt: &HostRuntime,
    handles: &H,
    direction: Direction,
) -> Option<Twice> {
    let film = film(rt.alloc())?;
    let many = ManyWorkers::new(handles, rt.alloc(), Open, 3);
    search_over(rt, &film, &many, direction)
}
