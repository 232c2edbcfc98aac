//! Searches by one worker and by several.

use arrayvec::ArrayVec;
use nr_machine::World;
use nr_marks::{Break, Marks};
use nr_replay_tests::{OPEN, add_ticks, film_of};
use nr_rev::{Cell, Step};
use nr_search::{
    Claims, Direction, Finder, Found, Gate, Hit, ManyWorkers, OneWorker, Open, first_after,
    last_before,
};
use nr_snaps::Film;
use std::alloc::{AllocError, Global};
use std::num::NonZeroU32;
use std::sync::atomic::AtomicBool;
use std::sync::atomic::Ordering::SeqCst;
use std::test::*;
use std::thread::{Threads, yield_now};

const POLL: Step = Step::PollOpen {
    goroutine: 0,
    socket: 0,
};

/// Returns steps that open a socket and its descriptor.
fn opening(alloc: Global) -> Result<Vec<Step>, AllocError> {
    let mut steps = Vec::new(alloc);
    steps.push(OPEN)?;
    steps.push(POLL)?;
    Ok(steps)
}

/// Returns a film of 192 steps, which set the clock to 1, 2 and so on from the third step on.
fn ticking(alloc: Global) -> Option<Film<World>> {
    let mut steps = opening(alloc).ok()?;
    add_ticks(&mut steps, 190).ok()?;
    film_of(alloc, steps)
}

/// Returns marks: a watchpoint on the read word of descriptor 0, and a breakpoint at the given step.
/// Step 0 adds no breakpoint.
fn marks(step: u32) -> Marks {
    let mut marks = Marks::new();
    let _ = marks.add_watch(Cell::ReadWord(0));
    if let Some(step) = NonZeroU32::new(step) {
        let _ = marks.add_break(Break::Step(step));
    }
    marks
}

/// Returns this many workers, from 1 to 16.
fn crew<R: Threads + Sync>(rt: &R, alloc: Global, workers: usize) -> ManyWorkers<&R, Open> {
    ManyWorkers::new(rt, alloc, Open, workers.max(1).min(16))
}

/// Returns what a search from a position of the film finds, if there is enough memory.
fn find<F: Finder>(
    finder: &F,
    film: &Film<World>,
    marks: &Marks,
    direction: Direction,
    n: usize,
) -> Option<Found> {
    if n > film.len() {
        return None;
    }
    let found = match direction {
        Direction::Forward => first_after(finder, film, marks, n),
        Direction::Backward => last_before(finder, film, marks, n),
    };
    found.ok()
}

/// Returns a hit of one mark.
fn hit(position: usize, mark: u32) -> Found {
    let mut marks = ArrayVec::new();
    marks.push(mark);
    Found::Hit(Hit { position, marks })
}

/// Holds one worker until another worker has searched a segment.
#[derive(Drop)]
struct Turnstile {
    held: usize,
    other_has_left: AtomicBool,
    gave_up: AtomicBool,
}

impl Gate for Turnstile {
    fn enter(&self, worker: usize) {
        if worker != self.held {
            return;
        }
        for _ in 0..10_000_000u32 {
            if self.other_has_left.load(SeqCst) {
                return;
            }
            yield_now();
        }
        self.gave_up.store(true, SeqCst);
    }

    fn leave(&self, worker: usize) {
        if worker != self.held {
            self.other_has_left.store(true, SeqCst);
        }
    }
}

/// Searches with two workers, one of which is held. Returns what the workers find, and whether the
/// other worker searched a segment meanwhile.
fn found_while_held<R: Threads + Sync>(
    rt: &R,
    alloc: Global,
    film: &Film<World>,
    held: usize,
) -> (Option<Found>, bool) {
    let gate = Turnstile {
        held,
        other_has_left: AtomicBool::new(false),
        gave_up: AtomicBool::new(false),
    };
    let many = ManyWorkers::new(rt, alloc, &gate, 2);
    let found = find(&many, film, &marks(0), Direction::Backward, 192);
    let at_once = gate.other_has_left.load(SeqCst) && !gate.gave_up.load(SeqCst);
    (found, at_once)
}

#[test]
fn two_workers_search_at_once(rt: HostRuntime) -> Result<(), Fail> {
    let film = ticking(rt.alloc()).ok_or("no film")?;
    assert_eq!(rt;
        [
            found_while_held(&rt, rt.alloc(), &film, 1),
            found_while_held(&rt, rt.alloc(), &film, 2)
        ],
        [(Some(hit(2, 1)), true), (Some(hit(2, 1)), true)]
    );
    Ok(())
}

/// Returns the results of four searches: backwards from positions 192 and 99, and forwards from
/// positions 2 and 99.
fn four<F: Finder>(finder: &F, film: &Film<World>) -> [Option<Found>; 4] {
    let marks = marks(100);
    [
        find(finder, film, &marks, Direction::Backward, 192),
        find(finder, film, &marks, Direction::Backward, 99),
        find(finder, film, &marks, Direction::Forward, 2),
        find(finder, film, &marks, Direction::Forward, 99),
    ]
}

/// Returns the expected results of these searches.
fn four_hits() -> [Option<Found>; 4] {
    [
        Some(hit(99, 2)),
        Some(hit(2, 1)),
        Some(hit(99, 2)),
        Some(Found::Nothing),
    ]
}

/// Returns whether this many workers find the expected results.
fn is_found_by<R: Threads + Sync>(
    rt: &R,
    alloc: Global,
    film: &Film<World>,
    workers: usize,
) -> bool {
    let many = crew(rt, alloc, workers);
    many.workers() == workers && four(&many, film) == four_hits()
}

#[test]
fn any_number_of_workers_finds_the_same(rt: HostRuntime) -> Result<(), Fail> {
    let film = ticking(rt.alloc()).ok_or("no film")?;
    assert!(rt; four(&OneWorker::<&HostRuntime>::new(), &film) == four_hits());
    for workers in [1, 2, 3, 16] {
        assert!(rt;
            is_found_by(&rt, rt.alloc(), &film, workers),
            "{workers} workers"
        );
    }
    Ok(())
}

/// Workers that start each search with false data: some segments seem to be claimed, though no
/// worker claimed them, and the hint names a hit that may not exist.
#[derive(Drop)]
struct Misled<R: Threads + Sync> {
    many: ManyWorkers<R, Open>,
    claimed: usize,
    hint: usize,
}

impl<R: Threads + Sync> Finder for Misled<R> {
    type Runtime = R;

    type Gate = Open;

    ghost count = { λ misled. misled.many };

    fn workers(&self) -> Option<&ManyWorkers<R, Open>> {
        Some(&self.many)
    }

    fn claims(&self) -> Claims {
        Claims::preset(self.claimed, self.hint)
    }
}

/// Returns whether misled workers with these preset claims and this hint find the expected results.
fn is_found_by_misled<R: Threads + Sync>(
    rt: &R,
    alloc: Global,
    film: &Film<World>,
    workers: usize,
    (claimed, hint): (usize, usize),
) -> bool {
    let misled = Misled {
        many: crew(rt, alloc, workers),
        claimed,
        hint,
    };
    four(&misled, film) == four_hits()
}

#[test]
fn a_wrong_hint_changes_nothing(rt: HostRuntime) -> Result<(), Fail> {
    let film = ticking(rt.alloc()).ok_or("no film")?;
    for workers in [1, 2, 3, 16] {
        for preset in [(0, 0), (0, 1), (0, 2), (1, 9), (2, 9), (3, 9), (1, 0)] {
            assert!(rt;
                is_found_by_misled(&rt, rt.alloc(), &film, workers, preset),
                "{workers} with {preset:?}"
            );
        }
    }
    Ok(())
}
