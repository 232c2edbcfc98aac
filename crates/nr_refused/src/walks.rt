//! Walkers: making them and moving them to positions.

use crate::films::{film, is_at};
use crate::twice::{Came, Twice, grant, refuse};
use nr_machine::World;
use nr_rev::Memory;
use nr_snaps::Film;
use nr_walker::{Moved, Walker};
use std::alloc::AllocError;

/// The number of deltas that these walkers keep.
const DEPTH: usize = 32;

/// A position, and the number of deltas that the walker keeps there.
struct Stop {
    position: usize,
    kept: usize,
}

/// A walk from one position to another, and the two positions at which a refused request may leave
/// the walker: the start of the walk, and the position before the step that allocates memory.
pub(crate) struct Leg {
    from: usize,
    to: usize,
    stops: [Stop; 2],
}

/// The position before the step that reads bytes, which is the eleventh step.
const AT_READ: Stop = Stop {
    position: 10,
    kept: 10,
};

impl Leg {
    /// A walk over the step that reads bytes.
    pub(crate) const FORWARD: Leg = Leg {
        from: 0,
        to: 20,
        stops: [AT_READ, AT_READ],
    };

    /// A walk beyond the next copy.
    pub(crate) const TO_COPY: Leg = Leg {
        from: 3,
        to: 150,
        stops: [
            Stop {
                position: 3,
                kept: 3,
            },
            Stop {
                position: 3,
                kept: 3,
            },
        ],
    };

    /// A walk back, farther than the deltas reach. The walk starts at the first copy and goes over
    /// the step that reads bytes.
    pub(crate) const BACK: Leg = Leg {
        from: 190,
        to: 15,
        stops: [
            Stop {
                position: 190,
                kept: DEPTH,
            },
            AT_READ,
        ],
    };
}

// Returns whether the walker is at a position and has the world of that position.
fn is_at_position(walker: &Walker<'_, World>, position: usize) -> bool {
    walker.position() == position && is_at(walker.world(), position)
}

// Returns whether the walker is at a stop.
fn stops_at(walker: &Walker<'_, World>, stop: &Stop) -> bool {
    is_at_position(walker, stop.position) && walker.kept() == stop.kept
}

fn came_of_making(made: Result<Walker<'_, World>, Memory>) -> Came {
    match made {
        Ok(walker) => Came::of(is_at_position(&walker, 0) && walker.kept() == 0),
        Err(_) => Came::Refused,
    }
}

fn make_over(rt: &HostRuntime, film: &Film<World>) -> Twice {
    refuse(rt);
    let first = Walker::new(rt.alloc(), film, DEPTH);
    grant(rt);
    let first = came_of_making(first);
    Twice {
        first,
        again: came_of_making(Walker::new(rt.alloc(), film, DEPTH)),
    }
}

/// Tests making a walker.
pub(crate) fn make_twice(rt: &HostRuntime) -> Option<Twice> {
    let film = film(rt.alloc())?;
    Some(make_over(rt, &film))
}

// Moves the walker to a position, if the film contains it.
fn go(walker: &mut Walker<'_, World>, position: usize) -> Result<Moved, Memory> {
    if position > walker.film().len() {
        return Err(Memory::from(AllocError));
    }
    walker.goto(position)
}

fn came_of_going(walker: &Walker<'_, World>, leg: &Leg, went: Result<Moved, Memory>) -> Came {
    match went {
        Ok(_) => Came::of(is_at_position(walker, leg.to)),
        Err(_) => {
            let stops = stops_at(walker, &leg.stops[0]) || stops_at(walker, &leg.stops[1]);
            Came::Refused.leaving(stops)
        }
    }
}

// Tests a walk. The second call continues from where the first one stopped.
fn go_on(rt: &HostRuntime, walker: &mut Walker<'_, World>, leg: &Leg) -> Twice {
    refuse(rt);
    let went = go(walker, leg.to);
    grant(rt);
    let first = came_of_going(walker, leg, went);
    let went = go(walker, leg.to);
    Twice {
        first,
        again: came_of_going(walker, leg, went),
    }
}

fn go_over(rt: &HostRuntime, film: &Film<World>, leg: &Leg) -> Option<Twice> {
    let mut walker = Walker::new(rt.alloc(), film, DEPTH).ok()?;
    let went = go(&mut walker, leg.from).is_ok();
    let twice = go_on(rt, &mut walker, leg);
    if went { Some(twice) } else { None }
}

/// Tests a walk.
pub(crate) fn go_twice(rt: &HostRuntime, leg: &Leg) -> Option<Twice> {
    let film = film(rt.alloc())?;
    go_over(rt, &film, leg)
}
