//! The cost of a walk, as the walk reports it and as a world counts it.

use crate::films::ticking;
use crate::observed::Observed;
use nr_rev::{Cell, CellValue, Worlds};
use nr_walker::{Moved, Walker};
use std::test::Fail;

/// Moves the walker to a position of the film. Returns the cost that the walk reports, the cost that the worlds
/// counted, and the number of deltas kept.
fn go(walker: &mut Walker<Observed>, n: usize) -> Option<(Moved, Moved, usize)> {
    if n > walker.film().len() {
        return None;
    }
    let before = walker.world().moves();
    let _ = walker.world().was_seen();
    let reported = walker.goto(n).ok()?;
    let is_copy = !walker.world().was_seen();
    let (applies, undos) = walker.world().moves();
    // a copy starts its counts at 0
    let since = if is_copy { (0, 0) } else { before };
    let counted = Moved {
        applies: applies.wrapping_sub(since.0) as usize,
        undos: undos.wrapping_sub(since.1) as usize,
        copies: usize::from(is_copy),
    };
    Some((reported, counted, walker.kept()))
}

/// The position of each walk; its expected cost in applies, undos and copies; and the number of deltas kept afterwards.
const WALKS: [(usize, usize, usize, usize, usize); 8] = [
    (40, 40, 0, 0, 32),
    (20, 0, 20, 0, 12),
    (5, 5, 0, 1, 5),
    (5, 0, 0, 0, 5),
    (130, 2, 0, 1, 2),
    (128, 0, 2, 0, 0),
    (127, 63, 0, 1, 32),
    (191, 63, 0, 1, 32),
];

/// Returns the position of the first walk that doesn't arrive, or whose real or reported cost isn't
/// the expected one.
fn first_otherwise(walker: &mut Walker<Observed>) -> Option<usize> {
    for (n, applies, undos, copies, kept) in WALKS {
        let moved = Moved {
            applies,
            undos,
            copies,
        };
        match go(walker, n) {
            Some((reported, counted, left))
                if reported == moved && counted == moved && left == kept => {}
            _ => return Some(n),
        }
    }
    None
}

#[test]
fn a_walk_takes_what_it_reports(rt: HostRuntime) -> Result<(), Fail> {
    let film = ticking(rt.alloc(), 192).ok_or("no film")?;
    let mut walker = Walker::new(rt.alloc(), &film, 32)?;
    let otherwise = first_otherwise(&mut walker);
    let clock = walker.world().cell(Cell::Clock);
    assert_eq!(rt; (otherwise, clock), (None, CellValue::Time(191)));
    Ok(())
}
