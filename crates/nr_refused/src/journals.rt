//! Journals: making them, taking seats, and reading them at the end.

ghost use Rattle.std.specs.Prelude.{◌≡◌};
ghost use Rattle.nr_journal.specs.Rule.{tag_of};
ghost use Rattle.nr_journal.specs.Auxiliary.Rule.{HasOpcode};

use crate::twice::{Came, Twice, grant, refuse};
use nr_journal::{Journal, Offered, Pass, Passes, Seat};
use nr_rev::Memory;
use std::alloc::Global;

// Returns the word of the command `checkpoint` with the pass's tag: opcode 9 and no argument.
fn word_of(pass: &Pass) -> u64
    ensures { HasOpcode result × (tag_of result ≡ pass.now.pass_state.tag) }
{
    9 + 256 * u64::from(pass.tag())
}

// Places that word.
fn place(journal: &Journal, pass: &mut Pass) -> bool
    requires { pass.old.table ≡ journal.now }
    ensures { pass.new.table ≡ journal.now }
{
    let word = word_of(pass);
    matches!(journal.offer(pass, word), Offered::Placed)
}

// Returns whether a new journal has room for exactly two words.
fn has_room_for_two(journal: &Journal, pass: &mut Pass) -> bool
    requires { pass.old.table ≡ journal.now }
{
    let placed = [
        place(journal, pass),
        place(journal, pass),
        place(journal, pass),
    ];
    placed == [true, true, false] && pass.seen() == 2
}

// Returns whether a new journal with this first seat has room for exactly two words.
fn seats_two(journal: &Journal, seat: Seat) -> bool
    requires { seat.table ≡ journal.now }
{
    match journal.enter(seat) {
        Ok(mut pass) => has_room_for_two(journal, &mut pass),
        Err(_) => false,
    }
}

// Makes a journal with room for two words.
fn make(alloc: Global) -> Came {
    match Journal::new(alloc, 2) {
        Ok((journal, seat)) => Came::of(seats_two(&journal, seat)),
        Err(_) => Came::Refused,
    }
}

// Makes a journal with room for two words and for a single pass.
fn make_alone(alloc: Global) -> Came {
    match Journal::alone(alloc, 2) {
        Ok((journal, mut pass)) => Came::of(has_room_for_two(&journal, &mut pass)),
        Err(_) => Came::Refused,
    }
}

// Returns whether a new journal has two passes left, with the tags 0 and 1, and room for two words.
fn gives_two(journal: &Journal, passes: &mut Passes) -> bool
    requires table { passes.old.table ≡ journal.now }
    requires two { (passes.old.next ≡ 0) × (passes.old.passes ≡ 2) }
{
    let mut first = journal.take(passes);
    let second = journal.take(passes);
    (first.tag(), second.tag()) == (0, 1) && has_room_for_two(journal, &mut first)
}

// Makes a journal with room for two words and for two passes.
fn make_of_passes(alloc: Global) -> Came {
    match Journal::of_passes(alloc, 2, 2) {
        Ok((journal, mut passes)) => Came::of(gives_two(&journal, &mut passes)),
        Err(_) => Came::Refused,
    }
}

/// Tests making a journal for two passes.
pub(crate) fn make_of_passes_twice(rt: &HostRuntime) -> Twice {
    refuse(rt);
    let first = make_of_passes(rt.alloc());
    grant(rt);
    Twice {
        first,
        again: make_of_passes(rt.alloc()),
    }
}

/// Tests making a journal.
pub(crate) fn make_twice(rt: &HostRuntime) -> Twice {
    refuse(rt);
    let first = make(rt.alloc());
    grant(rt);
    Twice {
        first,
        again: make(rt.alloc()),
    }
}

/// Tests making a journal for a single pass.
pub(crate) fn make_alone_twice(rt: &HostRuntime) -> Twice {
    refuse(rt);
    let first = make_alone(rt.alloc());
    grant(rt);
    Twice {
        first,
        again: make_alone(rt.alloc()),
    }
}

// Returns the result of reading: `Right` if the words are this many `checkpoint` commands with tag
// 0.
fn is_read(words: Result<Vec<u64>, Memory>, count: usize) -> Came {
    match words {
        Ok(words) => {
            let are_right = words.iter().all(|word| *word == 9);
            Came::of(are_right && words.len() == count)
        }
        Err(_) => Came::Refused,
    }
}

// Returns whether two seats of a journal have distinct tags.
fn have_two_tags(journal: &Journal, one: Seat, other: Seat) -> bool
    requires one { one.table ≡ journal.now }
    requires other { other.table ≡ journal.now }
{
    let (Ok(one), Ok(other)) = (journal.enter(one), journal.enter(other)) else {
        return false;
    };
    (one.tag(), other.tag()) == (0, 1)
}

/// Tests splitting a seat, which allocates no memory.
pub(crate) fn split_twice(rt: &HostRuntime) -> Option<Twice> {
    let (journal, mut seat) = Journal::new(rt.alloc(), 2).ok()?;
    refuse(rt);
    let first = journal.split(&mut seat);
    grant(rt);
    let again = journal.split(&mut seat);
    Some(Twice::once(Came::of(have_two_tags(&journal, first, again))))
}

// Tests reading a journal in which one word was placed.
fn finish_both(rt: &HostRuntime, journal: &Journal, seat: Seat) -> Option<Twice>
    requires { seat.table ≡ journal.now }
{
    let Ok(mut pass) = journal.enter(seat) else {
        return None;
    };
    if !place(journal, &mut pass) {
        return None;
    }
    refuse(rt);
    let first = journal.finish(&mut pass);
    grant(rt);
    let seen = pass.seen();
    let is_placed = place(journal, &mut pass);
    Some(Twice {
        first: is_read(first, 1).leaving(seen == 1 && is_placed),
        again: is_read(journal.finish(&mut pass), 2),
    })
}

/// Tests reading a journal.
pub(crate) fn finish_twice(rt: &HostRuntime) -> Option<Twice> {
    let (journal, seat) = Journal::new(rt.alloc(), 4).ok()?;
    finish_both(rt, &journal, seat)
}
