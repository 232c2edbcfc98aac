//! Fronts that share a journal, and a film for them.

ghost use Rattle.std.specs.Prelude.{◌≡◌, ◌≤◌, [], IfSome};

use nr_front::Front;
use nr_journal::{Journal, Pass, Seat};
use nr_recording::read;
use nr_replay_tests::{HEADER, Observed, WAITS};
use nr_search::OneWorker;
use nr_snaps::{Film, Snaps};
use std::alloc::Global;
use std::thread::Threads;

/// A front with one worker.
pub(crate) type Lone<'f, R> = Front<'f, Observed, OneWorker<R>>;

/// Returns the film of a goroutine that waits for bytes at a socket, is woken by an event and reads them.
pub(crate) fn woken(alloc: Global) -> Option<Film<Observed>> {
    let text = format!(in alloc; "{HEADER}{WAITS}").ok()?;
    let recording = read(alloc, text.as_bytes()).ok()?;
    Snaps::load(alloc, recording, 64).ok()
}

/// Makes a front at the film's first position.
fn front<'f, R: Threads + Sync>(
    _rt: &R,
    alloc: Global,
    pass: Pass,
    film: &'f Film<Observed>,
) -> Option<Lone<'f, R>>
    requires { pass.pass_state.seen ≡ [] }
    ensures { IfSome result (λ front. front.table ≡ pass.table) }
{
    match Front::new(alloc, pass, film, OneWorker::new(), 64) {
        Ok(front) => Some(front),
        Err(_) => None,
    }
}

/// Uses the seat to enter the journal, and returns the pass.
pub(crate) fn enter(journal: &Journal, seat: Seat) -> Option<Pass>
    requires { seat.table ≡ journal.now }
    ensures { IfSome result (λ pass. (pass.table ≡ journal.now) × (pass.pass_state.seen ≡ [])) }
{
    match journal.enter(seat) {
        Ok(pass) => Some(pass),
        Err(_) => None,
    }
}

/// Makes a front with a seat of the journal, at the film's first position.
pub(crate) fn enter_front<'f, R: Threads + Sync>(
    rt: &R,
    alloc: Global,
    journal: &Journal,
    seat: Seat,
    film: &'f Film<Observed>,
) -> Option<Lone<'f, R>>
    requires { seat.table ≡ journal.now }
    ensures { IfSome result (λ front. front.table ≡ journal.now) }
{
    let pass = enter(journal, seat)?;
    front(rt, alloc, pass, film)
}

/// Makes a journal with room for this many words, two fronts with the tags 0 and 1, and a third
/// pass.
pub(crate) fn share<'f, R: Threads + Sync>(
    rt: &R,
    alloc: Global,
    words: usize,
    film: &'f Film<Observed>,
) -> Option<(Journal, Lone<'f, R>, Lone<'f, R>, Pass)>
    requires { (1 ≤ words) × (words ≤ 1000000) }
    ensures { IfSome result (λ shared. (shared.1.table ≡ shared.0)
        × (shared.2.table ≡ shared.0) × (shared.3.table ≡ shared.0)) }
{
    let (journal, mut first) = Journal::new(alloc, words).ok()?;
    let mut second = journal.split(&mut first);
    let third = journal.split(&mut second);
    let one = enter_front(rt, alloc, &journal, first, film)?;
    let other = enter_front(rt, alloc, &journal, second, film)?;
    let third = enter(&journal, third)?;
    Some((journal, one, other, third))
}
