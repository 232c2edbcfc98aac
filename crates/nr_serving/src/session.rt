//! A session that several users share.

ghost use Rattle.std.specs.Prelude.{◌≡◌, ◌<◌, ◌≤◌, ◌+◌, ◌++◌, ◌∷◌, [], map, vec_len, vec_capacity, IfOk, IfSome, IfNone, List, OnErr, OnOk};
ghost use Rattle.std.specs.List.{All};
ghost use Rattle.nr_walker.specs.declared.walker.TheConstants.{LEAST_DEPTH, MOST_DEPTH};
ghost use Rattle.nr_journal.specs.declared.rule.TheConstants.{MOST_PASSES, MOST_WORDS};
ghost use Rattle.nr_journal.specs.Rule.{journal_room};
ghost use Rattle.nr_journal.specs.Auxiliary.Rule.{HasTagBelow};
ghost use Rattle.nr_serving.specs.Conversations.{Passed};
ghost use Rattle.nr_serving.specs.Auxiliary.Fronts.{none_passed};
ghost use Rattle.nr_serving.specs.Session.{IsHistory, IsShared, Opens, numbers_below};
ghost use Rattle.nr_serving.specs.Auxiliary.Session.{HasItsOwnWords, IsFresh, IsSeenBy, any_failed, words_of};

use crate::connection::Ports;
use crate::fronts::{Done, serve_each};
use crate::logged::{LoggedCallers, LoggedPorts};
use nr_front::Front;
use nr_journal::{Journal, Pass, Passes};
use nr_rev::{Memory, Worlds};
use nr_search::Finder;
use nr_snaps::Film;
use std::alloc::Global;
use std::thread::Threads;

/// The result of a session.
#[derive(Drop)]
pub struct Ended {
    /// The words of the commands that were placed, in order, or the error if memory ran out for
    /// them.
    pub history: Result<Vec<u64>, Memory>,
    /// True if the callers of a front failed, or if a read or a write failed.
    pub failed: bool,
}

/// The dimensions of a session.
#[derive(Clone, Copy, Debug, PartialEq, Eq)]
pub struct Shape {
    /// The number of fronts.
    pub fronts: usize,
    /// The number of words that the journal has room for.
    pub room: usize,
    /// The number of steps that each front can undo.
    pub depth: usize,
}

// Opens the next front over the film, with the next remaining pass.
fn open_front<'f, W: Worlds + Drop + Sync, F: Finder + Drop>(
    alloc: Global,
    journal: &Journal,
    passes: &mut Passes,
    film: &'f Film<W>,
    finder: F,
    depth: usize,
) -> Result<Front<'f, W, F>, Memory>
where
    W::Delta: Drop,
    W::Snapshot: Drop + Sync,
    requires table { passes.old.table ≡ journal.now }
    requires next { passes.old.next < passes.old.passes }
    requires depth { (LEAST_DEPTH ≤ depth) × (depth ≤ MOST_DEPTH) }
    ensures left { passes.new ≡ record passes.old { next = passes.old.next + 1 } }
    ensures fresh { IfOk result (IsFresh journal.now film.now.recording passes.old.passes depth
        (F.count finder)) }
    ensures tag { IfOk result (λ front. front.pass_state.tag ≡ passes.old.next) }
{
    let pass = journal.take(passes);
    match Front::new(alloc, pass, film, finder, depth) {
        Ok(front) => Ok(front),
        Err((_, refused)) => Err(refused),
    }
}

// Opens each front.
fn open_fronts<'f, W: Worlds + Drop + Sync, F: Finder + Copy + Drop>(
    alloc: Global,
    journal: &Journal,
    mut passes: Passes,
    film: &'f Film<W>,
    finder: F,
    shape: Shape,
) -> Result<Vec<Front<'f, W, F>>, Memory>
where
    W::Delta: Drop,
    W::Snapshot: Drop + Sync,
    requires table { passes.table ≡ journal.now }
    requires passes { passes.passes ≡ shape.fronts }
    requires next { passes.next ≡ 0 }
    requires depth { (LEAST_DEPTH ≤ shape.depth) × (shape.depth ≤ MOST_DEPTH) }
    ensures fresh { IfOk result (λ fronts.
        All (IsFresh journal.now film.now.recording shape.fronts shape.depth (F.count finder)) fronts.items) }
    ensures count { IfOk result (λ fronts. vec_len fronts ≡ shape.fronts) }
    ensures tags { IfOk result (λ fronts.
        map (λ f. f.pass_state.tag) fronts.items ≡ numbers_below shape.fronts) }
{
    let mut fronts = Vec::with_capacity(alloc, shape.fronts)?;
    for _ in 0..shape.fronts {
        let front = open_front(alloc, journal, &mut passes, film, finder, shape.depth)?;
        fronts.push_reserved(front);
    }
    Ok(fronts)
}

// Opens the port of each front by its number, in order.
fn open_ports<'f, W: Worlds + Drop + Sync, F: Finder + Drop, P: Ports>(
    ports: &mut LoggedPorts<P>,
    fronts: Vec<Front<'f, W, F>>,
    room: Vec<(Front<'f, W, F>, LoggedCallers<P::Callers>)>,
) -> Vec<(Front<'f, W, F>, LoggedCallers<P::Callers>)>
where
    W::Delta: Drop,
    W::Snapshot: Drop + Sync,
    requires none { room.items ≡ [] }
    requires room { vec_len fronts ≤ vec_capacity room }
    ensures fronts { map (λ f. f.0) result.items ≡ fronts.entry.items }
    ensures none { All (λ f. f.1 ≡ none_passed) result.items }
    ensures len { vec_len result ≡ vec_len fronts.entry }
    ensures opened { ports.new ≡ record ports.old { opened = ports.old.opened ++ numbers_below (vec_len result) } }
{
    let mut opened = room;
    let mut number = 0;
    for front in fronts {
        opened.push_reserved((front, ports.open(number)));
        number += 1;
    }
    opened
}

// Drops the callers of each front, in order, and logs their conversations. Returns the fronts'
// results.
fn end_ports<P: Ports>(
    ports: &mut LoggedPorts<P>,
    served: Vec<(Done, LoggedCallers<P::Callers>)>,
    room: Vec<Done>,
) -> Vec<Done>
where
    requires none { room.items ≡ [] }
    requires room { vec_len served ≤ vec_capacity room }
    ensures done { result.items ≡ map (λ s. s.0) served.items }
    ensures len { vec_len result ≡ vec_len served }
    ensures ended { ports.new ≡ record ports.old { ended = ports.old.ended ++ map (λ s. s.1) served.items } }
{
    let mut done = room;
    for one in served {
        let (front, callers) = one;
        ports.end(callers);
        done.push_reserved(front);
    }
    done
}

// Returns the history of the fronts that have ended, and whether one failed.
fn finish(alloc: Global, journal: &Journal, mut done: Vec<Done>) -> Ended
    requires tables { All (λ d. d.pass.table ≡ journal.now) done.items }
    requires passes { All (λ d. d.pass.pass_state.passes ≡ vec_len done) done.items }
    requires tags { map (λ d. d.pass.pass_state.tag) done.items ≡ numbers_below (vec_len done) }
    ensures history { IfSome (words_of result.history)
        (IsHistory (journal_room journal.now) (map (λ d. d.pass.pass_state) done.items)) }
    ensures failed { result.failed ≡ any_failed done.items }
{
    let failed = done.as_slice().iter().any(|one| one.failed);
    let history = match take_done(journal, &mut done) {
        Some(mut last) => collect(journal, &mut last.pass, done),
        None => Ok(Vec::new(alloc)),
    };
    Ended { history, failed }
}

// Lets a pass read all words that the other passes have read, and then the journal to its end.
// Returns all that the pass has read. Then each of the other passes reads the same words. This
// proves that all words that are new to such a pass come from other passes.
fn collect(journal: &Journal, last: &mut Pass, mut done: Vec<Done>) -> Result<Vec<u64>, Memory>
    requires last { last.old.table ≡ journal.now }
    requires done { All (λ d. d.pass.table ≡ journal.now) done.items }
    ensures table { last.new.table ≡ last.old.table }
    ensures seen { IfOk result (λ words. words.items ≡ last.new.pass_state.seen) }
    ensures last { IfOk result (λ words. IsSeenBy (journal_room journal.now) words.items last.old.pass_state) }
    ensures others { IfOk result (λ words. All (λ d. HasItsOwnWords words.items d.pass.pass_state) done.items) }
    ensures tags { IfOk result (λ words. All (HasTagBelow last.old.pass_state.passes) words.items) }
{
    let Some(mut other) = take_done(journal, &mut done) else {
        return journal.finish(last);
    };
    journal.see_all_of(last, &mut other.pass);
    let history = collect(journal, last, done);
    journal.see_all_of(&mut other.pass, last);
    history
}

// Removes and returns the last of the fronts that have ended.
fn take_done(journal: &Journal, done: &mut Vec<Done>) -> Option<Done>
    requires { All (λ d. d.pass.table ≡ journal.now) done.old.items }
    ensures one { IfSome result (λ d. d.pass.table ≡ journal.now) }
    ensures last { IfSome result (λ d. done.old.items ≡ done.new.items ++ d ∷ []) }
    ensures none { IfNone result (done.old.items ≡ []) }
    ensures rest { All (λ d. d.pass.table ≡ journal.now) done.new.items }
    ensures fewer { IfSome result (λ d. vec_len done.new + 1 ≡ vec_len done.old) }
{
    done.pop()
}

/// Opens the fronts, each with a debugger of its own over the film. Serves each front in a thread
/// of its own until its callers end, and returns the history that they placed. The ports log the
/// conversations. For each front, the port with the front's number, counted from 0, was opened
/// once. No other port was opened, and all fronts have ended.
///
/// Fails only if memory runs out before any port is opened, so no caller was sent a byte. The
/// contract doesn't say when memory runs out. If memory for the history runs out after the last
/// caller, the call still succeeds, and `history` in `Ended` is the error.
pub fn share<W, F, R, P>(
    rt: &R,
    alloc: Global,
    film: &Film<W>,
    finder: F,
    shape: Shape,
    ports: &mut LoggedPorts<P>,
) -> Result<Ended, Memory>
where
    W: Worlds + Drop + Send + Sync,
    W::Delta: Drop + Send,
    W::Snapshot: Drop + Sync,
    F: Finder + Copy + Drop + Send,
    R: Threads + Sync,
    P: Ports,
    requires fronts { shape.fronts ≤ MOST_PASSES }
    requires room { (1 ≤ shape.room) × (shape.room ≤ MOST_WORDS) }
    requires depth { (LEAST_DEPTH ≤ shape.depth) × (shape.depth ≤ MOST_DEPTH) }
    ensures shared { IfOk result (λ ended. (passed : List Passed) × Opens shape.fronts passed ports.old ports.new
        × IsShared film.now.recording shape.room shape.fronts shape.depth (F.count finder) passed
        (words_of ended.history) ended.failed) }
    ensures untouched { OnErr result (ports.new ≡ ports.old) }
{
    let (journal, passes) = Journal::of_passes(alloc, shape.room, shape.fronts as u32)?;
    let fronts = open_fronts(alloc, &journal, passes, film, finder, shape)?;
    let callers = Vec::with_capacity(alloc, fronts.len())?;
    let served = Vec::with_capacity(alloc, fronts.len())?;
    let done = Vec::with_capacity(alloc, fronts.len())?;
    let fronts = open_ports(ports, fronts, callers);
    let served = serve_each(rt, &journal, fronts, served);
    let done = end_ports(ports, served, done);
    Ok(finish(alloc, &journal, done))
}
