//! A search by several workers, each in a thread of its own.

ghost use Rattle.std.specs.Prelude.{◌≡◌, ◌<◌, ◌≤◌, ◌+◌, true, All, IfOk, IfSome};
ghost use Rattle.std.specs.Thread.{IsSync};
ghost use Rattle.nr_marks.specs.Hit.{hits_at};
ghost use Rattle.nr_search.specs.Known.{IsTrue, is_known};
ghost use Rattle.nr_search.specs.Auxiliary.Nearest.{IsFound};
ghost use Rattle.nr_search.specs.Reports.{IsReport};
ghost use Rattle.nr_search.specs.declared.workers.TheConstants.{LEAST_WORKERS, MOST_WORKERS};
ghost use Rattle.nr_snaps.specs.Film.{IsFrame};

use crate::found::Found;
use crate::gate::Gate;
use crate::search::Search;
use crate::slot::{Report, Slot, unknown};
use crate::stretch::WorldAt;
use nr_rev::{Memory, Worlds};
use std::alloc::{AllocError, Global};
use std::marker::Model;
use std::sync::atomic::{AtomicUsize, Ordering};
use std::thread::{Threads, map_indices};

/// The minimum number of workers in a search.
pub const LEAST_WORKERS: usize = 1;

/// The maximum number of workers in a search.
pub const MOST_WORKERS: usize = 16;

/// The maximum number of segments that a worker claims at once.
const MOST_AT_ONCE: usize = 8;

/// A search by several workers, each in a thread of its own if one can be started. The workers
/// claim the segments between the film's copies in the order of the search. In contracts, a
/// `ManyWorkers` is its number of workers.
#[derive(Debug, Drop)]
pub struct ManyWorkers<R: Threads + Sync, G: Gate + Sync> {
    rt: R,
    alloc: Global,
    gate: G,
    workers: usize,
}

impl<R: Threads + Sync, G: Gate + Sync> Model for ManyWorkers<R, G> {
    ghost use Rattle.std.specs.Prelude.{◌≤◌, ℕ};
    ghost use Rattle.nr_search.specs.declared.workers.TheConstants.{LEAST_WORKERS, MOST_WORKERS};

    ghost Value = { ℕ };

    ghost view = { λ m. m.workers };

    ghost invariant = { λ m. (LEAST_WORKERS ≤ m.workers) × (m.workers ≤ MOST_WORKERS) };
}

impl<R: Threads + Sync, G: Gate + Sync> ManyWorkers<R, G> {
    /// Makes a finder with `workers` workers. Each worker notifies the gate before and after it
    /// searches a segment.
    pub fn new(rt: R, alloc: Global, gate: G, workers: usize) -> ManyWorkers<R, G>
        requires least { LEAST_WORKERS ≤ workers }
        requires most { workers ≤ MOST_WORKERS }
        ensures { result ≡ workers }
    {
        ManyWorkers {
            rt,
            alloc,
            gate,
            workers,
        }
    }

    /// Returns the number of workers.
    pub fn workers(&self) -> usize
        ensures is { result ≡ self.now }
        ensures least { LEAST_WORKERS ≤ result }
        ensures most { result ≤ MOST_WORKERS }
    {
        self.workers
    }
}

/// The state that the workers of a search share. No proof uses it: if it contains claims that no
/// worker made, or a hit that doesn't exist, the search takes longer but has the same result.
#[derive(Drop)]
pub struct Claims {
    // The number of claimed segments.
    next: AtomicUsize,
    // The index, in search order, of the nearest segment with a known hit. Later segments need no
    // search.
    hint: AtomicUsize,
}

impl Claims {
    /// Makes a state with no claims and no known hit.
    pub fn new() -> Claims {
        Claims::preset(0, usize::MAX)
    }

    /// Makes a state with `claimed` claimed segments and a known hit in the segment at index `hint`
    /// in search order.
    pub fn preset(claimed: usize, hint: usize) -> Claims {
        Claims {
            next: AtomicUsize::new(claimed),
            hint: AtomicUsize::new(hint),
        }
    }

    // Claims the next `at_once` segments.
    fn claim(&self, at_once: usize) -> Turn {
        let next = self.next.fetch_add(at_once, Ordering::SeqCst);
        Turn {
            next,
            end: next.saturating_add(at_once),
        }
    }

    // Returns whether a segment before index k in search order has a known hit.
    fn is_behind_hit(&self, k: usize) -> bool {
        k > self.hint.load(Ordering::SeqCst)
    }

    // If the segment at index k in search order has a hit, shares k with the other workers.
    fn tell(&self, k: usize, slot: &Slot) {
        if let Slot::Searched(Found::Hit(_)) = slot {
            self.hint.fetch_min(k, Ordering::SeqCst);
        }
    }
}

/// Segments that a worker has claimed but not begun: indexes in search order.
#[derive(Clone, Copy)]
struct Turn {
    next: usize,
    end: usize,
}

impl Turn {
    // Makes a turn without segments.
    fn over() -> Turn {
        Turn { next: 0, end: 0 }
    }

    // Returns the index of the next segment in search order. Returns `None` if no segment is left,
    // or if an earlier one has a known hit. If the search has many segments, a worker claims a few
    // at once. In a forward search, the worker moves its world from each segment to the next, and
    // needs a copy only for the first.
    fn next(&mut self, claims: &Claims, count: usize) -> Option<usize>
        ensures { IfSome result (λ k. k < count) }
    {
        if self.next >= self.end {
            *self = claims.claim((count / 64).clamp(1, MOST_AT_ONCE));
        }
        let k = self.next;
        if k >= count || claims.is_behind_hit(k) {
            return None;
        }
        self.next = k + 1;
        Some(k)
    }
}

// Returns the outcome of a worker's search of a segment: its result, or that memory ran out.
fn searched<W: Worlds + Drop>(
    search: &Search<'_, W>,
    s: usize,
    held: &mut Option<WorldAt<W>>,
) -> Slot
where
    W::Snapshot: Drop,
    requires first { search.now.span.first ≤ s }
    requires last { s < search.now.span.first + search.now.span.count }
    requires held { IfSome held.old (λ h.
        IsFrame W.is_well_formed W.world W.steps search.now.film.now h.position h.world) }
    ensures known { is_known result ≡ true }
    ensures is { IsTrue search.now.span
        (hits_at search.now.film.now.recording search.now.marks.now.present) s result }
    ensures held { IfSome held.new (λ h.
        IsFrame W.is_well_formed W.world W.steps search.now.film.now h.position h.world) }
{
    Slot::from_search(search.search_segment(s, held))
}

// Searches segments until none is left to claim, and returns a report on each.
fn work<W: Worlds + Drop, G: Gate>(
    search: &Search<'_, W>,
    alloc: Global,
    claims: &Claims,
    gate: &G,
    worker: usize,
) -> Vec<Report>
where
    W::Snapshot: Drop,
    ensures { All (IsReport search.now.span
        (hits_at search.now.film.now.recording search.now.marks.now.present)) result.items }
{
    let mut reports = Vec::new(alloc);
    let mut held = None;
    let mut turn = Turn::over();
    for _ in 0..search.span.count {
        let Some(k) = turn.next(claims, search.span.count) else {
            return reports;
        };
        let segment = search.span.nth(k);
        gate.enter(worker);
        let slot = searched(search, segment, &mut held);
        gate.leave(worker);
        claims.tell(k, &slot);
        // If there is no room for a report, the report is lost and its segment remains unknown.
        let _ = reports.push(Report { segment, slot });
    }
    reports
}

// Runs the workers, and returns each worker's reports.
fn gather<W: Worlds + Drop + Sync, R: Threads + Sync, G: Gate + Sync>(
    many: &ManyWorkers<R, G>,
    search: &Search<'_, W>,
    claims: &Claims,
) -> Result<Vec<Vec<Report>>, AllocError>
where
    W::Snapshot: Drop + Sync,
    ensures { IfOk result (λ by_worker. All (λ one_worker. All (IsReport search.now.span
        (hits_at search.now.film.now.recording search.now.marks.now.present))
        one_worker.items) by_worker.items) }
{
    let alloc = many.alloc;
    let gate = &many.gate;
    let worker = |i: usize| -> Vec<Report>
        requires { IsSync W.row × IsSync W.Snapshot.row × IsSync G.row × (i < MOST_WORKERS) }
        ensures { All (IsReport search.entry.now.span
            (hits_at search.entry.now.film.now.recording search.entry.now.marks.now.present))
            result.items }
    { work(search, alloc, claims, gate, i + 1) };
    map_indices(&many.rt, alloc, many.workers, &worker)
}

/// Returns the nearest hit of a search, using the reports of the workers. Segments without a report
/// are searched here.
pub(crate) fn search_by<W: Worlds + Drop + Sync, R: Threads + Sync, G: Gate + Sync>(
    many: &ManyWorkers<R, G>,
    search: &Search<'_, W>,
    claims: &Claims,
) -> Result<Found, Memory>
where
    W::Snapshot: Drop + Sync,
    ensures { IfOk result (IsFound search.now.span.direction
        (hits_at search.now.film.now.recording search.now.marks.now.present)
        (search.now.span.after + 1) (search.now.span.last + 1)) }
{
    let mut table = unknown(many.alloc, search.span.first + search.span.count)?;
    let by_worker = gather(many, search, claims)?;
    search.decide_by(by_worker.as_slice(), table.as_mut_slice())
}
