//! A search through a film, segment by segment.

ghost use Rattle.std.specs.Prelude.{◌≡◌, ◌<◌, ◌≤◌, ◌+◌, false, All, length, map, replicate, IfOk, IfSome, OnErr};
ghost use Rattle.nr_marks.specs.Hit.{hits_at};
ghost use Rattle.nr_search.specs.Known.{Agrees, AreTrue, IsFoundIn, IsLeftOpen, is_searched, slot_of};
ghost use Rattle.nr_search.specs.Auxiliary.Nearest.{IsFound};
ghost use Rattle.nr_search.specs.Reports.{IsReport, noted};
ghost use Rattle.nr_search.specs.declared.slot.Slot.TheVariants.{Unknown};
ghost use Rattle.nr_snaps.specs.Film.{IsFrame};

use crate::direction::Direction;
use crate::found::Found;
use crate::segments::Span;
use crate::slot::{Report, Slot, note_all, slot_at};
use crate::stretch::{WorldAt, search_stretch, world_at};
use nr_marks::Marks;
use nr_rev::{Memory, Worlds};
use nr_snaps::Film;

/// A search through a film for positions at which marks hit.
#[derive(Drop)]
pub(crate) struct Search<'a, W: Worlds + Drop>
where
    W::Snapshot: Drop,
{
    pub film: &'a Film<W>,
    pub marks: &'a Marks,
    /// The positions to search.
    pub span: Span,
    ghost every: { span.every ≡ film.now.every },
    ghost within: { span.last ≤ length film.now.recording.steps },
}

impl<'a, W: Worlds + Drop> Search<'a, W>
where
    W::Snapshot: Drop,
{
    /// Makes a search that visits each position p with `after` < p ≤ `last`.
    pub fn new(
        film: &'a Film<W>,
        marks: &'a Marks,
        direction: Direction,
        after: usize,
        last: usize,
    ) -> Search<'a, W>
        requires some { after < last }
        requires within { last ≤ length film.now.recording.steps }
        ensures film { result.film.now ≡ film.now }
        ensures marks { result.marks.now ≡ marks.now }
        ensures direction { result.span.direction ≡ direction }
        ensures after { result.span.after ≡ after }
        ensures last { result.span.last ≡ last }
    {
        // The length of a film is bounded, so the sum of `last` and the steps of a segment doesn't overflow.
        let _ = film.len();
        Search {
            film,
            marks,
            span: Span::new(direction, after, last, film.every()),
        }
    }

    /// Returns the nearest hit of a segment. The search moves the world in `held` through the
    /// segment if that world is at the segment's beginning. Otherwise, it moves a copy. If the
    /// search reaches the end of the segment, the world in `held` is at the end afterwards.
    pub fn search_segment(&self, s: usize, held: &mut Option<WorldAt<W>>) -> Result<Found, Memory>
        requires first { self.now.span.first ≤ s }
        requires last { s < self.now.span.first + self.now.span.count }
        requires held { IfSome held.old (λ h.
            IsFrame W.is_well_formed W.world W.steps self.now.film.now h.position h.world) }
        ensures found { IfOk result (IsFoundIn self.now.span
            (hits_at self.now.film.now.recording self.now.marks.now.present) s) }
        ensures held { IfSome held.new (λ h.
            IsFrame W.is_well_formed W.world W.steps self.now.film.now h.position h.world) }
    {
        let (from, to) = self.span.stretch(s);
        let mut world = world_at(self.film, held.take(), from)?;
        let direction = self.span.direction;
        let found = search_stretch(self.film, self.marks, direction, &mut world, from, to);
        if !found.is_decided(direction) {
            *held = Some(WorldAt {
                position: to,
                world,
            });
        }
        Ok(found)
    }

    // Returns the nearest hit of a segment. Searches the segment only if its slot is `Unknown`.
    fn decide_segment(
        &self,
        known: &[Slot],
        s: usize,
        held: &mut Option<WorldAt<W>>,
    ) -> Result<Found, Memory>
        requires first { self.now.span.first ≤ s }
        requires last { s < self.now.span.first + self.now.span.count }
        requires known { AreTrue self.now.span
            (hits_at self.now.film.now.recording self.now.marks.now.present) (slot_of known.now) }
        requires held { IfSome held.old (λ h.
            IsFrame W.is_well_formed W.world W.steps self.now.film.now h.position h.world) }
        ensures found { IfOk result (IsFoundIn self.now.span
            (hits_at self.now.film.now.recording self.now.marks.now.present) s) }
        ensures agrees { IfOk result (Agrees (slot_of known.now s)) }
        ensures searched { OnErr result (is_searched (slot_of known.now s) ≡ false) }
        ensures held { IfSome held.new (λ h.
            IsFrame W.is_well_formed W.world W.steps self.now.film.now h.position h.world) }
    {
        match slot_at(known, s) {
            Slot::Searched(found) => Ok(found),
            Slot::Refused(refused) => Err(refused),
            Slot::Unknown => self.search_segment(s, held),
        }
    }

    /// Returns the nearest hit. Visits the segments in search order. Uses the result in the slot of
    /// a segment, or searches the segment if its slot is `Unknown`. The first segment with a hit
    /// determines the result, even if the search of a later segment ran out of memory.
    pub fn decide(&self, known: &[Slot]) -> Result<Found, Memory>
        requires { AreTrue self.now.span
            (hits_at self.now.film.now.recording self.now.marks.now.present) (slot_of known.now) }
        ensures found { IfOk result (IsFound self.now.span.direction
            (hits_at self.now.film.now.recording self.now.marks.now.present)
            (self.now.span.after + 1) (self.now.span.last + 1)) }
        ensures open { OnErr result (IsLeftOpen self.now.span (slot_of known.now)) }
    {
        let mut held = None;
        for k in 0..self.span.count {
            let s = self.span.nth(k);
            let found = self.decide_segment(known, s, &mut held)?;
            if found.is_hit() {
                return Ok(found);
            }
        }
        Ok(Found::Nothing)
    }

    /// Returns the nearest hit according to the reports of the workers, with a row for each worker.
    /// The first report on a segment counts; a segment without a report is searched here. Fails
    /// with `Memory` only if some segment lacks a search result, and no segment before it has a
    /// reported hit. A segment lacks a result if it has no report, or if its first report says that
    /// memory ran out. `table` has an `Unknown` slot for each segment.
    pub fn decide_by(&self, by_worker: &[Vec<Report>], table: &mut [Slot]) -> Result<Found, Memory>
        requires table { table.old
            ≡ replicate (self.now.span.first + self.now.span.count) Unknown }
        requires reports { All (λ one_worker. All (IsReport self.now.span
            (hits_at self.now.film.now.recording self.now.marks.now.present)) one_worker.items) by_worker.now }
        ensures found { IfOk result (IsFound self.now.span.direction
            (hits_at self.now.film.now.recording self.now.marks.now.present)
            (self.now.span.after + 1) (self.now.span.last + 1)) }
        ensures open { OnErr result (IsLeftOpen self.now.span
            (noted (map (λ one_worker. one_worker.items) by_worker.now))) }
    {
        for reports in by_worker {
            note_all(table, reports.as_slice());
        }
        self.decide(table)
    }
}
