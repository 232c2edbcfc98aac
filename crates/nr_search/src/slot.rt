//! What is known about segments.

ghost use Rattle.std.specs.Prelude.{◌≡◌, ◌≤◌, true, length, replicate, IfOk};
ghost use Rattle.nr_search.specs.Known.{is_known, slot_of};
ghost use Rattle.nr_search.specs.Reports.{AddsTo, said_by, said_in, slot_from};
ghost use Rattle.nr_search.specs.declared.slot.Slot.TheVariants.{Unknown};

use crate::found::Found;
use nr_rev::Memory;
use std::alloc::Global;

/// What is known about a segment.
#[derive(Debug, Drop)]
pub(crate) enum Slot {
    /// Nothing: the segment was skipped, or its report was lost.
    Unknown,
    /// A worker ran out of memory while it searched the segment.
    Refused(Memory),
    /// The segment was searched, with this result.
    Searched(Found),
}

impl Slot {
    /// Returns what the result of a search says about its segment.
    pub fn from_search(searched: Result<Found, Memory>) -> Slot
        ensures { result ≡ slot_from searched }
    {
        match searched {
            Ok(found) => Slot::Searched(found),
            Err(refused) => Slot::Refused(refused),
        }
    }

    // Returns a copy that shares no memory with this slot.
    fn copy(&self) -> Slot
        ensures { result ≡ self.now }
    {
        match self {
            Slot::Searched(found) => Slot::Searched(found.copy()),
            Slot::Refused(refused) => Slot::Refused(*refused),
            Slot::Unknown => Slot::Unknown,
        }
    }
}

/// A worker's report on a segment.
#[derive(Debug, Drop)]
pub(crate) struct Report {
    pub segment: usize,
    pub slot: Slot,
}

/// Returns `count` slots, each of which is `Unknown`. Fails if memory runs out.
pub(crate) fn unknown(alloc: Global, count: usize) -> Result<Vec<Slot>, Memory>
    ensures { IfOk result (λ known. known.items ≡ replicate count Unknown) }
{
    let mut known = Vec::with_capacity(alloc, count)?;
    for _ in 0..count {
        known.push_reserved(Slot::Unknown);
    }
    Ok(known)
}

/// Returns what is known about the segment with this number, or `Unknown` if the table has no such
/// slot.
pub(crate) fn slot_at(known: &[Slot], s: usize) -> Slot
    ensures { result ≡ slot_of known.now s }
{
    match known.get(s) {
        Some(slot) => slot.copy(),
        None => Slot::Unknown,
    }
}

// Notes a report in the slot of its segment. Changes nothing if the segment already has a report,
// or has no slot.
fn note(known: &mut [Slot], report: &Report)
    ensures noted { AddsTo known.old (said_by report.now) known.new }
    ensures second { is_known (slot_of known.old report.now.segment) ≡ true
        → known.new ≡ known.old }
    ensures absent { length known.old ≤ report.now.segment → known.new ≡ known.old }
{
    if let Some(Slot::Unknown) = known.get(report.segment) {
        known[report.segment] = report.slot.copy();
    }
}

/// Notes a worker's reports, each in the slot of its segment.
pub(crate) fn note_all(known: &mut [Slot], reports: &[Report])
    ensures { AddsTo known.old (said_in reports.now) known.new }
{
    for report in reports {
        note(known, report);
    }
}
