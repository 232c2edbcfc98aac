//! The steps of the clock and of timers: advancing the time, popping a timer that is due, and running a firing.

ghost use Rattle.std.specs.Prelude.{◌≡◌, ◌^◌, ◌<◌, ◌++◌, List, length};
ghost use Rattle.nr_rev.specs.declared.step.Step.TheVariants as steps;
ghost use Rattle.nr_rev.specs.declared.timer.Entry.{Entry};
ghost use Rattle.nr_rev.specs.Timer.{entry_of, least_of};
ghost use Rattle.nr_rev.specs.World as world;
ghost use Rattle.nr_plain.specs.Plan.{Plans};

use crate::change::change_by_firing;
use crate::edit::Edit;
use crate::plan::Plan;
use crate::world::PlainWorld;
use nr_rev::{Answer, DescriptorRow, Entry, Refusal, Side, Timer};

impl PlainWorld {
    /// Returns the plan of `tick`.
    pub(crate) fn tick<'a>(&self, time: i64) -> Result<Plan<'a>, Refusal>
        ensures { Plans (steps.Tick time) self.now result }
    {
        if time < self.clock {
            return Err(Refusal::ClockGoesBack);
        }
        Ok(Plan::new(Answer::Done).then(Edit::Clock { time }))
    }

    /// Returns the plan of `pop`.
    pub(crate) fn pop<'a>(&self) -> Result<Plan<'a>, Refusal>
        ensures { Plans steps.Pop self.now result }
    {
        let entry = self.least_entry().ok_or(Refusal::NoTimerDue)?;
        if entry.timer.due > self.clock {
            return Err(Refusal::NoTimerDue);
        }
        if self.firings.len() >= 2 * self.limits.descriptors as usize {
            return Err(Refusal::FiringsFull);
        }
        let descriptor = entry.descriptor;
        let row = self.row_in(descriptor)?;
        let row = DescriptorRow {
            timers: row.timers.with(entry.side, None),
            ..row
        };
        Ok(
            Plan::new(Answer::Done)
                .then(Edit::Row { descriptor, row })
                .then(Edit::AddFiring { entry }),
        )
    }

    /// Returns the plan of `fire`.
    pub(crate) fn fire<'a>(&self, place: u32) -> Result<Plan<'a>, Refusal>
        ensures { Plans (steps.Fire place) self.now result }
    {
        let entry = self
            .firings
            .get(place as usize)
            .ok_or(Refusal::NoSuchFiring)?;
        let row = self.row_in(entry.descriptor)?;
        let change = change_by_firing(entry.timer.function, entry.timer.sequence, row.descriptor)?;
        let edit = Edit::TakeFiring { place };
        match change {
            None => Ok(Plan::new(Answer::Stale).then(edit)),
            Some(change) => self.then_changed(
                Plan::new(Answer::Done).then(edit),
                entry.descriptor,
                row,
                change,
            ),
        }
    }

    /// Returns the entry that is due before all others.
    pub(crate) fn least_entry(&self) -> Option<Entry>
        ensures { result ≡ world.least_entry self.now }
    {
        least_of_rows(self.descriptors.as_slice())
    }
}

/// Returns the least entry of these rows. The first row belongs to descriptor 0.
fn least_of_rows(rows: &[DescriptorRow]) -> Option<Entry>
    requires { length rows.now < 2 ^ 32 }
    ensures { result ≡ least_of (world.entries_of rows.now) }
{
    let mut least = None;
    let mut d = rows.len();
    while d > 0 {
        d -= 1;
        let timers = rows[d].timers;
        least = earlier(d as u32, Side::Write, timers.write, least);
        least = earlier(d as u32, Side::Read, timers.read, least);
    }
    least
}

/// Returns the earlier of a timer's entry and another entry; either of them may be missing.
fn earlier(descriptor: u32, side: Side, timer: Option<Timer>, least: Option<Entry>) -> Option<Entry>
    ensures { (entries : List Entry) → least ≡ least_of entries
        → result ≡ least_of (entry_of descriptor side timer ++ entries) }
{
    let Some(timer) = timer else {
        return least;
    };
    match least {
        Some(other) if other.timer.is_before(&timer) => Some(other),
        _ => Some(Entry {
            descriptor,
            side,
            timer,
        }),
    }
}
