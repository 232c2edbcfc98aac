//! Making the primitive changes to a world, and undoing them.

ghost use Rattle.std.specs.Prelude.{◌≡◌};
ghost use Rattle.nr_rev.specs.Step as step;
ghost use Rattle.nr_plain.specs.declared.edit.Edit.TheVariants as edit;
ghost use Rattle.nr_plain.specs.Edit.{CanEdit, CanUndo, after_undo};
ghost use Rattle.nr_plain.specs.World.{Performs};

use crate::descriptor::never_opened;
use crate::edit::{Edit, Undo};
use crate::world::PlainWorld;
use nr_rev::{DescriptorRow, Entry, Sides, Status};

impl PlainWorld {
    /// Makes the change, and returns its undo.
    pub(crate) fn perform(&mut self, edit: Edit) -> Undo
        requires { CanEdit edit self.old }
        ensures { Performs edit.entry result self.old self.new }
    {
        match edit {
            Edit::Status { goroutine, status } => self.set_status(goroutine, status),
            Edit::AddGoroutine => {
                self.goroutines.push(Status::Idle);
                Undo::RemoveGoroutine
            }
            Edit::AddSocket {
                read_capacity,
                write_capacity,
            } => {
                self.sockets.open(read_capacity, write_capacity);
                Undo::RemoveSocket
            }
            Edit::Socket { socket, edit } => {
                let undo = self.sockets.edit(socket, edit);
                Undo::Socket { socket, undo }
            }
            Edit::Row { descriptor, row } => self.set_row(descriptor, row),
            Edit::AddRow => self.add_row(),
            Edit::TakeFree => self.take_free(),
            Edit::GiveFree { descriptor } => {
                self.free.insert(0, descriptor);
                Undo::RemoveFree
            }
            Edit::Wake { goroutine } => self.wake(goroutine),
            Edit::Waiters { count } => self.set_waiters(count),
            Edit::Arming { number } => self.set_arming(number),
            Edit::Clock { time } => self.set_clock(time),
            Edit::AddFiring { entry } => {
                self.firings.push(entry);
                Undo::RemoveFiring
            }
            Edit::TakeFiring { place } => self.take_firing(place),
        }
    }

    fn set_status(&mut self, goroutine: u32, status: Status) -> Undo
        ensures { Performs (edit.Status goroutine status) result self.old self.new }
    {
        let status = self.goroutines.replace(goroutine as usize, status);
        Undo::Status { goroutine, status }
    }

    fn set_row(&mut self, descriptor: u32, row: DescriptorRow) -> Undo
        ensures { Performs (edit.Row descriptor row) result self.old self.new }
    {
        let row = self.descriptors.replace(descriptor as usize, row);
        Undo::Row { descriptor, row }
    }

    fn add_row(&mut self) -> Undo
        requires { CanEdit edit.AddRow self.old }
        ensures { Performs edit.AddRow result self.old self.new }
    {
        self.descriptors.push(DescriptorRow {
            descriptor: never_opened(),
            timers: Sides::twice(None),
        });
        Undo::RemoveRow
    }

    fn take_free(&mut self) -> Undo
        requires { CanEdit edit.TakeFree self.old }
        ensures { Performs edit.TakeFree result self.old self.new }
    {
        let Some(descriptor) = self.free.take_first() else {
            unreachable!()
        };
        Undo::ReturnFree { descriptor }
    }

    #[tactic(auto, using(crate::proofs::ListLemmas::read_or))]
    fn wake(&mut self, goroutine: u32) -> Undo
        ensures { Performs (edit.Wake goroutine) result self.old self.new }
    {
        let waiters = self.waiters;
        let status = self.goroutines.get(goroutine as usize);
        let status = after_wake(status.unwrap_or(Status::Idle));
        let status = self.goroutines.replace(goroutine as usize, status);
        self.waiters = waiters.saturating_sub(1);
        Undo::Sleep {
            goroutine,
            status,
            waiters,
        }
    }

    fn set_waiters(&mut self, count: u64) -> Undo
        ensures { Performs (edit.Waiters count) result self.old self.new }
    {
        let old = self.waiters;
        self.waiters = count;
        Undo::Waiters { count: old }
    }

    fn set_arming(&mut self, number: u64) -> Undo
        ensures { Performs (edit.Arming number) result self.old self.new }
    {
        let old = self.next_arming;
        self.next_arming = number;
        Undo::Arming { number: old }
    }

    fn set_clock(&mut self, time: i64) -> Undo
        ensures { Performs (edit.Clock time) result self.old self.new }
    {
        let old = self.clock;
        self.clock = time;
        Undo::Clock { time: old }
    }

    #[tactic(auto, using(crate::proofs::ListLemmas::removed_returns, crate::proofs::ListLemmas::removed_len))]
    fn take_firing(&mut self, place: u32) -> Undo
        requires { CanEdit (edit.TakeFiring place) self.old }
        ensures { Performs (edit.TakeFiring place) result self.old self.new }
    {
        let entry = self.firings.remove(place as usize);
        Undo::ReturnFiring { place, entry }
    }

    /// Undoes a change.
    pub(crate) fn revert(&mut self, undo: Undo)
        requires { CanUndo undo self.old }
        ensures { self.new ≡ after_undo undo self.old }
    {
        match undo {
            Undo::Status { goroutine, status } => {
                let _ = self.goroutines.replace(goroutine as usize, status);
            }
            Undo::RemoveGoroutine => self.goroutines.drop_last(),
            Undo::RemoveSocket => self.sockets.close_last(),
            Undo::Socket { socket, undo } => self.sockets.undo(socket, undo),
            Undo::Row { descriptor, row } => {
                let _ = self.descriptors.replace(descriptor as usize, row);
            }
            Undo::RemoveRow => self.descriptors.drop_last(),
            Undo::ReturnFree { descriptor } => self.free.insert(0, descriptor),
            Undo::RemoveFree => {
                let _ = self.free.take_first();
            }
            Undo::Sleep {
                goroutine,
                status,
                waiters,
            } => {
                let _ = self.goroutines.replace(goroutine as usize, status);
                self.waiters = waiters;
            }
            Undo::Waiters { count } => self.waiters = count,
            Undo::Arming { number } => self.next_arming = number,
            Undo::Clock { time } => self.clock = time,
            Undo::RemoveFiring => self.firings.drop_last(),
            Undo::ReturnFiring { place, entry } => self.firings.insert(place as usize, entry),
        }
    }
}

/// Returns a goroutine's status after a wake: swapping if it was parked, else the same.
fn after_wake(status: Status) -> Status
    ensures { result ≡ step.after_wake status }
{
    match status {
        Status::Parked { descriptor, side } => Status::Swapping { descriptor, side },
        other => other,
    }
}
