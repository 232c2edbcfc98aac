//! Implements `Worlds` for the world over lists.

ghost use Rattle.std.specs.Prelude.{◌≡◌, ◌<◌, length, IfOk, OnErr};

use crate::cells::armed_in;
use crate::delta::PlainDelta;
use crate::descriptor::summary;
use crate::sockets::Sockets;
use crate::world::PlainWorld;
use nr_rev::{
    Answer, Bytes, Cell, CellValue, Limits, Memory, NoWayBack, Queue, Refusal, Reversible,
    RoomedList, Side, Status, Step, Worlds,
};
use std::alloc::Global;
use std::mem;

/// Returns a copy of the items. Allocates no memory if there are none. Fails with `Memory` if memory runs out.
fn copy_of<T: Copy + Drop>(alloc: Global, items: &[T]) -> Result<Vec<T>, Memory>
    ensures ok { IfOk result (λ copy. copy.items ≡ items.now) }
    ensures some { OnErr result (0 < length items.now) }
{
    if items.is_empty() {
        return Ok(Vec::new(alloc));
    }
    Ok(Vec::from_slice(alloc, items)?)
}

impl Worlds for PlainWorld {
    ghost use Rattle.nr_plain.specs.Worlds.{meant, steps_are, reasons_are, memory_is_for_bytes, bytes_out_are, means_well_formed};

    /// A snapshot is a whole world, because this world is only used in tests.
    type Snapshot = PlainWorld;

    ghost world = { meant };

    ghost kept = { λ snapshot. snapshot };

    #[tactic(auto, using(crate::proofs::FreshLemmas::fresh_fits))]
    fn fresh(alloc: Global, limits: Limits) -> Result<Self, Memory> {
        let descriptors = limits.descriptors as usize;
        let mut goroutines = RoomedList::with_room(alloc, limits.goroutines as usize)?;
        goroutines.push(Status::Idle);
        Ok(PlainWorld {
            alloc,
            limits,
            goroutines,
            sockets: Sockets::with_room(
                alloc,
                limits.sockets,
                limits.goroutines as usize,
                limits.buffer as usize,
            )?,
            descriptors: RoomedList::with_room(alloc, descriptors)?,
            firings: RoomedList::with_room(alloc, 2 * descriptors)?,
            free: RoomedList::with_room(alloc, descriptors)?,
            clock: 0,
            waiters: 0,
            next_arming: 1,
        })
    }

    fn try_copy(&self) -> Result<Self, Memory> {
        Ok(PlainWorld {
            alloc: self.alloc,
            limits: self.limits,
            goroutines: self.goroutines.try_copy(self.alloc)?,
            sockets: self.sockets.try_copy(self.alloc)?,
            descriptors: self.descriptors.try_copy(self.alloc)?,
            firings: self.firings.try_copy(self.alloc)?,
            free: self.free.try_copy(self.alloc)?,
            clock: self.clock,
            waiters: self.waiters,
            next_arming: self.next_arming,
        })
    }

    fn snapshot(&self, _last: Option<&PlainWorld>) -> Result<PlainWorld, Memory> {
        self.try_copy()
    }

    fn restored(snapshot: &PlainWorld) -> Result<Self, Memory> {
        snapshot.try_copy()
    }

    fn restore(&mut self, snapshot: &PlainWorld) -> Result<(), Memory> {
        if !self.limits.is(snapshot.limits) {
            *self = snapshot.try_copy()?;
            return Ok(());
        }
        self.goroutines.copy_from(&snapshot.goroutines);
        self.sockets.copy_from(&snapshot.sockets);
        self.descriptors.copy_from(&snapshot.descriptors);
        self.firings.copy_from(&snapshot.firings);
        self.free.copy_from(&snapshot.free);
        self.clock = snapshot.clock;
        self.waiters = snapshot.waiters;
        self.next_arming = snapshot.next_arming;
        Ok(())
    }

    fn no_delta() -> PlainDelta {
        PlainDelta::default()
    }

    fn apply_to(&mut self, step: &Step, delta: &mut PlainDelta) -> Result<Answer, Refusal> {
        self.make(step, delta)
    }

    fn undo_from(&mut self, delta: &mut PlainDelta) {
        self.undo(mem::take(delta));
    }

    fn advance(&mut self, step: &Step) -> Result<Answer, Refusal> {
        self.make(step, &mut NoWayBack)
    }

    fn cell(&self, what: Cell) -> CellValue {
        match what {
            Cell::Clock => CellValue::Time(self.clock),
            Cell::Waiters => CellValue::Number(self.waiters),
            Cell::Timers => CellValue::Number(armed_in(self.descriptors.as_slice())),
            Cell::Firings => CellValue::Number(self.firings.len() as u64),
            Cell::Least => self.least_entry().map_or(
                CellValue::Absent,
                |entry| CellValue::Time(entry.timer.due),
            ),
            Cell::Goroutine(g) => self
                .goroutines
                .get(g as usize)
                .map_or(CellValue::Absent, |status| CellValue::Status(status)),
            Cell::Lock(s) => self.lock_value(s),
            Cell::ReadSemaphore(s) => self.count_value(s, Side::Read),
            Cell::WriteSemaphore(s) => self.count_value(s, Side::Write),
            Cell::Input(s) => self.length_value(s, Side::Read),
            Cell::Output(s) => self.length_value(s, Side::Write),
            Cell::ReadWord(d) => self.word_value(d, Side::Read),
            Cell::WriteWord(d) => self.word_value(d, Side::Write),
            Cell::ReadDeadline(d) => self.deadline_value(d, Side::Read),
            Cell::WriteDeadline(d) => self.deadline_value(d, Side::Write),
            Cell::ReadSequence(d) => self.sequence_value(d, Side::Read),
            Cell::WriteSequence(d) => self.sequence_value(d, Side::Write),
            Cell::DescriptorSequence(d) => self
                .descriptor(d)
                .map_or(CellValue::Absent, |x| CellValue::Number(x.fdseq)),
            Cell::Info(d) => self
                .descriptor(d)
                .map_or(CellValue::Absent, |x| CellValue::Number(summary(x))),
            Cell::Shut(s) => self.shut_value(s),
        }
    }

    fn bytes(&self, socket: u32, side: Side) -> Result<Option<Bytes>, Memory> {
        let Some(row) = self.sockets.get(socket) else {
            return Ok(None);
        };
        let bytes = copy_of(self.alloc, row.buffer(side).bytes)?;
        Ok(Some(Bytes::new(bytes)))
    }

    fn queue(&self, socket: u32, side: Side) -> Result<Option<Queue>, Memory> {
        let Some(row) = self.sockets.get(socket) else {
            return Ok(None);
        };
        let queue = copy_of(self.alloc, row.semaphore(side).queue)?;
        Ok(Some(Queue::new(queue)))
    }

    ghost steps_are = { steps_are };

    ghost reasons_are = { reasons_are };

    ghost memory_is_for_bytes = { memory_is_for_bytes };

    ghost bytes_out_are = { bytes_out_are };

    ghost means_well_formed = { means_well_formed };
}
