//! Makes, copies and reads packed worlds.

ghost use Rattle.std.specs.Prelude.{◌≡◌, ◌<◌, IfOk, OnErr, length, replicate};
ghost use Rattle.nr_rev.specs.Cell.{bytes_of, queue_of};
ghost use Rattle.nr_rev.specs.Limits.{AreInRange};
ghost use Rattle.nr_rev.specs.World.{empty_world};
ghost use Rattle.nr_rev.specs.Auxiliary.Worlds.{HasItems};
ghost use Rattle.nr_gsema.specs.Auxiliary.Table.{queue_at};
ghost use Rattle.nr_sockbuf.specs.Sock.{never_opened};
ghost use Rattle.nr_machine.specs.Fits.{CoreFits, IsWorld};
ghost use Rattle.nr_machine.specs.Fresh.{empty_core};
ghost use Rattle.nr_machine.specs.World.{meant};

use crate::delta::{WorldDelta, WorldUndo};
use crate::snapshot::{WorldSnapshot, count_opened, restored_socks, snapshots};
use crate::world::World;
use crate::world_core::Core;
use nr_gsema::{GOperation, GTable};
use nr_rev::{
    Answer, Bytes, Cell, CellValue, Limits, Memory, NoWayBack, Queue, Refusal, Reversible,
    RoomedList, Side, Step, Worlds,
};
use nr_sockbuf::{Sock, SockSnapshot};
use nr_timers::Timers;
use std::alloc::Global;

impl Core {
    /// Makes the core before the first step: goroutine 0 is idle, and nothing else exists.
    fn with_room(alloc: Global, limits: Limits) -> Result<Core, Memory>
        requires { AreInRange limits }
        ensures fits { IfOk result CoreFits }
        ensures empty { IfOk result (λ core. core ≡ empty_core limits) }
    {
        let mut goroutines = GTable::with_descriptors(
            alloc,
            limits.goroutines,
            limits.sockets,
            limits.descriptors,
        )?;
        let Ok(_) = goroutines.apply(&GOperation::Spawn) else {
            unreachable!()
        };
        Ok(Core {
            limits,
            goroutines,
            locks: RoomedList::with_room(alloc, limits.sockets as usize)?,
            descriptors: RoomedList::with_room(alloc, limits.descriptors as usize)?,
            free: RoomedList::with_room(alloc, limits.descriptors as usize)?,
            timers: Timers::with_limits(alloc, limits.descriptors)?,
            clock: 0,
            waiters: 0,
        })
    }

    /// Returns an equal core with memory of its own.
    fn try_copy(&self, alloc: Global) -> Result<Core, Memory>
        ensures { IfOk result (λ core. core ≡ self.now) }
    {
        Ok(Core {
            limits: self.limits,
            goroutines: self.goroutines.try_copy()?,
            locks: self.locks.try_copy(alloc)?,
            descriptors: self.descriptors.try_copy(alloc)?,
            free: self.free.try_copy(alloc)?,
            timers: self.timers.try_copy()?,
            clock: self.clock,
            waiters: self.waiters,
        })
    }

    /// Copies another core with the same limits into this one. Allocates no memory.
    fn copy_from(&mut self, other: &Core)
        requires fits { CoreFits self.old }
        requires other { CoreFits other.now }
        requires limits { self.old.limits ≡ other.now.limits }
        ensures { self.new ≡ other.now }
    {
        self.goroutines.copy_from(&other.goroutines);
        self.locks.copy_from(&other.locks);
        self.descriptors.copy_from(&other.descriptors);
        self.free.copy_from(&other.free);
        self.timers.copy_from(&other.timers);
        self.clock = other.clock;
        self.waiters = other.waiters;
    }
}

/// Returns closed buffers for this number of sockets.
fn closed_socks(alloc: Global, sockets: u32, buffer: u32) -> Result<Vec<Sock>, Memory>
    ensures { IfOk result (λ socks. socks.items ≡ replicate sockets (never_opened buffer)) }
{
    let mut socks = Vec::with_capacity(alloc, sockets as usize)?;
    for _socket in 0..sockets {
        socks.push(Sock::with_limits(alloc, buffer)?)?;
    }
    Ok(socks)
}

/// Returns equal buffers with memory of their own.
fn copied_socks(alloc: Global, socks: &[Sock]) -> Result<Vec<Sock>, Memory>
    ensures { IfOk result (λ copies. copies.items ≡ socks.now) }
{
    let mut copies = Vec::with_capacity(alloc, socks.len())?;
    for sock in socks {
        copies.push(sock.try_copy()?)?;
    }
    Ok(copies)
}

impl World {
    /// Returns the queued goroutines, from front to back. Allocates no memory if the queue is
    /// empty.
    fn queued(&self, socket: u32, side: Side) -> Result<Vec<u32>, Memory>
        ensures ok { IfOk result (λ items. items.items ≡ queue_at socket side self.now.core.goroutines) }
        ensures some { OnErr result (0 < length (queue_at socket side self.now.core.goroutines)) }
    {
        self.core.goroutines.queues_hold_the_queued();
        let mut items = Vec::new(self.alloc);
        let mut next = self.core.goroutines.front_of(socket, side);
        while let Some(goroutine) = next {
            items.push(goroutine)?;
            next = self.core.goroutines.next_of(goroutine);
        }
        Ok(items)
    }
}

impl Worlds for World {
    ghost use Rattle.nr_machine.specs.World.{meant};
    ghost use Rattle.nr_machine.specs.Worlds.{steps_are, reasons_are, memory_is_for_bytes, bytes_out_are, means_well_formed};

    type Snapshot = WorldSnapshot;

    ghost world = { meant };

    ghost kept = { λ snapshot. snapshot };

    fn fresh(alloc: Global, limits: Limits) -> Result<Self, Memory> {
        let core = Core::with_room(alloc, limits)?;
        let socks = closed_socks(alloc, limits.sockets, limits.buffer)?;
        Ok(World { alloc, core, socks })
    }

    fn try_copy(&self) -> Result<Self, Memory> {
        Ok(World {
            alloc: self.alloc,
            core: self.core.try_copy(self.alloc)?,
            socks: copied_socks(self.alloc, &self.socks)?,
        })
    }

    fn snapshot(&self, last: Option<&WorldSnapshot>) -> Result<WorldSnapshot, Memory> {
        let core = self.core.try_copy(self.alloc)?;
        let count = count_opened(&self.socks, self.core.limits.buffer);
        let last_opened: &[SockSnapshot] = match last {
            Some(last) => &last.opened,
            None => &[],
        };
        Ok(WorldSnapshot {
            alloc: self.alloc,
            core,
            sockets: self.socks.len(),
            opened: snapshots(self.alloc, &self.socks[..count], last_opened)?,
        })
    }

    fn restored(snapshot: &WorldSnapshot) -> Result<Self, Memory> {
        let WorldSnapshot {
            alloc,
            core,
            sockets,
            opened,
        } = snapshot;
        let core = core.try_copy(*alloc)?;
        let socks = restored_socks(*alloc, opened, *sockets, core.limits.buffer)?;
        Ok(World {
            alloc: *alloc,
            core,
            socks,
        })
    }

    fn restore(&mut self, snapshot: &WorldSnapshot) -> Result<(), Memory> {
        if !self.core.limits.is(snapshot.core.limits) {
            *self = World::restored(snapshot)?;
            return Ok(());
        }
        self.restore_opened(&snapshot.opened);
        self.reset_from(snapshot.opened.len());
        self.core.copy_from(&snapshot.core);
        Ok(())
    }

    #[inline(always)]
    fn no_delta() -> WorldDelta {
        WorldDelta::default()
    }

    #[inline(always)]
    #[tactic(auto, using(crate::proofs::MadeLemmas::made_fits))]
    fn apply_to(&mut self, step: &Step, delta: &mut WorldDelta) -> Result<Answer, Refusal> {
        self.make(step, &mut delta.undo)
    }

    #[inline(always)]
    fn undo_from(&mut self, delta: &mut WorldDelta) {
        self.lead_back(&delta.undo);
        delta.undo = WorldUndo::Still;
    }

    #[inline(always)]
    #[tactic(auto, using(crate::proofs::MadeLemmas::made_fits))]
    fn advance(&mut self, step: &Step) -> Result<Answer, Refusal> {
        self.make(step, &mut NoWayBack)
    }

    fn cell(&self, what: Cell) -> CellValue {
        match what {
            Cell::Clock => CellValue::Time(self.core.clock),
            Cell::Waiters => CellValue::Number(self.core.waiters),
            Cell::Timers => self.timers_value(),
            Cell::Firings => CellValue::Number(self.core.timers.firings() as u64),
            Cell::Least => self.least_value(),
            Cell::Goroutine(g) => self.goroutine_value(g),
            Cell::Lock(s) => self.lock_value(s),
            Cell::ReadSemaphore(s) => self.count_value(s, Side::Read),
            Cell::WriteSemaphore(s) => self.count_value(s, Side::Write),
            Cell::Input(s) => self.length_value(s, Side::Read),
            Cell::Output(s) => self.length_value(s, Side::Write),
            Cell::ReadWord(d) => self.word_value(d, Side::Read),
            Cell::WriteWord(d) => self.word_value(d, Side::Write),
            Cell::ReadDeadline(d) => self.deadline_value(d, Side::Read),
            Cell::WriteDeadline(d) => self.deadline_value(d, Side::Write),
            Cell::ReadSequence(d) => self.sequence_value(d, Side::Read),
            Cell::WriteSequence(d) => self.sequence_value(d, Side::Write),
            Cell::DescriptorSequence(d) => self.fdseq_value(d),
            Cell::Info(d) => self.summary_value(d),
            Cell::Shut(s) => self.shut_value(s),
        }
    }

    fn bytes(&self, socket: u32, side: Side) -> Result<Option<Bytes>, Memory> {
        if socket as usize >= self.core.locks.len() {
            return Ok(None);
        }
        let Some(sock) = self.socks.get(socket as usize) else {
            return Ok(Some(Bytes::new(Vec::new(self.alloc))));
        };
        let bytes = sock.bytes(side)?;
        Ok(Some(bytes))
    }

    fn queue(&self, socket: u32, side: Side) -> Result<Option<Queue>, Memory> {
        if socket as usize >= self.core.locks.len() {
            return Ok(None);
        }
        let items = self.queued(socket, side)?;
        Ok(Some(Queue::new(items)))
    }

    ghost steps_are = { steps_are };

    ghost reasons_are = { reasons_are };

    ghost memory_is_for_bytes = { memory_is_for_bytes };

    ghost bytes_out_are = { bytes_out_are };

    ghost means_well_formed = { means_well_formed };
}
