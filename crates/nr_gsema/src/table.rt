//! The table of goroutines and semaphores.

ghost use Rattle.std.specs.Prelude.{◌≡◌, [], replicate, IfOk, length, ◌≤◌, vec_capacity};
ghost use Rattle.nr_rev.specs.Semaphore.{new_semaphore};
ghost use Rattle.nr_rev.specs.Sides.{twice};
ghost use Rattle.nr_gsema.specs.Applying.{IsQueuedUp};

use crate::node::{GoroutineNode, SemaphoreHead};
use crate::waits::WaitCounts;
use nr_rev::{Memory, Sides};
use std::alloc::Global;
use std::marker::Model;

/// The goroutines made so far and the semaphores of all sockets below the limit, in memory that is allocated once. In
/// contracts, a table has the statuses, and for each semaphore its count and the list of queued goroutines. Neighbours
/// in a queue are stored in the goroutines' nodes, so joining or leaving a queue at either end changes two nodes,
/// whatever its length. Goroutines inside a wait are counted, so `is_waited` reads no node for a descriptor with
/// counts.
#[derive(Drop)]
pub struct GTable {
    pub(crate) alloc: Global,
    pub(crate) nodes: Vec<GoroutineNode>,
    pub(crate) semaphores: Vec<Sides<SemaphoreHead>>,
    pub(crate) waits: WaitCounts,
    pub(crate) limit: u32,
}

impl Model for GTable {
    ghost use Rattle.nr_gsema.specs.Table.{GoroutineTable};

    ghost Value = { GoroutineTable };

    ghost use Rattle.nr_gsema.specs.Links.{table_from, IsTable};

    ghost view = { table_from };

    ghost invariant = { IsTable };
}

impl GTable {
    /// Makes a table that has room for this many goroutines, but none yet, and the semaphores of
    /// this many sockets. Each count is 0, and each queue is empty. `is_waited` searches all
    /// goroutines of such a table. Fails with `Memory` if memory runs out.
    pub fn with_limits(alloc: Global, goroutines: u32, sockets: u32) -> Result<GTable, Memory>
        ensures well_formed { IfOk result (λ t. IsQueuedUp t) }
        ensures empty { IfOk result (λ t. t ≡ record {
          goroutines = [];
          semaphores = replicate sockets (twice new_semaphore);
          limit = goroutines;
        }) }
    {
        GTable::with_descriptors(alloc, goroutines, sockets, 0)
    }

    /// Makes a table as `with_limits` does. For each side of the first `descriptors` descriptors, the table also counts
    /// the goroutines that are inside a wait there. For these descriptors, `is_waited` reads no goroutine. This only
    /// saves time; no contract mentions it. Fails with `Memory` if memory runs out.
    pub fn with_descriptors(
        alloc: Global,
        goroutines: u32,
        sockets: u32,
        descriptors: u32,
    ) -> Result<GTable, Memory>
        ensures well_formed { IfOk result (λ t. IsQueuedUp t) }
        ensures empty { IfOk result (λ t. t ≡ record {
          goroutines = [];
          semaphores = replicate sockets (twice new_semaphore);
          limit = goroutines;
        }) }
    {
        let none = SemaphoreHead {
            count: 0,
            front: None,
            back: None,
        };
        let nodes = Vec::with_capacity(alloc, goroutines as usize)?;
        let semaphores = Vec::from_elem(alloc, Sides::twice(none), sockets as usize)?;
        let waits = WaitCounts::with_room(alloc, descriptors)?;
        let table = GTable {
            alloc,
            nodes,
            semaphores,
            waits,
            limit: goroutines,
        };
        table.queues_hold_the_queued();
        Ok(table)
    }

    /// Returns an equal table, including links, in memory of its own. Fails with `Memory` if memory runs out.
    pub fn try_copy(&self) -> Result<GTable, Memory>
        ensures well_formed { IfOk result (λ t. IsQueuedUp t) }
        ensures equal { IfOk result (λ t. t ≡ self.now) }
    {
        self.queues_hold_the_queued();
        let mut nodes = Vec::with_capacity(self.alloc, self.limit as usize)?;
        nodes.extend_from_slice(&self.nodes)?;
        Ok(GTable {
            alloc: self.alloc,
            nodes,
            semaphores: Vec::from_slice(self.alloc, &self.semaphores)?,
            waits: self.waits.try_copy(self.alloc)?,
            limit: self.limit,
        })
    }

    /// Makes this table, including its links, equal to another with the same limits. Allocates no memory.
    pub fn copy_from(&mut self, other: &GTable)
        requires limit { self.old.limit ≡ other.now.limit }
        requires semaphores { length self.old.semaphores ≡ length other.now.semaphores }
        ensures well_formed { IsQueuedUp self.new }
        ensures equal { self.new ≡ other.now }
    {
        other.queues_hold_the_queued();
        self.nodes.clear();
        let Ok(()) = self.nodes.extend_from_slice(&other.nodes) else {
            unreachable!()
        };
        self.semaphores.copy_from_slice(&other.semaphores);
        self.waits.copy_from(&other.waits);
    }
}
