//! The packed world.

ghost use Rattle.std.specs.Prelude.{◌≡◌};

use crate::world_core::Core;
use nr_gsema::GTable;
use nr_sockbuf::Sock;
use nr_timers::Timers;
use std::alloc::Global;
use std::marker::Model;

/// A world in five packed parts, which takes all its memory when it is made. In contracts, a world
/// is its core and the buffers of all sockets below the limit. `meant` is the world of `nr_rev`
/// that a packed world represents.
#[derive(Drop)]
pub struct World {
    pub(crate) alloc: Global,
    pub(crate) core: Core,
    pub(crate) socks: Vec<Sock>,
}

impl Model for World {
    ghost use Rattle.nr_machine.specs.World.{WorldParts};

    ghost Value = { WorldParts };

    ghost view = { λ w. record { core = w.core; socks = w.socks.items } };
}

impl World {
    /// Returns the goroutines and the semaphores' queues, for reading their order.
    pub fn goroutines(&self) -> &GTable
        ensures { result.now ≡ self.now.core.goroutines }
    {
        &self.core.goroutines
    }

    /// Returns the timers and firings, for reading each entry's place in the heap.
    pub fn timers(&self) -> &Timers
        ensures { result.now ≡ self.now.core.timers }
    {
        &self.core.timers
    }
}
