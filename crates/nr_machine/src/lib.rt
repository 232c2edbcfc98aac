//! A packed world: a machine of lock words, descriptors, goroutines linked in queues, ring buffers and a timer heap.
#![tactic(auto)]

mod apply;
mod cells;
mod changing;
mod continuing;
mod deadlines;
mod delta;
mod goroutines;
pub mod laws;
mod locking;
mod polling;
mod reads;
mod semaphores;
mod snapshot;
mod timers;
mod touches_cells;
mod transfers;
mod undoing;
mod waiting;
mod world;
mod world_core;
mod worlds;

pub use delta::WorldDelta;
pub use snapshot::WorldSnapshot;
pub use world::World;
