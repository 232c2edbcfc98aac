//! A machine over lists, the simplest representation of a world.
#![tactic(auto)]

mod apply;
mod buffer;
mod cells;
mod change;
mod continuing;
mod deadlines;
mod delta;
mod descriptor;
mod descriptors;
mod edit;
mod editing;
mod goroutines;
pub mod laws;
mod list_edit;
mod lock;
mod locking;
mod plan;
mod reads;
mod semaphore;
mod semaphores;
mod socket;
mod socket_edit;
mod socket_editing;
mod sockets;
mod timers;
mod transfers;
mod waits;
mod world;
mod worlds;

pub use world::PlainWorld;
