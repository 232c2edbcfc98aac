//! The vocabulary of a recorded run, the definitions of the model machine, and the contract of a machine whose steps
//! can be undone.
//!
//! The machine models Go's network poller: socket locks after `internal/poll/fd_mutex.go`;
//! descriptors, waits and deadlines after `runtime/netpoll.go`. Semaphores, sockets, timers and the
//! order of reasons follow the machine's own rules. The definitions are in `specs/`: `Step` has the
//! thirty-one steps, `World` the state, `WellFormed` the invariant of every world that steps can
//! reach, `Cell` the readable values, and `Run` the positions of a recording.
#![tactic(auto)]

mod answer;
mod aspect;
mod bytes;
mod cell;
mod cell_value;
mod descriptor;
mod keeper;
mod kept;
mod kind;
pub mod laws;
mod limits;
mod lock;
mod memory;
mod queue;
mod refusal;
mod reversible;
mod roomed_list;
mod sides;
mod status;
mod step;
mod timer;
mod transaction;
pub mod worked;
mod worlds;

pub use answer::Answer;
pub use aspect::Aspect;
pub use bytes::Bytes;
pub use cell::Cell;
pub use cell_value::CellValue;
pub use descriptor::{
    Descriptor, DescriptorRow, WaitWord, both_raised, deadline_from, raised_sequence,
};
pub use keeper::{Keeper, NoWayBack};
pub use kept::KeptBytes;
pub use kind::Kind;
pub use limits::{Limits, MOST_BUFFER, MOST_DESCRIPTORS, MOST_GOROUTINES, MOST_SOCKETS, is_limit};
pub use lock::{Lock, LockOutcome};
pub use memory::Memory;
pub use queue::Queue;
pub use refusal::Refusal;
pub use reversible::Reversible;
pub use roomed_list::RoomedList;
pub use sides::{Mode, Side, Sides};
pub use status::Status;
pub use step::Step;
pub use timer::{Entry, Timer, TimerFunction, TimerOrder};
pub use transaction::{transact, undo_all};
pub use worlds::Worlds;
