//! The undo of an operation.

ghost use Rattle.std.specs.Prelude.{◌≡◌};
ghost use Rattle.nr_gsema.specs.declared.delta.GUndo.TheVariants.{Spawned};

use nr_rev::{Side, Status};

/// The data that undoes an operation, and nothing else.
#[derive(Clone, Copy, Debug)]
pub struct GDelta {
    /// The undo of the operation.
    pub undo: GUndo,
}

/// What an operation changed, with the old values.
#[derive(Clone, Copy, Debug)]
pub enum GUndo {
    /// The last goroutine was added.
    Spawned,
    /// The goroutine had this status before.
    Moved {
        goroutine: u32,
        status: Status,
    },
    /// The goroutine decreased the count of a semaphore of this socket.
    Acquired {
        goroutine: u32,
        socket: u32,
        side: Side,
    },
    /// The goroutine joined the back of the queue of a semaphore of this socket.
    Queued {
        goroutine: u32,
        socket: u32,
        side: Side,
    },
    /// The goroutine owed `reads` releases for reading and `writes` for writing, and made one of
    /// them: for reading if it owed any for reading, or else for writing. `front` is the goroutine
    /// that left the queue, if any.
    Released {
        goroutine: u32,
        socket: u32,
        reads: u32,
        writes: u32,
        front: Option<u32>,
    },
}

/// The default delta has no meaning; it fills the free places of a bounded list.
impl Default for GDelta {
    fn default() -> Self
        ensures { result.undo ≡ Spawned }
    {
        GDelta {
            undo: GUndo::Spawned,
        }
    }
}
