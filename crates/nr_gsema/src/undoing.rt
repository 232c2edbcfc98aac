//! Undoing an acquire and a release.

ghost use Rattle.std.specs.Prelude.{◌≡◌, ◌<◌};
ghost use Rattle.nr_gsema.specs.Delta.{CanRequeue, CanUndo, HasSemaphore, released_back, undone};
ghost use Rattle.nr_gsema.specs.declared.delta.GUndo.TheVariants as undo;

use crate::operations::side_owed;
use crate::table::GTable;
use nr_rev::{Side, Sides, Status};

impl GTable {
    /// Increases the count again, and sets the goroutine's status to `Acquiring`.
    #[inline(always)]
    pub(crate) fn unacquire(&mut self, goroutine: u32, socket: u32, side: Side)
        requires { CanUndo (undo.Acquired goroutine socket side) self.old }
        ensures { self.new ≡ undone (undo.Acquired goroutine socket side) self.old }
    {
        let Some(count) = self.count(socket, side) else {
            unreachable!()
        };
        self.set_count(socket, side, count + 1);
        self.set_status(goroutine, Status::Acquiring { socket, side });
    }

    /// Decreases the count, and puts the goroutine that left the queue, if any, at the front again. Sets the status of
    /// the goroutine that made the release to `Owing`, with these releases.
    #[inline(always)]
    pub(crate) fn unrelease(
        &mut self,
        goroutine: u32,
        socket: u32,
        owed: Sides<u32>,
        front: Option<u32>,
    )
        requires { CanUndo (undo.Released goroutine socket owed.read owed.write front) self.old }
        ensures { self.new
            ≡ undone (undo.Released goroutine socket owed.read owed.write front) self.old }
    {
        self.unrelease_semaphore(socket, side_owed(owed), front);
        self.set_status(
            goroutine,
            Status::Owing {
                socket,
                reads: owed.read,
                writes: owed.write,
            },
        );
    }

    /// Undoes a release of a semaphore.
    #[inline(always)]
    fn unrelease_semaphore(&mut self, socket: u32, side: Side, front: Option<u32>)
        requires front { CanRequeue front self.old }
        requires there { HasSemaphore socket side (λ semaphore. 0 < semaphore.count) self.old }
        ensures { self.new ≡ released_back socket side front self.old }
    {
        match front {
            None => {
                let Some(count) = self.count(socket, side) else {
                    unreachable!()
                };
                self.set_count(socket, side, count - 1);
            }
            Some(front) => self.join_front(front, socket, side),
        }
    }
}
