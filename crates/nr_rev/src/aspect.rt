//! The aspects of a world, and which kinds of step may change which aspect.

ghost use Rattle.std.specs.Prelude.{◌≡◌};
ghost use Rattle.nr_rev.specs.Aspect.{can_change, changed_aspects, aspect_of};

use crate::cell::Cell;
use crate::kind::Kind;

/// An aspect of a world: the values of all cells of one sort.
#[derive(Clone, Copy, Debug, PartialEq, Eq)]
pub enum Aspect {
    /// Now.
    Clock,
    /// The number of wait words that hold a goroutine.
    Waiters,
    /// The armed timers.
    Timers,
    /// The timers that went off and haven't been run yet.
    Firings,
    /// The status of each goroutine.
    Goroutines,
    /// The lock words of the sockets.
    Locks,
    /// The semaphores of the sockets.
    Semaphores,
    /// The bytes that can be read from the sockets.
    Inputs,
    /// The bytes that were written to the sockets and haven't been sent.
    Outputs,
    /// Whether the write side of each socket is shut.
    ShutMarks,
    /// The wait words of the descriptors.
    WaitWords,
    /// The deadlines of the descriptors.
    Deadlines,
    /// The sequences of the descriptors' timers.
    Sequences,
    /// The tags that tie events to descriptors.
    Tags,
    /// The summaries of the descriptors.
    Summaries,
}

impl Cell {
    /// Returns the aspect of a world that the cell shows.
    #[inline]
    pub fn aspect(self) -> Aspect
        ensures { result ≡ aspect_of self }
    {
        match self {
            Cell::Clock => Aspect::Clock,
            Cell::Waiters => Aspect::Waiters,
            Cell::Timers | Cell::Least => Aspect::Timers,
            Cell::Firings => Aspect::Firings,
            Cell::Goroutine(_) => Aspect::Goroutines,
            Cell::Lock(_) => Aspect::Locks,
            Cell::ReadSemaphore(_) | Cell::WriteSemaphore(_) => Aspect::Semaphores,
            Cell::Input(_) => Aspect::Inputs,
            Cell::Output(_) => Aspect::Outputs,
            Cell::ReadWord(_) | Cell::WriteWord(_) => Aspect::WaitWords,
            Cell::ReadDeadline(_) | Cell::WriteDeadline(_) => Aspect::Deadlines,
            Cell::ReadSequence(_) | Cell::WriteSequence(_) => Aspect::Sequences,
            Cell::DescriptorSequence(_) => Aspect::Tags,
            Cell::Info(_) => Aspect::Summaries,
            Cell::Shut(_) => Aspect::ShutMarks,
        }
    }
}

impl Kind {
    // Returns the aspects of a world that a step of this kind may change.
    #[inline]
    fn changed_aspects(self) -> &'static [Aspect]
        ensures { result.now ≡ changed_aspects self }
    {
        match self {
            Kind::Spawn | Kind::Exit | Kind::WaitBegin | Kind::BlockCheck | Kind::WaitCheck => {
                &[Aspect::Goroutines]
            }
            Kind::SockOpen => &[
                Aspect::Locks,
                Aspect::Semaphores,
                Aspect::Inputs,
                Aspect::Outputs,
                Aspect::ShutMarks,
            ],
            Kind::Arrive | Kind::SysRead => &[Aspect::Inputs],
            Kind::SysWrite | Kind::Drain => &[Aspect::Outputs],
            Kind::PeerClose => &[],
            Kind::CloseWrite => &[Aspect::ShutMarks],
            Kind::Incref | Kind::Decref => &[Aspect::Locks],
            Kind::IncrefClose | Kind::RwLock | Kind::RwUnlock => &[
                Aspect::Goroutines,
                Aspect::Locks,
            ],
            Kind::Acquire | Kind::Release => &[Aspect::Goroutines, Aspect::Semaphores],
            Kind::PollOpen => &[
                Aspect::WaitWords,
                Aspect::Deadlines,
                Aspect::Sequences,
                Aspect::Tags,
                Aspect::Summaries,
            ],
            Kind::PollClose => &[Aspect::Tags],
            Kind::PollReset => &[Aspect::WaitWords],
            Kind::BlockArm | Kind::BlockSwap => &[Aspect::Goroutines, Aspect::WaitWords],
            Kind::ParkCommit => &[Aspect::Goroutines, Aspect::WaitWords, Aspect::Waiters],
            Kind::SetDeadline => &[
                Aspect::Goroutines,
                Aspect::WaitWords,
                Aspect::Waiters,
                Aspect::Deadlines,
                Aspect::Sequences,
                Aspect::Summaries,
                Aspect::Timers,
            ],
            Kind::Evict => &[
                Aspect::Goroutines,
                Aspect::WaitWords,
                Aspect::Waiters,
                Aspect::Sequences,
                Aspect::Summaries,
                Aspect::Timers,
            ],
            Kind::PollEvent => &[
                Aspect::Goroutines,
                Aspect::WaitWords,
                Aspect::Waiters,
                Aspect::Summaries,
            ],
            Kind::Tick => &[Aspect::Clock],
            Kind::Pop => &[Aspect::Timers, Aspect::Firings],
            Kind::Fire => &[
                Aspect::Goroutines,
                Aspect::WaitWords,
                Aspect::Waiters,
                Aspect::Deadlines,
                Aspect::Summaries,
                Aspect::Firings,
            ],
        }
    }

    /// Returns whether a step of this kind may change the cell. A cell that a step may not change
    /// has the same value before and after the step: `aspects::steps_change_their_aspects_alone` of
    /// `nr_laws`.
    #[inline]
    pub fn can_change(self, cell: Cell) -> bool
        ensures { result ≡ can_change self cell }
    {
        self.changed_aspects().contains(&cell.aspect())
    }
}
