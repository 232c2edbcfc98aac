//! The cells of a world: the values that can be read from it.

ghost use Rattle.std.specs.Prelude.{◌≡◌, ◌≢◌, ◌==◌, MatchBool, Some, find};
ghost use Rattle.std.specs.Str.{bytes_eq};
ghost use Rattle.nr_rev.specs.CellName.{cell_index, cell_name, cell_named, cell_number, cell_numbered, cells_at};

/// A value that can be read from a world. A cell with a number belongs to the goroutine, socket or
/// descriptor with that number. If that goroutine, socket or descriptor hasn't been made yet, the
/// value is absent. A closed descriptor keeps its values.
#[derive(Clone, Copy, Debug, PartialEq, Eq)]
pub enum Cell {
    /// The current time, in nanoseconds.
    Clock,
    /// The number of wait words that hold a goroutine: `netpollWaiters` of `runtime/netpoll.go`.
    Waiters,
    /// The number of armed timers.
    Timers,
    /// The number of timers that went off and haven't been run yet.
    Firings,
    /// The time at which the next timer is due, in nanoseconds; absent if no timer is armed.
    Least,
    /// The status of a goroutine.
    Goroutine(u32),
    /// The lock word of a socket, as the number that `fdMutex.state` of `internal/poll/fd_mutex.go` would hold.
    Lock(u32),
    /// The count of a socket's semaphore for reading.
    ReadSemaphore(u32),
    /// The count of a socket's semaphore for writing.
    WriteSemaphore(u32),
    /// The number of bytes that can be read from a socket.
    Input(u32),
    /// The number of bytes that were written to a socket and haven't been sent.
    Output(u32),
    /// The wait word of a descriptor for reading: `rg` of `pollDesc`.
    ReadWord(u32),
    /// The wait word of a descriptor for writing: `wg`.
    WriteWord(u32),
    /// The read deadline of a descriptor: `rd` of `pollDesc`, in nanoseconds.
    ReadDeadline(u32),
    /// The write deadline of a descriptor: `wd`, in nanoseconds.
    WriteDeadline(u32),
    /// The sequence of a descriptor's read timer: `rseq` of `pollDesc`.
    ReadSequence(u32),
    /// The sequence of a descriptor's write timer: `wseq`.
    WriteSequence(u32),
    /// The tag of a descriptor: `fdseq` of `pollDesc`. An event with an earlier tag is from before the descriptor was
    /// closed, and is stale.
    DescriptorSequence(u32),
    /// The summary of a descriptor, as in `pollInfo`: the sum of 1 if it is closing, 2 for an error event, 4 if the
    /// read deadline has expired, and 8 if the write deadline has.
    Info(u32),
    /// Whether the write side of a socket is shut: 1 if it is, or else 0.
    Shut(u32),
}

// The cells that belong to no goroutine, socket or descriptor.
const CELLS: [Cell; 5] = [
    Cell::Clock,
    Cell::Waiters,
    Cell::Timers,
    Cell::Firings,
    Cell::Least,
];

// The cells of the goroutine, the socket and the descriptor with this number.
fn cells_of(index: u32) -> [Cell; 15]
    ensures { result ≡ cells_at (Some index) }
{
    [
        Cell::Goroutine(index),
        Cell::Lock(index),
        Cell::ReadSemaphore(index),
        Cell::WriteSemaphore(index),
        Cell::Input(index),
        Cell::Output(index),
        Cell::ReadWord(index),
        Cell::WriteWord(index),
        Cell::ReadDeadline(index),
        Cell::WriteDeadline(index),
        Cell::ReadSequence(index),
        Cell::WriteSequence(index),
        Cell::DescriptorSequence(index),
        Cell::Info(index),
        Cell::Shut(index),
    ]
}

fn first_named(cells: &[Cell], name: &[u8]) -> Option<Cell>
    ensures { result ≡ find (λ cell. bytes_eq (cell_name cell) name.now) cells.now }
{
    cells
        .iter()
        .copied()
        .find(|cell| cell.name().as_bytes() == name)
}

fn first_numbered(cells: &[Cell], number: u8) -> Option<Cell>
    ensures { result ≡ find (λ cell. cell_number cell == number) cells.now }
{
    cells.iter().copied().find(|cell| cell.number() == number)
}

impl Cell {
    /// The number of cells: those of one goroutine, one socket and one descriptor, and those that belong to none of
    /// these.
    pub const COUNT: usize = 20;

    /// Returns whether two cells are the same.
    pub fn is(self, other: Cell) -> bool
        ensures { MatchBool result (self ≡ other) (self ≢ other) }
    {
        self == other
    }

    /// Returns the name of the cell, without a number.
    pub fn name(self) -> &'static str
        ensures { result.now ≡ cell_name self }
    {
        match self {
            Cell::Clock => "clock",
            Cell::Waiters => "waiters",
            Cell::Timers => "timers",
            Cell::Firings => "firings",
            Cell::Least => "least",
            Cell::Goroutine(_) => "gor",
            Cell::Lock(_) => "lock",
            Cell::ReadSemaphore(_) => "rsem",
            Cell::WriteSemaphore(_) => "wsem",
            Cell::Input(_) => "in",
            Cell::Output(_) => "out",
            Cell::ReadWord(_) => "rg",
            Cell::WriteWord(_) => "wg",
            Cell::ReadDeadline(_) => "rd",
            Cell::WriteDeadline(_) => "wd",
            Cell::ReadSequence(_) => "rseq",
            Cell::WriteSequence(_) => "wseq",
            Cell::DescriptorSequence(_) => "fdseq",
            Cell::Info(_) => "info",
            Cell::Shut(_) => "shut",
        }
    }

    /// Returns the number of the cell's kind, counted from 1. It doesn't depend on the goroutine,
    /// socket or descriptor.
    pub fn number(self) -> u8
        ensures { result ≡ cell_number self }
    {
        match self {
            Cell::Clock => 1,
            Cell::Waiters => 2,
            Cell::Timers => 3,
            Cell::Firings => 4,
            Cell::Least => 5,
            Cell::Goroutine(_) => 6,
            Cell::Lock(_) => 7,
            Cell::ReadSemaphore(_) => 8,
            Cell::WriteSemaphore(_) => 9,
            Cell::Input(_) => 10,
            Cell::Output(_) => 11,
            Cell::ReadWord(_) => 12,
            Cell::WriteWord(_) => 13,
            Cell::ReadDeadline(_) => 14,
            Cell::WriteDeadline(_) => 15,
            Cell::ReadSequence(_) => 16,
            Cell::WriteSequence(_) => 17,
            Cell::DescriptorSequence(_) => 18,
            Cell::Info(_) => 19,
            Cell::Shut(_) => 20,
        }
    }

    /// Returns the number of the cell's goroutine, socket or descriptor, or `None` if the cell belongs to none of
    /// these.
    pub fn index(self) -> Option<u32>
        ensures { result ≡ cell_index self }
    {
        match self {
            Cell::Clock | Cell::Waiters | Cell::Timers | Cell::Firings | Cell::Least => None,
            Cell::Goroutine(goroutine) => Some(goroutine),
            Cell::Lock(socket)
            | Cell::ReadSemaphore(socket)
            | Cell::WriteSemaphore(socket)
            | Cell::Input(socket)
            | Cell::Output(socket)
            | Cell::Shut(socket) => Some(socket),
            Cell::ReadWord(descriptor)
            | Cell::WriteWord(descriptor)
            | Cell::ReadDeadline(descriptor)
            | Cell::WriteDeadline(descriptor)
            | Cell::ReadSequence(descriptor)
            | Cell::WriteSequence(descriptor)
            | Cell::DescriptorSequence(descriptor)
            | Cell::Info(descriptor) => Some(descriptor),
        }
    }

    /// Returns the cell with this name and this index, if there is one. The index is the number of a goroutine, a
    /// socket or a descriptor; a cell that belongs to none of these has no index.
    pub fn named(name: &[u8], index: Option<u32>) -> Option<Cell>
        ensures { result ≡ cell_named name.now index }
    {
        match index {
            None => first_named(&CELLS, name),
            Some(index) => first_named(&cells_of(index), name),
        }
    }

    /// Returns the cell with this index of the kind with this number, counted from 1, if such a cell exists. The index
    /// is the number of a goroutine, a socket or a descriptor; a cell that belongs to none of these has no index.
    pub fn numbered(number: u8, index: Option<u32>) -> Option<Cell>
        ensures { result ≡ cell_numbered number index }
    {
        match index {
            None => first_numbered(&CELLS, number),
            Some(index) => first_numbered(&cells_of(index), number),
        }
    }
}
