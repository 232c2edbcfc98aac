//! Laws about the definitions: the names and numbers of kinds and cells, the weights, and the maximum limits.

ghost use Rattle.std.specs.Prelude.{◌≡◌, ℕ, slice_get, Option, None, Some, ◌+◌, ◌-◌, List, length};
ghost use Rattle.nr_rev.specs.declared.sides.Sides.{Sides};
ghost use Rattle.nr_rev.specs.declared.lock.Lock.{Lock};
ghost use Rattle.nr_rev.specs.declared.timer.Timer.{Timer};
ghost use Rattle.nr_rev.specs.declared.descriptor.Descriptor.{Descriptor};
ghost use Rattle.nr_rev.specs.declared.kept.KeptBytes.TheInside.{Inside as Kept};
ghost use Rattle.nr_rev.specs.declared.timer.Entry.{Entry};
ghost use Rattle.nr_rev.specs.declared.descriptor.DescriptorRow.{DescriptorRow};
ghost use Rattle.nr_rev.specs.declared.cell.Cell.{Cell};
ghost use Rattle.nr_rev.specs.declared.cell.TheConstants.Cell.{COUNT as CELL_COUNT};
ghost use Rattle.nr_rev.specs.CellName.{cell_index, cell_name, cell_named, cell_number, cell_numbered, cells_at};
ghost use Rattle.nr_rev.specs.declared.kind.Kind.{Kind};
ghost use Rattle.nr_rev.specs.declared.kind.TheConstants.Kind.{COUNT as KIND_COUNT};
ghost use Rattle.nr_rev.specs.Kind.{kind_name, kind_named, kind_number, kind_numbered, kinds};
ghost use Rattle.nr_rev.specs.declared.limits.TheConstants.{MOST_GOROUTINES, MOST_SOCKETS, MOST_DESCRIPTORS, MOST_BUFFER};

/// Looking up a kind's name finds that kind, and no other name finds it. The same holds for its
/// number, which is its place in the list of all kinds.
pub fn kinds_are_read_as_spelled()
    ensures read { (kind : Kind) → kind_named (kind_name kind) ≡ Some kind }
    ensures spelled { (name : List ℕ) (kind : Kind) → kind_named name ≡ Some kind
        → name ≡ kind_name kind }
    ensures counted { (kind : Kind) → kind_numbered (kind_number kind) ≡ Some kind }
    ensures number { (n : ℕ) (kind : Kind) → kind_numbered n ≡ Some kind → n ≡ kind_number kind }
    ensures numbered { (kind : Kind) → slice_get kinds (kind_number kind - 1) ≡ Some kind }
    ensures all { length kinds ≡ 31 }
    ensures constant { KIND_COUNT ≡ 31 }
{}

/// Looking up a cell's name and index finds that cell, and no other name or index finds it. The
/// same holds for its number and index.
pub fn cells_are_read_as_spelled()
    ensures read { (cell : Cell) → cell_named (cell_name cell) (cell_index cell) ≡ Some cell }
    ensures spelled { (name : List ℕ) (index : Option ℕ) (cell : Cell)
        → cell_named name index ≡ Some cell → (name ≡ cell_name cell) × (index ≡ cell_index cell) }
    ensures counted { (cell : Cell) → cell_numbered (cell_number cell) (cell_index cell) ≡ Some cell }
    ensures number { (n : ℕ) (index : Option ℕ) (cell : Cell) → cell_numbered n index ≡ Some cell
        → (n ≡ cell_number cell) × (index ≡ cell_index cell) }
    ensures all { length (cells_at None) + length (cells_at (Some 0)) ≡ 20 }
    ensures constant { CELL_COUNT ≡ 20 }
{}

/// The weight of a delta counts every part of it: each type in a delta has only the fields that its weight counts.
pub fn weights_count_every_part()
    ensures sides { (both : Sides ℕ) → both ≡ record { read = both.read; write = both.write } }
    ensures lock { (lock : Lock) → lock ≡ record {
      closed = lock.closed;
      locked = lock.locked;
      references = lock.references;
      waiters = lock.waiters;
    } }
    ensures timer { (timer : Timer) → timer ≡ record {
      due = timer.due;
      number = timer.number;
      function = timer.function;
      sequence = timer.sequence;
    } }
    ensures entry { (e : Entry) → e ≡ record {
      descriptor = e.descriptor;
      side = e.side;
      timer = e.timer;
    } }
    ensures descriptor { (d : Descriptor) → d ≡ record {
      words = d.words;
      closing = d.closing;
      event_error = d.event_error;
      deadlines = d.deadlines;
      running = d.running;
      sequences = d.sequences;
      fdseq = d.fdseq;
      socket = d.socket;
    } }
    ensures row { (row : DescriptorRow) → row ≡ record {
      descriptor = row.descriptor;
      timers = row.timers;
    } }
    ensures kept { (bytes : Kept) → bytes ≡ record { items = bytes.items } }
{}

/// The maximum limits of a recording: 4,096 goroutines, 256 sockets, 256 descriptors, and buffers of 1,048,576 bytes.
pub fn the_numbers()
    ensures goroutines { MOST_GOROUTINES ≡ 4096 }
    ensures sockets { MOST_SOCKETS ≡ 256 }
    ensures descriptors { MOST_DESCRIPTORS ≡ 256 }
    ensures buffer { MOST_BUFFER ≡ 1048576 }
{}
