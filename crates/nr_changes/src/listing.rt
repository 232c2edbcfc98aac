//! Sorted lists of numbers and cells.

ghost use Rattle.std.specs.Prelude.{◌≡◌, ◌+◌, ◌<◌, ◌≤◌, ◌++◌, [], drop, filter, length, slice_index, take};
ghost use Rattle.std.specs.BTreeSet.{insert_key};
ghost use Rattle.std.specs.Option.{option_map_or};
ghost use Rattle.std.specs.Ordering.{nat_cmp};
ghost use Rattle.nr_rev.specs.Aspect.{can_change};
ghost use Rattle.nr_changes.specs.Changed.{descriptor_cells, goroutine_cells, in_order, shut_cells, socket_cells};

use crate::cell_list::CellList;
use arrayvec::ArrayVec;
use nr_rev::{Cell, Kind};

/// The maximum number of goroutines that a step touches.
pub const MOST_TOUCHED: usize = 3;

// Returns the index of the first number that isn't below this one, or the list's length if all
// numbers are below it.
fn place_of(numbers: &[u32], number: u32) -> usize
    ensures within { result ≤ length numbers.now }
    ensures next { result < length numbers.now → number ≤ slice_index numbers.now result }
    ensures behind { insert_key nat_cmp numbers.now number
        ≡ take result numbers.now ++ insert_key nat_cmp (drop result numbers.now) number }
{
    for (i, other) in numbers.iter().enumerate() {
        if number <= *other {
            return i;
        }
    }
    numbers.len()
}

// Inserts a number into a sorted list, unless it is already there.
fn insert_number(numbers: &mut ArrayVec<u32, MOST_TOUCHED>, number: u32)
    requires { length numbers.old.items < MOST_TOUCHED }
    ensures items { numbers.new.items ≡ insert_key nat_cmp numbers.old.items number }
    ensures few { length numbers.new.items ≤ length numbers.old.items + 1 }
{
    let place = place_of(numbers.as_slice(), number);
    if place == numbers.len() || numbers.as_slice()[place] != number {
        numbers.insert(place, number);
    }
}

/// Returns the numbers in ascending order, each once.
pub(crate) fn in_order(numbers: &[u32]) -> ArrayVec<u32, MOST_TOUCHED>
    requires { length numbers.now ≤ MOST_TOUCHED }
    ensures items { result.items ≡ in_order numbers.now }
    ensures few { length result.items ≤ length numbers.now }
{
    let mut listed = ArrayVec::new();
    let mut rest = numbers.len();
    while rest > 0 {
        rest -= 1;
        insert_number(&mut listed, numbers[rest]);
    }
    listed
}

/// Appends, from these cells, the ones that this kind of step may change.
pub(crate) fn list(cells: &mut CellList, kind: Kind, more: &[Cell])
    requires { length cells.old + length more.now ≤ 22 }
    ensures items { cells.new ≡ cells.old ++ filter (can_change kind) more.now }
    ensures few { length cells.new ≤ length cells.old + length more.now }
{
    for cell in more {
        if kind.can_change(*cell) {
            cells.push(*cell);
        }
    }
}

/// Appends the cells of these goroutines that this kind of step may change.
pub(crate) fn list_goroutines(cells: &mut CellList, kind: Kind, goroutines: &[u32])
    requires { length cells.old + length goroutines.now ≤ 22 }
    ensures items { cells.new
        ≡ cells.old ++ filter (can_change kind) (goroutine_cells goroutines.now) }
    ensures few { length cells.new ≤ length cells.old + length goroutines.now }
{
    for goroutine in goroutines {
        list(cells, kind, &[Cell::Goroutine(*goroutine)]);
    }
}

/// Appends the cells of a socket that this kind of step may change, except the cell that shows
/// whether it is shut.
pub(crate) fn list_socket(cells: &mut CellList, kind: Kind, socket: Option<u32>)
    requires { length cells.old + 5 ≤ 22 }
    ensures items { cells.new
        ≡ cells.old ++ filter (can_change kind) (option_map_or socket_cells socket []) }
    ensures few { length cells.new ≤ length cells.old + 5 }
{
    if let Some(s) = socket {
        let own = [
            Cell::Lock(s),
            Cell::ReadSemaphore(s),
            Cell::WriteSemaphore(s),
            Cell::Input(s),
            Cell::Output(s),
        ];
        list(cells, kind, &own);
    }
}

/// Appends the cells of a descriptor that this kind of step may change.
pub(crate) fn list_descriptor(cells: &mut CellList, kind: Kind, descriptor: Option<u32>)
    requires { length cells.old + 8 ≤ 22 }
    ensures items { cells.new
        ≡ cells.old ++ filter (can_change kind) (option_map_or descriptor_cells descriptor []) }
    ensures few { length cells.new ≤ length cells.old + 8 }
{
    if let Some(d) = descriptor {
        let own = [
            Cell::ReadWord(d),
            Cell::WriteWord(d),
            Cell::ReadDeadline(d),
            Cell::WriteDeadline(d),
            Cell::ReadSequence(d),
            Cell::WriteSequence(d),
            Cell::DescriptorSequence(d),
            Cell::Info(d),
        ];
        list(cells, kind, &own);
    }
}

/// Appends the cell that shows whether a socket is shut, if this kind of step may change it.
pub(crate) fn list_shut(cells: &mut CellList, kind: Kind, socket: Option<u32>)
    requires { length cells.old + 1 ≤ 22 }
    ensures items { cells.new
        ≡ cells.old ++ filter (can_change kind) (option_map_or shut_cells socket []) }
{
    if let Some(s) = socket {
        list(cells, kind, &[Cell::Shut(s)]);
    }
}
