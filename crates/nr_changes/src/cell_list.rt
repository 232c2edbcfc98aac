//! A list of cells that allocates no memory.

use nr_rev::Cell;
use std::marker::Model;

/// The maximum number of cells that a step may change.
pub const MOST_CELLS: usize = 22;

/// At most 22 cells, stored in the value itself.
#[derive(Drop)]
pub struct CellList {
    cells: [Cell; MOST_CELLS],
    len: usize,
}

impl Model for CellList {
    ghost use Rattle.std.specs.Prelude.{◌≡◌, ◌≤◌, List, length, take};
    ghost use Rattle.nr_rev.specs.declared.cell.Cell.{Cell as OneCell};

    ghost Value = { List OneCell };

    ghost view = { λ l. take l.len l.cells };

    ghost invariant = { λ l. (l.len ≤ 22) × (length l.cells ≡ 22) };
}

impl CellList {
    ghost use Rattle.std.specs.Prelude.{◌≡◌, ◌<◌, ◌∷◌, ◌++◌, [], length};

    /// Returns an empty list.
    pub(crate) fn new() -> CellList
        ensures { result ≡ [] }
    {
        CellList {
            cells: [Cell::Clock; MOST_CELLS],
            len: 0,
        }
    }

    /// Returns the cells as a slice.
    pub fn as_slice(&self) -> &[Cell]
        ensures { result.now ≡ self.now }
    {
        &self.cells[..self.len]
    }

    /// Appends a cell.
    pub(crate) fn push(&mut self, cell: Cell)
        requires { length self.old < 22 }
        ensures { self.new ≡ self.old ++ cell ∷ [] }
    {
        self.cells[self.len] = cell;
        self.len += 1;
    }
}
