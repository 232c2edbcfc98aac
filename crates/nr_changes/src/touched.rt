//! What a step touches, and the cells that it may change.

use crate::cell_list::CellList;
use crate::listing::{
    MOST_TOUCHED, in_order, list, list_descriptor, list_goroutines, list_shut, list_socket,
};
use arrayvec::ArrayVec;
use nr_rev::{Cell, Kind};
use std::marker::Model;

/// What a step touches: goroutines, and a socket or a descriptor.
#[derive(Drop)]
pub struct Touched {
    goroutines: ArrayVec<u32, MOST_TOUCHED>,
    socket: Option<u32>,
    descriptor: Option<u32>,
}

impl Model for Touched {
    ghost use Rattle.nr_changes.specs.Touched.{Touched as Things};

    ghost Value = { Things };

    ghost view = { λ t. record {
      goroutines = t.goroutines.items;
      socket = t.socket;
      descriptor = t.descriptor;
    } };
}

impl Touched {
    ghost use Rattle.std.specs.Prelude.{◌≡◌};
    ghost use Rattle.nr_changes.specs.Changed.{cells_for};

    /// Returns a value with these goroutines, in any order, and this socket or descriptor, if any.
    pub fn new(
        goroutines: ArrayVec<u32, MOST_TOUCHED>,
        socket: Option<u32>,
        descriptor: Option<u32>,
    ) -> Touched
        ensures { result ≡ record {
          goroutines = goroutines.items;
          socket = socket;
          descriptor = descriptor;
        } }
    {
        Touched {
            goroutines,
            socket,
            descriptor,
        }
    }

    /// Returns the touched descriptor, if any.
    pub fn descriptor(&self) -> Option<u32>
        ensures { result ≡ self.now.descriptor }
    {
        self.descriptor
    }

    /// Returns the cells that a step of this kind may change if it touches these things, in listing
    /// order, each once. For a step of a world, the result is `touched_cells`; the step leaves
    /// every other cell's value unchanged (`laws::steps_change_what_they_touch_alone`).
    pub fn cells(&self, kind: Kind) -> CellList
        ensures { result ≡ cells_for kind self.now }
    {
        let goroutines = in_order(self.goroutines.as_slice());
        let world = [
            Cell::Clock,
            Cell::Waiters,
            Cell::Timers,
            Cell::Firings,
            Cell::Least,
        ];
        let mut cells = CellList::new();
        list(&mut cells, kind, &world);
        list_goroutines(&mut cells, kind, goroutines.as_slice());
        list_socket(&mut cells, kind, self.socket);
        list_descriptor(&mut cells, kind, self.descriptor);
        list_shut(&mut cells, kind, self.socket);
        cells
    }
}
