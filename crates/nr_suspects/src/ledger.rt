//! The ledger of references, by socket and goroutine.

ghost use Rattle.std.specs.Prelude.{◌≡◌, IfOk, replicate};
ghost use Rattle.nr_suspects.specs.Holdings.{AreHeld, CanCount, IsHeldAt, IsRowHeldAt, RowCanCount, holding_of, none_held};

use crate::holding::{Holding, holding_after};
use crate::notice::Notice;
use nr_rev::Memory;
use std::alloc::Global;
use std::marker::Model;

/// For each socket and goroutine: how many references to the socket the goroutine took and
/// returned.
#[derive(Drop)]
pub struct Ledger {
    rows: Vec<Vec<Holding>>,
}

impl Model for Ledger {
    ghost use Rattle.std.specs.Prelude.{List, map};
    ghost use Rattle.nr_suspects.specs.declared.holding.Holding.{Holding};

    ghost Value = { List (List Holding) };

    ghost view = { λ l. map (λ row. row.items) l.rows.items };
}

impl Ledger {
    /// Makes a ledger for this many sockets and goroutines, in which no goroutine holds a
    /// reference. Fails with `Memory` if memory runs out.
    pub fn new(alloc: Global, sockets: u32, goroutines: u32) -> Result<Ledger, Memory>
        ensures { IfOk result (λ ledger. ledger ≡ replicate sockets (replicate goroutines none_held)) }
    {
        let mut rows = Vec::new(alloc);
        for _socket in 0..sockets {
            rows.push(vec![in alloc; Holding::NONE; goroutines as usize]?)?;
        }
        Ok(Ledger { rows })
    }

    /// Returns the goroutine's counts for the socket, or zero counts if the ledger has no place for
    /// them.
    pub fn holding_of(&self, socket: u32, goroutine: u32) -> Holding
        ensures { result ≡ holding_of self.now socket goroutine }
    {
        match self.rows.get(socket as usize) {
            Some(row) => row
                .get(goroutine as usize)
                .copied()
                .unwrap_or(Holding::NONE),
            None => Holding::NONE,
        }
    }

    /// Updates the ledger with the notice of this step.
    pub fn note(&mut self, step: usize, notice: Notice)
        requires room { CanCount self.old }
        ensures { AreHeld step notice self.old self.new }
    {
        match notice {
            Notice::TookReference { goroutine, socket }
            | Notice::GaveReference { goroutine, socket } => {
                self.note_at(goroutine, socket, step, notice)
            }
            _ => {}
        }
    }

    // Updates the place of one goroutine and one socket.
    fn note_at(&mut self, goroutine: u32, socket: u32, step: usize, notice: Notice)
        requires room { CanCount self.old }
        ensures { IsHeldAt step goroutine socket notice self.old self.new }
    {
        if (socket as usize) < self.rows.len() {
            note_in(
                &mut self.rows[socket as usize],
                goroutine,
                socket,
                step,
                notice,
            );
        }
    }
}

// Updates the place of one goroutine in the row of a socket.
fn note_in(row: &mut Vec<Holding>, goroutine: u32, socket: u32, step: usize, notice: Notice)
    requires room { RowCanCount row.old.items }
    ensures { IsRowHeldAt step goroutine socket notice row.old.items row.new.items }
{
    let at = goroutine as usize;
    if at < row.len() {
        row[at] = holding_after(step, goroutine, socket, notice, row[at]);
    }
}
