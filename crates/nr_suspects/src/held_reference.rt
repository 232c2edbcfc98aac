//! References to closed sockets that goroutines still hold, so that the sockets can't be freed.

ghost use Rattle.std.specs.Prelude.{◌≡◌, ◌++◌, ◌≤◌, IfOk, length};
ghost use Rattle.nr_rev.specs.Cell.{cell};
ghost use Rattle.nr_rev.specs.declared.cell.Cell.{Cell as CellNames};
ghost use Rattle.nr_suspects.specs.HeldReferences.{gone_text, held_of_sockets, held_of_goroutines, held_of_one, held_line, is_gone, is_unfreed};
ghost use Rattle.nr_suspects.specs.Holdings.{holding_of};

use crate::holding::Holding;
use crate::ledger::Ledger;
use nr_rev::{Cell, CellValue, Memory, Status, Worlds};
use nr_text::{Buffered, Text, Token, WriteFailed, send_all};
use std::io::Write;

/// The references to a closed socket that a goroutine took and didn't return.
#[derive(Clone, Copy, Debug, PartialEq, Eq)]
pub struct HeldReference {
    /// The position at which the goroutine holds the references.
    pub position: usize,
    /// The socket.
    pub socket: u32,
    /// The goroutine.
    pub goroutine: u32,
    /// The number of references that the goroutine holds.
    pub count: u64,
    /// The number of the step that took the last of the references, counted from 1.
    pub since: usize,
    /// True if the goroutine has ended.
    pub is_gone: bool,
}

// Returns the suffix that is printed for a goroutine that has ended.
fn gone_name(is_gone: bool) -> &'static [u8]
    ensures { result.now ≡ gone_text is_gone }
{
    if is_gone { b" gone" } else { b"" }
}

/// Prints as the line `at 90 held-reference sock 1 gor 3 count 1 since 45`, followed by ` gone` if the goroutine has
/// ended.
impl Text for HeldReference {
    ghost text = { held_line };

    fn send<W: Write>(&self, w: &mut Buffered<W>) -> Result<(), WriteFailed> {
        send_all(
            &[
                Token::Text(b"at "),
                Token::Number(self.position as u64),
                Token::Text(b" held-reference sock "),
                Token::Number(self.socket as u64),
                Token::Text(b" gor "),
                Token::Number(self.goroutine as u64),
                Token::Text(b" count "),
                Token::Number(self.count),
                Token::Text(b" since "),
                Token::Number(self.since as u64),
                Token::Text(gone_name(self.is_gone)),
                Token::Text(b"\n"),
            ],
            w,
        )
    }
}

// Returns whether the socket is closed and still has references.
fn is_unfreed<W: Worlds>(world: &W, socket: u32) -> bool
    requires { W.is_well_formed world.now }
    ensures { result ≡ is_unfreed (W.world world.now) socket }
{
    match world.cell(Cell::Lock(socket)) {
        CellValue::Number(word) => word % 2 == 1 && word / 8 % 1_048_576 > 0,
        _ => false,
    }
}

// Appends the references to a socket that a goroutine holds, if it holds any.
fn add_held<W: Worlds>(
    world: &W,
    position: usize,
    socket: u32,
    goroutine: u32,
    held: Holding,
    found: &mut Vec<HeldReference>,
) -> Result<(), Memory>
    requires world { W.is_well_formed world.now }
    ensures items { IfOk result (λ _. found.new.items ≡ found.old.items
        ++ held_of_one position socket goroutine (cell (W.world world.now) (Cell.Goroutine goroutine)) held) }
{
    if held.taken <= held.given {
        return Ok(());
    }
    found.push(HeldReference {
        position,
        socket,
        goroutine,
        count: held.taken - held.given,
        since: held.since,
        is_gone: matches!(
            world.cell(Cell::Goroutine(goroutine)),
            CellValue::Status(Status::Gone)
        ),
    })?;
    Ok(())
}

// Appends an entry for each goroutine below this number that holds references to the socket.
fn add_holders<W: Worlds>(
    world: &W,
    position: usize,
    socket: u32,
    goroutines: u32,
    ledger: &Ledger,
    found: &mut Vec<HeldReference>,
) -> Result<(), Memory>
    requires world { W.is_well_formed world.now }
    ensures items { IfOk result (λ _. found.new.items ≡ found.old.items
        ++ held_of_goroutines position (W.world world.now) socket (holding_of ledger.now socket) goroutines) }
{
    for goroutine in 0..goroutines {
        let held = ledger.holding_of(socket, goroutine);
        add_held(world, position, socket, goroutine, held, found)?;
    }
    Ok(())
}

/// Appends all references to closed sockets in a world at this position, sorted by socket and then
/// by the goroutine that holds the reference. Looks at the first `sockets` sockets and the first
/// `goroutines` goroutines. Fails with `Memory` if memory runs out.
pub fn list_held_references<W: Worlds>(
    world: &W,
    position: usize,
    sockets: u32,
    goroutines: u32,
    ledger: &Ledger,
    found: &mut Vec<HeldReference>,
) -> Result<(), Memory>
    requires world { W.is_well_formed world.now }
    ensures { IfOk result (λ _. found.new.items ≡ found.old.items
        ++ held_of_sockets position (W.world world.now) (holding_of ledger.now) goroutines sockets) }
{
    for socket in 0..sockets {
        if is_unfreed(world, socket) {
            add_holders(world, position, socket, goroutines, ledger, found)?;
        }
    }
    Ok(())
}
