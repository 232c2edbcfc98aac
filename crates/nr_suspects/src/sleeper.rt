//! Goroutines that sleep although they should have been woken.

ghost use Rattle.std.specs.Prelude.{◌≡◌, ◌++◌, ◌≤◌, ◌<◌, ◌+◌, length, option_and_then};
ghost use Rattle.nr_rev.specs.Cell.{cell};
ghost use Rattle.nr_suspects.specs.Accounts.{kept_of};
ghost use Rattle.nr_suspects.specs.Notices.{has_passed};
ghost use Rattle.nr_suspects.specs.Peers.{peer_in};
ghost use Rattle.nr_suspects.specs.Sleepers.{code_of_info, number_or_zero, reason_by_cells, reason_of_account, reason_of_code, reason_text, reason_to_read, reason_to_write, sleeper_at, sleeper_line, sleepers_below, reason_kept};
ghost use Rattle.nr_rev.specs.declared.cell.Cell.{Cell as CellNames};

use crate::account::Account;
use crate::accounts::Accounts;
use crate::lost_wake_up::side_name;
use crate::notice::{has_passed, word_cell};
use crate::peer::Peer;
use crate::peers::Peers;
use arrayvec::ArrayVec;
use nr_rev::{Cell, CellValue, Side, WaitWord, Worlds};
use nr_text::{Buffered, Text, Token, WriteFailed, send_all};
use std::io::Write;

/// The maximum number of sleepers: one for each side of each descriptor.
pub const MOST_SLEEPERS: usize = 512;

/// Why a goroutine that waits at a side should be woken.
#[derive(Clone, Copy, Debug, PartialEq, Eq)]
pub enum Reason {
    /// The descriptor is closing.
    Closing,
    /// The side's deadline has passed.
    Deadline,
    /// An event reported an error.
    Error,
    /// There are bytes to read.
    Bytes,
    /// All bytes were read, and the peer has closed.
    End,
    /// The write side is shut.
    Shut,
    /// There is room to write.
    Room,
}

/// A goroutine that is parked at a descriptor's side although it should have been woken.
#[derive(Clone, Copy, Debug, PartialEq, Eq)]
pub struct Sleeper {
    /// The position at which the goroutine is parked.
    pub position: usize,
    /// The goroutine.
    pub goroutine: u32,
    /// The descriptor.
    pub descriptor: u32,
    /// The side.
    pub side: Side,
    /// Why the goroutine should have been woken.
    pub reason: Reason,
}

/// The value in the unused places of a list.
impl Default for Sleeper {
    fn default() -> Sleeper {
        Sleeper {
            position: 0,
            goroutine: 0,
            descriptor: 0,
            side: Side::Read,
            reason: Reason::Closing,
        }
    }
}

// Returns the printed name of a reason.
fn reason_name(reason: Reason) -> &'static [u8]
    ensures { result.now ≡ reason_text reason }
{
    match reason {
        Reason::Closing => b"closing",
        Reason::Deadline => b"deadline",
        Reason::Error => b"error",
        Reason::Bytes => b"bytes",
        Reason::End => b"end",
        Reason::Shut => b"shut",
        Reason::Room => b"room",
    }
}

/// Prints as the line `at 71 asleep gor 2 desc 0 r because bytes`.
impl Text for Sleeper {
    ghost text = { sleeper_line };

    fn send<W: Write>(&self, w: &mut Buffered<W>) -> Result<(), WriteFailed> {
        send_all(
            &[
                Token::Text(b"at "),
                Token::Number(self.position as u64),
                Token::Text(b" asleep gor "),
                Token::Number(self.goroutine as u64),
                Token::Text(b" desc "),
                Token::Number(self.descriptor as u64),
                Token::Text(side_name(self.side)),
                Token::Text(b" because "),
                Token::Text(reason_name(self.reason)),
                Token::Text(b"\n"),
            ],
            w,
        )
    }
}

/// A list of sleepers that allocates no memory.
pub type Sleepers = ArrayVec<Sleeper, MOST_SLEEPERS>;

// Returns the number in a cell's value, or 0 if it isn't a number.
fn number_or_zero(value: CellValue) -> u64
    ensures { result ≡ number_or_zero value }
{
    match value {
        CellValue::Number(number) => number,
        _ => 0,
    }
}

// Returns the code that a check of this side gets.
fn code_of<W: Worlds>(world: &W, descriptor: u32, side: Side) -> u32
    requires { W.is_well_formed world.now }
    ensures { result ≡ code_of_info side (number_or_zero (cell (W.world world.now) (CellNames.Info descriptor)))
        (has_passed (W.world world.now) descriptor side) }
{
    let info = number_or_zero(world.cell(Cell::Info(descriptor)));
    if info % 2 == 1 {
        1
    } else if has_passed(world, descriptor, side) {
        2
    } else if matches!(side, Side::Read) && info / 2 % 2 == 1 {
        3
    } else {
        0
    }
}

// Returns why a check with this code ends a wait.
fn reason_of_code(code: u32) -> Option<Reason>
    ensures { result ≡ reason_of_code code }
{
    match code {
        1 => Some(Reason::Closing),
        2 => Some(Reason::Deadline),
        3 => Some(Reason::Error),
        _ => None,
    }
}

// Returns why a read would be answered with bytes or with the end of the input.
fn reason_to_read(bytes: u64, is_closed: bool) -> Option<Reason>
    ensures { result ≡ reason_to_read bytes is_closed }
{
    if 0 < bytes {
        Some(Reason::Bytes)
    } else if is_closed {
        Some(Reason::End)
    } else {
        None
    }
}

// Returns why a write would be answered at once.
fn reason_to_write(is_shut: bool, room: u64) -> Option<Reason>
    ensures { result ≡ reason_to_write is_shut room }
{
    if is_shut {
        Some(Reason::Shut)
    } else if 0 < room {
        Some(Reason::Room)
    } else {
        None
    }
}

// Returns the reason why a goroutine should stop waiting at this side of the socket. `peer` is the
// socket's other end.
fn reason_of_socket<W: Worlds>(world: &W, socket: u32, side: Side, peer: Peer) -> Option<Reason>
    requires { W.is_well_formed world.now }
    ensures { result ≡ reason_by_cells (W.world world.now) socket side peer }
{
    match side {
        Side::Read => reason_to_read(
            number_or_zero(world.cell(Cell::Input(socket))),
            peer.is_closed,
        ),
        Side::Write => {
            let is_shut = number_or_zero(world.cell(Cell::Shut(socket))) == 1;
            let written = number_or_zero(world.cell(Cell::Output(socket)));
            reason_to_write(is_shut, (peer.capacity as u64).saturating_sub(written))
        }
    }
}

// Returns why a goroutine at the side of the descriptor with this account should be woken.
fn reason_of<W: Worlds>(
    world: &W,
    descriptor: u32,
    side: Side,
    account: Account,
    peers: &Peers,
) -> Option<Reason>
    requires { W.is_well_formed world.now }
    ensures { result ≡ reason_of_account (W.world world.now) descriptor side (peer_in peers.now) account }
{
    match reason_of_code(code_of(world, descriptor, side)) {
        Some(reason) => Some(reason),
        None => {
            let peer = peers.of(account.socket)?;
            reason_of_socket(world, account.socket, side, peer)
        }
    }
}

// Appends the goroutine that sleeps at a descriptor's side, if it should have been woken.
fn add_sleeper<W: Worlds>(
    world: &W,
    position: usize,
    descriptor: u32,
    side: Side,
    account: Option<Account>,
    peers: &Peers,
    found: &mut Sleepers,
)
    requires world { W.is_well_formed world.now }
    requires room { length found.old.items < 512 }
    ensures items { found.new.items ≡ found.old.items ++ sleeper_at position (W.world world.now) descriptor side
        (option_and_then (reason_of_account (W.world world.now) descriptor side (peer_in peers.now)) account) }
    ensures few { length found.new.items ≤ length found.old.items + 1 }
{
    let Some(account) = account else {
        return;
    };
    let Some(reason) = reason_of(world, descriptor, side, account, peers) else {
        return;
    };
    if let CellValue::WaitWord(WaitWord::Held(goroutine)) = world.cell(word_cell(
        descriptor, side,
    )) {
        found.push(Sleeper {
            position,
            goroutine,
            descriptor,
            side,
            reason,
        });
    }
}

/// Replaces the list's contents with the sleepers in a world at this position, sorted by
/// descriptor, with the read side first.
pub fn list_sleepers<W: Worlds>(
    world: &W,
    position: usize,
    accounts: &Accounts,
    peers: &Peers,
    found: &mut Sleepers,
)
    requires world { W.is_well_formed world.now }
    requires few { length accounts.now ≤ 256 }
    ensures { found.new.items
        ≡ sleepers_below position (W.world world.now)
        (reason_kept (W.world world.now) (kept_of accounts.now) (peer_in peers.now)) (length accounts.now) }
{
    found.clear();
    for descriptor in 0..accounts.len() as u32 {
        let account = accounts.of(descriptor);
        add_sleeper(
            world,
            position,
            descriptor,
            Side::Read,
            account,
            peers,
            found,
        );
        add_sleeper(
            world,
            position,
            descriptor,
            Side::Write,
            account,
            peers,
            found,
        );
    }
}
