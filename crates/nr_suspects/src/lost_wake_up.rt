//! Lost wake-ups: a goroutine is parked at a side although an event came for the side, and no read
//! or write at that side has been answered `Again` since.

ghost use Rattle.std.specs.Prelude.{◌≡◌, ◌++◌, ◌≤◌, ◌<◌, ◌+◌, length, option_and_then};
ghost use Rattle.nr_rev.specs.Sides.{of_side};
ghost use Rattle.nr_text.specs.Buffered.{Writes};
ghost use Rattle.nr_suspects.specs.LostWakeUps.{event_text, lost_at, lost_below, lost_by, lost_line, side_letter, taken_text};
ghost use Rattle.nr_suspects.specs.Accounts.{kept_of};

use crate::account::Account;
use crate::accounts::Accounts;
use crate::notice::word_cell;
use crate::setting::StepBy;
use arrayvec::ArrayVec;
use nr_rev::{CellValue, Side, WaitWord, Worlds};
use nr_text::{Buffered, Text, Token, WriteFailed, send_all};
use std::io::Write;

/// The maximum number of lost wake-ups: one for each side of each descriptor.
pub const MOST_LOST: usize = 512;

/// A goroutine that is parked at a descriptor's side although an event came for the side. Since the event, no read or
/// write of the socket at that side has been answered `Again`, and the descriptor hasn't been reopened.
#[derive(Clone, Copy, Debug, PartialEq, Eq)]
pub struct LostWakeUp {
    /// The position at which the goroutine is parked.
    pub position: usize,
    /// The goroutine.
    pub goroutine: u32,
    /// The descriptor.
    pub descriptor: u32,
    /// The side.
    pub side: Side,
    /// The number of the event's step, counted from 1.
    pub event: usize,
    /// The step that consumed the event's readiness notification, if a step did.
    pub taken: Option<StepBy>,
}

/// The value in the unused places of a list.
impl Default for LostWakeUp {
    fn default() -> LostWakeUp {
        LostWakeUp {
            position: 0,
            goroutine: 0,
            descriptor: 0,
            side: Side::Read,
            event: 0,
            taken: None,
        }
    }
}

/// Returns the printed name of a side.
pub(crate) fn side_name(side: Side) -> &'static [u8]
    ensures { result.now ≡ side_letter side }
{
    match side {
        Side::Read => b" r",
        Side::Write => b" w",
    }
}

// Writes which step consumed the readiness notification, if a step did.
fn send_taken<W: Write>(taken: Option<StepBy>, w: &mut Buffered<W>) -> Result<(), WriteFailed>
    ensures { Writes w.old w.new (taken_text taken) result }
{
    match taken {
        None => w.send(b""),
        Some(taken) => send_all(
            &[
                Token::Text(b" taken "),
                Token::Number(taken.step as u64),
                Token::Text(b" by "),
                Token::Number(taken.goroutine as u64),
            ],
            w,
        ),
    }
}

impl LostWakeUp {
    // Writes the line up to the event.
    fn send_event<W: Write>(&self, w: &mut Buffered<W>) -> Result<(), WriteFailed>
        ensures { Writes w.old w.new (event_text self.now) result }
    {
        send_all(
            &[
                Token::Text(b"at "),
                Token::Number(self.position as u64),
                Token::Text(b" lost-wakeup gor "),
                Token::Number(self.goroutine as u64),
                Token::Text(b" desc "),
                Token::Number(self.descriptor as u64),
                Token::Text(side_name(self.side)),
                Token::Text(b" event "),
                Token::Number(self.event as u64),
            ],
            w,
        )
    }
}

/// Prints as the line `at 71 lost-wakeup gor 2 desc 0 r event 60 taken 66 by 2`.
impl Text for LostWakeUp {
    ghost text = { lost_line };

    fn send<W: Write>(&self, w: &mut Buffered<W>) -> Result<(), WriteFailed> {
        self.send_event(w)?;
        send_taken(self.taken, w)?;
        w.send(b"\n")
    }
}

/// A list of lost wake-ups that allocates no memory.
pub type LostWakeUps = ArrayVec<LostWakeUp, MOST_LOST>;

// Appends the lost wake-up at the side of the descriptor, if there is one. `account` is the
// descriptor's account.
fn add_lost<W: Worlds>(
    world: &W,
    position: usize,
    descriptor: u32,
    side: Side,
    account: Option<Account>,
    found: &mut LostWakeUps,
)
    requires world { W.is_well_formed world.now }
    requires room { length found.old.items < 512 }
    ensures items { found.new.items ≡ found.old.items ++ lost_at position (W.world world.now) descriptor account side }
    ensures few { length found.new.items ≤ length found.old.items + 1 }
{
    let Some(account) = account else {
        return;
    };
    let Some(debt) = account.debts.of(side) else {
        return;
    };
    if let CellValue::WaitWord(WaitWord::Held(goroutine)) = world.cell(word_cell(
        descriptor, side,
    )) {
        found.push(LostWakeUp {
            position,
            goroutine,
            descriptor,
            side,
            event: debt.event,
            taken: debt.taken,
        });
    }
}

/// Replaces the list's contents with the lost wake-ups in a world at this position, sorted by
/// descriptor, with the read side first.
pub fn list_lost_wake_ups<W: Worlds>(
    world: &W,
    position: usize,
    accounts: &Accounts,
    found: &mut LostWakeUps,
)
    requires world { W.is_well_formed world.now }
    requires few { length accounts.now ≤ 256 }
    ensures { found.new.items
        ≡ lost_below position (W.world world.now) (kept_of accounts.now) (length accounts.now) }
{
    found.clear();
    for descriptor in 0..accounts.len() as u32 {
        let account = accounts.of(descriptor);
        add_lost(world, position, descriptor, Side::Read, account, found);
        add_lost(world, position, descriptor, Side::Write, account, found);
    }
}
