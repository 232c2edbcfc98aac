//! The account of a descriptor, with the debts of its sides.

ghost use Rattle.std.specs.Prelude.{◌≡◌, None, option_map};
ghost use Rattle.nr_rev.specs.Sides.{with_side};
ghost use Rattle.nr_suspects.specs.Debts.{account_after, noted, newly_opened, owed_by_event, taken_by, with_event, with_taking};

use crate::notice::{Notice, Visit};
use crate::setting::{Deadline, StepBy, after_passing, after_setting, looked_at};
use nr_rev::{Mode, Side, Sides};

/// The record that an event came for a side, and that no later read or write of the socket at that
/// side was answered `Again`.
#[derive(Clone, Copy, Debug, PartialEq, Eq)]
pub struct Debt {
    /// The number of the event's step, counted from 1.
    pub event: usize,
    /// The step that consumed the event's readiness notification, if a step did.
    pub taken: Option<StepBy>,
}

/// The account of a descriptor.
#[derive(Clone, Copy, Debug, PartialEq, Eq)]
pub struct Account {
    /// The socket for which the descriptor was last opened.
    pub socket: u32,
    /// The debts of the sides.
    pub debts: Sides<Option<Debt>>,
    /// The deadlines of the sides.
    pub deadlines: Sides<Deadline>,
}

impl Account {
    // Returns the account of a descriptor that was just opened for the socket.
    fn newly_opened(socket: u32) -> Account
        ensures { result ≡ newly_opened socket }
    {
        Account {
            socket,
            debts: Sides::twice(None),
            deadlines: Sides::twice(Deadline::NEVER_SET),
        }
    }

    // Returns the account after the step's event for these sides.
    fn with_event(self, step: usize, mode: Mode) -> Account
        ensures { result ≡ with_event step mode self }
    {
        Account {
            socket: self.socket,
            debts: Sides {
                read: owed_by_event(step, mode, Side::Read, self.debts.read),
                write: owed_by_event(step, mode, Side::Write, self.debts.write),
            },
            deadlines: self.deadlines,
        }
    }

    // Returns the account with this debt of the side in place of the old one.
    fn with_debt(self, side: Side, debt: Option<Debt>) -> Account
        ensures { result ≡ record self { debts = with_side side debt self.debts } }
    {
        Account {
            socket: self.socket,
            debts: self.debts.with(side, debt),
            deadlines: self.deadlines,
        }
    }

    // Returns the account with these deadlines in place of the old ones.
    fn with_deadlines(self, deadlines: Sides<Deadline>) -> Account
        ensures { result ≡ record self { deadlines = deadlines } }
    {
        Account {
            socket: self.socket,
            debts: self.debts,
            deadlines,
        }
    }

    // Returns the account after the visiting goroutine consumed its side's readiness notification
    // in the step.
    fn with_taking(self, step: usize, visit: Visit) -> Account
        ensures { result ≡ with_taking step visit self }
    {
        let taken = taken_by(step, visit.goroutine, self.debts.of(visit.side));
        self.with_debt(visit.side, taken)
            .with_deadlines(looked_at(visit.goroutine, visit.side, self.deadlines))
    }

    // Returns the account of the open descriptor after the step.
    fn noted(self, step: usize, descriptor: u32, notice: Notice) -> Account
        ensures { result ≡ noted step descriptor notice self }
    {
        match notice {
            Notice::Event {
                descriptor: named,
                mode,
            } if descriptor == named => self.with_event(step, mode),
            Notice::Tried { socket, side } if self.socket == socket => self.with_debt(side, None),
            Notice::TookReadiness(visit) if descriptor == visit.descriptor => {
                self.with_taking(step, visit)
            }
            Notice::Checked { visit, .. } if descriptor == visit.descriptor => {
                self.with_deadlines(looked_at(visit.goroutine, visit.side, self.deadlines))
            }
            Notice::SetDeadline {
                goroutine,
                descriptor: named,
                mode,
            } if descriptor == named => {
                self.with_deadlines(after_setting(step, goroutine, mode, self.deadlines))
            }
            Notice::PassedDeadline {
                descriptor: named,
                passings,
            } if descriptor == named => self.with_deadlines(after_passing(
                passings,
                self.deadlines,
            )),
            _ => self,
        }
    }
}

// Returns the debt of a side after the step's event.
fn owed_by_event(step: usize, mode: Mode, side: Side, debt: Option<Debt>) -> Option<Debt>
    ensures { result ≡ owed_by_event step mode side debt }
{
    if mode.names(side) {
        Some(Debt {
            event: step,
            taken: None,
        })
    } else {
        debt
    }
}

// Returns the debt, if any, after the goroutine consumed the event's readiness notification in the
// step.
fn taken_by(step: usize, goroutine: u32, debt: Option<Debt>) -> Option<Debt>
    ensures { result ≡ option_map (taken_by step goroutine) debt }
{
    let debt = debt?;
    Some(Debt {
        event: debt.event,
        taken: Some(StepBy { step, goroutine }),
    })
}

// Returns the account of the descriptor after the step.
pub(crate) fn account_after(
    step: usize,
    descriptor: u32,
    notice: Notice,
    account: Option<Account>,
) -> Option<Account>
    ensures { result ≡ account_after step descriptor notice account }
{
    if let Notice::Opened {
        descriptor: opened,
        socket,
    } = notice
    {
        return if descriptor == opened {
            Some(Account::newly_opened(socket))
        } else {
            account
        };
    }
    let account = account?;
    Some(account.noted(step, descriptor, notice))
}
