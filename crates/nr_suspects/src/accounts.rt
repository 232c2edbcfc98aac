//! The accounts of all descriptors, which are updated with each step of a recording.

ghost use Rattle.std.specs.Prelude.{◌≡◌, ◌≤◌, ◌<◌, IfOk, None, length, replicate};
ghost use Rattle.nr_suspects.specs.Accounts.{IsNoted, IsNotedAt, IsTryNoted, kept_of};

use crate::account::{Account, account_after};
use crate::notice::Notice;
use nr_rev::{Memory, Side};
use std::alloc::Global;
use std::marker::Model;

/// The account of each descriptor, with a place for each number that a descriptor may have.
#[derive(Drop)]
pub struct Accounts {
    accounts: Vec<Option<Account>>,
}

impl Model for Accounts {
    ghost use Rattle.std.specs.Prelude.{List, Option};
    ghost use Rattle.nr_suspects.specs.declared.account.Account.{Account};

    ghost Value = { List (Option Account) };

    ghost view = { λ n. n.accounts.items };
}

impl Accounts {
    /// Makes the accounts of this many descriptors, none of which has been opened. Fails with `Memory` if memory runs
    /// out.
    pub fn new(alloc: Global, descriptors: u32) -> Result<Accounts, Memory>
        ensures { IfOk result (λ accounts. accounts ≡ replicate descriptors None) }
    {
        let accounts = vec![in alloc; None; descriptors as usize]?;
        Ok(Accounts { accounts })
    }

    /// Returns the number of places.
    pub fn len(&self) -> usize
        ensures { result ≡ length self.now }
    {
        self.accounts.len()
    }

    /// Returns the account of the descriptor, or `None` if it has no place or was never opened.
    pub fn of(&self, descriptor: u32) -> Option<Account>
        ensures { result ≡ kept_of self.now descriptor }
    {
        *self.accounts.get(descriptor as usize)?
    }

    /// Updates each account with the notice of this step.
    pub fn note(&mut self, step: usize, notice: Notice)
        ensures { IsNoted step notice self.old self.new }
    {
        match notice {
            Notice::Opened { descriptor, .. }
            | Notice::Event { descriptor, .. }
            | Notice::SetDeadline { descriptor, .. }
            | Notice::PassedDeadline { descriptor, .. } => self.note_at(descriptor, step, notice),
            Notice::TookReadiness(visit) | Notice::Checked { visit, .. } => {
                self.note_at(visit.descriptor, step, notice)
            }
            Notice::Tried { socket, side } => self.note_try(socket, side),
            _ => {}
        }
    }

    // Updates the account of one descriptor.
    fn note_at(&mut self, descriptor: u32, step: usize, notice: Notice)
        ensures { IsNotedAt descriptor step notice self.old self.new }
    {
        let at = descriptor as usize;
        if at < self.accounts.len() {
            self.accounts[at] = account_after(step, descriptor, notice, self.accounts[at]);
        }
    }

    // Updates each account with the notice that a read or a write of the socket was answered
    // `Again`.
    fn note_try(&mut self, socket: u32, side: Side)
        ensures { IsTryNoted socket side self.old self.new }
    {
        for account in self.accounts.iter_mut() {
            *account = account_after(0, 0, Notice::Tried { socket, side }, *account);
        }
    }
}
