//! The notebook takes notes while the steps of a recording are applied, and lists the suspects at
//! the recording's end.

ghost use Rattle.std.specs.Prelude.{◌≡◌, ◌++◌, ◌≤◌, [], IfOk, OnOk, length, replicate, None};
ghost use Rattle.nr_suspects.specs.Accounts.{IsNoted, kept_of};
ghost use Rattle.nr_suspects.specs.DeadlineFindings.{findings_at};
ghost use Rattle.nr_suspects.specs.Holdings.{AreHeld, CanCount, none_held};
ghost use Rattle.nr_suspects.specs.Peers.{ArePeersNoted};
ghost use Rattle.nr_suspects.specs.Suspects.{AreFound};

use crate::accounts::Accounts;
use crate::deadline_finding::{DeadlineFinding, add_findings};
use crate::held_reference::list_held_references;
use crate::ledger::Ledger;
use crate::lost_wake_up::{LostWakeUps, list_lost_wake_ups};
use crate::notice::Notice;
use crate::peers::Peers;
use crate::sleeper::{Sleepers, list_sleepers};
use crate::suspects::Suspects;
use nr_rev::{Limits, Memory, Worlds};
use std::alloc::Global;
use std::marker::Model;

/// The account of each descriptor, the other end of each socket, the ledger of references, and the findings about
/// deadlines so far.
#[derive(Drop)]
pub struct Notebook {
    accounts: Accounts,
    peers: Peers,
    ledger: Ledger,
    deadlines: Vec<DeadlineFinding>,
}

impl Model for Notebook {
    ghost use Rattle.nr_suspects.specs.Suspects.{Notes};

    ghost Value = { Notes };

    ghost view = { λ n. record { accounts = n.accounts; peers = n.peers; rows = n.ledger; deadlines = n.deadlines.items } };
}

impl Notebook {
    /// Makes the notebook of a recording with these limits, before its first step. Fails with `Memory` if memory runs
    /// out.
    pub fn new(alloc: Global, limits: &Limits) -> Result<Notebook, Memory>
        ensures accounts { IfOk result (λ notebook. notebook.accounts ≡ replicate limits.now.descriptors None) }
        ensures peers { IfOk result (λ notebook. notebook.peers ≡ replicate limits.now.sockets None) }
        ensures rows { IfOk result (λ notebook. notebook.rows
            ≡ replicate limits.now.sockets (replicate limits.now.goroutines none_held)) }
        ensures deadlines { IfOk result (λ notebook. notebook.deadlines ≡ []) }
    {
        let accounts = Accounts::new(alloc, limits.descriptors)?;
        let peers = Peers::new(alloc, limits.sockets)?;
        let ledger = Ledger::new(alloc, limits.sockets, limits.goroutines)?;
        Ok(Notebook {
            accounts,
            peers,
            ledger,
            deadlines: Vec::new(alloc),
        })
    }

    /// Updates the notes with the notice of this step. Fails with `Memory` if memory runs out.
    pub fn note(&mut self, step: usize, notice: Notice) -> Result<(), Memory>
        requires room { CanCount self.old.rows }
        ensures accounts { OnOk result (IsNoted step notice self.old.accounts self.new.accounts) }
        ensures peers { OnOk result (ArePeersNoted notice self.old.peers self.new.peers) }
        ensures rows { OnOk result (AreHeld step notice self.old.rows self.new.rows) }
        ensures deadlines { OnOk result (self.new.deadlines
            ≡ self.old.deadlines ++ findings_at step notice (kept_of self.old.accounts)) }
    {
        add_findings(step, notice, &self.accounts, &mut self.deadlines)?;
        self.accounts.note(step, notice);
        self.peers.note(notice);
        self.ledger.note(step, notice);
        Ok(())
    }

    /// Returns the findings in a world at this position of a recording with these limits. Fails with `Memory` if memory
    /// runs out.
    pub fn suspects<W: Worlds>(
        self,
        alloc: Global,
        world: &W,
        position: usize,
        limits: &Limits,
    ) -> Result<Suspects, Memory>
        requires world { W.is_well_formed world.now }
        requires few { length self.accounts ≤ 256 }
        ensures { IfOk result (AreFound position (W.world world.now) limits.now self) }
    {
        let Notebook {
            accounts,
            peers,
            ledger,
            deadlines,
        } = self;
        let mut lost = LostWakeUps::new();
        list_lost_wake_ups(world, position, &accounts, &mut lost);
        let mut asleep = Sleepers::new();
        list_sleepers(world, position, &accounts, &peers, &mut asleep);
        let mut held = Vec::new(alloc);
        list_held_references(
            world,
            position,
            limits.sockets,
            limits.goroutines,
            &ledger,
            &mut held,
        )?;
        Ok(Suspects {
            deadlines,
            lost,
            asleep,
            held,
        })
    }
}
