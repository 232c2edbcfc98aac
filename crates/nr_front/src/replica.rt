//! A replica: a debugger over a film, and a walker that goes to the debugger's position for queries about the world.

ghost use Rattle.std.specs.Prelude.{◌≡◌, ◌≤◌, IfOk, OnErr, OnOk};
ghost use Rattle.nr_command.specs.Debugger.{Searches, opening, run, query_reply};
ghost use Rattle.nr_front.specs.Auxiliary.Replica.{LookIsRefused, after_look, at_start};
ghost use Rattle.nr_walker.specs.declared.walker.TheConstants.{LEAST_DEPTH, MOST_DEPTH};

use nr_command::{Command, Debugger, Query, Reply};
use nr_rev::{Memory, Worlds};
use nr_search::Finder;
use nr_snaps::Film;
use nr_walker::Walker;
use std::alloc::Global;
use std::marker::Model;

/// A debugger over a film, with a walker of its own. Contracts describe it by the film's recording,
/// the number of workers, the debugger and the state of the walker.
#[derive(Drop)]
pub struct Replica<'f, W: Worlds + Drop + Sync, F: Finder>
where
    W::Delta: Drop,
    W::Snapshot: Drop + Sync,
{
    debugger: Debugger,
    walker: Walker<'f, W>,
    finder: F,
}

impl<'f, W: Worlds + Drop + Sync, F: Finder> Model for Replica<'f, W, F>
where
    W::Delta: Drop,
    W::Snapshot: Drop + Sync,
{
    ghost use Rattle.std.specs.Prelude.{length};
    ghost use Rattle.nr_command.specs.Auxiliary.Debugger.{IsWithin};
    ghost use Rattle.nr_front.specs.Auxiliary.Replica.{ReplicaState, walker_state_of};

    ghost Value = { ReplicaState };

    ghost view = { λ s. record {
      recording = s.walker.film.recording;
      workers = F.count s.finder;
      debugger = s.debugger;
      walker_state = walker_state_of s.walker;
    } };

    ghost invariant = { λ s. IsWithin (length s.walker.film.recording.steps) s.debugger };
}

impl<'f, W: Worlds + Drop + Sync, F: Finder + Drop> Replica<'f, W, F>
where
    W::Delta: Drop,
    W::Snapshot: Drop + Sync,
{
    /// Makes a replica at position 0, whose walker keeps the deltas of its last `depth` steps. Allocates memory for a
    /// copy of the film's first world, and for the deltas.
    pub fn new(
        alloc: Global,
        film: &'f Film<W>,
        finder: F,
        depth: usize,
    ) -> Result<Replica<'f, W, F>, Memory>
        requires least { LEAST_DEPTH ≤ depth }
        requires most { depth ≤ MOST_DEPTH }
        ensures { IfOk result (λ replica. replica ≡ record {
          recording = film.now.recording;
          workers = F.count finder;
          debugger = opening;
          walker_state = at_start film.now.every depth;
        }) }
    {
        let walker = Walker::new(alloc, film, depth)?;
        Ok(Replica {
            debugger: Debugger::new(),
            walker,
            finder,
        })
    }
}

impl<'f, W: Worlds + Drop + Sync, F: Finder> Replica<'f, W, F>
where
    W::Delta: Drop,
    W::Snapshot: Drop + Sync,
{
    /// Runs a command. The walker doesn't move. Only a command that searches can run out of memory,
    /// and such a failure changes nothing.
    pub(crate) fn exec(&mut self, command: Command) -> Result<Reply, Memory>
        ensures recording { self.new.recording ≡ self.old.recording }
        ensures workers { self.new.workers ≡ self.old.workers }
        ensures walker_state { self.new.walker_state ≡ self.old.walker_state }
        ensures ok { IfOk result (λ reply. (reply, self.new.debugger)
            ≡ run self.old.recording command self.old.debugger) }
        ensures unchanged { OnErr result (self.new.debugger ≡ self.old.debugger) }
        ensures memory { OnErr result (Searches self.old.recording command self.old.debugger) }
    {
        self.debugger
            .exec(self.walker.film(), &self.finder, command)
    }

    /// Answers a query at the debugger's position. For a query about the world, it first moves the
    /// walker there. Fails with `Memory` if memory runs out while the walker moves, or for a dump
    /// that isn't empty. Nothing but the walker changes, even if the call fails.
    pub(crate) fn look(&mut self, query: Query) -> Result<Reply, Memory>
        ensures recording { self.new.recording ≡ self.old.recording }
        ensures workers { self.new.workers ≡ self.old.workers }
        ensures debugger { self.new.debugger ≡ self.old.debugger }
        ensures ok { IfOk result (λ reply. reply
            ≡ query_reply self.old.recording self.old.debugger query) }
        ensures led { OnOk result (self.new.walker_state ≡ after_look query self.old) }
        ensures memory { OnErr result (LookIsRefused query self.old self.new.walker_state) }
    {
        if !query.is_at_world() {
            return Ok(self.debugger.look_within(self.walker.film(), query));
        }
        self.walker.goto(self.debugger.position())?;
        self.debugger
            .look_at_world(self.walker.film(), self.walker.world(), query)
    }
}
