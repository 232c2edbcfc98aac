//! A front: one user's replica of the shared session.

ghost use Rattle.std.specs.Prelude.{◌≡◌, ◌≤◌, [], IfOk, IfErr};
ghost use Rattle.nr_walker.specs.declared.walker.TheConstants.{LEAST_DEPTH, MOST_DEPTH};
ghost use Rattle.nr_front.specs.Auxiliary.FrontState.{opened_front, pass_of};
ghost use Rattle.nr_front.specs.Front.{Executes, IsSame, IsUnmoved, Looks, Resumes};
ghost use Rattle.nr_front.specs.Auxiliary.Replica.{at_start};

use crate::fault::FrontFault;
use crate::pending::Pending;
use crate::replica::Replica;
use nr_command::{Command, Query, Reply};
use nr_journal::{Journal, Pass};
use nr_rev::{Memory, Worlds};
use nr_search::Finder;
use nr_snaps::Film;
use std::alloc::Global;
use std::marker::Model;

/// One user's replica: a pass of the journal, and a machine that runs the words that the pass
/// reads. Contracts describe it by its journal, its recording, the number of workers, the states of
/// its walker and its pass, and the command that the machine hasn't run yet.
#[derive(Drop)]
pub struct Front<'f, W: Worlds + Drop + Sync, F: Finder>
where
    W::Delta: Drop,
    W::Snapshot: Drop + Sync,
{
    pub(crate) pass: Pass,
    pub(crate) replica: Replica<'f, W, F>,
    pub(crate) pending: Pending,
}

impl<'f, W: Worlds + Drop + Sync, F: Finder> Model for Front<'f, W, F>
where
    W::Delta: Drop,
    W::Snapshot: Drop + Sync,
{
    ghost use Rattle.nr_front.specs.FrontState.{FrontState, IsAt};
    ghost use Rattle.nr_front.specs.Auxiliary.FrontState.{HasCompany, pending_command};

    ghost Value = { FrontState };

    ghost view = { λ f. record {
      table = f.pass.table;
      recording = f.replica.recording;
      workers = f.replica.workers;
      walker_state = f.replica.walker_state;
      pass_state = f.pass.pass_state;
      pending = f.pending;
    } };

    ghost invariant = { λ f. IsAt f.replica.recording f.pass.pass_state.seen (pending_command f.pending)
        f.replica.debugger × HasCompany f.pending f.pass.pass_state.passes };
}

impl<'f, W: Worlds + Drop + Sync, F: Finder> Front<'f, W, F>
where
    W::Delta: Drop,
    W::Snapshot: Drop + Sync,
{
    /// Runs the commands that other users have placed so far, places this command, and runs it at
    /// its index. Returns the reply of a debugger that has run the words of the journal up to that
    /// index.
    ///
    /// Fails with `Memory` if another user's command runs out of memory while searching; this
    /// command isn't placed. Fails with `Placed` if this command runs out of memory; it is in the
    /// journal, and `resume` returns its reply. While a reply is owed, does nothing and fails with
    /// `Placed`. Fails with `Full`, after running all words, if the journal is full.
    pub fn exec(&mut self, journal: &Journal, command: Command) -> Result<Reply, FrontFault>
        requires { self.old.table ≡ journal.now }
        ensures same { IsUnmoved self.old self.new }
        ensures executes { Executes command self.old self.new result }
    {
        if self.owed_command().is_some() {
            return Err(FrontFault::Placed(self.place()));
        }
        self.catch_up(journal)?;
        // (With `?`, the prover wouldn't know that the fault is unchanged.)
        if let Err(fault) = self.offer_until_placed(journal, command) {
            return Err(fault);
        }
        match self.run(command) {
            Ok(reply) => Ok(reply),
            Err(_) => Err(FrontFault::Placed(self.place())),
        }
    }

    /// Runs the commands of other users until the journal has no further word, and then answers the
    /// query. Places no word.
    ///
    /// A query about the world, which is `print` or `dump`, moves the walker to the debugger's
    /// position. Fails with `Memory` if another user's command runs out of memory while searching,
    /// if the walker runs out of memory on its way (see `Walker::goto`), or if a dump that isn't
    /// empty runs out of memory. So a query about the debugger itself fails with `Memory` only if
    /// another user's command runs out of memory. While a reply is owed, does nothing and fails
    /// with `Placed`.
    pub fn look(&mut self, journal: &Journal, query: Query) -> Result<Reply, FrontFault>
        requires { self.old.table ≡ journal.now }
        ensures same { IsSame self.old self.new }
        ensures looks { Looks query self.old self.new result }
    {
        if self.owed_command().is_some() {
            return Err(FrontFault::Placed(self.place()));
        }
        self.catch_up(journal)?;
        Ok(self.look_here(query)?)
    }

    /// Returns the owed reply and stops owing it, or returns `None` if no reply is owed. If the
    /// command runs out of memory again, `resume` fails with `Placed` and the same index, and the
    /// reply is still owed.
    pub fn resume(&mut self) -> Result<Option<Reply>, FrontFault>
        ensures same { IsUnmoved self.old self.new }
        ensures resumes { Resumes self.old self.new result }
    {
        let Some(command) = self.owed_command() else {
            return Ok(None);
        };
        let place = self.place();
        match self.run(command) {
            Ok(reply) => Ok(Some(reply)),
            Err(_) => Err(FrontFault::Placed(place)),
        }
    }
}

impl<'f, W: Worlds + Drop + Sync, F: Finder + Drop> Front<'f, W, F>
where
    W::Delta: Drop,
    W::Snapshot: Drop + Sync,
{
    /// Makes a front over a film, at its first position, with a walker that keeps the deltas of its
    /// last `depth` steps. The pass has read no word. If memory runs out, returns the pass with the
    /// error.
    pub fn new(
        alloc: Global,
        pass: Pass,
        film: &'f Film<W>,
        finder: F,
        depth: usize,
    ) -> Result<Front<'f, W, F>, (Pass, Memory)>
        requires unseen { pass.pass_state.seen ≡ [] }
        requires least { LEAST_DEPTH ≤ depth }
        requires most { depth ≤ MOST_DEPTH }
        ensures ok { IfOk result (λ front. front
            ≡ opened_front pass film.now.recording (F.count finder)
            (at_start film.now.every depth)) }
        ensures err { IfErr result (λ refused. refused.0 ≡ pass) }
    {
        match Replica::new(alloc, film, finder, depth) {
            Ok(replica) => Ok(Front {
                pass,
                replica,
                pending: Pending::Nothing,
            }),
            Err(refused) => Err((pass, refused)),
        }
    }

    /// Returns the pass. A reply that is still owed is dropped; the command's word stays in the
    /// journal.
    pub fn end(self) -> Pass
        ensures { result ≡ pass_of self.entry }
    {
        let Front {
            pass,
            replica: _,
            pending: _,
        } = self;
        pass
    }
}
