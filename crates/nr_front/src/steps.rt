//! The parts of a front's calls.

ghost use Rattle.std.specs.Prelude.{◌≡◌, Some, None, IfOk, OnOk, OnErr};
ghost use Rattle.nr_command.specs.Debugger.{query_reply};
ghost use Rattle.nr_front.specs.Auxiliary.FrontState.{HasCompany, RepliesLast, SearchIsPending, pending_command, replica_of, owed_command, last_place};
ghost use Rattle.nr_front.specs.Front.{CatchesAll, IsRefusedMemory, without_pending, with_walker_state};
ghost use Rattle.nr_front.specs.Auxiliary.Replica.{LookIsRefused, after_look};
ghost use Rattle.nr_front.specs.Steps.{HasSeenAll, OffersCommand, Placing, Sees};
ghost use Rattle.nr_front.specs.declared.pending.Pending.TheVariants.{Nothing};

use crate::fault::FrontFault;
use crate::front::Front;
use crate::pending::Pending;
use nr_command::{Command, Query, Reply};
use nr_journal::{Journal, Offered};
use nr_rev::{Memory, Worlds};
use nr_search::Finder;

impl<'f, W: Worlds + Drop + Sync, F: Finder> Front<'f, W, F>
where
    W::Delta: Drop,
    W::Snapshot: Drop + Sync,
{
    /// Returns the command whose reply is owed.
    pub(crate) fn owed_command(&self) -> Option<Command>
        ensures { result ≡ owed_command self.now }
    {
        self.pending.own()
    }

    /// Returns the index of the last word read, counted from 1.
    pub(crate) fn place(&self) -> usize
        ensures { result ≡ last_place self.now }
    {
        self.pass.seen()
    }

    /// Runs the pending command. If memory runs out, nothing changes.
    pub(crate) fn run(&mut self, command: Command) -> Result<Reply, Memory>
        requires { pending_command self.old.pending ≡ Some command }
        ensures without_pending { OnOk result (self.new ≡ without_pending self.old) }
        ensures reply { IfOk result (RepliesLast self.old command) }
        ensures unchanged { OnErr result (self.new ≡ self.old) }
        ensures memory { OnErr result (SearchIsPending self.old) }
        ensures company { HasCompany self.old.pending self.old.pass_state.passes }
    {
        let reply = self.replica.exec(command)?;
        self.pending = Pending::Nothing;
        Ok(reply)
    }

    /// Runs the pending command, if there is one. If memory runs out, nothing changes.
    fn run_pending(&mut self) -> Result<(), Memory>
        ensures without_pending { OnOk result (self.new ≡ without_pending self.old) }
        ensures unchanged { OnErr result (self.new ≡ self.old) }
        ensures memory { OnErr result (SearchIsPending self.old) }
        ensures company { HasCompany self.old.pending self.old.pass_state.passes }
    {
        match self.pending.command() {
            Some(command) => self.run_unanswered(command),
            None => Ok(()),
        }
    }

    /// Runs the pending command, and drops its reply. If memory runs out, nothing changes.
    fn run_unanswered(&mut self, command: Command) -> Result<(), Memory>
        requires { pending_command self.old.pending ≡ Some command }
        ensures without_pending { OnOk result (self.new ≡ without_pending self.old) }
        ensures unchanged { OnErr result (self.new ≡ self.old) }
        ensures memory { OnErr result (SearchIsPending self.old) }
        ensures company { HasCompany self.old.pending self.old.pass_state.passes }
    {
        self.run(command)?;
        Ok(())
    }

    /// Answers a query with the debugger, which has run the words read so far. Only the walker
    /// moves, and only for a query about the world.
    pub(crate) fn look_here(&mut self, query: Query) -> Result<Reply, Memory>
        requires { self.old.pending ≡ Nothing }
        ensures moved { self.new ≡ with_walker_state self.new.walker_state self.old }
        ensures ok { IfOk result (λ reply. reply
            ≡ query_reply self.old.recording (replica_of self.old).debugger query) }
        ensures led { OnOk result (self.new.walker_state ≡ after_look query (replica_of self.old)) }
        ensures memory { OnErr result (LookIsRefused query (replica_of self.old) self.new.walker_state) }
    {
        self.replica.look(query)
    }

    /// Reads the next word, if there is one, and makes its command pending. Returns whether there
    /// was a word.
    fn see(&mut self, journal: &Journal) -> bool
        requires table { self.old.table ≡ journal.now }
        requires without_pending { self.old.pending ≡ Nothing }
        ensures { Sees self.old self.new result }
    {
        match journal.next(&mut self.pass) {
            Some(word) => {
                self.pending = Pending::at(word);
                true
            }
            None => false,
        }
    }

    /// Reads words and runs their commands until it finds no further word or has read a full
    /// journal.
    pub(crate) fn catch_up(&mut self, journal: &Journal) -> Result<(), Memory>
        requires table { self.old.table ≡ journal.now }
        requires unowed { owed_command self.old ≡ None }
        ensures ok { OnOk result (CatchesAll self.old self.new) }
        ensures err { OnErr result (IsRefusedMemory self.old self.new) }
    {
        loop {
            self.run_pending()?;
            if !self.see(journal) {
                return Ok(());
            }
        }
    }

    /// Offers the command's word once. Afterwards, this command is pending, or the command of the
    /// word that took its place.
    fn offer(&mut self, journal: &Journal, command: Command) -> Offered
        requires table { self.old.table ≡ journal.now }
        requires without_pending { self.old.pending ≡ Nothing }
        ensures { OffersCommand command self.old self.new result }
    {
        let word = command.to_word(self.pass.tag());
        let offered = journal.offer(&mut self.pass, word);
        match offered {
            Offered::Placed => self.pending = Pending::Own(command),
            Offered::Lost(word) => self.pending = Pending::at(word),
            Offered::Full => {}
        }
        offered
    }

    /// Offers the command's word until it is placed, and runs the commands of the words that took
    /// its place in the meantime.
    pub(crate) fn offer_until_placed(
        &mut self,
        journal: &Journal,
        command: Command,
    ) -> Result<(), FrontFault>
        requires table { self.old.table ≡ journal.now }
        requires without_pending { self.old.pending ≡ Nothing }
        requires seen { HasSeenAll self.old }
        ensures { Placing command self.old self.new result }
    {
        loop {
            match self.offer(journal, command) {
                Offered::Placed => return Ok(()),
                Offered::Full => return Err(FrontFault::Full),
                Offered::Lost(_) => self.run_pending()?,
            }
        }
    }
}
