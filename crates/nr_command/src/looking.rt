//! The replies to queries.

ghost use Rattle.std.specs.Prelude.{◌≡◌, ◌≤◌, length, true, false, IfOk, OnErr};
ghost use Rattle.nr_rev.specs.Auxiliary.Run.{IsWorldAt};
ghost use Rattle.nr_command.specs.Debugger.{query_reply};
ghost use Rattle.nr_command.specs.Auxiliary.Debugger.{Copies};
ghost use Rattle.nr_command.specs.Looking.{is_at_world};
ghost use Rattle.nr_command.specs.declared.command.Query.TheVariants as queries;

use crate::command::Query;
use crate::debugger::Debugger;
use crate::reply::Reply;
use arrayvec::ArrayVec;
use nr_rev::{Memory, Side, Worlds};
use nr_snaps::Film;

impl Query {
    /// Returns whether the query is about the world, as `print` and `dump` are. The other queries
    /// are about the debugger.
    pub fn is_at_world(self) -> bool
        ensures { result ≡ is_at_world self }
    {
        match self {
            Query::Print(_) | Query::DumpBytes { .. } | Query::DumpQueue { .. } => true,
            Query::Position | Query::Breakpoints | Query::Checkpoints => false,
        }
    }
}

// Each kind of query has its own function. A function clears all its locals on entry, and a reply
// is a large local, because it has room for 64 marks. A single function for all kinds would have
// several replies as locals, and would clear all of them.
impl Debugger {
    /// Returns the reply to a query about the world at the debugger's position, or about the debugger itself. It
    /// changes nothing.
    ///
    /// Only a dump allocates memory, for the bytes or goroutines that it prints. An empty dump
    /// allocates none.
    pub fn look<W: Worlds + Drop>(
        &self,
        film: &Film<W>,
        world: &W,
        query: Query,
    ) -> Result<Reply, Memory>
    where
        W::Snapshot: Drop,
        requires { IsWorldAt W.is_well_formed W.world film.now.recording self.now.position world.now }
        ensures ok { IfOk result (λ reply. reply ≡ query_reply film.now.recording self.now query) }
        ensures err { OnErr result (Copies film.now.recording self.now query) }
    {
        if query.is_at_world() {
            return self.look_at_world(film, world, query);
        }
        Ok(self.look_within(film, query))
    }

    /// Returns the reply to a query about the world. Fails with `Memory` if memory runs out for a
    /// dump.
    pub fn look_at_world<W: Worlds + Drop>(
        &self,
        film: &Film<W>,
        world: &W,
        query: Query,
    ) -> Result<Reply, Memory>
    where
        W::Snapshot: Drop,
        requires world { IsWorldAt W.is_well_formed W.world film.now.recording self.now.position world.now }
        requires query { is_at_world query ≡ true }
        ensures ok { IfOk result (λ reply. reply ≡ query_reply film.now.recording self.now query) }
        ensures err { OnErr result (Copies film.now.recording self.now query) }
    {
        match query {
            Query::Print(cell) => {
                let value = world.cell(cell);
                Ok(Reply::Printed { cell, value })
            }
            Query::DumpBytes { side, socket } => self.dump_bytes(film, world, side, socket),
            Query::DumpQueue { side, socket } => self.dump_queue(film, world, side, socket),
            Query::Position | Query::Breakpoints | Query::Checkpoints => unreachable!(),
        }
    }

    /// Returns the reply to a query about the debugger itself. Such a query needs no world, and
    /// allocates no memory.
    pub fn look_within<W: Worlds + Drop>(&self, film: &Film<W>, query: Query) -> Reply
    where
        W::Snapshot: Drop,
        requires { is_at_world query ≡ false }
        ensures { result ≡ query_reply film.now.recording self.now query }
    {
        match query {
            Query::Position => Reply::Position {
                position: self.position,
                last: film.len(),
                direction: self.direction,
            },
            Query::Breakpoints => Reply::Marks(listed(self.marks.as_slice())),
            Query::Checkpoints => Reply::Checkpoints(listed(self.checkpoints.as_slice())),
            Query::Print(_) | Query::DumpBytes { .. } | Query::DumpQueue { .. } => unreachable!(),
        }
    }

    fn dump_bytes<W: Worlds + Drop>(
        &self,
        film: &Film<W>,
        world: &W,
        side: Side,
        socket: u32,
    ) -> Result<Reply, Memory>
    where
        W::Snapshot: Drop,
        requires { IsWorldAt W.is_well_formed W.world film.now.recording self.now.position world.now }
        ensures ok { IfOk result (λ reply. reply
            ≡ query_reply film.now.recording self.now (queries.DumpBytes side socket)) }
        ensures err { OnErr result (Copies film.now.recording self.now (queries.DumpBytes side socket)) }
    {
        let bytes = world.bytes(socket, side)?;
        Ok(Reply::Bytes {
            side,
            socket,
            bytes,
        })
    }

    fn dump_queue<W: Worlds + Drop>(
        &self,
        film: &Film<W>,
        world: &W,
        side: Side,
        socket: u32,
    ) -> Result<Reply, Memory>
    where
        W::Snapshot: Drop,
        requires { IsWorldAt W.is_well_formed W.world film.now.recording self.now.position world.now }
        ensures ok { IfOk result (λ reply. reply
            ≡ query_reply film.now.recording self.now (queries.DumpQueue side socket)) }
        ensures err { OnErr result (Copies film.now.recording self.now (queries.DumpQueue side socket)) }
    {
        let queue = world.queue(socket, side)?;
        Ok(Reply::Queue {
            side,
            socket,
            queue,
        })
    }
}

/// Returns a copy of the items.
fn listed<T: Copy + Default, const N: usize>(items: &[T]) -> ArrayVec<T, N>
    requires { length items.now ≤ N }
    ensures { result.items ≡ items.now }
{
    let mut listed = ArrayVec::new();
    let Ok(()) = listed.try_extend_from_slice(items) else {
        unreachable!()
    };
    listed
}
