//! Ports and callers that are logged. Only this file has access to a caller. When a caller comes,
//! its reader and writer are wrapped immediately. When the caller leaves, the conversation is
//! logged.

ghost use Rattle.std.specs.Prelude.{◌≡◌, ◌-◌, ◌^◌, ◌≤◌, ◌∷◌, ◌++◌, [], length};
ghost use Rattle.nr_serving.specs.Auxiliary.Fronts.{arrival_of, none_passed};
ghost use Rattle.nr_serving.specs.Logged.{IsNewCaller, WaitsOnce, with_arrival, with_conversation};

use crate::connection::{Connections, Next, Ports, read_away};
use crate::conversations::{Arrival, Conversations, Fronts};
use nr_front::Front;
use nr_journal::Journal;
use nr_lines::{End, LineEnd, answer};
use nr_rev::Worlds;
use nr_search::Finder;
use nr_text::{Sink, Source};
use std::marker::Model;

/// The result of waiting for a caller once.
#[derive(Clone, Copy, Debug, PartialEq, Eq)]
pub(crate) enum Came {
    /// A caller came and was served, with this result.
    Served(Result<End, LineEnd>),
    /// No further caller will come.
    Ended,
    /// Waiting for a caller failed.
    Failed,
}

/// The callers of a front, one after the other. Contracts describe them by the result of each wait
/// and the conversation with each caller. The connections have the same number of waits.
#[derive(Drop)]
pub(crate) struct LoggedCallers<C: Connections> {
    /// `None` after the last caller, so that a front that has ended doesn't keep its port open
    /// while other fronts still serve callers.
    connections: Option<C>,
    conversations: Conversations,
}

impl<C: Connections> Model for LoggedCallers<C> {
    ghost use Rattle.std.specs.Prelude.{◌≡◌, IfSome};
    ghost use Rattle.nr_serving.specs.Conversations.{Passed};

    ghost Value = { Passed };

    ghost view = { λ c. record { arrivals = c.conversations.arrivals; callers = c.conversations.callers } };

    ghost invariant = { λ c. IfSome c.connections (λ k. C.arrivals k ≡ c.conversations.arrivals) };
}

impl<C: Connections + Drop> LoggedCallers<C> {
    // Wraps the connections of a front, to which no caller has come yet.
    fn new(connections: C) -> LoggedCallers<C>
        requires { C.arrivals connections ≡ [] }
        ensures { result ≡ none_passed }
    {
        LoggedCallers {
            connections: Some(connections),
            conversations: Conversations::new(),
        }
    }

    // Waits for the next caller, and logs the result. If a caller comes, wraps its reader and writer immediately. If no
    // more callers will come, or waiting fails, drops the front's connections.
    fn next(&mut self) -> Next<Source<C::Reader>, Sink<C::Writer>>
        ensures arrived { self.new ≡ with_arrival (arrival_of result) self.old }
        ensures fresh { IsNewCaller result }
    {
        let next = match &mut self.connections {
            Some(connections) => connections.next(),
            None => Next::Failed,
        };
        match next {
            Next::Serve(reader, writer) => {
                self.conversations = self.conversations.arrived(&Arrival::Came);
                Next::Serve(Source::new(reader), Sink::new(writer))
            }
            Next::Ended => {
                self.connections = None;
                self.conversations = self.conversations.arrived(&Arrival::Ended);
                Next::Ended
            }
            Next::Failed => {
                self.connections = None;
                self.conversations = self.conversations.arrived(&Arrival::Failed);
                Next::Failed
            }
        }
    }

    // Logs the conversation with a caller, and drops the caller. `read_away` drops what the caller
    // sends after `quit`, because closing a connection with unread bytes may lose the last reply on
    // its way.
    fn let_go(
        &mut self,
        source: Source<C::Reader>,
        sink: Sink<C::Writer>,
        ending: &Result<End, LineEnd>,
    )
        ensures { self.new ≡ with_conversation (record { input = source; output = sink; ending = ending.now }) self.old }
    {
        self.conversations = self.conversations.and(&source, &sink, ending);
        if matches!(ending, Ok(End::Quit)) && C::end_replies(&sink.into_inner()).is_ok() {
            read_away(&mut source.into_inner());
        }
    }

    // Waits for the next caller, and serves it with the front: answers the caller's lines, up to
    // the first `quit`, and sends each reply in one piece.
    pub(crate) fn serve_next<W, F>(
        &mut self,
        front: &mut Front<'_, W, F>,
        journal: &Journal,
    ) -> Came
    where
        W: Worlds + Drop + Sync,
        W::Delta: Drop,
        W::Snapshot: Drop + Sync,
        F: Finder,
        requires { front.old.table ≡ journal.now }
        ensures table { front.new.table ≡ front.old.table }
        ensures waits { WaitsOnce self.old self.new front.old front.new result }
    {
        match self.next() {
            Next::Serve(mut source, mut sink) => {
                let ending = answer(&mut source, &mut sink, front, journal);
                self.let_go(source, sink, &ending);
                Came::Served(ending)
            }
            Next::Ended => Came::Ended,
            Next::Failed => Came::Failed,
        }
    }

    // Gives up after 2^64 - 1 callers, and logs that waiting for a caller failed.
    pub(crate) fn give_up(&mut self)
        requires { 2 ^ 64 - 1 ≤ length self.old.arrivals }
        ensures { self.new ≡ with_arrival Arrival.Failed self.old }
    {
        self.connections = None;
        self.conversations = self.conversations.arrived(&Arrival::Failed);
    }
}

/// Ports whose callers are logged. Contracts describe them by the numbers of the fronts whose ports
/// were opened, and the log of each front that has ended. The wrapped ports have a list of their
/// own. It ends with the same numbers, because `LoggedPorts` has opened all ports since it wrapped
/// them.
#[derive(Drop)]
pub struct LoggedPorts<P: Ports> {
    ports: P,
    fronts: Fronts,
}

impl<P: Ports> Model for LoggedPorts<P> {
    ghost use Rattle.std.specs.Prelude.{◌≡◌, ◌++◌, ℕ, List};
    ghost use Rattle.nr_serving.specs.Conversations.{FrontsLog};

    ghost Value = { FrontsLog };

    ghost view = { λ p. record { opened = p.fronts.opened; ended = p.fronts.ended } };

    ghost invariant = { λ p. (before : List ℕ) × (P.opened p.ports ≡ before ++ p.fronts.opened) };
}

impl<P: Ports> LoggedPorts<P> {
    /// Wraps the ports, before any is opened.
    pub fn new(ports: P) -> LoggedPorts<P>
        ensures { result ≡ record { opened = []; ended = [] } }
    {
        LoggedPorts {
            ports,
            fronts: Fronts::new(),
        }
    }

    // Returns the callers of the front with this number.
    pub(crate) fn open(&mut self, front: usize) -> LoggedCallers<P::Callers>
        ensures opened { self.new ≡ record self.old { opened = self.old.opened ++ front ∷ [] } }
        ensures none { result ≡ none_passed }
    {
        self.fronts = self.fronts.opened(&front);
        LoggedCallers::new(self.ports.open(front))
    }

    // Drops the callers of a front, and logs the conversations.
    pub(crate) fn end(&mut self, callers: LoggedCallers<P::Callers>)
        ensures { self.new ≡ record self.old { ended = self.old.ended ++ callers ∷ [] } }
    {
        self.fronts = self.fronts.ended(&callers.conversations);
    }
}
