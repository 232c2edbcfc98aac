//! Callers over the loopback interface.

ghost use Rattle.std.specs.Prelude.{◌≡◌, [], ◌∷◌, ◌++◌};

use nr_arguments::Program;
use nr_serving::{Arrival, Connections, Conversations, Fronts, Next, Ports};
use std::io;
use std::net::{Ipv4Addr, Shutdown, SocketAddr, TcpListener, TcpStream};
use std::num::NonZeroU32;
use std::time::Duration;

/// The time in milliseconds that a read waits after the last reply. A caller that reads all replies
/// and then closes needs less time. The wait is short so that a silent caller doesn't delay the
/// next one.
const FAREWELL: u64 = 100;

/// The callers at a port, served one after the other.
#[derive(Drop)]
pub(crate) struct Callers {
    /// The listener, or `None` if the port couldn't be bound.
    listener: Option<TcpListener>,
    /// The number of callers that remain to be served, or `None` if it is unlimited.
    left: Option<u32>,
    /// The arrivals so far.
    log: Conversations,
}

impl Callers {
    // Logs an arrival.
    fn note(&mut self, arrival: Arrival)
        ensures { self.new.log.arrivals ≡ self.old.log.arrivals ++ arrival ∷ [] }
    {
        self.log = self.log.arrived(&arrival);
    }

    // Waits for a caller, and returns two handles of its socket.
    fn accept(&self) -> Option<(TcpStream, TcpStream)> {
        let (reader, _) = self.listener.as_ref()?.accept().ok()?;
        let writer = reader.try_clone().ok()?;
        // Without this option, short replies like these are delayed.
        let _ = writer.set_nodelay(true);
        Some((reader, writer))
    }
}

impl Connections for Callers {
    type Reader = TcpStream;

    type Writer = TcpStream;

    ghost arrivals = { λ c. c.log.arrivals };

    fn next(&mut self) -> Next<TcpStream, TcpStream> {
        if self.left == Some(0) {
            self.note(Arrival::Ended);
            return Next::Ended;
        }
        let Some((reader, writer)) = self.accept() else {
            self.note(Arrival::Failed);
            return Next::Failed;
        };
        self.left = self.left.map(|left| left.saturating_sub(1));
        self.note(Arrival::Came);
        Next::Serve(reader, writer)
    }

    fn end_replies(writer: &TcpStream) -> io::Result<()> {
        writer.shutdown(Shutdown::Write)?;
        writer.set_read_timeout(Some(Duration::from_millis(FAREWELL)))
    }
}

/// Consecutive ports of 127.0.0.1.
#[derive(Drop)]
pub(crate) struct Loopback<'a> {
    rt: &'a HostRuntime,
    /// The port of the first front.
    port: u32,
    /// The number of callers after which each port closes, or `None` if ports stay open.
    connections: Option<NonZeroU32>,
    /// The ports that were opened.
    log: Fronts,
}

impl<'a> Loopback<'a> {
    /// Makes the ports that a program requests.
    pub(crate) fn new(rt: &'a HostRuntime, program: Program<'_>) -> Loopback<'a> {
        let (port, connections) = match program {
            Program::Serve { sharing, .. } => (sharing.port, sharing.connections),
            Program::Run { .. }
            | Program::Check { .. }
            | Program::Upgrade { .. }
            | Program::Changes { .. }
            | Program::Suspects { .. } => (0, None),
        };
        Loopback {
            rt,
            port,
            connections,
            log: Fronts::new(),
        }
    }

    // Listens on the port of a front.
    fn listen(&self, front: usize) -> Option<TcpListener> {
        let front = u32::try_from(front).ok()?;
        let port = u16::try_from(self.port.checked_add(front)?).ok()?;
        TcpListener::bind(self.rt, SocketAddr::from((Ipv4Addr::LOCALHOST, port))).ok()
    }
}

impl Ports for Loopback<'_> {
    type Callers = Callers;

    ghost opened = { λ p. p.log.opened };

    fn open(&mut self, front: usize) -> Callers {
        self.log = self.log.opened(&front);
        Callers {
            listener: self.listen(front),
            left: self.connections.map(NonZeroU32::get),
            log: Conversations::new(),
        }
    }
}
