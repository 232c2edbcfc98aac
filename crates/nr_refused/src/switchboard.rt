//! Callers in memory: each sends its lines at once, and the replies are compared.

use nr_serving::{Arrival, Connections, Conversations, Fronts, Next, Ports};
use std::io;
use std::io::{ErrorKind, Read, Write};
use std::sync::atomic::AtomicU32;
use std::sync::atomic::Ordering::SeqCst;

/// The lines of a caller, and the expected replies.
pub(crate) struct Part {
    pub(crate) lines: &'static str,
    pub(crate) replies: &'static str,
}

/// The bytes that a caller received.
#[derive(Drop)]
pub(crate) struct Seen {
    reads: AtomicU32,
    // The number of bytes in correct writes. A write is correct if it equals the expected replies
    // from the position at which it starts.
    right: AtomicU32,
    written: AtomicU32,
}

impl Seen {
    pub(crate) fn new() -> Seen {
        Seen {
            reads: AtomicU32::new(0),
            right: AtomicU32::new(0),
            written: AtomicU32::new(0),
        }
    }

    /// Returns whether exactly the expected replies came.
    pub(crate) fn is_right(&self, part: &Part) -> bool {
        self.right.load(SeqCst) as usize == part.replies.len()
            && self.written.load(SeqCst) as usize == part.replies.len()
    }

    /// Returns whether the caller wasn't served.
    pub(crate) fn is_untouched(&self) -> bool {
        self.reads.load(SeqCst) == 0 && self.written.load(SeqCst) == 0
    }
}

/// A caller: what it sends and expects, and what it has received.
#[derive(Clone, Copy)]
pub(crate) struct Caller<'a> {
    part: &'a Part,
    seen: &'a Seen,
}

/// The lines of a caller.
#[derive(Drop)]
pub(crate) struct Lines<'a>(Caller<'a>);

impl Read for Lines<'_> {
    fn read(&mut self, buf: &mut [u8]) -> io::Result<usize> {
        let lines = self.0.part.lines.as_bytes();
        if self.0.seen.reads.fetch_add(1, SeqCst) > 0 {
            return Ok(0);
        }
        if lines.len() > buf.len() {
            return Err(ErrorKind::Other.into());
        }
        buf[..lines.len()].copy_from_slice(lines);
        Ok(lines.len())
    }
}

/// The replies to a caller.
#[derive(Drop)]
pub(crate) struct Replies<'a>(Caller<'a>);

impl Write for Replies<'_> {
    fn write(&mut self, buf: &[u8]) -> io::Result<usize> {
        let count = u32::try_from(buf.len()).unwrap_or(u32::MAX);
        let before = self.0.seen.written.fetch_add(count, SeqCst) as usize;
        let expected = self.0.part.replies.as_bytes().get(before..);
        if expected.is_some_and(|replies| replies.starts_with(buf)) {
            let _ = self.0.seen.right.fetch_add(count, SeqCst);
        }
        Ok(buf.len())
    }

    fn flush(&mut self) -> io::Result<()> {
        Ok(())
    }
}

/// The only caller of a front, or `None` after the caller has come.
#[derive(Drop)]
pub(crate) struct Callers<'a> {
    caller: Option<Caller<'a>>,
    log: Conversations,
}

impl<'a> Connections for Callers<'a> {
    type Reader = Lines<'a>;

    type Writer = Replies<'a>;

    ghost arrivals = { λ c. c.log.arrivals };

    fn next(&mut self) -> Next<Lines<'a>, Replies<'a>> {
        match self.caller.take() {
            Some(caller) => {
                self.log = self.log.arrived(&Arrival::Came);
                Next::Serve(Lines(caller), Replies(caller))
            }
            None => {
                self.log = self.log.arrived(&Arrival::Ended);
                Next::Ended
            }
        }
    }
}

/// One caller at each front.
#[derive(Drop)]
pub(crate) struct Switchboard<'a> {
    pub(crate) parts: &'a [Part],
    pub(crate) seen: &'a [Seen],
    pub(crate) log: Fronts,
}

impl<'a> Ports for Switchboard<'a> {
    type Callers = Callers<'a>;

    ghost opened = { λ p. p.log.opened };

    fn open(&mut self, front: usize) -> Callers<'a> {
        self.log = self.log.opened(&front);
        let caller = match (self.parts.get(front), self.seen.get(front)) {
            (Some(part), Some(seen)) => Some(Caller { part, seen }),
            _ => None,
        };
        Callers {
            caller,
            log: Conversations::new(),
        }
    }
}
