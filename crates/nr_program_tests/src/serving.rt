//! The program `serve` with callers in memory.

ghost use Rattle.std.specs.Prelude.{◌≡◌};

use crate::playing::{Played, record};
use nr_machine::World;
use nr_programs::{ExitStatus, Sharing, serve_bytes};
use nr_replay_tests::{HEADER, WAITS};
use nr_serving::{Arrival, Connections, Conversations, Fronts, LoggedPorts, Next, Ports};
use nr_text::Sink;
use std::alloc::{AllocError, Global};
use std::io;
use std::io::{ErrorKind, Read, Write};
use std::process::Abort;
use std::sync::atomic::AtomicU32;
use std::sync::atomic::Ordering::SeqCst;
use std::test::*;
use std::thread::Threads;

/// What a caller does after its lines.
#[derive(Clone, Copy)]
enum Then {
    /// It ends.
    Ends,
    /// Its reads fail.
    Fails,
    /// The caller sends bytes forever.
    GoesOn,
    /// The caller sends bytes forever, and `end_replies` fails.
    IsGone,
}

/// A caller's lines, what the caller does after sending them, and the expected replies.
struct Part {
    lines: &'static str,
    then: Then,
    replies: &'static str,
}

/// What a caller received.
#[derive(Drop)]
struct Seen {
    reads: AtomicU32,
    /// The number of bytes in correct writes. A write is correct if it equals the expected replies
    /// from the position at which it starts.
    right: AtomicU32,
    written: AtomicU32,
}

impl Seen {
    fn new() -> Seen {
        Seen {
            reads: AtomicU32::new(0),
            right: AtomicU32::new(0),
            written: AtomicU32::new(0),
        }
    }

    /// Asserts that the caller's lines were read this many times, and that it got exactly the
    /// expected replies.
    fn assert(&self, rt: &impl Abort, part: &Part, reads: u32) {
        assert_eq!(rt; self.reads.load(SeqCst), reads, "reads of {}", part.lines);
        let replies = u32::try_from(part.replies.len()).unwrap_or(u32::MAX);
        assert_eq!(rt;
            self.right.load(SeqCst),
            replies,
            "replies to {}",
            part.lines
        );
        assert_eq!(rt;
            self.written.load(SeqCst),
            replies,
            "replies to {}",
            part.lines
        );
    }
}

/// A caller: what it sends and expects, and what it has received.
#[derive(Clone, Copy)]
struct Caller<'a> {
    part: &'a Part,
    seen: &'a Seen,
}

/// The lines of a caller.
#[derive(Drop)]
struct Lines<'a>(Caller<'a>);

impl Read for Lines<'_> {
    fn read(&mut self, buf: &mut [u8]) -> io::Result<usize> {
        let lines = self.0.part.lines.as_bytes();
        if self.0.seen.reads.fetch_add(1, SeqCst) == 0 && lines.len() <= buf.len() {
            buf[..lines.len()].copy_from_slice(lines);
            return Ok(lines.len());
        }
        match self.0.part.then {
            Then::Ends => Ok(0),
            Then::Fails => Err(ErrorKind::Other.into()),
            Then::GoesOn | Then::IsGone => Ok(buf.len()),
        }
    }
}

/// The replies to a caller.
#[derive(Drop)]
struct Replies<'a>(Caller<'a>);

impl Write for Replies<'_> {
    fn write(&mut self, buf: &[u8]) -> io::Result<usize> {
        let count = u32::try_from(buf.len()).unwrap_or(u32::MAX);
        let before = self.0.seen.written.fetch_add(count, SeqCst) as usize;
        let expected = self.0.part.replies.as_bytes().get(before..);
        if expected.is_some_and(|replies| replies.starts_with(buf)) {
            let _ = self.0.seen.right.fetch_add(count, SeqCst);
        }
        Ok(buf.len())
    }

    fn flush(&mut self) -> io::Result<()> {
        Ok(())
    }
}

/// The callers of a front.
#[derive(Drop)]
struct Callers<'a> {
    parts: &'a [Part],
    seen: &'a [Seen],
    log: Conversations,
}

impl<'a> Callers<'a> {
    /// Returns the next caller, if one is left.
    fn take(&mut self) -> Option<Caller<'a>>
        ensures { self.new.log ≡ self.old.log }
    {
        let (part, parts) = self.parts.split_first()?;
        let (seen, rest) = self.seen.split_first()?;
        self.parts = parts;
        self.seen = rest;
        Some(Caller { part, seen })
    }
}

impl<'a> Connections for Callers<'a> {
    type Reader = Lines<'a>;

    type Writer = Replies<'a>;

    ghost arrivals = { λ c. c.log.arrivals };

    fn next(&mut self) -> Next<Lines<'a>, Replies<'a>> {
        match self.take() {
            Some(caller) => {
                self.log = self.log.arrived(&Arrival::Came);
                Next::Serve(Lines(caller), Replies(caller))
            }
            None => {
                self.log = self.log.arrived(&Arrival::Ended);
                Next::Ended
            }
        }
    }

    fn end_replies(writer: &Replies<'a>) -> io::Result<()> {
        match writer.0.part.then {
            Then::IsGone => Err(ErrorKind::Other.into()),
            Then::Ends | Then::Fails | Then::GoesOn => Ok(()),
        }
    }
}

/// The callers of all fronts, in the order of the fronts, with `each` callers at each front.
#[derive(Drop)]
struct Switchboard<'a> {
    each: usize,
    parts: &'a [Part],
    seen: &'a [Seen],
    log: Fronts,
}

impl<'a> Ports for Switchboard<'a> {
    type Callers = Callers<'a>;

    ghost opened = { λ p. p.log.opened };

    fn open(&mut self, front: usize) -> Callers<'a> {
        self.log = self.log.opened(&front);
        let each = self.each.min(self.parts.len()).min(self.seen.len());
        let (parts, more) = self.parts.split_at(each);
        let (seen, rest) = self.seen.split_at(each);
        self.parts = more;
        self.seen = rest;
        Callers {
            parts,
            seen,
            log: Conversations::new(),
        }
    }
}

/// Serves a recording of twelve steps to these callers, with `each` callers at each front.
fn serve<R: Threads + Sync>(
    rt: &R,
    alloc: Global,
    each: usize,
    parts: &[Part],
    seen: &[Seen],
) -> Result<Played, AllocError> {
    let recording = record(alloc, HEADER, WAITS)?;
    let sharing = Sharing {
        port: 1,
        fronts: (parts.len() / each.max(1)).clamp(1, 64) as u32,
        workers: 1,
        journal: 16,
        connections: None,
    };
    let mut ports = LoggedPorts::new(Switchboard {
        each,
        parts,
        seen,
        log: Fronts::new(),
    });
    let mut output = Sink::new(Vec::new(alloc));
    let text = recording.into_bytes();
    let status = serve_bytes::<World, R, _, _>(rt, alloc, text, sharing, &mut ports, &mut output);
    Ok(Played {
        status,
        text: output.into_inner(),
    })
}

static FAILING: [Part; 2] = [
    Part {
        lines: "stepi 2\nstepi",
        then: Then::Fails,
        replies: "at 2\n",
    },
    Part {
        lines: "print waiters\nquit\n",
        then: Then::Ends,
        replies: "waiters = 0\nbye\n",
    },
];

#[test]
fn a_caller_who_fails_is_reported_by_the_status(rt: HostRuntime) -> Result<(), AllocError> {
    let seen = [Seen::new(), Seen::new()];
    let played = serve(&rt, rt.alloc(), 1, FAILING.as_slice(), seen.as_slice())?;
    assert!(rt; played.is(ExitStatus::StreamFailed, "placed 1\n"));
    for (part, seen) in FAILING.iter().zip(seen.iter()) {
        seen.assert(&rt, part, 2);
    }
    Ok(())
}

static LEAVING: [Part; 6] = [
    Part {
        lines: "",
        then: Then::Ends,
        replies: "",
    },
    Part {
        lines: "resume",
        then: Then::Ends,
        replies: "nothing owed\n",
    },
    Part {
        lines: "quit\n",
        then: Then::Ends,
        replies: "bye\n",
    },
    Part {
        lines: "stepi 5\ncheckpoint\n",
        then: Then::Ends,
        replies: "at 5\ncheckpoint 1 at 5\n",
    },
    Part {
        lines: "info position\nreverse-stepi",
        then: Then::Ends,
        replies: "at 5 of 12 forward\nat 4\n",
    },
    Part {
        lines: "restart 1\nquit\nstepi\n",
        then: Then::Ends,
        replies: "at 5\nbye\n",
    },
];

#[test]
fn callers_who_leave_hold_up_nobody(rt: HostRuntime) -> Result<(), AllocError> {
    let seen = [
        Seen::new(),
        Seen::new(),
        Seen::new(),
        Seen::new(),
        Seen::new(),
        Seen::new(),
    ];
    let played = serve(&rt, rt.alloc(), 3, LEAVING.as_slice(), seen.as_slice())?;
    assert!(rt; played.is(ExitStatus::Done, "placed 4\n"));
    for (number, (part, seen)) in LEAVING.iter().zip(seen.iter()).enumerate() {
        seen.assert(&rt, part, if number == 0 { 1 } else { 2 });
    }
    Ok(())
}

static QUITTING: [(Part, u32); 4] = [
    (
        Part {
            lines: "quit\n",
            then: Then::GoesOn,
            replies: "bye\n",
        },
        65,
    ),
    (
        Part {
            lines: "quit\nstepi",
            then: Then::Fails,
            replies: "bye\n",
        },
        2,
    ),
    (
        Part {
            lines: "quit",
            then: Then::Ends,
            replies: "bye\n",
        },
        3,
    ),
    (
        Part {
            lines: "quit\n",
            then: Then::IsGone,
            replies: "bye\n",
        },
        1,
    ),
];

#[test]
fn what_comes_behind_quit_is_read_away(rt: HostRuntime) -> Result<(), AllocError> {
    for (part, reads) in QUITTING.iter() {
        let seen = [Seen::new()];
        let parts = std::slice::from_ref(part);
        let played = serve(&rt, rt.alloc(), 1, parts, seen.as_slice())?;
        assert!(rt; played.is(ExitStatus::Done, "placed 0\n"));
        seen[0].assert(&rt, part, *reads);
    }
    Ok(())
}
