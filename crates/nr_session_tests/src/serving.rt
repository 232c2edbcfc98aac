//! Two fronts, each in its own thread. One front waits until the other front's caller has been
//! answered.

use nr_machine::World;
use nr_replay_tests::ticking;
use nr_search::OneWorker;
use nr_serving::{
    Arrival, Connections, Conversations, Ended, Fronts, LoggedPorts, Next, Ports, Shape, share,
};
use nr_snaps::Film;
use std::alloc::Global;
use std::io;
use std::io::{ErrorKind, Read, Write};
use std::process::Abort;
use std::sync::atomic::AtomicBool;
use std::sync::atomic::Ordering::SeqCst;
use std::test::*;
use std::thread::Threads;

/// A reader that returns its line once. If it waits, it returns the line only after the other
/// front's reply was written.
#[derive(Drop)]
struct Giving<'a> {
    line: &'a [u8],
    given: &'a AtomicBool,
    waits: Option<&'a AtomicBool>,
}

impl Giving<'_> {
    fn may_give(&self) -> bool {
        let Some(written) = self.waits else {
            return true;
        };
        for _ in 0..1_000_000_000u32 {
            if written.load(SeqCst) {
                return true;
            }
        }
        false
    }
}

impl Read for Giving<'_> {
    fn read(&mut self, buf: &mut [u8]) -> io::Result<usize> {
        if self.given.load(SeqCst) || self.line.len() > buf.len() {
            return Ok(0);
        }
        if !self.may_give() {
            return Err(ErrorKind::Other.into());
        }
        self.given.store(true, SeqCst);
        let count = self.line.len();
        buf[..count].copy_from_slice(self.line);
        Ok(count)
    }
}

/// A writer that records that it was written to.
#[derive(Drop)]
struct Noting<'a>(&'a AtomicBool);

impl Write for Noting<'_> {
    fn write(&mut self, buf: &[u8]) -> io::Result<usize> {
        self.0.store(true, SeqCst);
        Ok(buf.len())
    }

    fn flush(&mut self) -> io::Result<()> {
        Ok(())
    }
}

/// A caller with one line.
#[derive(Drop)]
struct Wire<'a> {
    giving: Giving<'a>,
    noting: Noting<'a>,
}

/// The only caller of a front. After the caller has come, `wire` is `None`.
#[derive(Drop)]
struct Caller<'a> {
    wire: Option<Wire<'a>>,
    log: Conversations,
}

impl<'a> Connections for Caller<'a> {
    type Reader = Giving<'a>;

    type Writer = Noting<'a>;

    ghost arrivals = { λ c. c.log.arrivals };

    fn next(&mut self) -> Next<Giving<'a>, Noting<'a>> {
        match self.wire.take() {
            Some(Wire { giving, noting }) => {
                self.log = self.log.arrived(&Arrival::Came);
                Next::Serve(giving, noting)
            }
            None => {
                self.log = self.log.arrived(&Arrival::Ended);
                Next::Ended
            }
        }
    }
}

/// The state that the two wires share, and which wire waits for the other.
#[derive(Drop)]
struct Wires<'a> {
    given: &'a AtomicBool,
    more: &'a AtomicBool,
    answered: &'a AtomicBool,
    reported: &'a AtomicBool,
    first_waits: bool,
    log: Fronts,
}

impl<'a> Ports for Wires<'a> {
    type Callers = Caller<'a>;

    ghost opened = { λ p. p.log.opened };

    fn open(&mut self, front: usize) -> Caller<'a> {
        self.log = self.log.opened(&front);
        let wire = if front == 0 {
            Wire {
                giving: Giving {
                    line: b"stepi 3\n".as_slice(),
                    given: self.given,
                    waits: if self.first_waits {
                        Some(self.reported)
                    } else {
                        None
                    },
                },
                noting: Noting(self.answered),
            }
        } else {
            Wire {
                giving: Giving {
                    line: b"rsi\n".as_slice(),
                    given: self.more,
                    waits: if self.first_waits {
                        None
                    } else {
                        Some(self.answered)
                    },
                },
                noting: Noting(self.reported),
            }
        };
        Caller {
            wire: Some(wire),
            log: Conversations::new(),
        }
    }
}

/// Runs a session of two fronts over these wires.
fn share_over<R: Threads + Sync>(rt: &R, alloc: Global, wires: Wires<'_>) -> Option<Ended> {
    let film: Film<World> = ticking(alloc, 4)?;
    let mut ports = LoggedPorts::new(wires);
    let shape = Shape {
        fronts: 2,
        room: 4,
        depth: 64,
    };
    share(rt, alloc, &film, OneWorker::<&R>::new(), shape, &mut ports).ok()
}

/// Runs a session in which the first front waits for the second, or the second for the first.
fn share_between<R: Threads + Sync>(rt: &R, alloc: Global, first_waits: bool) -> Option<Ended> {
    let (given, answered) = (AtomicBool::new(false), AtomicBool::new(false));
    let (more, reported) = (AtomicBool::new(false), AtomicBool::new(false));
    let wires = Wires {
        given: &given,
        more: &more,
        answered: &answered,
        reported: &reported,
        first_waits,
        log: Fronts::new(),
    };
    share_over(rt, alloc, wires)
}

/// Asserts that the session left these words, and that no front failed.
fn assert_ended(rt: &impl Abort, ended: &Ended, words: &[u64]) {
    assert!(rt; !ended.failed);
    match &ended.history {
        Ok(history) => assert_eq!(rt; history.as_slice(), words),
        Err(_) => assert!(rt; false),
    }
}

#[test]
fn neither_front_waits_for_the_other_to_end(rt: HostRuntime) -> Result<(), Fail> {
    let ended = share_between(&rt, rt.alloc(), true).ok_or("not shared")?;
    assert_ended(&rt, &ended, [65794u64, 196609].as_slice());
    let ended = share_between(&rt, rt.alloc(), false).ok_or("not shared")?;
    assert_ended(&rt, &ended, [196609u64, 65794].as_slice());
    Ok(())
}
