//! The program `serve`: reads the bytes of a recording and serves the callers of each front.

ghost use Rattle.std.specs.Prelude.{◌≡◌, IfOk, OnErr, true};
ghost use Rattle.nr_rev.specs.Run.{Recording};
ghost use Rattle.nr_programs.specs.Opening.{IsGoodText};
ghost use Rattle.nr_programs.specs.Run.{EndsPrinting};
ghost use Rattle.nr_serving.specs.Auxiliary.Session.{words_of};
ghost use Rattle.nr_programs.specs.Serving.{ServesAll, Shares, SharesAll, placed_line, exit_status_of};
ghost use Rattle.nr_programs.specs.Auxiliary.Serving.{PrintsSession};
ghost use Rattle.nr_programs.specs.Sharing.{is_in_range};
ghost use Rattle.nr_programs.specs.declared.run.ExitStatus.TheVariants as statuses;

use crate::opening::{COPY_EVERY, open_given};
use crate::run::{DELTAS_KEPT, ExitStatus, print, refuse};
use crate::sharing::Sharing;
use nr_recording::OutOfMemory;
use nr_rev::{Memory, Worlds};
use nr_search::{ManyWorkers, OneWorker, Open};
use nr_serving::{Ended, LoggedPorts, Ports, Shape, share};
use nr_snaps::Film;
use nr_text::{Parts, Sink, Token};
use std::alloc::Global;
use std::io::Write;
use std::thread::Threads;

/// Opens the recording and frees its text. Then serves the callers of each front in a thread of its
/// own, all in one session. When the last front has ended, prints `placed K`, with the number K of
/// commands that the callers placed. The log of the ports contains the conversations with the
/// callers. If a fault is printed instead, no port was opened, unless memory ran out while the
/// history was collected.
///
/// Returns `Done` if no connection failed, `StreamFailed` if a connection failed, a front couldn't
/// accept callers or the last line couldn't be written, and `Refused` if the recording's first
/// fault or `fault 108 memory` was printed as one line. If memory runs out while the history is
/// collected, `fault 108 memory` replaces the last line.
pub fn serve_bytes<W, R, P, O>(
    rt: &R,
    alloc: Global,
    text: Vec<u8>,
    sharing: Sharing,
    ports: &mut LoggedPorts<P>,
    output: &mut Sink<O>,
) -> ExitStatus
where
    W: Worlds + Drop + Send + Sync,
    W::Delta: Drop + Send,
    W::Snapshot: Drop + Sync,
    R: Threads + Sync,
    P: Ports,
    O: Write,
    requires { is_in_range sharing ≡ true }

    // The conversations and the output, for any text.
    ensures serves { ServesAll text.items sharing ports.old ports.new output.old output.new result }

    // A recording whose steps all apply and give their recorded answers is shared, unless memory runs out.
    ensures good { (r : Recording) → IsGoodText text.items r
        → Shares r sharing ports.old ports.new output.old output.new result }
{
    match open_given::<W>(alloc, text, COPY_EVERY) {
        Ok(film) => share_film(rt, alloc, &film, sharing, ports, output),
        Err(fault) => refuse(&fault, output),
    }
}

// Shares a film, and prints the result.
fn share_film<W, R, P, O>(
    rt: &R,
    alloc: Global,
    film: &Film<W>,
    sharing: Sharing,
    ports: &mut LoggedPorts<P>,
    output: &mut Sink<O>,
) -> ExitStatus
where
    W: Worlds + Drop + Send + Sync,
    W::Delta: Drop + Send,
    W::Snapshot: Drop + Sync,
    R: Threads + Sync,
    P: Ports,
    O: Write,
    requires range { is_in_range sharing ≡ true }
    requires every { film.now.every ≡ 1024 }
    ensures { Shares film.now.recording sharing ports.old ports.new output.old output.new result }
{
    let shared = share_among(rt, alloc, film, sharing, ports);
    tell(&shared, output)
}

// Shares a film among the requested number of fronts, with the requested number of workers for searches.
fn share_among<W, R, P>(
    rt: &R,
    alloc: Global,
    film: &Film<W>,
    sharing: Sharing,
    ports: &mut LoggedPorts<P>,
) -> Result<Ended, Memory>
where
    W: Worlds + Drop + Send + Sync,
    W::Delta: Drop + Send,
    W::Snapshot: Drop + Sync,
    R: Threads + Sync,
    P: Ports,
    requires { is_in_range sharing ≡ true }
    ensures shared { IfOk result (λ ended. SharesAll film.now.recording sharing ports.old ports.new
        (words_of ended.history) ended.failed) }
    ensures untouched { OnErr result (ports.new ≡ ports.old) }
{
    let shape = Shape {
        fronts: sharing.fronts as usize,
        room: sharing.journal as usize,
        depth: DELTAS_KEPT,
    };
    if sharing.workers == 1 {
        share(rt, alloc, film, OneWorker::<&R>::new(), shape, ports)
    } else {
        let many = ManyWorkers::new(rt, alloc, Open, sharing.workers as usize);
        share(rt, alloc, film, &many, shape, ports)
    }
}

// Prints the number of commands that were placed, or `fault 108 memory` if the recording couldn't
// be shared or the history couldn't be collected.
fn tell<O: Write>(shared: &Result<Ended, Memory>, output: &mut Sink<O>) -> ExitStatus
    ensures { PrintsSession shared.now output.old output.new result }
{
    let ended = match shared {
        Ok(ended) => ended,
        Err(refused) => return refuse(&OutOfMemory(*refused), output),
    };
    match &ended.history {
        Ok(history) => tell_placed(history.as_slice(), ended.failed, output),
        Err(refused) => refuse(&OutOfMemory(*refused), output),
    }
}

// Prints the number of commands that were placed.
fn tell_placed<O: Write>(history: &[u64], failed: bool, output: &mut Sink<O>) -> ExitStatus
    ensures { EndsPrinting (placed_line history.now) (exit_status_of failed) output.old output.new result }
{
    let placed = Token::Number(history.len() as u64);
    let line = [Token::Text(b"placed "), placed, Token::Text(b"\n")];
    let status = if failed {
        ExitStatus::StreamFailed
    } else {
        ExitStatus::Done
    };
    print(&Parts(&line), status, output)
}
