//! Scripts for fronts, over streams that move one byte per call, are interrupted at every second
//! call, and end or fail in the middle.

ghost use Rattle.std.specs.Prelude.{◌≡◌};

use crate::sharing::{Lone, share, woken};
use nr_journal::Journal;
use nr_lines::{End, LineEnd, serve};
use nr_replay_tests::{AtBrim, Cup, Drip, Observed, Stutter, ticking};
use nr_snaps::Film;
use nr_text::{Sink, Source};
use std::alloc::Global;
use std::sync::Wait;
use std::test::*;
use std::thread::Threads;

/// The text that is sent to a front, and the limits of its streams.
#[derive(Clone, Copy)]
pub(crate) struct Script {
    pub(crate) text: &'static str,
    /// The number of bytes that can be read before reads fail.
    pub(crate) left: usize,
    /// The number of reply bytes that the writer accepts.
    pub(crate) room: usize,
    pub(crate) then: AtBrim,
    /// Which copies of the film's world are refused: one bit for each request, from the lowest bit
    /// on.
    pub(crate) refused: u32,
}

/// Returns a script in which nothing fails.
pub(crate) fn undisturbed(text: &'static str) -> Script {
    Script {
        text,
        left: usize::MAX,
        room: usize::MAX,
        then: AtBrim::Fails,
        refused: 0,
    }
}

/// How a script ended, and its replies.
#[derive(Drop)]
pub(crate) struct Served {
    pub(crate) end: Result<End, LineEnd>,
    pub(crate) text: Vec<u8>,
    pub(crate) read_failed: bool,
    pub(crate) write_failed: bool,
}

/// Serves a script over such streams.
fn serve_script<R: Wait + Threads + Sync>(
    rt: &R,
    alloc: Global,
    script: Script,
    front: &mut Lone<'_, R>,
    journal: &Journal,
) -> Served
    requires { front.old.table ≡ journal.now }
    ensures { front.new.table ≡ front.old.table }
{
    let drip = Drip {
        bytes: script.text.as_bytes(),
        left: script.left,
    };
    let cup = Cup {
        held: Vec::new(alloc),
        room: script.room,
        then: script.then,
    };
    let mut source = Source::new(Stutter::new(drip));
    let mut sink = Sink::new(Stutter::new(cup));
    let end = serve(rt, &mut source, &mut sink, front, journal);
    Served {
        end,
        read_failed: source.has_failed(),
        write_failed: sink.has_failed(),
        text: sink.into_inner().stream.held,
    }
}

/// The recording of a test.
#[derive(Clone, Copy)]
pub(crate) enum Tape {
    /// Nine steps that set the clock to 1, 2 and so on.
    Ticking,
    /// Twelve steps: a goroutine is woken and reads bytes.
    Woken,
}

/// Which front serves the second script.
#[derive(Clone, Copy)]
pub(crate) enum Second {
    Same,
    Other,
}

/// Two scripts, one after the other.
#[derive(Clone, Copy)]
pub(crate) struct TwoScripts {
    pub(crate) tape: Tape,
    /// The number of words for which the journal has room, from 1 to 16.
    pub(crate) words: usize,
    pub(crate) first: Script,
    pub(crate) by: Second,
    pub(crate) second: Script,
}

/// Serves both scripts, and returns their results.
fn serve_both<R: Wait + Threads + Sync>(
    rt: &R,
    alloc: Global,
    film: &Film<Observed>,
    journal: &Journal,
    one: &mut Lone<'_, R>,
    other: &mut Lone<'_, R>,
    scripts: &TwoScripts,
) -> (Served, Served)
    requires one { one.old.table ≡ journal.now }
    requires other { other.old.table ≡ journal.now }
{
    film.start().refuse(scripts.first.refused);
    let before = serve_script(rt, alloc, scripts.first, one, journal);
    film.start().refuse(scripts.second.refused);
    let behind = match scripts.by {
        Second::Same => serve_script(rt, alloc, scripts.second, one, journal),
        Second::Other => serve_script(rt, alloc, scripts.second, other, journal),
    };
    (before, behind)
}

fn play_over<R: Wait + Threads + Sync>(
    rt: &R,
    alloc: Global,
    film: &Film<Observed>,
    scripts: &TwoScripts,
) -> Option<(Served, Served, usize)> {
    let words = scripts.words.clamp(1, 16);
    let (journal, mut one, mut other, _) = share(rt, alloc, words, film)?;
    let (before, behind) = serve_both(rt, alloc, film, &journal, &mut one, &mut other, scripts);
    Some((before, behind, one.end().seen().max(other.end().seen())))
}

fn film_of(alloc: Global, tape: Tape) -> Option<Film<Observed>> {
    match tape {
        Tape::Ticking => ticking(alloc, 9),
        Tape::Woken => woken(alloc),
    }
}

/// Runs both scripts, and returns their results and the number of words that were placed.
pub(crate) fn play<R: Wait + Threads + Sync>(
    rt: &R,
    alloc: Global,
    scripts: &TwoScripts,
) -> Option<(Served, Served, usize)> {
    let film = film_of(alloc, scripts.tape)?;
    play_over(rt, alloc, &film, scripts)
}
