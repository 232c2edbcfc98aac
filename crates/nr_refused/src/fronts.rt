//! Fronts: making them, running commands and answering queries.

ghost use Rattle.std.specs.Prelude.{◌≡◌, [], IfSome};

use crate::films::{film, short_film};
use crate::twice::{Came, Twice, grant, refuse, refuse_next};
use nr_command::{Command, Line, Reply};
use nr_front::{Front, FrontFault};
use nr_journal::{Journal, Pass, Seat};
use nr_machine::World;
use nr_search::OneWorker;
use nr_snaps::Film;
use nr_text::Sink;
use std::alloc::{AllocError, Global};
use std::thread::Threads;

/// A front with one worker.
type Lone<'f, H> = Front<'f, World, OneWorker<H>>;

/// The number of deltas that these fronts keep.
const DEPTH: usize = 32;

/// The number of words in these journals.
const WORDS: usize = 16;

/// The answer to a line.
#[derive(Clone, Copy, PartialEq, Eq)]
enum Answer {
    /// The expected reply.
    Right,
    Memory,
    /// The command with this number ran out of memory, and its reply is owed.
    Owed(usize),
    NothingOwed,
    /// Any other answer.
    Other,
}

impl Answer {
    // Compares the reply with the expected text, and returns the kind of answer.
    fn of(reply: Result<Reply, FrontFault>, text: &str) -> Answer {
        match reply {
            Ok(reply) => {
                if prints_as(&reply, text) {
                    Answer::Right
                } else {
                    Answer::Other
                }
            }
            Err(FrontFault::Memory(_)) => Answer::Memory,
            Err(FrontFault::Placed(number)) => Answer::Owed(number),
            Err(FrontFault::Full) => Answer::Other,
        }
    }

    fn of_owed(reply: Result<Option<Reply>, FrontFault>, text: &str) -> Answer {
        match reply {
            Ok(Some(reply)) => Answer::of(Ok(reply), text),
            Ok(None) => Answer::NothingOwed,
            Err(fault) => Answer::of(Err(fault), text),
        }
    }

    fn is_right(self) -> bool {
        self == Answer::Right
    }

    fn came(self) -> Came {
        match self {
            Answer::Memory => Came::Refused,
            _ => Came::of(self.is_right()),
        }
    }
}

fn prints_as(reply: &Reply, text: &str) -> bool {
    let mut room = [0u8; 128];
    let all = room.len();
    let mut out = Sink::new(room.as_mut_slice());
    let is_out = out.print(reply).is_ok();
    let left = out.into_inner().len();
    is_out && room.get(..all.saturating_sub(left)) == Some(text.as_bytes())
}

/// Sends a line to a front, compares the reply with the expected text, and returns the kind of
/// answer.
fn ask<H: Threads + Sync>(
    front: &mut Lone<'_, H>,
    journal: &Journal,
    line: &str,
    text: &str,
) -> Answer
    requires { front.old.table ≡ journal.now }
    ensures { front.new.table ≡ front.old.table }
{
    let Ok(asked) = Command::parse(line.as_bytes()) else {
        return Answer::Other;
    };
    match asked {
        Line::Run(command) => Answer::of(front.exec(journal, command), text),
        Line::Look(query) => Answer::of(front.look(journal, query), text),
        Line::Resume => Answer::of_owed(front.resume(), text),
        _ => Answer::Other,
    }
}

/// Sends lines to a front, and returns whether each got its expected reply.
fn ask_all<H: Threads + Sync>(
    front: &mut Lone<'_, H>,
    journal: &Journal,
    lines: &[(&str, &str)],
) -> bool
    requires { front.old.table ≡ journal.now }
    ensures { front.new.table ≡ journal.now }
{
    let mut are_right = true;
    for (line, text) in lines {
        are_right &= ask(front, journal, line, text).is_right();
    }
    are_right
}

// Enters the journal with a seat, and returns the pass.
fn enter(journal: &Journal, seat: Seat) -> Option<Pass>
    requires { seat.table ≡ journal.now }
    ensures { IfSome result (λ pass. (pass.table ≡ journal.now) × (pass.pass_state.seen ≡ [])) }
{
    match journal.enter(seat) {
        Ok(pass) => Some(pass),
        Err(_) => None,
    }
}

/// Makes a front at the film's first position.
fn front<'f, H: Threads + Sync>(
    _handles: &H,
    alloc: Global,
    pass: Pass,
    film: &'f Film<World>,
) -> Option<Lone<'f, H>>
    requires { pass.pass_state.seen ≡ [] }
    ensures { IfSome result (λ front. front.table ≡ pass.table) }
{
    match Front::new(alloc, pass, film, OneWorker::new(), DEPTH) {
        Ok(front) => Some(front),
        Err(_) => None,
    }
}

// Makes a front with a seat of the journal, at the film's first position.
fn enter_front<'f, H: Threads + Sync>(
    handles: &H,
    alloc: Global,
    journal: &Journal,
    seat: Seat,
    film: &'f Film<World>,
) -> Option<Lone<'f, H>>
    requires { seat.table ≡ journal.now }
    ensures { IfSome result (λ front. front.table ≡ journal.now) }
{
    let pass = enter(journal, seat)?;
    front(handles, alloc, pass, film)
}

/// Makes a journal and two fronts.
fn share<'f, H: Threads + Sync>(
    handles: &H,
    alloc: Global,
    film: &'f Film<World>,
) -> Option<(Journal, Lone<'f, H>, Lone<'f, H>)>
    ensures { IfSome result (λ shared. (shared.1.table ≡ shared.0) × (shared.2.table ≡ shared.0)) }
{
    let (journal, mut first) = Journal::new(alloc, WORDS).ok()?;
    let second = journal.split(&mut first);
    let one = enter_front(handles, alloc, &journal, first, film)?;
    let other = enter_front(handles, alloc, &journal, second, film)?;
    Some((journal, one, other))
}

// Returns whether a new front runs a step and answers a query.
fn steps_and_looks<H: Threads + Sync>(front: &mut Lone<'_, H>, journal: &Journal) -> Came
    requires { front.old.table ≡ journal.now }
{
    let lines = [("stepi 3", "at 3\n"), ("print in 0", "in 0 = 0\n")];
    Came::of(ask_all(front, journal, lines.as_slice()))
}

// Makes a front with the pass that a refused call returned.
fn make_again<H: Threads + Sync>(
    _handles: &H,
    alloc: Global,
    journal: &Journal,
    film: &Film<World>,
    pass: Pass,
) -> Came
    requires journal { pass.table ≡ journal.now }
    requires unseen { pass.pass_state.seen ≡ [] }
{
    match Front::new(alloc, pass, film, OneWorker::<H>::new(), DEPTH) {
        Ok(mut front) => steps_and_looks(&mut front, journal),
        Err(_) => Came::Refused,
    }
}

// Makes a front, and makes it again if the call was refused and returned the pass.
fn make_with<H: Threads + Sync>(
    rt: &HostRuntime,
    handles: &H,
    journal: &Journal,
    film: &Film<World>,
    pass: Pass,
) -> Twice
    requires journal { pass.table ≡ journal.now }
    requires unseen { pass.pass_state.seen ≡ [] }
{
    match Front::new(rt.alloc(), pass, film, OneWorker::<H>::new(), DEPTH) {
        Ok(mut front) => {
            grant(rt);
            Twice::once(steps_and_looks(&mut front, journal))
        }
        Err((pass, _)) => {
            grant(rt);
            Twice {
                first: Came::Refused,
                again: make_again(handles, rt.alloc(), journal, film, pass),
            }
        }
    }
}

fn make_over<H: Threads + Sync>(
    rt: &HostRuntime,
    handles: &H,
    film: &Film<World>,
) -> Option<Twice> {
    let (journal, seat) = Journal::new(rt.alloc(), WORDS).ok()?;
    let pass = enter(&journal, seat)?;
    refuse(rt);
    Some(make_with(rt, handles, &journal, film, pass))
}

/// Tests making a front. The second call uses the pass that the first call returned.
pub(crate) fn make_twice<H: Threads + Sync>(rt: &HostRuntime, handles: &H) -> Option<Twice> {
    let film = film(rt.alloc())?;
    make_over(rt, handles, &film)
}

/// A test with two fronts over a film.
#[derive(Clone, Copy)]
pub(crate) enum Play {
    /// A search.
    Exec,
    /// A step after another front's search.
    ExecBehindAnother,
    Look,
    /// A `resume` for an owed reply.
    Resume,
    SixLines,
}

fn play_over<H: Threads + Sync>(
    rt: &HostRuntime,
    handles: &H,
    film: &Film<World>,
    play: Play,
) -> Option<Twice> {
    let (journal, mut one, mut other) = share(handles, rt.alloc(), film)?;
    Some(match play {
        Play::Exec => exec(rt, &journal, &mut one),
        Play::ExecBehindAnother => exec_behind(rt, &journal, &mut one, &mut other),
        Play::Look => look(rt, &journal, &mut one),
        Play::Resume => resume_owed(rt, &journal, &mut one),
        Play::SixLines => six_lines(rt, &journal, &mut one, &mut other),
    })
}

// The reply of the search in the tests below.
const FOUND: &str = "at 2 by 1\n";

// Tests a search that may run out of memory. If it does, its reply is owed, and further commands
// are refused until `resume` returns the reply.
fn exec<H: Threads + Sync>(rt: &HostRuntime, journal: &Journal, front: &mut Lone<'_, H>) -> Twice
    requires { front.old.table ≡ journal.now }
{
    let begun = ask(front, journal, "watch rg 0", "mark 1\n").is_right();
    refuse(rt);
    let answer = ask(front, journal, "continue", FOUND);
    grant(rt);
    if answer != Answer::Owed(2) {
        return Twice::once(Came::of(begun && answer.is_right()));
    }
    let is_owed = ask(front, journal, "stepi", "") == Answer::Owed(2);
    let again = ask(front, journal, "resume", FOUND).came();
    let there = "at 2 of 192 forward\n";
    let behind = ask(front, journal, "info position", there).is_right();
    Twice {
        first: Came::Refused.leaving(begun && is_owed && behind),
        again,
    }
}

// Tests a step after another front's search. If the search runs out of memory, the step isn't placed.
fn exec_behind<H: Threads + Sync>(
    rt: &HostRuntime,
    journal: &Journal,
    one: &mut Lone<'_, H>,
    other: &mut Lone<'_, H>,
) -> Twice
    requires one { one.old.table ≡ journal.now }
    requires other { other.old.table ≡ journal.now }
{
    let lines = [("watch rg 0", "mark 1\n"), ("continue", FOUND)];
    let begun = ask_all(one, journal, lines.as_slice());
    refuse(rt);
    let first = ask(other, journal, "stepi 3", "at 5\n").came();
    grant(rt);
    // a front that had placed the step would be at 5
    let (there, line, text) = if first == Came::Refused {
        ("at 2 of 192 forward\n", "stepi 3", "at 5\n")
    } else {
        (
            "at 5 of 192 forward\n",
            "info position",
            "at 5 of 192 forward\n",
        )
    };
    let is_there = ask(one, journal, "info position", there).is_right();
    Twice {
        first: first.behind(begun && is_there),
        again: ask(other, journal, line, text).came(),
    }
}

// Tests a dump of bytes. Before it can print them, the walker must go back a long way.
fn look<H: Threads + Sync>(rt: &HostRuntime, journal: &Journal, front: &mut Lone<'_, H>) -> Twice
    requires { front.old.table ≡ journal.now }
{
    let lines = [
        ("stepi 150", "at 150\n"),
        ("print clock", "clock = 138\n"),
        ("reverse-stepi 141", "at 9\n"),
    ];
    let begun = ask_all(front, journal, lines.as_slice());
    let text = "in 0 = 6869\n";
    refuse(rt);
    let first = ask(front, journal, "dump in 0", text).came();
    grant(rt);
    let there = "at 9 of 192 forward\n";
    let is_there = ask(front, journal, "info position", there).is_right();
    Twice {
        first: first.behind(begun && is_there),
        again: ask(front, journal, "dump in 0", text).came(),
    }
}

// Tests `resume` for a search that ran out of memory and may run out of memory again.
fn resume_owed<H: Threads + Sync>(
    rt: &HostRuntime,
    journal: &Journal,
    front: &mut Lone<'_, H>,
) -> Twice
    requires { front.old.table ≡ journal.now }
{
    let begun = ask(front, journal, "watch rg 0", "mark 1\n").is_right();
    refuse_next(rt);
    let answer = ask(front, journal, "continue", FOUND);
    if answer != Answer::Owed(2) {
        // no request was refused
        return Twice::once(Came::of(begun && answer.is_right()));
    }
    refuse(rt);
    let answer = ask(front, journal, "resume", FOUND);
    grant(rt);
    let again = ask(front, journal, "resume", FOUND);
    match answer {
        Answer::Owed(number) => Twice {
            first: Came::Refused.leaving(begun && number == 2),
            again: again.came(),
        },
        _ => Twice {
            first: Came::of(begun && answer.is_right()),
            again: Came::of(again == Answer::NothingOwed),
        },
    }
}

/// Six lines, each with its reply and the number of commands that are placed after it.
static SIX_LINES: [(&str, &str, usize); 6] = [
    ("watch rg 0", "mark 1\n", 1),
    ("continue", "at 2 by 1\n", 2),
    ("stepi 3", "at 5\n", 3),
    ("print in 0", "in 0 = 0\n", 3),
    ("reverse-continue", "at 2 by 1\n", 4),
    ("info position", "at 2 of 12 forward\n", 4),
];

// Sends a line and gets its answer, even if memory runs out. If memory ran out for the line's
// query, or for another front's command, sends the line again. If the line's command was placed but
// its reply is still owed, requests the reply. This happens only for a search.
fn answered<H: Threads + Sync>(
    journal: &Journal,
    front: &mut Lone<'_, H>,
    line: &str,
    text: &str,
    placed: usize,
) -> Came
    requires { front.old.table ≡ journal.now }
    ensures { front.new.table ≡ journal.now }
{
    match ask(front, journal, line, text) {
        Answer::Memory => {
            let again = ask(front, journal, line, text).is_right();
            Came::Refused.leaving(again && line == "print in 0")
        }
        Answer::Owed(number) => {
            let again = ask(front, journal, "resume", text).is_right();
            let is_search = (number == 2 || number == 4) && number == placed;
            Came::Refused.leaving(again && is_search)
        }
        answer => Came::of(answer.is_right()),
    }
}

// Sends the six lines. Returns `Wrong` if an answer is wrong, otherwise `Refused` if a line was
// refused, and otherwise `Right`.
fn answered_all<H: Threads + Sync>(journal: &Journal, front: &mut Lone<'_, H>) -> Came
    requires { front.old.table ≡ journal.now }
    ensures { front.new.table ≡ journal.now }
{
    let mut all = Came::Right;
    for (line, text, placed) in SIX_LINES.iter() {
        let came = answered(journal, front, line, text, *placed);
        all = all.and(came);
    }
    all
}

// Tests the six lines while requests may be refused, and then uses the other front to check what
// the lines have done.
fn six_lines<H: Threads + Sync>(
    rt: &HostRuntime,
    journal: &Journal,
    one: &mut Lone<'_, H>,
    other: &mut Lone<'_, H>,
) -> Twice
    requires one { one.old.table ≡ journal.now }
    requires other { other.old.table ≡ journal.now }
{
    refuse(rt);
    let first = answered_all(journal, one);
    grant(rt);
    let lines = [
        ("info position", "at 2 of 12 forward\n"),
        ("info breakpoints", "marks 1\n1 watch rg 0\n"),
        ("checkpoint", "checkpoint 1 at 2\n"),
    ];
    let are_right = ask_all(other, journal, lines.as_slice());
    let is_there = ask(one, journal, "restart 1", "at 2\n").is_right();
    Twice {
        first,
        again: Came::of(are_right && is_there),
    }
}

// Returns the film for a test.
fn film_of(alloc: Global, play: Play) -> Option<Film<World>> {
    match play {
        Play::SixLines => short_film(alloc),
        _ => film(alloc),
    }
}

/// Runs the test. In `SixLines`, each line may be refused, and a refused line is sent again.
pub(crate) fn play_twice<H: Threads + Sync>(
    rt: &HostRuntime,
    handles: &H,
    play: Play,
) -> Option<Twice> {
    let film = film_of(rt.alloc(), play)?;
    play_over(rt, handles, &film, play)
}
