//! Two fronts that take turns, and words that aren't commands.

ghost use Rattle.std.specs.Prelude.{◌≡◌};
ghost use Rattle.nr_journal.specs.Rule.{tag_of};
ghost use Rattle.nr_journal.specs.Auxiliary.Rule.{HasOpcode};

use crate::sharing::{Lone, share, woken};
use nr_command::{Command, Line, Reply};
use nr_front::FrontFault;
use nr_journal::{Journal, Offered, Pass};
use nr_replay_tests::Observed;
use nr_snaps::Film;
use std::alloc::{AllocError, Global};
use std::cmp::Ordering;
use std::test::*;
use std::thread::Threads;

/// The answer of a front.
#[derive(Clone, Copy, Debug, PartialEq, Eq)]
pub(crate) enum Answered {
    At(usize),
    AtStart,
    AtHit(usize),
    Position { position: usize, last: usize },
    NothingOwed,
    Full,
    Memory,
    /// Any other answer.
    Otherwise,
}

impl Answered {
    pub(crate) fn of(reply: Result<Reply, FrontFault>) -> Answered {
        match reply {
            Ok(Reply::At(position)) => Answered::At(position),
            Ok(Reply::AtStart) => Answered::AtStart,
            Ok(Reply::AtHit { position, .. }) => Answered::AtHit(position),
            Ok(Reply::Position { position, last, .. }) => Answered::Position { position, last },
            Err(FrontFault::Full) => Answered::Full,
            Err(FrontFault::Memory(_)) => Answered::Memory,
            _ => Answered::Otherwise,
        }
    }

    fn of_owed(reply: Result<Option<Reply>, FrontFault>) -> Answered {
        match reply {
            Ok(Some(reply)) => Answered::of(Ok(reply)),
            Ok(None) => Answered::NothingOwed,
            Err(fault) => Answered::of(Err(fault)),
        }
    }
}

/// Sends a line to a front, and returns its answer.
pub(crate) fn ask<R: Threads + Sync>(
    front: &mut Lone<'_, R>,
    journal: &Journal,
    line: &str,
) -> Answered
    requires { front.old.table ≡ journal.now }
    ensures { front.new.table ≡ front.old.table }
{
    let Ok(asked) = Command::parse(line.as_bytes()) else {
        return Answered::Otherwise;
    };
    match asked {
        Line::Run(command) => Answered::of(front.exec(journal, command)),
        Line::Look(query) => Answered::of(front.look(journal, query)),
        Line::Resume => Answered::of_owed(front.resume()),
        _ => Answered::Otherwise,
    }
}

/// The front to which a line is sent: `One` has tag 0, and `Other` has tag 1.
#[derive(Clone, Copy)]
enum User {
    One,
    Other,
}

/// Lines that are sent one after the other, and the expected result.
struct Turns {
    /// The number of words for which the journal has room.
    room: usize,
    /// Which copies of the film's world are refused: one bit for each request, from the lowest bit
    /// on.
    refused: u32,
    lines: &'static [(User, &'static str)],
    answers: &'static [Answered],
    words: &'static [u64],
}

/// Sends these lines to two fronts, and returns the answers.
fn ask_all<R: Threads + Sync>(
    alloc: Global,
    journal: &Journal,
    one: &mut Lone<'_, R>,
    other: &mut Lone<'_, R>,
    lines: &[(User, &'static str)],
) -> Result<Vec<Answered>, AllocError>
    requires { (one.old.table ≡ journal.now) × (other.old.table ≡ journal.now) }
    ensures { (one.new.table ≡ journal.now) × (other.new.table ≡ journal.now) }
{
    let mut answers = Vec::new(alloc);
    for (user, line) in lines {
        let answer = match user {
            User::One => ask(one, journal, line),
            User::Other => ask(other, journal, line),
        };
        answers.push(answer)?;
    }
    Ok(answers)
}

/// The state of a journal after two fronts have ended.
#[derive(Drop)]
struct Ended {
    /// The number of words that each front has seen.
    seen: (usize, usize),
    /// Two comparisons of how many words the passes have seen: of the third pass with the first,
    /// and of the first pass with the second.
    met: (Ordering, Ordering),
    /// The words that the third pass sees.
    words: Vec<u64>,
}

fn end(journal: &Journal, mut one: Pass, mut other: Pass, mut third: Pass) -> Option<Ended>
    requires { (one.table ≡ journal.now) × (other.table ≡ journal.now) × (third.table ≡ journal.now) }
{
    let behind = journal.meet(&mut third, &mut one);
    let met = (behind, journal.meet(&mut one, &mut other));
    let words = journal.finish(&mut third).ok()?;
    Some(Ended {
        seen: (one.seen(), other.seen()),
        met,
        words,
    })
}

/// Lets two fronts of a film take turns, and returns their answers and the final state.
fn take_turns_over<R: Threads + Sync>(
    rt: &R,
    alloc: Global,
    film: &Film<Observed>,
    turns: &Turns,
) -> Option<(Vec<Answered>, Ended)> {
    let words = turns.room.clamp(1, 8);
    let (journal, mut one, mut other, third) = share(rt, alloc, words, film)?;
    film.start().refuse(turns.refused);
    let answers = ask_all(alloc, &journal, &mut one, &mut other, turns.lines);
    let ended = end(&journal, one.end(), other.end(), third);
    Some((answers.ok()?, ended?))
}

fn take_turns<R: Threads + Sync>(
    rt: &R,
    alloc: Global,
    turns: &Turns,
) -> Option<(Vec<Answered>, Ended)> {
    let film = woken(alloc)?;
    take_turns_over(rt, alloc, &film, turns)
}

static TURNS: [Turns; 5] = [
    Turns {
        room: 4,
        refused: 0,
        lines: &[
            (User::One, "stepi 3"),
            (User::Other, "reverse-stepi"),
            (User::One, "info position"),
            (User::Other, "info position"),
            (User::One, "resume"),
        ],
        answers: &[
            Answered::At(3),
            Answered::At(2),
            Answered::Position {
                position: 2,
                last: 12,
            },
            Answered::Position {
                position: 2,
                last: 12,
            },
            Answered::NothingOwed,
        ],
        words: &[196_609, 65_794],
    },
    Turns {
        room: 4,
        refused: 0,
        lines: &[
            (User::Other, "reverse-stepi"),
            (User::One, "stepi 3"),
            (User::One, "info position"),
            (User::Other, "info position"),
        ],
        answers: &[
            Answered::AtStart,
            Answered::At(3),
            Answered::Position {
                position: 3,
                last: 12,
            },
            Answered::Position {
                position: 3,
                last: 12,
            },
        ],
        words: &[65_794, 196_609],
    },
    Turns {
        room: 1,
        refused: 0,
        lines: &[
            (User::One, "stepi 3"),
            (User::Other, "reverse-stepi"),
            (User::One, "info position"),
            (User::Other, "info position"),
            (User::One, "reverse-stepi"),
        ],
        answers: &[
            Answered::At(3),
            Answered::Full,
            Answered::Position {
                position: 3,
                last: 12,
            },
            Answered::Position {
                position: 3,
                last: 12,
            },
            Answered::Full,
        ],
        words: &[196_609],
    },
    Turns {
        room: 1,
        refused: 0,
        lines: &[
            (User::Other, "reverse-stepi"),
            (User::One, "stepi 3"),
            (User::One, "info position"),
            (User::Other, "info position"),
        ],
        answers: &[
            Answered::AtStart,
            Answered::Full,
            Answered::Position {
                position: 0,
                last: 12,
            },
            Answered::Position {
                position: 0,
                last: 12,
            },
        ],
        words: &[65_794],
    },
    // The first front's search takes a copy. When the other front runs that search, two copies are
    // refused, so it places nothing. The words are a watch and a search with tag 0, and one step
    // with tag 1.
    Turns {
        room: 8,
        refused: 0b110,
        lines: &[
            (User::One, "watch rg 0"),
            (User::One, "continue"),
            (User::Other, "stepi"),
            (User::Other, "info position"),
            (User::One, "info position"),
            (User::Other, "stepi"),
            (User::One, "info position"),
        ],
        answers: &[
            Answered::Otherwise,
            Answered::AtHit(2),
            Answered::Memory,
            Answered::Memory,
            Answered::Position {
                position: 2,
                last: 12,
            },
            Answered::At(3),
            Answered::Position {
                position: 3,
                last: 12,
            },
        ],
        words: &[786_439, 3, 65_793],
    },
];

#[test]
fn two_fronts_have_the_replies_of_their_order(rt: HostRuntime) -> Result<(), Fail> {
    for turns in TURNS.iter() {
        let (answers, ended) = take_turns(&rt, rt.alloc(), turns).ok_or("not played")?;
        assert_eq!(rt; answers.as_slice(), turns.answers);
        assert_eq!(rt; ended.words.as_slice(), turns.words);
        assert_eq!(rt; ended.seen, (turns.words.len(), turns.words.len()));
        assert_eq!(rt; ended.met, (Ordering::Less, Ordering::Equal));
    }
    Ok(())
}

/// Returns a word with opcode 3 and the pass's tag.
fn word_of(pass: &Pass, argument: u32) -> u64
    ensures { HasOpcode result × (tag_of result ≡ pass.now.pass_state.tag) }
{
    3 + 256 * u64::from(pass.tag()) + 65_536 * u64::from(argument)
}

/// Offers the word with opcode 3 and argument 5, which isn't a command, and returns whether it was placed.
fn offer_no_command(journal: &Journal, pass: &mut Pass) -> bool
    requires { pass.old.table ≡ journal.now }
    ensures { pass.new.table ≡ journal.now }
{
    let word = word_of(pass, 5);
    matches!(journal.offer(pass, word), Offered::Placed)
}

/// Offers four words. The pass with tag 2 offers a word that isn't a command. The pass with tag 0
/// places a step and then offers a word that isn't a command. The pass with tag 1 places a step.
/// Returns whether the two words that aren't commands were placed, the answers to the steps, and
/// the final state.
fn step_behind_over<R: Threads + Sync>(
    rt: &R,
    alloc: Global,
    film: &Film<Observed>,
) -> Option<([bool; 2], [Answered; 2], Ended)> {
    let (journal, mut one, mut other, mut third) = share(rt, alloc, 4, film)?;
    let by_third = offer_no_command(&journal, &mut third);
    let first = ask(&mut one, &journal, "stepi");
    let mut pass = one.end();
    let by_first = offer_no_command(&journal, &mut pass);
    let second = ask(&mut other, &journal, "stepi");
    let ended = end(&journal, pass, other.end(), third)?;
    Some(([by_third, by_first], [first, second], ended))
}

fn step_behind_no_commands<R: Threads + Sync>(
    rt: &R,
    alloc: Global,
) -> Option<([bool; 2], [Answered; 2], Ended)> {
    let film = woken(alloc)?;
    step_behind_over(rt, alloc, &film)
}

#[test]
fn a_word_that_is_no_command_takes_a_place(rt: HostRuntime) -> Result<(), Fail> {
    let (placed, answers, ended) = step_behind_no_commands(&rt, rt.alloc()).ok_or("not played")?;
    assert_eq!(rt; placed, [true, true]);
    assert_eq!(rt; answers, [Answered::At(1), Answered::At(2)]);
    // the first front has seen all words except the other front's step
    assert_eq!(rt; ended.seen, (3, 4));
    assert_eq!(rt; ended.met, (Ordering::Less, Ordering::Less));
    assert_eq!(rt;
        ended.words.as_slice(),
        [328_195, 65_537, 327_683, 65_793].as_slice()
    );
    Ok(())
}
