//! Tests of eight fronts, each in its own thread, that share a journal with room for seven words.

ghost use Rattle.std.specs.Prelude.{◌≡◌};

use crate::sharing::{Lone, enter, enter_front, woken};
use crate::turns::Answered;
use nr_command::Command;
use nr_journal::{Journal, Seat};
use nr_replay_tests::Observed;
use nr_snaps::Film;
use std::alloc::{AllocError, Global};
use std::num::NonZeroU32;
use std::test::*;
use std::thread::{Threads, for_each_mut};

/// A front with its journal and its last answer.
#[derive(Drop)]
struct User<'a, 'f, R: Threads + Sync> {
    journal: &'a Journal,
    front: Lone<'f, R>,
    answer: Answered,
    ghost belongs: { front.table ≡ journal.now },
}

impl<'a, 'f, R: Threads + Sync> User<'a, 'f, R> {
    fn join(
        rt: &R,
        alloc: Global,
        journal: &'a Journal,
        seat: Seat,
        film: &'f Film<Observed>,
    ) -> Option<User<'a, 'f, R>>
        requires { seat.table ≡ journal.now }
    {
        let front = enter_front(rt, alloc, journal, seat, film)?;
        Some(User {
            journal,
            front,
            answer: Answered::Otherwise,
        })
    }

    fn step(&mut self) {
        let reply = self
            .front
            .exec(self.journal, Command::Step(NonZeroU32::MIN));
        self.answer = Answered::of(reply);
    }

    /// Ends the front, and returns its last answer and the number of words that its pass has seen.
    fn end(self) -> (Answered, usize) {
        let User {
            journal: _,
            front,
            answer,
        } = self;
        (answer, front.end().seen())
    }
}

/// Runs one step of each user, in a thread of its own if possible.
fn step_each<R: Threads + Send + Sync>(rt: &R, users: &mut [User<'_, '_, R>]) {
    for_each_mut(rt, users, 8, &|_, user: &mut User<'_, '_, R>| user.step());
}

/// Makes eight users of a journal.
fn eight<'a, 'f, R: Threads + Sync>(
    rt: &R,
    alloc: Global,
    journal: &'a Journal,
    seat: &mut Seat,
    film: &'f Film<Observed>,
) -> Option<Vec<User<'a, 'f, R>>>
    requires { seat.old.table ≡ journal.now }
    ensures { seat.new.table ≡ journal.now }
{
    let mut users = Vec::new(alloc);
    for _ in 0..8 {
        let next = journal.split(seat);
        let user = User::join(rt, alloc, journal, next, film)?;
        users.push(user).ok()?;
    }
    Some(users)
}

/// Ends all users, and returns the answer and the number of words of each user.
fn end_all<R: Threads + Sync>(
    alloc: Global,
    users: Vec<User<'_, '_, R>>,
) -> Option<Vec<(Answered, usize)>> {
    let mut answers = Vec::new(alloc);
    for user in users {
        answers.push(user.end()).ok()?;
    }
    Some(answers)
}

/// Returns the words of a journal, as a pass that joins late sees them.
fn all_words(journal: &Journal, seat: Seat) -> Option<Vec<u64>>
    requires { seat.table ≡ journal.now }
{
    let mut late = enter(journal, seat)?;
    journal.finish(&mut late).ok()
}

/// Runs one step of each of eight fronts over a journal of seven words. Returns the answer and the
/// number of words of each front, and the words.
fn crowd_over<R: Threads + Send + Sync>(
    rt: &R,
    alloc: Global,
    film: &Film<Observed>,
) -> Option<(Vec<(Answered, usize)>, Vec<u64>)> {
    let (journal, mut seat) = Journal::new(alloc, 7).ok()?;
    let mut users = eight(rt, alloc, &journal, &mut seat, film)?;
    step_each(rt, users.as_mut_slice());
    let answers = end_all(alloc, users);
    let words = all_words(&journal, seat);
    Some((answers?, words?))
}

/// Runs `crowd_over` over twelve steps.
fn crowd<R: Threads + Send + Sync>(
    rt: &R,
    alloc: Global,
) -> Option<(Vec<(Answered, usize)>, Vec<u64>)> {
    let film = woken(alloc)?;
    crowd_over(rt, alloc, &film)
}

/// Returns how many fronts were answered at each position from 1 on.
fn places(answers: &[(Answered, usize)]) -> [u32; 7] {
    let mut places = [0u32; 7];
    for (answer, seen) in answers {
        if let Answered::At(position) = answer {
            if *position == 0 || *seen < *position {
                continue;
            }
            if let Some(count) = places.get_mut(*position - 1) {
                *count = count.saturating_add(1);
            }
        }
    }
    places
}

/// Returns the tags of the `stepi` words, each tag once and in ascending order.
fn tags(alloc: Global, words: &[u64]) -> Result<Vec<u64>, AllocError> {
    let mut tags = Vec::new(alloc);
    for word in words {
        if *word % 256 == 1 && *word / 65_536 == 1 {
            tags.push(*word / 256 % 256)?;
        }
    }
    tags.sort()?;
    tags.dedup();
    Ok(tags)
}

#[test]
fn one_of_eight_fronts_finds_the_journal_full(rt: HostRuntime) -> Result<(), Fail> {
    let (answers, words) = crowd(&rt, rt.alloc()).ok_or("not played")?;
    assert_eq!(rt; places(answers.as_slice()), [1; 7]);
    let full = answers
        .iter()
        .filter(|answer| **answer == (Answered::Full, 7))
        .count();
    assert_eq!(rt; (answers.len(), full), (8, 1));
    let tags = tags(rt.alloc(), words.as_slice())?;
    assert_eq!(rt; (words.len(), tags.len()), (7, 7));
    Ok(())
}
