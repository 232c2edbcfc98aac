//! Two fronts in threads of their own, each of which places a hundred commands.

ghost use Rattle.std.specs.Prelude.{◌≡◌};

use crate::sharing::{Lone, share};
use crate::turns::{Answered, ask};
use nr_command::Command;
use nr_journal::{Journal, Pass};
use nr_replay_tests::{Observed, ticking};
use nr_snaps::Film;
use std::alloc::Global;
use std::cmp::Ordering;
use std::num::NonZeroU32;
use std::test::*;
use std::thread::{Threads, join};

/// Places a hundred commands.
fn step_often<R: Threads + Sync>(journal: &Journal, front: &mut Lone<'_, R>)
    requires { front.old.table ≡ journal.now }
    ensures { front.new.table ≡ journal.now }
{
    for _ in 0..100 {
        let _reply = front.exec(journal, Command::Step(NonZeroU32::MIN));
    }
}

/// Sends queries until the commands of both fronts have run.
fn wait_for_both<R: Threads + Sync>(journal: &Journal, front: &mut Lone<'_, R>)
    requires { front.old.table ≡ journal.now }
    ensures { front.new.table ≡ journal.now }
{
    let done = Answered::Position {
        position: 200,
        last: 300,
    };
    for _ in 0..10_000_000 {
        if ask(front, journal, "info position") == done {
            return;
        }
    }
}

/// Places a hundred commands. Then sends queries until the hundred commands of the other front have
/// run too.
fn step_and_wait<R: Threads + Sync>(journal: &Journal, mut front: Lone<'_, R>) -> Pass
    requires { front.table ≡ journal.now }
    ensures { result.table ≡ journal.now }
{
    step_often(journal, &mut front);
    wait_for_both(journal, &mut front);
    front.end()
}

/// Lets two fronts place a hundred commands each at the same time. Compares how many words the two
/// fronts have seen. Returns the result of this comparison, and all words.
fn step_at_once<R: Threads + Send + Sync>(
    rt: &R,
    alloc: Global,
    film: &Film<Observed>,
) -> Option<(Ordering, Vec<u64>)> {
    let (journal, one, other, _) = share(rt, alloc, 4096, film)?;
    let shared = &journal;
    let (mut one, mut other) = join(
        rt,
        move || -> Pass
            requires { one.table ≡ shared.now }
            ensures { result.table ≡ shared.entry.now }
        { step_and_wait(shared, one) },
        move || -> Pass
            requires { other.table ≡ shared.now }
            ensures { result.table ≡ shared.entry.now }
        { step_and_wait(shared, other) },
    );
    let met = journal.meet(&mut one, &mut other);
    let words = journal.finish(&mut one).ok()?;
    Some((met, words))
}

/// Runs `step_at_once` over three hundred steps.
fn two_at_once<R: Threads + Send + Sync>(rt: &R, alloc: Global) -> Option<(Ordering, Vec<u64>)> {
    let film = ticking(alloc, 300)?;
    step_at_once(rt, alloc, &film)
}

#[test]
fn two_threads_place_a_hundred_commands_each(rt: HostRuntime) -> Result<(), Fail> {
    let (met, words) = two_at_once(&rt, rt.alloc()).ok_or("not played")?;
    let first = words.iter().filter(|word| **word / 256 % 256 == 0).count();
    assert_eq!(rt; (met, words.len(), first), (Ordering::Equal, 200, 100));
    Ok(())
}
