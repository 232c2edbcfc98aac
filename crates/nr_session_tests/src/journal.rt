//! Words that are placed in a journal by one call after another. `nr_hostile_tests` contains the
//! tests in which threads place words.

ghost use Rattle.std.specs.Prelude.{◌≡◌};
ghost use Rattle.nr_journal.specs.Rule.{tag_of};
ghost use Rattle.nr_journal.specs.Auxiliary.Rule.{HasOpcode};

use nr_journal::{Journal, NoTag, Offered, Pass, Seat};
use std::cmp::Ordering;
use std::test::*;

/// Returns a word with opcode 3 and the pass's tag.
fn word_of(pass: &Pass, argument: u32) -> u64
    ensures { HasOpcode result × (tag_of result ≡ pass.now.pass_state.tag) }
{
    3 + 256 * u64::from(pass.tag()) + 65_536 * u64::from(argument)
}

/// Offers a word until it is placed. Returns false if the journal is full.
fn place(journal: &Journal, pass: &mut Pass, argument: u32) -> bool
    requires { pass.old.table ≡ journal.now }
    ensures { pass.new.table ≡ journal.now }
{
    for _ in 0..1_000 {
        let word = word_of(pass, argument);
        match journal.offer(pass, word) {
            Offered::Placed => return true,
            Offered::Lost(_) => {}
            Offered::Full => return false,
        }
    }
    false
}

/// The results of a pass that tries to place three words in a journal of two. The fields are: the
/// next word in the journal before the pass places a word; the pass's first word; whether each of
/// the three words was placed; the number of words that the pass has seen at the end; and the next
/// word in the journal at the end.
type Filled = (Option<u64>, u64, [bool; 3], usize, Option<u64>);

fn fill(journal: &Journal, one: &mut Pass) -> Filled
    requires { one.old.table ≡ journal.now }
    ensures { one.new.table ≡ journal.now }
{
    let before = journal.next(one);
    let word = word_of(one, 5);
    let placed = [
        place(journal, one, 5),
        place(journal, one, 6),
        place(journal, one, 7),
    ];
    (before, word, placed, one.seen(), journal.next(one))
}

/// Returns how a late pass compares with the first pass, how the first pass compares with the late
/// pass, and the first word that the late pass sees.
fn come_late(
    journal: &Journal,
    one: &mut Pass,
    late: &mut Pass,
) -> (Ordering, Ordering, Option<u64>)
    requires { (one.old.table ≡ journal.now) × (late.old.table ≡ journal.now) }
    ensures { (one.new.table ≡ journal.now) × (late.new.table ≡ journal.now) }
{
    let less = journal.meet(late, one);
    let greater = journal.meet(one, late);
    (less, greater, journal.next(late))
}

/// Lets the late pass see all words, and then lets the first pass see the words of the late pass.
/// Returns all words, and how the first pass compares with the late pass at the end.
fn see_all(journal: &Journal, one: &mut Pass, late: &mut Pass) -> Option<(Vec<u64>, Ordering)>
    requires { (one.old.table ≡ journal.now) × (late.old.table ≡ journal.now) }
{
    let words = journal.finish(late).ok()?;
    journal.see_all_of(one, late);
    Some((words, journal.meet(one, late)))
}

#[test]
fn who_comes_late_sees_all(rt: HostRuntime) -> Result<(), Fail> {
    let (journal, mut seat) = Journal::new(rt.alloc(), 2)?;
    let second = journal.split(&mut seat);
    let (Ok(mut one), Ok(mut late)) = (journal.enter(seat), journal.enter(second)) else {
        panic!(rt; "no tag")
    };
    // opcode 3 with argument 5, which isn't a command
    let filled = (None, 327_683, [true, true, false], 2, None);
    assert_eq!(rt; fill(&journal, &mut one), filled);
    assert_eq!(rt;
        come_late(&journal, &mut one, &mut late),
        (Ordering::Less, Ordering::Greater, Some(327_683))
    );
    let (words, met) = see_all(&journal, &mut one, &mut late).ok_or("no memory")?;
    assert_eq!(rt; met, Ordering::Equal);
    assert_eq!(rt; words.as_slice(), [327_683, 393_219].as_slice());
    Ok(())
}

/// Returns the tag of a pass, the number of words that it has seen, and the results of two offers of a word.
fn enter_and_offer(journal: &Journal, seat: Seat) -> Option<(u8, usize, Offered, Offered)>
    requires { seat.table ≡ journal.now }
{
    let Ok(mut pass) = journal.enter(seat) else {
        return None;
    };
    let seen = pass.seen();
    let word = word_of(&pass, 0);
    let first = journal.offer(&mut pass, word);
    let second = journal.offer(&mut pass, word);
    Some((pass.tag(), seen, first, second))
}

#[test]
fn sixty_four_enter_a_journal_of_one_word(rt: HostRuntime) -> Result<(), Fail> {
    let (journal, mut seat) = Journal::new(rt.alloc(), 1)?;
    for tag in 0..64 {
        let next = journal.split(&mut seat);
        let offered = if tag == 0 {
            Offered::Placed
        } else {
            Offered::Lost(3)
        };
        assert_eq!(rt;
            enter_and_offer(&journal, next),
            Some((tag, 0, offered, Offered::Full))
        );
    }
    for _ in 0..2 {
        let next = journal.split(&mut seat);
        let Err((back, NoTag)) = journal.enter(next) else {
            panic!(rt; "a tag too many")
        };
        seat = back;
    }
    Ok(())
}
