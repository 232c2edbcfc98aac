//! Tests of lock words with concrete values: read waiters start at bit 23, write waiters at bit 43.

ghost use Rattle.std.specs.Prelude.{◌<◌, ◌≤◌, ◌^◌, length};

use arrayvec::ArrayVec;
use nr_lock::{LockAnswer, LockOp, LockWord};
use nr_rev::{Answer, Refusal, Reversible, Side, Sides, transact};
use std::test::Fail;

/// Returns the answer of an operation on the word with this number, the word after it, and the word after its undo.
fn there_and_back(number: u64, op: LockOp) -> (Result<LockAnswer, Refusal>, u64, u64)
    requires { number < 2 ^ 63 }
{
    let mut word = LockWord::of_number(number);
    match word.apply(&op) {
        Ok((answer, delta)) => {
            let after = word.number();
            word.undo(delta);
            (Ok(answer), after, word.number())
        }
        Err(refusal) => (Err(refusal), word.number(), word.number()),
    }
}

fn answered(answer: Answer, read: u32, write: u32) -> Result<LockAnswer, Refusal> {
    Ok(LockAnswer {
        answer,
        owed: Sides { read, write },
    })
}

#[test]
fn closing_owes_each_waiter_a_release(rt: HostRuntime) -> Result<(), Fail> {
    assert_eq!(rt;
        there_and_back(8_796_109_799_434, LockOp::IncrefClose),
        (answered(Answer::Yes, 2, 1), 19, 8_796_109_799_434)
    );
    Ok(())
}

#[test]
fn unlocking_owes_one_waiter_a_release(rt: HostRuntime) -> Result<(), Fail> {
    assert_eq!(rt;
        there_and_back(8_388_618, LockOp::RwUnlock(Side::Read)),
        (answered(Answer::NotLast, 1, 0), 0, 8_388_618)
    );
    Ok(())
}

#[test]
fn full_references_are_refused(rt: HostRuntime) -> Result<(), Fail> {
    assert_eq!(rt;
        there_and_back(8_388_600, LockOp::Incref),
        (Err(Refusal::FieldOverflow), 8_388_600, 8_388_600)
    );
    Ok(())
}

/// Applies all the operations, or none of them, to a lock that no goroutine holds. Returns whether they apply,
/// and the word afterwards.
fn transacted(ops: &[LockOp]) -> (Result<(), Refusal>, u64)
    requires { length ops.now ≤ 8 }
{
    let mut word = LockWord::open();
    let mut deltas = ArrayVec::new();
    let applied = transact(&mut word, ops, &mut deltas);
    (applied, word.number())
}

#[test]
fn all_apply_or_none(rt: HostRuntime) -> Result<(), Fail> {
    assert_eq!(rt;
        transacted(&[
            LockOp::Incref,
            LockOp::RwLock(Side::Write),
            LockOp::RwLock(Side::Write)
        ]),
        (Ok(()), 8_796_093_022_228)
    );
    assert_eq!(rt;
        transacted(&[LockOp::Incref, LockOp::Decref, LockOp::Decref]),
        (Err(Refusal::InconsistentLock), 0)
    );
    Ok(())
}
