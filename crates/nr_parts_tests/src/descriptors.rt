//! Tests of descriptors with concrete values. The codes of words are 0 for nil, 1 for ready, 2 for
//! wait, and a goroutine's number plus 3. The byte of marks is the sum of 1 for closing, 2 for an
//! event error, and 4 and 8 for running read and write timers.

ghost use Rattle.std.specs.Prelude.{◌≡◌, IfOk};
ghost use Rattle.nr_desc.specs.Desc.{DescFits};

use arrayvec::ArrayVec;
use nr_desc::{Desc, DescOp, Goroutine};
use nr_rev::{Answer, Mode, Refusal, Reversible, Side, Sides, TimerFunction, TimerOrder, transact};
use std::test::Fail;

/// The codes of both words, the marks, both sequences, and the tag.
type Numbers = (u32, u32, u8, u64, u64, u64);

fn numbers(desc: &Desc) -> Numbers {
    (
        desc.code(Side::Read),
        desc.code(Side::Write),
        desc.marks(),
        desc.sequence(Side::Read),
        desc.sequence(Side::Write),
        desc.fdseq(),
    )
}

/// Returns an open descriptor at which goroutine 5 is parked for reading, with a deadline of 100 for both sides.
fn parked() -> Result<Desc, Refusal>
    ensures { IfOk result DescFits }
{
    let mut desc = Desc::never_opened();
    let ops = [
        DescOp::Open { socket: 7 },
        DescOp::SetDeadline {
            clock: 0,
            mode: Mode::Both,
            time: 100,
        },
        DescOp::Arm(Side::Read),
        DescOp::Commit(Side::Read, Goroutine::of_number(5)),
    ];
    let mut deltas = ArrayVec::new();
    transact(&mut desc, &ops, &mut deltas)?;
    Ok(desc)
}

/// An operation's answer, the goroutines that it wakes, its orders to timers, and the descriptor's
/// numbers after the operation and after its undo.
type Played = (
    Answer,
    Sides<Option<u32>>,
    Sides<Option<TimerOrder>>,
    Numbers,
    Numbers,
);

fn there_and_back(mut desc: Desc, op: DescOp) -> Result<Played, Refusal>
    requires { DescFits desc }
{
    let (answer, delta) = desc.apply(&op)?;
    let after = numbers(&desc);
    desc.undo(delta);
    Ok((
        answer.answer,
        answer.woken,
        answer.orders.sides(),
        after,
        numbers(&desc),
    ))
}

const PARKED: Numbers = (8, 0, 4, 1, 1, 1);

const NO_ORDERS: Sides<Option<TimerOrder>> = Sides {
    read: None,
    write: None,
};

const READER: Sides<Option<u32>> = Sides {
    read: Some(5),
    write: None,
};

#[test]
fn an_event_with_an_error_wakes_the_reader(rt: HostRuntime) -> Result<(), Fail> {
    let event = DescOp::Event {
        tag: 1,
        mode: Mode::Both,
        error: true,
    };
    assert_eq!(rt;
        there_and_back(parked()?, event),
        Ok((Answer::Done, READER, NO_ORDERS, (1, 1, 6, 1, 1, 1), PARKED))
    );
    Ok(())
}

#[test]
fn an_eviction_stops_the_timer_and_wakes_the_reader(rt: HostRuntime) -> Result<(), Fail> {
    let stop = Sides {
        read: Some(TimerOrder::Stop { side: Side::Read }),
        write: None,
    };
    assert_eq!(rt;
        there_and_back(parked()?, DescOp::Evict),
        Ok((Answer::Done, READER, stop, (0, 0, 1, 2, 2, 1), PARKED))
    );
    Ok(())
}

#[test]
fn a_firing_with_the_sequence_expires_both_deadlines(rt: HostRuntime) -> Result<(), Fail> {
    let fire = DescOp::Fire {
        function: TimerFunction::Both,
        sequence: 1,
    };
    assert_eq!(rt;
        there_and_back(parked()?, fire),
        Ok((Answer::Done, READER, NO_ORDERS, (0, 0, 4, 1, 1, 1), PARKED))
    );
    Ok(())
}

/// Returns why an operation on a descriptor is refused, and the numbers afterwards.
fn refused(mut desc: Desc, op: DescOp) -> (Option<Refusal>, Numbers)
    requires { DescFits desc }
{
    let refusal = desc.apply(&op).err();
    (refusal, numbers(&desc))
}

#[test]
fn refusals_leave_the_descriptor(rt: HostRuntime) -> Result<(), Fail> {
    let fire = DescOp::Fire {
        function: TimerFunction::Read,
        sequence: 0,
    };
    let refusals = [
        refused(parked()?, DescOp::Arm(Side::Read)),
        refused(parked()?, DescOp::Close),
        refused(parked()?, DescOp::Reset(Side::Read)),
    ];
    assert_eq!(rt;
        refusals,
        [
            (Some(Refusal::DoubleWait), PARKED),
            (Some(Refusal::CloseWithoutUnblock), PARKED),
            (Some(Refusal::WaiterInside), PARKED),
        ]
    );
    assert_eq!(rt;
        refused(Desc::never_opened(), fire),
        (Some(Refusal::CorruptedDescriptor), (0, 0, 0, 0, 0, 0))
    );
    Ok(())
}
