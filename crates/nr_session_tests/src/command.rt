//! Worked examples of lines, words and texts.

use nr_command::{Command, Line, Query, Reply};
use nr_journal::GREATEST_OPCODE;
use nr_marks::Break;
use nr_replay_tests::Counted;
use nr_rev::{Bytes, Cell, Kind, Side};
use nr_search::Direction;
use nr_text::Sink;
use std::num::NonZeroU32;
use std::test::Fail;

fn times(count: u32) -> NonZeroU32 {
    NonZeroU32::MIN.saturating_add(count.saturating_sub(1))
}

#[test]
fn words_hold_opcode_tag_and_argument(rt: HostRuntime) -> Result<(), Fail> {
    let most = times(u32::MAX);
    let words = [
        (Command::Step(times(3)), 0, 196_609),
        (Command::ReverseStep(times(1)), 1, 65_794),
        (Command::Watch(Cell::ReadWord(0)), 5, 787_719),
        (Command::Step(most), 0, 281_474_976_645_121),
        (Command::ReverseStep(most), 255, 281_474_976_710_402),
        (Command::Continue, 255, 65_283),
        (Command::ReverseContinue, 0, 4),
        (Command::SetDirection(Direction::Backward), 0, 65_541),
        (Command::Break(Break::Kind(Kind::Fire)), 0, 503_316_486),
        (
            Command::Break(Break::Kind(Kind::CloseWrite)),
            0,
            520_093_702,
        ),
        (Command::Break(Break::Step(most)), 0, 72_057_594_021_216_262),
        (
            Command::Watch(Cell::Info(u32::MAX)),
            0,
            72_057_594_022_395_911,
        ),
        (Command::Watch(Cell::Shut(0)), 0, 1_310_727),
        (Command::Delete(u32::MAX), 0, 281_474_976_645_128),
        (Command::Checkpoint, 0, 9),
        (Command::Restart(u32::MAX), 0, 281_474_976_645_130),
        (Command::DeleteCheckpoint(u32::MAX), 0, 281_474_976_645_131),
        (
            Command::TemporaryBreak(Break::Step(times(7))),
            0,
            117_506_060,
        ),
    ];
    for (command, tag, word) in words {
        assert_eq!(rt; command.to_word(tag), word);
        assert_eq!(rt; Command::of_word(word), Some((tag, command)));
    }
    Ok(())
}

#[test]
fn other_numbers_are_no_words(rt: HostRuntime) -> Result<(), Fail> {
    // in this order: `continue` with an argument, opcode 0, an opcode above the greatest, `stepi`
    // with no steps and with 2^32 steps, breaks before step 0 and at kind 32, a watch of the clock
    // with an index, and the greatest word
    let others = [
        327_683,
        0,
        GREATEST_OPCODE + 1,
        1,
        281_474_976_710_657,
        65_542,
        536_870_918,
        16_842_759,
        u64::MAX,
    ];
    for word in others {
        assert_eq!(rt; Command::of_word(word), None);
    }
    Ok(())
}

#[test]
fn lines_ask_for_commands(rt: HostRuntime) -> Result<(), Fail> {
    let asked = [
        (b"stepi 3".as_slice(), Line::Run(Command::Step(times(3)))),
        (b" si \r", Line::Run(Command::Step(times(1)))),
        (b"rc", Line::Run(Command::ReverseContinue)),
        (
            b"set exec-direction reverse",
            Line::Run(Command::SetDirection(Direction::Backward)),
        ),
        (b"b @7", Line::Run(Command::Break(Break::Step(times(7))))),
        (
            b"break rwlock",
            Line::Run(Command::Break(Break::Kind(Kind::RwLock))),
        ),
        (
            b"tbreak @7",
            Line::Run(Command::TemporaryBreak(Break::Step(times(7)))),
        ),
        (
            b"tb closewrite",
            Line::Run(Command::TemporaryBreak(Break::Kind(Kind::CloseWrite))),
        ),
        (b"watch rg 00", Line::Run(Command::Watch(Cell::ReadWord(0)))),
        (b"delete  2", Line::Run(Command::Delete(2))),
        (
            b"delete checkpoint 0",
            Line::Run(Command::DeleteCheckpoint(0)),
        ),
        (b"restart 1", Line::Run(Command::Restart(1))),
        (b"info breakpoints", Line::Look(Query::Breakpoints)),
        (b"resume", Line::Resume),
        (b"   ", Line::Empty),
    ];
    for (line, meaning) in asked {
        assert_eq!(rt; Command::parse(line), Ok(meaning));
    }
    Ok(())
}

/// Returns the length of a reply's text, and the number of writes that print it.
fn length_and_writes(rt: &HostRuntime, reply: &Reply) -> Result<(usize, usize), Fail> {
    let mut out = Sink::new(Counted {
        held: Vec::new(rt.alloc()),
        calls: 0,
    });
    if reply.print(&mut out).is_err() {
        return Err("a write failed".into());
    }
    let taken = out.into_inner();
    Ok((taken.held.len(), taken.calls))
}

#[test]
fn a_reply_goes_out_in_writes_of_512_bytes(rt: HostRuntime) -> Result<(), Fail> {
    assert_eq!(rt; length_and_writes(&rt, &Reply::At(2))?, (5, 1));
    let mut items = Vec::with_capacity(rt.alloc(), 65_536)?;
    for _ in 0..65_536 {
        items.push(0xab)?;
    }
    let reply = Reply::Bytes {
        side: Side::Read,
        socket: 0,
        bytes: Some(Bytes::new(items)),
    };
    assert_eq!(rt; length_and_writes(&rt, &reply)?, (131_080, 257));
    Ok(())
}
