//! Streams that fail or accept nothing after each byte.

use crate::scripts::{Script, Second, Tape, TwoScripts, play, undisturbed};
use nr_lines::{End, LineEnd};
use nr_replay_tests::AtBrim;
use std::alloc::Global;
use std::process::Abort;
use std::sync::Wait;
use std::test::*;
use std::thread::Threads;

/// Returns a script that is followed by another script at the same front.
fn one_behind_the_other(first: Script, second: &'static str) -> TwoScripts {
    TwoScripts {
        tape: Tape::Woken,
        words: 8,
        first,
        by: Second::Same,
        second: undisturbed(second),
    }
}

/// Returns the number of whole lines in a text, and the number of bytes after them.
fn lines_and_rest(text: &[u8]) -> (u64, u64) {
    let mut lines = 0u64;
    let mut rest = 0u64;
    for byte in text {
        rest = rest.saturating_add(1);
        if *byte == b'\n' {
            lines = lines.saturating_add(1);
            rest = 0;
        }
    }
    (lines, rest)
}

/// Lines and their replies.
struct Cut {
    lines: &'static str,
    replies: &'static str,
    /// True if the last line is a `stepi`.
    steps_last: bool,
}

static CUTS: [Cut; 2] = [
    Cut {
        lines: "stepi 3\nprint lock 0\nstepi",
        replies: "at 3\nlock 0 = 10\nat 4\n",
        steps_last: true,
    },
    Cut {
        lines: "stepi 3\n\nprint lock 0\nquit\n",
        replies: "at 3\nlock 0 = 10\nbye\n",
        steps_last: false,
    },
];

/// Asserts the result of cutting the replies after this many bytes: the line whose reply was cut
/// has run, and the front continues after it.
fn assert_cut<R: Wait + Threads + Sync + Abort>(
    rt: &R,
    alloc: Global,
    cut: &Cut,
    room: usize,
    then: AtBrim,
) -> Result<(), Fail> {
    let first = Script {
        room,
        then,
        ..undisturbed(cut.lines)
    };
    let both = one_behind_the_other(first, "info position\nstepi");
    let (before, behind, placed) = play(rt, alloc, &both).ok_or("not played")?;
    let written = cut.replies.as_bytes().get(..room).ok_or("no text")?;
    let (whole, part) = lines_and_rest(written);
    assert_eq!(rt; before.end, Err(LineEnd::Write { whole, part }));
    assert_eq!(rt; before.text.as_slice(), written);
    assert!(rt; before.write_failed && !before.read_failed);
    let (there, words) = if cut.steps_last && whole == 2 {
        ("at 4 of 12 forward\nat 5\n", 3)
    } else {
        ("at 3 of 12 forward\nat 4\n", 2)
    };
    assert_eq!(rt; (behind.end, placed), (Ok(End::Closed), words));
    assert_eq!(rt; behind.text.as_slice(), there.as_bytes());
    Ok(())
}

#[test]
fn a_write_fails_or_takes_nothing_behind_each_byte(rt: HostRuntime) -> Result<(), Fail> {
    for cut in CUTS.iter() {
        for then in [AtBrim::Fails, AtBrim::TakesNothing] {
            for room in 0..cut.replies.len() {
                assert_cut(&rt, rt.alloc(), cut, room, then)?;
            }
        }
    }
    Ok(())
}

#[test]
fn a_writer_with_just_the_room_takes_all(rt: HostRuntime) -> Result<(), Fail> {
    let replies = "at 3\nlock 0 = 10\n";
    let first = Script {
        room: replies.len(),
        ..undisturbed("stepi 3\nprint lock 0\n")
    };
    let both = one_behind_the_other(first, "");
    let (before, _, _) = play(&rt, rt.alloc(), &both).ok_or("not played")?;
    assert_eq!(rt; (before.end, before.write_failed), (Ok(End::Closed), false));
    assert_eq!(rt; before.text.as_slice(), replies.as_bytes());
    Ok(())
}

#[test]
fn a_read_fails_behind_each_byte(rt: HostRuntime) -> Result<(), Fail> {
    let text = "stepi 3\nstepi 2";
    for left in 0..text.len() + 1 {
        let first = Script {
            left,
            ..undisturbed(text)
        };
        let both = one_behind_the_other(first, "info position");
        let (before, behind, placed) = play(&rt, rt.alloc(), &both).ok_or("not played")?;
        // a line without its end isn't a command, even if its first bytes are one
        let (replies, there, words) = if left < 8 {
            ("", "at 0 of 12 forward\n", 0)
        } else {
            ("at 3\n", "at 3 of 12 forward\n", 1)
        };
        assert_eq!(rt; (before.end, placed), (Err(LineEnd::Read), words));
        assert_eq!(rt; before.text.as_slice(), replies.as_bytes());
        assert!(rt; before.read_failed && !before.write_failed);
        assert_eq!(rt; behind.text.as_slice(), there.as_bytes());
    }
    Ok(())
}
