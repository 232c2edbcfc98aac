//! Streams that move one byte per call, and may fail partway.
use crate::playing::{Program, record, run_on};
use crate::texts::{REPLIES, SCRIPT};
use nr_programs::ExitStatus;
use nr_replay_tests::{AtBrim, CLOSES, Cup, Drip, HEADER};
use std::alloc::{AllocError, Global};
use std::test::*;
use std::thread::Threads;

/// A number greater than the length of the script or of its replies.
const ALL: usize = 1_000;

/// The number of bytes of the script that can be read, the number of bytes of its replies that can
/// be written, and the expected result.
#[derive(Clone, Copy)]
struct Cut<'a> {
    left: usize,
    room: usize,
    status: ExitStatus,
    text: &'a [u8],
    read_failed: bool,
    write_failed: bool,
}

/// Returns the case in which a read fails after this many bytes.
fn starved(left: usize, replies: &str) -> Cut<'_> {
    Cut {
        left,
        room: ALL,
        status: ExitStatus::StreamFailed,
        text: replies.as_bytes(),
        read_failed: true,
        write_failed: false,
    }
}

/// Returns the case in which a write fails after this many bytes of a text.
fn filled(room: usize, text: &str) -> Cut<'_> {
    Cut {
        left: ALL,
        room,
        status: ExitStatus::StreamFailed,
        text: text.as_bytes().get(..room).unwrap_or(&[]),
        read_failed: false,
        write_failed: true,
    }
}

/// Returns whether the script has this result on a recording.
fn is_so<R: Threads + Sync>(
    rt: &R,
    alloc: Global,
    recording: &str,
    cut: &Cut<'_>,
) -> Result<bool, AllocError> {
    let text = Vec::from_slice(alloc, recording.as_bytes())?;
    let reader = Drip {
        bytes: SCRIPT.as_bytes(),
        left: cut.left,
    };
    let writer = Cup {
        held: Vec::new(alloc),
        room: cut.room,
        then: AtBrim::Fails,
    };
    let ended = run_on(rt, alloc, text, reader, writer);
    Ok(
        ended.status == cut.status
            && ended.writer.held.as_slice() == cut.text
            && ended.read_failed == cut.read_failed
            && ended.write_failed == cut.write_failed,
    )
}

#[test]
fn one_byte_a_call_makes_no_difference(rt: HostRuntime) -> Result<(), AllocError> {
    let recording = record(rt.alloc(), HEADER, CLOSES)?;
    let cut = Cut {
        left: SCRIPT.len() + 1,
        room: REPLIES.len(),
        status: ExitStatus::Done,
        text: REPLIES.as_bytes(),
        read_failed: false,
        write_failed: false,
    };
    assert!(rt; is_so(&rt, rt.alloc(), recording.as_str(), &cut)?);
    Ok(())
}

#[test]
fn a_failed_read_leaves_whole_replies(rt: HostRuntime) -> Result<(), AllocError> {
    let recording = record(rt.alloc(), HEADER, CLOSES)?;
    for (left, replies) in [
        (0, ""),
        (7, ""),
        (8, "at 6\n"),
        (21, "at 6\nlock 0 = 8388626\n"),
    ] {
        let cut = starved(left, replies);
        assert!(rt;
            is_so(&rt, rt.alloc(), recording.as_str(), &cut)?,
            "behind {left}"
        );
    }
    Ok(())
}

#[test]
fn a_failed_write_leaves_the_first_bytes(rt: HostRuntime) -> Result<(), AllocError> {
    let recording = record(rt.alloc(), HEADER, CLOSES)?;
    for (recording, text) in [
        (recording.as_str(), REPLIES),
        ("", "line 1: fault 101 header\n"),
    ] {
        for room in 0..text.len() {
            let cut = filled(room, text);
            assert!(rt;
                is_so(&rt, rt.alloc(), recording, &cut)?,
                "behind {room} of {text}"
            );
        }
    }
    Ok(())
}

#[test]
fn a_failed_write_leaves_the_first_bytes_of_a_check(rt: HostRuntime) -> Result<(), AllocError> {
    let recording = record(rt.alloc(), HEADER, CLOSES)?;
    for (recording, text) in [
        (recording.as_str(), "ok 10 steps\n"),
        ("", "line 1: fault 101 header\n"),
    ] {
        for room in 0..text.len() {
            assert!(rt;
                Program::Check.is_cut(rt.alloc(), recording, room, text),
                "behind {room} of {text}"
            );
        }
    }
    Ok(())
}
