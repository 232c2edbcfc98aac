//! The suspects of a recording, as the program prints them.
use crate::playing::{Program, record, suspects};
use nr_programs::ExitStatus;
use nr_replay_tests::HEADER;
use std::alloc::AllocError;
use std::test::*;

/// A goroutine takes an event and sleeps without a read. Another goroutine closes the socket, and
/// ends while it holds a reference.
const SUSPICIOUS: &str = "[\"sockopen\",16,16]
[\"pollopen\",0,0]
[\"arrive\",0,\"6869\"]
[\"pollevent\",0,1,\"r\",0]
[\"pollreset\",0,0,\"r\"]
[\"waitbegin\",0,0,\"r\"]
[\"blockarm\",0]
[\"blockcheck\",0]
[\"parkcommit\",0]
[\"spawn\"]
[\"incref\",1,0]
[\"increfclose\",1,0]
[\"decref\",1,0]
[\"exit\",1]
";

/// The suspects of that recording.
const SUSPECTED: &str = "at 14 lost-wakeup gor 0 desc 0 r event 4 taken 5 by 0
at 14 asleep gor 0 desc 0 r because bytes
at 14 held-reference sock 0 gor 1 count 1 since 12 gone
ok 14 steps
";

/// A goroutine tries the socket before it sleeps. Another goroutine takes a reference and returns
/// it.
const INNOCENT: &str = "[\"sockopen\",16,16]
[\"pollopen\",0,0]
[\"pollevent\",0,1,\"r\",0]
[\"pollreset\",0,0,\"r\"]
[\"sysread\",0,0,8]
[\"waitbegin\",0,0,\"r\"]
[\"blockarm\",0]
[\"blockcheck\",0]
[\"parkcommit\",0]
[\"spawn\"]
[\"increfclose\",1,0]
[\"decref\",1,0]
";

#[test]
fn what_is_suspect_is_found(rt: HostRuntime) -> Result<(), AllocError> {
    let played = suspects(rt.alloc(), HEADER, SUSPICIOUS)?;
    assert!(rt; played.is(ExitStatus::Done, SUSPECTED));
    Ok(())
}

#[test]
fn nothing_else_is(rt: HostRuntime) -> Result<(), AllocError> {
    let played = suspects(rt.alloc(), HEADER, INNOCENT)?;
    assert!(rt; played.is(ExitStatus::Done, "ok 12 steps\n"));
    Ok(())
}

#[test]
fn a_fault_is_all_that_is_printed(rt: HostRuntime) -> Result<(), AllocError> {
    let mut steps = String::from_str(rt.alloc(), SUSPICIOUS)?;
    steps.push_str("[\"sysread\",3,0,8]\n")?;
    let played = suspects(rt.alloc(), HEADER, steps.as_str())?;
    assert!(rt; played.is(ExitStatus::Refused, "step 15: fault 107 reason 1\n"));
    Ok(())
}

#[test]
fn a_failed_write_leaves_the_first_bytes_of_suspects(rt: HostRuntime) -> Result<(), AllocError> {
    let alloc = rt.alloc();
    let recording = record(alloc, HEADER, SUSPICIOUS)?;
    for room in 0..SUSPECTED.len() {
        assert!(rt;
            Program::Suspects.is_cut(alloc, recording.as_str(), room, SUSPECTED),
            "behind {room}"
        );
    }
    Ok(())
}
