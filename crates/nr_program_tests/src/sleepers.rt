//! Goroutines that sleep although they should have been woken, as `suspects` prints them.
use crate::playing::suspects;
use nr_programs::ExitStatus;
use nr_replay_tests::HEADER;
use std::alloc::AllocError;
use std::test::*;

/// A socket with room for two bytes, and its descriptor.
const OPENED: &str = "[\"sockopen\",2,2]
[\"pollopen\",0,0]
";

/// Goroutine 0 parks for reading.
const READS: &str = "[\"waitbegin\",0,0,\"r\"]
[\"blockarm\",0]
[\"blockcheck\",0]
[\"parkcommit\",0]
";

/// Goroutine 0 parks for writing.
const WRITES: &str = "[\"waitbegin\",0,0,\"w\"]
[\"blockarm\",0]
[\"blockcheck\",0]
[\"parkcommit\",0]
";

const BYTE_COMES: &str = "[\"arrive\",0,\"61\"]\n";

const PEER_CLOSES: &str = "[\"peerclose\",0]\n";

const FULL: &str = "[\"syswrite\",0,0,\"6162\"]\n";

const ONE_FREE: &str = "[\"syswrite\",0,0,\"61\"]\n";

const ERROR: &str = "[\"pollevent\",0,1,\"w\",1]\n";

/// The descriptor is reopened for a socket that has room to write one byte.
const OPENED_ANEW: &str = "[\"evict\",0,0]
[\"pollclose\",0,0]
[\"sockopen\",2,1]
[\"pollopen\",0,1]
";

const BYTE_COMES_ANEW: &str = "[\"arrive\",1,\"61\"]\n";

const FULL_ANEW: &str = "[\"syswrite\",0,1,\"61\"]\n";

/// Steps, and the output for them.
const ROWS: &[(&[&str], &str)] = &[
    (&[OPENED, READS], "ok 6 steps\n"),
    (
        &[OPENED, BYTE_COMES, READS],
        "at 7 asleep gor 0 desc 0 r because bytes\nok 7 steps\n",
    ),
    (
        &[OPENED, PEER_CLOSES, READS],
        "at 7 asleep gor 0 desc 0 r because end\nok 7 steps\n",
    ),
    (
        &[OPENED, READS, PEER_CLOSES],
        "at 7 asleep gor 0 desc 0 r because end\nok 7 steps\n",
    ),
    (
        &[OPENED, READS, ERROR],
        "at 7 asleep gor 0 desc 0 r because error\nok 7 steps\n",
    ),
    (&[OPENED, FULL, WRITES], "ok 7 steps\n"),
    (
        &[OPENED, ONE_FREE, WRITES],
        "at 7 asleep gor 0 desc 0 w because room\nok 7 steps\n",
    ),
    (&[OPENED, BYTE_COMES, OPENED_ANEW, READS], "ok 11 steps\n"),
    (&[OPENED, PEER_CLOSES, OPENED_ANEW, READS], "ok 11 steps\n"),
    (
        &[OPENED, OPENED_ANEW, BYTE_COMES_ANEW, READS],
        "at 11 asleep gor 0 desc 0 r because bytes\nok 11 steps\n",
    ),
    (&[OPENED, OPENED_ANEW, FULL_ANEW, WRITES], "ok 11 steps\n"),
];

#[test]
fn goroutines_that_sleep_on_are_found(rt: HostRuntime) -> Result<(), AllocError> {
    let alloc = rt.alloc();
    for (parts, right) in ROWS {
        let mut steps = String::new(alloc);
        for part in *parts {
            steps.push_str(part)?;
        }
        let played = suspects(alloc, HEADER, steps.as_str())?;
        assert!(rt; played.is(ExitStatus::Done, right), "{steps}");
    }
    Ok(())
}
