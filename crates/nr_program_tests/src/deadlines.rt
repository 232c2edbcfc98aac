//! What happened to deadlines, as `suspects` prints it.
use crate::playing::suspects;
use nr_programs::ExitStatus;
use nr_replay_tests::HEADER;
use std::alloc::AllocError;
use std::test::*;

/// A goroutine sets deadlines, which wake a parked goroutine twice. The first deadline ends a call,
/// and the second is set again too soon.
const DEADLINES: &str = "[\"sockopen\",16,16]
[\"pollopen\",0,0]
[\"spawn\"]
[\"setdeadline\",1,0,\"rw\",5]
[\"setdeadline\",1,0,\"w\",50]
[\"waitbegin\",0,0,\"r\"]
[\"blockarm\",0]
[\"blockcheck\",0]
[\"parkcommit\",0]
[\"tick\",9]
[\"pop\"]
[\"fire\",0]
[\"blockswap\",0]
[\"waitcheck\",0]
[\"setdeadline\",1,0,\"r\",5]
[\"waitbegin\",0,0,\"r\"]
[\"blockarm\",0]
[\"blockcheck\",0]
[\"parkcommit\",0]
[\"tick\",20]
[\"pop\"]
[\"fire\",0]
[\"setdeadline\",1,0,\"r\",90]
";

/// What happened to these deadlines.
const CAME: &str = "at 12 passed-deadline desc 0 r set 4 by 1 rw moved 5 by 1
at 14 timeout gor 0 desc 0 r set 4 by 1 rw moved 5 by 1
at 22 passed-deadline desc 0 r set 15 by 1 r
at 23 taken-back gor 0 desc 0 r set 15 by 1 r
ok 23 steps
";

#[test]
fn what_came_of_deadlines_is_found(rt: HostRuntime) -> Result<(), AllocError> {
    let played = suspects(rt.alloc(), HEADER, DEADLINES)?;
    assert!(rt; played.is(ExitStatus::Done, CAME));
    Ok(())
}
