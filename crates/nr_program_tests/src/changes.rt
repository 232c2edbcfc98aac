//! The changes of steps, as the program prints them.
use crate::playing::{Program, changes, record};
use nr_programs::ExitStatus;
use nr_replay_tests::{HEADER, WAITS};
use std::alloc::AllocError;
use std::test::*;

/// The changes of each step of `WAITS`.
const CHANGED: &str = "1 lock 0 = 0
1 rsem 0 = 0
1 wsem 0 = 0
1 in 0 = 0
1 out 0 = 0
1 shut 0 = 0
2 rg 0 = nil
2 wg 0 = nil
2 rd 0 = 0
2 wd 0 = 0
2 rseq 0 = 1
2 wseq 0 = 1
2 fdseq 0 = 1
2 info 0 = 0
3 lock 0 = 10
4 gor 0 = entering 0 r
5 gor 0 = armed 0 r
5 rg 0 = wait
6 gor 0 = parking 0 r
7 waiters = 1
7 gor 0 = parked 0 r
7 rg 0 = g0
8 in 0 = 2
9 waiters = 0
9 gor 0 = swapping 0 r
9 rg 0 = ready
10 gor 0 = idle
10 rg 0 = nil
11 in 0 = 0
12 lock 0 = 0
ok 12 steps
";

/// A socket is opened, and a goroutine that doesn't exist reads from it.
const REFUSED: &str = "[\"sockopen\",16,16]\n[\"sysread\",3,0,8]\n[\"tick\",5]\n";

/// The output for that recording.
const OF_REFUSED: &str = "1 lock 0 = 0
1 rsem 0 = 0
1 wsem 0 = 0
1 in 0 = 0
1 out 0 = 0
1 shut 0 = 0
step 2: fault 107 reason 1
";

#[test]
fn each_step_has_the_cells_that_it_changed(rt: HostRuntime) -> Result<(), AllocError> {
    let played = changes(rt.alloc(), HEADER, WAITS)?;
    assert!(rt; played.is(ExitStatus::Done, CHANGED));
    Ok(())
}

#[test]
fn no_steps_have_a_last_line(rt: HostRuntime) -> Result<(), AllocError> {
    let played = changes(rt.alloc(), HEADER, "")?;
    assert!(rt; played.is(ExitStatus::Done, "ok 0 steps\n"));
    Ok(())
}

#[test]
fn the_lines_before_a_fault_are_there(rt: HostRuntime) -> Result<(), AllocError> {
    let played = changes(rt.alloc(), HEADER, REFUSED)?;
    assert!(rt; played.is(ExitStatus::Refused, OF_REFUSED));
    Ok(())
}

#[test]
fn what_is_no_recording_has_its_fault_alone(rt: HostRuntime) -> Result<(), AllocError> {
    let played = changes(rt.alloc(), HEADER, "[\"tick\",5]\nno JSON\n")?;
    assert!(rt; played.is(ExitStatus::Refused, "line 3: fault 102 not JSON\n"));
    Ok(())
}

// Prints more lines than fit in one write.
#[test]
fn each_of_many_lines_is_there_once(rt: HostRuntime) -> Result<(), AllocError> {
    let alloc = rt.alloc();
    let mut steps = String::new(alloc);
    let mut right = String::new(alloc);
    for time in 1..700u32 {
        steps.push_str(format!(in alloc; "[\"tick\",{time}]\n")?.as_str())?;
        right.push_str(format!(in alloc; "{time} clock = {time}\n")?.as_str())?;
    }
    right.push_str("ok 699 steps\n")?;
    let played = changes(alloc, HEADER, steps.as_str())?;
    assert!(rt; played.is(ExitStatus::Done, right.as_str()));
    Ok(())
}

#[test]
fn a_failed_write_leaves_the_first_bytes_of_changes(rt: HostRuntime) -> Result<(), AllocError> {
    let alloc = rt.alloc();
    let good = record(alloc, HEADER, WAITS)?;
    let refused = record(alloc, HEADER, REFUSED)?;
    for (recording, text) in [(good.as_str(), CHANGED), (refused.as_str(), OF_REFUSED)] {
        for room in 0..text.len() {
            assert!(rt;
                Program::Changes.is_cut(alloc, recording, room, text),
                "behind {room} of {text}"
            );
        }
    }
    Ok(())
}
