//! Recordings of both versions through the programs: recorded answers, and upgrades.
use crate::playing::{Program, check, run, upgrade};
use crate::texts::{SHUTS, SHUTS_HEADER};
use nr_programs::ExitStatus;
use nr_replay_tests::{HEADER, WAITS};
use std::alloc::{AllocError, Global};
use std::test::*;
use std::thread::Threads;

/// The first ten steps of `WAITS`, each with its answer.
const TEN_ANSWERED: &str = "{\"buf\":16,\"desc\":2,\"gor\":4,\"netrev\":2,\"sock\":2}
[\"sockopen\",16,16,[\"number\",0]]
[\"pollopen\",0,0,[\"number\",0]]
[\"rwlock\",0,0,\"r\",\"yes\"]
[\"waitbegin\",0,0,\"r\",[\"code\",0]]
[\"blockarm\",0,\"wait\"]
[\"blockcheck\",0,[\"code\",0]]
[\"parkcommit\",0,\"yes\"]
[\"arrive\",0,\"6869\",\"done\"]
[\"pollevent\",0,1,\"r\",0,\"done\"]
[\"blockswap\",0,\"yes\"]
";

const OTHER_ANSWER: &str = "step 11: fault 109 answer\n";

/// Returns all twelve steps. The recorded answer of the read says that it got this many bytes.
fn waits_and_gets(alloc: Global, count: u32) -> Result<String, AllocError> {
    let last = "[\"rwunlock\",0,0,\"r\",\"notlast\"]\n";
    format!(in alloc; "{TEN_ANSWERED}[\"sysread\",0,0,8,[\"got\",{count}]]\n{last}")
}

/// Returns whether `upgrade` turns a header and steps into this text.
fn is_upgraded(alloc: Global, header: &str, steps: &str, text: &str) -> Result<bool, AllocError> {
    let played = upgrade(alloc, header, steps)?;
    Ok(played.is(ExitStatus::Done, text))
}

#[test]
fn an_upgrade_has_each_answer(rt: HostRuntime) -> Result<(), AllocError> {
    let alloc = rt.alloc();
    let answered = waits_and_gets(alloc, 2)?;
    let text = answered.as_str();
    assert!(rt; is_upgraded(alloc, HEADER, WAITS, text)?);
    assert!(rt; is_upgraded(alloc, "", text, text)?);
    assert!(rt; check(alloc, "", text)?.is(ExitStatus::Done, "ok 12 steps\n"));
    Ok(())
}

#[test]
fn an_upgrade_has_an_answer_that_nothing_was_written(rt: HostRuntime) -> Result<(), AllocError> {
    let alloc = rt.alloc();
    let text = format!(in alloc; "{SHUTS_HEADER}{SHUTS}")?;
    assert!(rt; is_upgraded(alloc, SHUTS_HEADER, SHUTS, text.as_str())?);
    Ok(())
}

/// Returns whether each program refuses a recording with this fault.
fn all_refuse<R: Threads + Sync>(
    rt: &R,
    alloc: Global,
    recording: &str,
    fault: &str,
) -> Result<[bool; 3], AllocError> {
    let checked = check(alloc, "", recording)?.is(ExitStatus::Refused, fault);
    let upgraded = upgrade(alloc, "", recording)?.is(ExitStatus::Refused, fault);
    let ran = run(rt, alloc, "", recording, "stepi\n")?.is(ExitStatus::Refused, fault);
    Ok([checked, upgraded, ran])
}

#[test]
fn another_answer_is_the_fault_of_its_step(rt: HostRuntime) -> Result<(), AllocError> {
    let other = waits_and_gets(rt.alloc(), 3)?;
    assert_eq!(rt;
        all_refuse(&rt, rt.alloc(), other.as_str(), OTHER_ANSWER)?,
        [true; 3]
    );
    Ok(())
}

#[test]
fn a_failed_write_leaves_the_first_bytes_of_an_upgrade(rt: HostRuntime) -> Result<(), AllocError> {
    let alloc = rt.alloc();
    let answered = waits_and_gets(alloc, 2)?;
    let other = waits_and_gets(alloc, 3)?;
    for (recording, text) in [
        (answered.as_str(), answered.as_str()),
        (other.as_str(), OTHER_ANSWER),
    ] {
        for room in 0..text.len() {
            assert!(rt;
                Program::Upgrade.is_cut(alloc, recording, room, text),
                "behind {room} of {text}"
            );
        }
    }
    Ok(())
}
