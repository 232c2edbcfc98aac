//! Recordings, and the output of `check` for each. `run` refuses the same recordings, and then
//! reads no input.
use crate::playing::{check, run_over};
use crate::texts::{EARLY, SCRIPT};
use nr_programs::ExitStatus;
use nr_replay_tests::{HEADER, WAITS};
use std::alloc::{AllocError, Global};
use std::test::*;
use std::thread::Threads;

const SMALL: &str = "{\"buf\":16,\"desc\":1,\"gor\":2,\"netrev\":1,\"sock\":1}\n";

const NARROW: &str = "{\"buf\":1,\"desc\":1,\"gor\":1,\"netrev\":1,\"sock\":1}\n";

/// A recording, and the expected last line and status.
struct Report {
    header: &'static str,
    steps: &'static str,
    status: ExitStatus,
    line: &'static str,
}

/// The table begins with one recording per reason to refuse a step, in the order of the reasons'
/// numbers.
static RECORDINGS: [Report; 34] = [
    Report {
        header: SMALL,
        steps: r#"["exit",1]"#,
        status: ExitStatus::Refused,
        line: "step 1: fault 107 reason 1\n",
    },
    Report {
        header: SMALL,
        steps: r#"["sockopen",1,1]
["blockarm",0]"#,
        status: ExitStatus::Refused,
        line: "step 2: fault 107 reason 2\n",
    },
    Report {
        header: SMALL,
        steps: r#"["spawn"]
["spawn"]"#,
        status: ExitStatus::Refused,
        line: "step 2: fault 107 reason 3\n",
    },
    Report {
        header: SMALL,
        steps: r#"["incref",0,0]"#,
        status: ExitStatus::Refused,
        line: "step 1: fault 107 reason 4\n",
    },
    Report {
        header: SMALL,
        steps: r#"["pollreset",0,0,"r"]"#,
        status: ExitStatus::Refused,
        line: "step 1: fault 107 reason 5\n",
    },
    Report {
        header: SMALL,
        steps: r#"["sockopen",1,1]
["decref",0,0]"#,
        status: ExitStatus::Refused,
        line: "step 2: fault 107 reason 7\n",
    },
    Report {
        header: SMALL,
        steps: r#"["spawn"]
["sockopen",1,1]
["pollopen",0,0]
["waitbegin",0,0,"r"]
["waitbegin",1,0,"r"]"#,
        status: ExitStatus::Refused,
        line: "step 5: fault 107 reason 8\n",
    },
    Report {
        header: SMALL,
        steps: r#"["sockopen",1,1]
["pollopen",0,0]
["pollclose",0,0]"#,
        status: ExitStatus::Refused,
        line: "step 3: fault 107 reason 9\n",
    },
    Report {
        header: SMALL,
        steps: r#"["sockopen",1,1]
["pollopen",0,0]
["evict",0,0]
["evict",0,0]"#,
        status: ExitStatus::Refused,
        line: "step 4: fault 107 reason 10\n",
    },
    Report {
        header: SMALL,
        steps: r#"["spawn"]
["sockopen",1,1]
["pollopen",0,0]
["waitbegin",0,0,"r"]
["pollreset",1,0,"r"]"#,
        status: ExitStatus::Refused,
        line: "step 5: fault 107 reason 11\n",
    },
    Report {
        header: SMALL,
        steps: r#"["tick",5]
["tick",4]"#,
        status: ExitStatus::Refused,
        line: "step 2: fault 107 reason 12\n",
    },
    Report {
        header: SMALL,
        steps: r#"["pop"]"#,
        status: ExitStatus::Refused,
        line: "step 1: fault 107 reason 13\n",
    },
    Report {
        header: SMALL,
        steps: r#"["fire",0]"#,
        status: ExitStatus::Refused,
        line: "step 1: fault 107 reason 15\n",
    },
    Report {
        header: SMALL,
        steps: r#"["sockopen",1,1]
["arrive",0,"6869"]"#,
        status: ExitStatus::Refused,
        line: "step 2: fault 107 reason 16\n",
    },
    Report {
        header: SMALL,
        steps: r#"["sockopen",1,1]
["drain",0,1]"#,
        status: ExitStatus::Refused,
        line: "step 2: fault 107 reason 17\n",
    },
    Report {
        header: SMALL,
        steps: r#"["sockopen",0,1]"#,
        status: ExitStatus::Refused,
        line: "step 1: fault 107 reason 19\n",
    },
    Report {
        header: SMALL,
        steps: r#"["sockopen",1,1]
["peerclose",0]
["peerclose",0]"#,
        status: ExitStatus::Refused,
        line: "step 3: fault 107 reason 20\n",
    },
    Report {
        header: NARROW,
        steps: r#"["sockopen",1,1]
["pollopen",0,0]
["setdeadline",0,0,"r",1]
["tick",1]
["pop"]
["setdeadline",0,0,"r",1]
["tick",2]
["pop"]
["setdeadline",0,0,"r",1]
["tick",3]
["pop"]
"#,
        status: ExitStatus::Refused,
        line: "step 11: fault 107 reason 14\n",
    },
    Report {
        header: NARROW,
        steps: r#"["sockopen",1,1]
["pollopen",0,0]
["setdeadline",0,0,"r",1]
["tick",1]
["pop"]
["setdeadline",0,0,"r",1]
["tick",2]
["pop"]
["setdeadline",0,0,"r",1]
["tick",3]
"#,
        status: ExitStatus::Done,
        line: "ok 10 steps\n",
    },
    Report {
        header: HEADER,
        steps: r#"["sockopen",16,16]
["pollopen",0,0]
["rwlock",0,0,"r"]
["waitbegin",0,0,"r"]
["block"#,
        status: ExitStatus::Refused,
        line: "line 6: fault 102 not JSON\n",
    },
    Report {
        header: HEADER,
        steps: r#"["sockopen",16,16]
["pollopen",0,0]
["rwlock",0,0,"r"]
["waitbegin",0,0,"r"]
["blockswap",0]"#,
        status: ExitStatus::Refused,
        line: "step 5: fault 107 reason 2\n",
    },
    Report {
        header: HEADER,
        steps: r#"["spawn""#,
        status: ExitStatus::Refused,
        line: "line 2: fault 102 not JSON\n",
    },
    Report {
        header: HEADER,
        steps: "\n[\"spawn\"]\n[\"jump\"]\n",
        status: ExitStatus::Refused,
        line: "line 4: fault 103 unknown step\n",
    },
    Report {
        header: HEADER,
        steps: r#"["spawn",1]"#,
        status: ExitStatus::Refused,
        line: "line 2: fault 104 arguments\n",
    },
    Report {
        header: HEADER,
        steps: "[\"spawn\"]\n[\"blockswap\",0]\n",
        status: ExitStatus::Refused,
        line: "step 2: fault 107 reason 2\n",
    },
    Report {
        header: HEADER,
        steps: r#"["exit",1]"#,
        status: ExitStatus::Refused,
        line: "step 1: fault 107 reason 1\n",
    },
    Report {
        header: HEADER,
        steps: r#"["sockopen",0,1]"#,
        status: ExitStatus::Refused,
        line: "step 1: fault 107 reason 19\n",
    },
    // every line is read before the first step is applied
    Report {
        header: HEADER,
        steps: "[\"blockswap\",0]\n[\"spawn\",1]\n",
        status: ExitStatus::Refused,
        line: "line 3: fault 104 arguments\n",
    },
    Report {
        header: "",
        steps: "",
        status: ExitStatus::Refused,
        line: "line 1: fault 101 header\n",
    },
    Report {
        header: "{\"netrev\":1,\"gor\":0,\"sock\":2,\"desc\":2,\"buf\":16}",
        steps: "",
        status: ExitStatus::Refused,
        line: "line 1: fault 105 limit\n",
    },
    Report {
        header: HEADER,
        steps: "",
        status: ExitStatus::Done,
        line: "ok 0 steps\n",
    },
    Report {
        header: HEADER,
        steps: r#"["spawn"]"#,
        status: ExitStatus::Done,
        line: "ok 1 steps\n",
    },
    Report {
        header: HEADER,
        steps: EARLY,
        status: ExitStatus::Done,
        line: "ok 9 steps\n",
    },
    Report {
        header: HEADER,
        steps: WAITS,
        status: ExitStatus::Done,
        line: "ok 12 steps\n",
    },
];

/// Returns whether `check` has this result.
fn is_checked(alloc: Global, report: &Report) -> Result<bool, AllocError> {
    let played = check(alloc, report.header, report.steps)?;
    Ok(played.is(report.status, report.line))
}

/// Calls `run` with a recording that is refused. Returns whether `run` gives the result in the
/// report and reads no input.
fn is_refused<R: Threads + Sync>(
    rt: &R,
    alloc: Global,
    report: &Report,
) -> Result<bool, AllocError> {
    let ended = run_over(rt, alloc, report.header, report.steps)?;
    Ok(
        ended.reader == SCRIPT.as_bytes()
            && ended.status == report.status
            && ended.writer.as_slice() == report.line.as_bytes(),
    )
}

#[test]
fn recordings_are_reported(rt: HostRuntime) -> Result<(), AllocError> {
    for report in RECORDINGS.iter() {
        let steps = report.steps;
        assert!(rt; is_checked(rt.alloc(), report)?, "check of {steps}");
        if report.status == ExitStatus::Refused {
            assert!(rt; is_refused(&rt, rt.alloc(), report)?, "run of {steps}");
        }
    }
    Ok(())
}
