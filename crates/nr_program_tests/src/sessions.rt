//! Sessions over recordings: a script for each, and its replies.
use crate::playing::run;
use crate::texts::{EARLY, REPLIES, SCRIPT, SHUTS, SHUTS_HEADER};
use nr_programs::ExitStatus;
use nr_replay_tests::{CLOSES, HEADER, TAKES_TURNS, WAITS};
use std::alloc::{AllocError, Global};
use std::test::*;
use std::thread::Threads;

/// A recording, a script, and the expected replies.
struct Session {
    /// What the session shows.
    topic: &'static str,
    header: &'static str,
    steps: &'static str,
    script: &'static str,
    replies: &'static str,
}

static SESSIONS: [Session; 23] = [
    Session {
        topic: "two take one read lock in turn, and the one that was let go finds it taken",
        header: HEADER,
        steps: TAKES_TURNS,
        script: "si 7\np rsem 0\np gor 1\np lock 0\nsi 3\np rsem 0\np lock 0\np gor 1\nrsi 5\ndump rq 0\ndump wq 0\nrsi\ndump rq 0\n",
        replies: "at 7\nrsem 0 = 1\ngor 1 = acquiring 0 r\nlock 0 = 0\nat 10\nrsem 0 = 0\nlock 0 = 8388618\ngor 1 = acquiring 0 r\nat 5\nrq 0 = 1\nwq 0 = -\nat 4\nrq 0 = -\n",
    },
    Session {
        topic: "an event with an error stays until the next event",
        header: HEADER,
        steps: r#"["sockopen",1,1]
["pollopen",0,0]
["pollevent",0,1,"w",1]
["waitbegin",0,0,"r"]
["pollevent",0,2,"r",0]
"#,
        script: "si 4\np info 0\np wg 0\np rg 0\np gor 0\nsi\np info 0\np wg 0\np rg 0\np gor 0\n",
        replies: "at 4\ninfo 0 = 2\nwg 0 = ready\nrg 0 = nil\ngor 0 = idle\nat 5\ninfo 0 = 2\nwg 0 = ready\nrg 0 = nil\ngor 0 = idle\n",
    },
    Session {
        topic: "bytes are written and drained",
        header: HEADER,
        steps: r#"["sockopen",1,2]
["syswrite",0,0,"6869"]
["drain",0,2]
"#,
        script: "si 2\ndump out 0\nsi\ndump out 0\nrsi\ndump out 0\n",
        replies: "at 2\nout 0 = 6869\nat 3\nout 0 = -\nat 2\nout 0 = 6869\n",
    },
    Session {
        topic: "a timer for both deadlines is stale once one of them moves",
        header: HEADER,
        steps: r#"["sockopen",16,16]
["pollopen",0,0]
["setdeadline",0,0,"rw",100]
["tick",100]
["pop"]
["setdeadline",0,0,"r",50]
["fire",0]
["pop"]
["fire",0]
"#,
        script: "si 7\np rd 0\np wd 0\np rseq 0\np wseq 0\np firings\np timers\np least\nsi 2\np wd 0\np info 0\np timers\np least\nrsi 3\np firings\np wd 0\n",
        replies: "at 7\nrd 0 = 150\nwd 0 = 100\nrseq 0 = 2\nwseq 0 = 1\nfirings = 0\ntimers = 2\nleast = 100\nat 9\nwd 0 = -1\ninfo 0 = 8\ntimers = 1\nleast = 150\nat 6\nfirings = 1\nwd 0 = 100\n",
    },
    Session {
        topic: "a deadline past the greatest time becomes that time",
        header: HEADER,
        steps: r#"["sockopen",1,1]
["pollopen",0,0]
["tick",5]
["setdeadline",0,0,"r",9223372036854775807]
"#,
        script: "si 4\np rd 0\np clock\n",
        replies: "at 4\nrd 0 = 9223372036854775807\nclock = 5\n",
    },
    Session {
        topic: "a descriptor is opened again, and an event of the first opening comes late",
        header: HEADER,
        steps: r#"["sockopen",16,16]
["pollopen",0,0]
["evict",0,0]
["pollclose",0,0]
["pollopen",0,0]
["pollevent",0,1,"r",0]
"#,
        script: "si 6\np fdseq 0\np rseq 0\np rg 0\n",
        replies: "at 6\nfdseq 0 = 2\nrseq 0 = 3\nrg 0 = nil\n",
    },
    Session {
        topic: "a read's lock and bytes, a line that is no command, and `quit`",
        header: HEADER,
        steps: WAITS,
        script: "stepi 3\nprint lock 0\nsi 5\ndump in 0\nsi 3\ndump in 0\nrsi\ndump in 0\nfrob\nquit",
        replies: "at 3\nlock 0 = 10\nat 8\nin 0 = 6869\nat 11\nin 0 = -\nat 10\nin 0 = 6869\nfault 201 unknown command\nbye\n",
    },
    Session {
        topic: "an event before the parking, forwards",
        header: HEADER,
        steps: EARLY,
        script: "p waiters\nsi 5\np rg 0\np waiters\nsi\np rg 0\np waiters\nsi\np rg 0\np waiters\nsi\np rg 0\np waiters\nsi\np rg 0\np waiters\n",
        replies: "waiters = 0\nat 5\nrg 0 = wait\nwaiters = 0\nat 6\nrg 0 = wait\nwaiters = 0\nat 7\nrg 0 = ready\nwaiters = 0\nat 8\nrg 0 = ready\nwaiters = 0\nat 9\nrg 0 = nil\nwaiters = 0\n",
    },
    Session {
        topic: "an event before the parking, backwards",
        header: HEADER,
        steps: EARLY,
        script: "si 9\nrsi\np rg 0\nrsi\np rg 0\nrsi\np rg 0\nrsi\np rg 0\nrsi\np rg 0\n",
        replies: "at 9\nat 8\nrg 0 = ready\nat 7\nrg 0 = ready\nat 6\nrg 0 = wait\nat 5\nrg 0 = wait\nat 4\nrg 0 = nil\n",
    },
    Session {
        topic: "a watch stops behind each change",
        header: HEADER,
        steps: WAITS,
        script: "watch rg 0\nc\nc\nc\nc\nc\nc\nrc\nrc\nrc\nrc\nrc\nrc\n",
        replies: "mark 1\nat 2 by 1\nat 5 by 1\nat 7 by 1\nat 9 by 1\nat 10 by 1\nat 12 end\nat 10 by 1\nat 9 by 1\nat 7 by 1\nat 5 by 1\nat 2 by 1\nat 0 start\n",
    },
    Session {
        topic: "a break hits before its step",
        header: HEADER,
        steps: WAITS,
        script: "si\nbreak sockopen\nreverse-continue\nreverse-continue\nb @12\nb @13\nc\nc\n",
        replies: "at 1\nmark 1\nat 0 by 1\nat 0 start\nmark 2\nmark 3\nat 11 by 2\nat 12 end\n",
    },
    Session {
        topic: "neither end of no steps is passed",
        header: HEADER,
        steps: "",
        script: "stepi\nrsi\nc\nrc\n",
        replies: "at 0 end\nat 0 start\nat 0 end\nat 0 start\n",
    },
    Session {
        topic: "as many steps as may be, and none",
        header: HEADER,
        steps: WAITS,
        script: "stepi 4294967295\nreverse-stepi 12\nstepi 12\nstepi 0\n",
        replies: "at 12 end\nat 0\nat 12\nfault 202 bad argument\n",
    },
    Session {
        topic: "a temporary break is gone after the stop where it hits",
        header: HEADER,
        steps: WAITS,
        script: "tbreak rwlock\ncontinue\ninfo breakpoints\nreverse-continue\n",
        replies: "mark 1\nat 2 by 1\nmarks 0\nat 0 start\n",
    },
    Session {
        topic: "a temporary break beside a watch",
        header: HEADER,
        steps: WAITS,
        script: "si 12\ntbreak arrive\nwatch rg 0\nrc\nrc\nrc\nrc\n",
        replies: "at 12\nmark 1\nmark 2\nat 10 by 2\nat 9 by 2\nat 7 by 1 2\nat 5 by 2\n",
    },
    Session {
        topic: "a temporary break stays where it doesn't hit",
        header: HEADER,
        steps: WAITS,
        script: "tb @8\nb rwlock\nc\nsi 5\nc\nrestart 0\nrc\ninfo breakpoints\n",
        replies: "mark 1\nmark 2\nat 2 by 2\nat 7\nat 12 end\nat 0\nat 0 start\nmarks 2\n1 tbreak @8\n2 break rwlock\n",
    },
    Session {
        topic: "a temporary break's number isn't given again",
        header: HEADER,
        steps: WAITS,
        script: "tb @8\nc\nrc\ndelete 1\ntb @8\n",
        replies: "mark 1\nat 7 by 1\nat 0 start\nfault 401 no such mark\nmark 2\n",
    },
    Session {
        topic: "all marks that hit are listed",
        header: HEADER,
        steps: WAITS,
        script: "b arrive\nwatch rg 0\nb @8\ndelete 2\ndelete 2\ndelete 0\nwatch rg 0\nsi 5\nc\ninfo breakpoints\n",
        replies: "mark 1\nmark 2\nmark 3\ndeleted mark 2\nfault 401 no such mark\nfault 401 no such mark\nmark 4\nat 5\nat 7 by 1 3 4\nmarks 3\n1 break arrive\n3 break @8\n4 watch rg 0\n",
    },
    Session {
        topic: "the direction turns stepi and continue",
        header: HEADER,
        steps: EARLY,
        script: "watch rg 0\nsi 9\nset exec-direction reverse\ninfo position\nsi\nc\nrsi\nrc\nset exec-direction forward\nc\ninfo position\n",
        replies: "mark 1\nat 9\ndirection reverse\nat 9 of 9 reverse\nat 8\nat 7 by 1\nat 6\nat 5 by 1\ndirection forward\nat 7 by 1\nat 7 of 9 forward\n",
    },
    Session {
        topic: "a checkpoint is gone back to",
        header: HEADER,
        steps: WAITS,
        script: "si 5\ncheckpoint\nstepi 2\nrestart 1\ninfo checkpoints\ndelete checkpoint 1\nrestart 1\nrestart 0\ndelete checkpoint 0\ncheckpoint\ninfo checkpoints\nprint lock 0\nrestart 2\n",
        replies: "at 5\ncheckpoint 1 at 5\nat 7\nat 5\ncheckpoints 1\n1 at 5\ndeleted checkpoint 1\nfault 403 no such checkpoint\nat 0\nfault 403 no such checkpoint\ncheckpoint 2 at 0\ncheckpoints 1\n2 at 0\nlock 0 = absent\nat 0\n",
    },
    Session {
        topic: "lock words are printed both ways",
        header: HEADER,
        steps: CLOSES,
        script: SCRIPT,
        replies: REPLIES,
    },
    Session {
        topic: "a header alone has one position",
        header: HEADER,
        steps: "",
        script: "stepi\nreverse-stepi\nprint gor 0\nprint gor 1\nquit\nstepi\n",
        replies: "at 0 end\nat 0 start\ngor 0 = idle\ngor 1 = absent\nbye\n",
    },
    Session {
        topic: "a shut write side is watched",
        header: SHUTS_HEADER,
        steps: SHUTS,
        script: "watch shut 0\ncontinue\ncontinue\ncontinue\nreverse-continue\nreverse-continue\nreverse-continue\nstepi 4\ndump out 0\nprint shut 0\n",
        replies: "mark 1\nat 1 by 1\nat 3 by 1\nat 5 end\nat 3 by 1\nat 1 by 1\nat 0 start\nat 4\nout 0 = 6869\nshut 0 = 1\n",
    },
];

/// Returns whether a session gets its replies.
fn is_answered<R: Threads + Sync>(
    rt: &R,
    alloc: Global,
    session: &Session,
) -> Result<bool, AllocError> {
    let played = run(rt, alloc, session.header, session.steps, session.script)?;
    Ok(played.is(ExitStatus::Done, session.replies))
}

#[test]
fn sessions_have_these_replies(rt: HostRuntime) -> Result<(), AllocError> {
    for session in SESSIONS.iter() {
        let topic = session.topic;
        assert!(rt; is_answered(&rt, rt.alloc(), session)?, "{topic}");
    }
    Ok(())
}
