//! Lines that are sent to a front, then lines that are sent to the same or to another front, and
//! the replies.

use crate::scripts::{Script, Second, Tape, TwoScripts, play, undisturbed};
use nr_lines::End;
use std::test::*;

/// The lines that are sent to a front, and the expected result.
struct Part {
    lines: &'static str,
    /// Which copies of the film's world are refused: one bit for each request, from the lowest bit
    /// on.
    refused: u32,
    replies: &'static str,
    end: End,
}

/// Lines for a front, and then lines for the same or another front.
struct Session {
    /// What the session shows.
    topic: &'static str,
    tape: Tape,
    /// The number of words for which the journal has room.
    words: usize,
    first: Part,
    by: Second,
    second: Part,
    placed: usize,
}

static SESSIONS: [Session; 16] = [
    Session {
        topic: "the other front has seen the words too",
        tape: Tape::Ticking,
        words: 8,
        first: Part {
            lines: "stepi 3\r\n\n  print clock\nfrob\np gor 0\nreverse-stepi 4\nsi 10\ndump rq 1\nresume\nrsi",
            refused: 0,
            replies: "at 3\nclock = 3\nfault 201 unknown command\ngor 0 = idle\nat 0 start\nat 9 end\nrq 1 = absent\nnothing owed\nat 8\n",
            end: End::Closed,
        },
        by: Second::Other,
        second: Part {
            lines: "p clock\nsi",
            refused: 0,
            replies: "clock = 8\nat 9\n",
            end: End::Closed,
        },
        placed: 5,
    },
    Session {
        topic: "two searches are refused memory: the second one's reply is given up, its word stays",
        tape: Tape::Ticking,
        words: 8,
        first: Part {
            lines: "watch clock\nc\nsi\nprint clock\nresume\nresume\nresume\nc\n",
            refused: 0b1011,
            replies: "mark 1\nfault 302 memory, placed 2\nfault 302 memory, placed 2\nfault 302 memory, placed 2\nfault 302 memory, placed 2\nat 1 by 1\nnothing owed\nfault 302 memory, placed 3\n",
            end: End::Closed,
        },
        by: Second::Same,
        second: Part {
            lines: "",
            refused: 0,
            replies: "",
            end: End::Closed,
        },
        placed: 3,
    },
    Session {
        topic: "another's search comes first",
        tape: Tape::Ticking,
        words: 8,
        first: Part {
            lines: "watch clock\nc\n",
            refused: 0,
            replies: "mark 1\nat 1 by 1\n",
            end: End::Closed,
        },
        by: Second::Other,
        second: Part {
            lines: "si\nprint clock\nresume\nsi\n",
            refused: 0b11,
            replies: "fault 301 memory\nfault 301 memory\nnothing owed\nat 2\n",
            end: End::Closed,
        },
        placed: 3,
    },
    Session {
        topic: "a temporary break is gone after its stop",
        tape: Tape::Ticking,
        words: 16,
        first: Part {
            lines: "tbreak @3\nc\ninfo breakpoints\nrc\nc\n",
            refused: 0,
            replies: "mark 1\nat 2 by 1\nmarks 0\nat 0 start\nat 9 end\n",
            end: End::Closed,
        },
        by: Second::Other,
        second: Part {
            lines: "info position\n",
            refused: 0,
            replies: "at 9 of 9 forward\n",
            end: End::Closed,
        },
        placed: 4,
    },
    Session {
        topic: "a temporary break is gone after a stop on the way back",
        tape: Tape::Ticking,
        words: 16,
        first: Part {
            lines: "si 9\ntb @3\nrc\ninfo breakpoints\nc\n",
            refused: 0,
            replies: "at 9\nmark 1\nat 2 by 1\nmarks 0\nat 9 end\n",
            end: End::Closed,
        },
        by: Second::Other,
        second: Part {
            lines: "info position\n",
            refused: 0,
            replies: "at 9 of 9 forward\n",
            end: End::Closed,
        },
        placed: 4,
    },
    Session {
        topic: "another mark's stop, steps and the start leave a temporary break, and its number isn't used again",
        tape: Tape::Ticking,
        words: 16,
        first: Part {
            lines: "tb @5\nb @3\nc\nsi 5\nrsi 8\ninfo breakpoints\nc\nc\ninfo breakpoints\ntb @7\n",
            refused: 0,
            replies: "mark 1\nmark 2\nat 2 by 2\nat 7\nat 0 start\nmarks 2\n1 tbreak @5\n2 break @3\nat 2 by 2\nat 4 by 1\nmarks 1\n2 break @3\nmark 3\n",
            end: End::Closed,
        },
        by: Second::Other,
        second: Part {
            lines: "info position\n",
            refused: 0,
            replies: "at 4 of 9 forward\n",
            end: End::Closed,
        },
        placed: 8,
    },
    Session {
        topic: "other marks that hit where a temporary break did stay",
        tape: Tape::Ticking,
        words: 16,
        first: Part {
            lines: "tb @3\nb tick\nc\nc\nc\ninfo breakpoints\n",
            refused: 0,
            replies: "mark 1\nmark 2\nat 1 by 2\nat 2 by 1 2\nat 3 by 2\nmarks 1\n2 break tick\n",
            end: End::Closed,
        },
        by: Second::Other,
        second: Part {
            lines: "info position\n",
            refused: 0,
            replies: "at 3 of 9 forward\n",
            end: End::Closed,
        },
        placed: 5,
    },
    Session {
        topic: "neither the end nor a checkpoint takes a temporary break away",
        tape: Tape::Ticking,
        words: 16,
        first: Part {
            lines: "si 4\ntb @3\nc\ncheckpoint\nrestart 1\ninfo breakpoints\nrc\n",
            refused: 0,
            replies: "at 4\nmark 1\nat 9 end\ncheckpoint 1 at 9\nat 9\nmarks 1\n1 tbreak @3\nat 2 by 1\n",
            end: End::Closed,
        },
        by: Second::Other,
        second: Part {
            lines: "info position\n",
            refused: 0,
            replies: "at 2 of 9 forward\n",
            end: End::Closed,
        },
        placed: 6,
    },
    Session {
        topic: "a temporary break is gone for all",
        tape: Tape::Ticking,
        words: 8,
        first: Part {
            lines: "tb @3\nc\n",
            refused: 0,
            replies: "mark 1\nat 2 by 1\n",
            end: End::Closed,
        },
        by: Second::Other,
        second: Part {
            lines: "info breakpoints\nrc\n",
            refused: 0,
            replies: "marks 0\nat 0 start\n",
            end: End::Closed,
        },
        placed: 3,
    },
    Session {
        topic: "a temporary break stays where the search is refused memory, since nothing has stopped",
        tape: Tape::Ticking,
        words: 8,
        first: Part {
            lines: "tb @3\nwatch shut 0\nc\nresume\ninfo breakpoints\n",
            refused: 0b1,
            replies: "mark 1\nmark 2\nfault 302 memory, placed 3\nat 2 by 1\nmarks 1\n2 watch shut 0\n",
            end: End::Closed,
        },
        by: Second::Same,
        second: Part {
            lines: "",
            refused: 0,
            replies: "",
            end: End::Closed,
        },
        placed: 3,
    },
    Session {
        topic: "the journal is full",
        tape: Tape::Ticking,
        words: 1,
        first: Part {
            lines: "si 3\n",
            refused: 0,
            replies: "at 3\n",
            end: End::Closed,
        },
        by: Second::Other,
        second: Part {
            lines: "rsi\nprint clock\nq\nsi",
            refused: 0,
            replies: "fault 303 journal full\nclock = 3\nbye\n",
            end: End::Quit,
        },
        placed: 1,
    },
    Session {
        topic: "the last line has no end",
        tape: Tape::Woken,
        words: 8,
        first: Part {
            lines: "stepi 3\nstepi 2",
            refused: 0,
            replies: "at 3\nat 5\n",
            end: End::Closed,
        },
        by: Second::Same,
        second: Part {
            lines: "info position",
            refused: 0,
            replies: "at 5 of 12 forward\n",
            end: End::Closed,
        },
        placed: 2,
    },
    Session {
        topic: "a line is no command, and behind `quit` the front goes on",
        tape: Tape::Woken,
        words: 8,
        first: Part {
            lines: "stepi 3\nprint lock 0\nfrob\nreverse-stepi\nquit",
            refused: 0,
            replies: "at 3\nlock 0 = 10\nfault 201 unknown command\nat 2\nbye\n",
            end: End::Quit,
        },
        by: Second::Same,
        second: Part {
            lines: "info position",
            refused: 0,
            replies: "at 2 of 12 forward\n",
            end: End::Closed,
        },
        placed: 2,
    },
    Session {
        topic: "a search without memory is resumed",
        tape: Tape::Woken,
        words: 8,
        first: Part {
            lines: "watch rg 0\ncontinue\nstepi\nresume\nresume\n",
            refused: 0b1,
            replies: "mark 1\nfault 302 memory, placed 2\nfault 302 memory, placed 2\nat 2 by 1\nnothing owed\n",
            end: End::Closed,
        },
        by: Second::Same,
        second: Part {
            lines: "info position",
            refused: 0,
            replies: "at 2 of 12 forward\n",
            end: End::Closed,
        },
        placed: 2,
    },
    Session {
        topic: "a search without memory twice is resumed",
        tape: Tape::Woken,
        words: 8,
        first: Part {
            lines: "watch rg 0\ncontinue\nresume\nprint rg 0\nresume\nstepi\n",
            refused: 0b11,
            replies: "mark 1\nfault 302 memory, placed 2\nfault 302 memory, placed 2\nfault 302 memory, placed 2\nat 2 by 1\nat 3\n",
            end: End::Closed,
        },
        by: Second::Same,
        second: Part {
            lines: "info position",
            refused: 0,
            replies: "at 3 of 12 forward\n",
            end: End::Closed,
        },
        placed: 3,
    },
    Session {
        topic: "a reply is still owed behind `quit`",
        tape: Tape::Woken,
        words: 8,
        first: Part {
            lines: "watch rg 0\nstepi 12\nreverse-continue\nquit\n",
            refused: 0b1,
            replies: "mark 1\nat 12\nfault 302 memory, placed 3\nbye\n",
            end: End::Quit,
        },
        by: Second::Same,
        second: Part {
            lines: "info position",
            refused: 0,
            replies: "fault 302 memory, placed 3\n",
            end: End::Closed,
        },
        placed: 3,
    },
];

fn script_of(part: &Part) -> Script {
    Script {
        refused: part.refused,
        ..undisturbed(part.lines)
    }
}

#[test]
fn sessions_have_these_replies(rt: HostRuntime) -> Result<(), Fail> {
    for session in SESSIONS.iter() {
        let topic = session.topic;
        let scripts = TwoScripts {
            tape: session.tape,
            words: session.words,
            first: script_of(&session.first),
            by: session.by,
            second: script_of(&session.second),
        };
        let (first, second, placed) = play(&rt, rt.alloc(), &scripts).ok_or("not played")?;
        assert_eq!(rt;
            first.text.as_slice(),
            session.first.replies.as_bytes(),
            "{topic}"
        );
        assert_eq!(rt;
            second.text.as_slice(),
            session.second.replies.as_bytes(),
            "{topic}"
        );
        let ends = (Ok(session.first.end), Ok(session.second.end));
        assert_eq!(rt; (first.end, second.end), ends, "{topic}");
        assert!(rt; !first.read_failed && !first.write_failed, "{topic}");
        assert_eq!(rt; placed, session.placed, "{topic}");
    }
    Ok(())
}
