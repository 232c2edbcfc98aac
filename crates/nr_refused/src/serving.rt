//! A session of two fronts with callers in memory.

use crate::switchboard::{Part, Seen, Switchboard};
use crate::texts::TEXT;
use crate::twice::{Came, Twice, grant, refuse};
use nr_machine::World;
use nr_programs::{ExitStatus, Sharing, serve_bytes};
use nr_serving::{Fronts, LoggedPorts};
use nr_text::Sink;
use std::alloc::Global;
use std::thread::Threads;

/// Lines that allocate no memory, and whose replies don't depend on which front is served first.
static PARTS: [Part; 2] = [
    Part {
        lines: "checkpoint\nquit\n",
        replies: "checkpoint 1 at 0\nbye\n",
    },
    Part {
        lines: "info position\nwatch rg 0\n",
        replies: "at 0 of 12 forward\nmark 1\n",
    },
];

const SHARING: Sharing = Sharing {
    port: 1,
    fronts: 2,
    workers: 1,
    journal: 16,
    connections: None,
};

// Returns a copy of the text, for a call that consumes the copy.
fn copied_text(alloc: Global) -> Option<Vec<u8>> {
    Vec::from_slice(alloc, TEXT.as_bytes()).ok()
}

// Serves the callers, and returns the number of bytes that were written.
fn serve_into<H: Threads + Sync>(
    handles: &H,
    alloc: Global,
    text: Vec<u8>,
    seen: &[Seen],
    room: &mut [u8],
) -> (ExitStatus, usize) {
    let all = room.len();
    let mut out = Sink::new(room);
    let mut ports = LoggedPorts::new(Switchboard {
        parts: PARTS.as_slice(),
        seen,
        log: Fronts::new(),
    });
    let status = serve_bytes::<World, H, _, _>(handles, alloc, text, SHARING, &mut ports, &mut out);
    let left = out.into_inner().len();
    (status, all.saturating_sub(left))
}

// Returns the result of serving. If memory ran out, either no caller was served, or all callers
// were served and only the words couldn't be collected.
fn came_of_serving(status: ExitStatus, out: Option<&[u8]>, seen: &[Seen; 2]) -> Came {
    let are_right = seen[0].is_right(&PARTS[0]) && seen[1].is_right(&PARTS[1]);
    let are_untouched = seen[0].is_untouched() && seen[1].is_untouched();
    match (status, out) {
        (ExitStatus::Done, Some(b"placed 2\n")) => Came::of(are_right),
        (ExitStatus::Refused, Some(b"fault 108 memory\n")) => {
            Came::Refused.leaving(are_right || are_untouched)
        }
        _ => Came::Wrong,
    }
}

/// Tests serving two callers. Returns `None` if memory ran out during the preparation.
pub(crate) fn serve_twice<H: Threads + Sync>(rt: &HostRuntime, handles: &H) -> Option<Twice> {
    let alloc = rt.alloc();
    let mut room = [0u8; 64];
    let seen = [Seen::new(), Seen::new()];
    let (text, same) = (copied_text(alloc)?, copied_text(alloc)?);
    refuse(rt);
    let (status, count) = serve_into(handles, alloc, text, seen.as_slice(), room.as_mut_slice());
    grant(rt);
    let first = came_of_serving(status, room.get(..count), &seen);
    let seen = [Seen::new(), Seen::new()];
    let (status, count) = serve_into(handles, alloc, same, seen.as_slice(), room.as_mut_slice());
    Some(Twice {
        first,
        again: came_of_serving(status, room.get(..count), &seen),
    })
}
