//! Recordings as texts: reading, writing and checking them.

use crate::twice::{Came, Twice, grant, refuse};
use nr_machine::World;
use nr_programs::{ExitStatus, changes_bytes, check_bytes, suspects_bytes, upgrade_bytes};
use nr_recording::{ReadFault, Recording, WriteFault, read, write};
use nr_rev::Memory;
use nr_snaps::Film;
use nr_text::Sink;
use std::alloc::Global;

/// A goroutine waits for bytes at a socket and reads them. The text is exactly what `write` writes
/// for its recording.
pub(crate) const TEXT: &str = r#"{"buf":16,"desc":2,"gor":4,"netrev":1,"sock":2}
["sockopen",16,16]
["pollopen",0,0]
["rwlock",0,0,"r"]
["waitbegin",0,0,"r"]
["blockarm",0]
["blockcheck",0]
["parkcommit",0]
["arrive",0,"6869"]
["pollevent",0,1,"r",0]
["blockswap",0]
["sysread",0,0,8]
["rwunlock",0,0,"r"]
"#;

/// The recording of `TEXT` in version 2, each step with its answer.
const ANSWERED: &str = r#"{"buf":16,"desc":2,"gor":4,"netrev":2,"sock":2}
["sockopen",16,16,["number",0]]
["pollopen",0,0,["number",0]]
["rwlock",0,0,"r","yes"]
["waitbegin",0,0,"r",["code",0]]
["blockarm",0,"wait"]
["blockcheck",0,["code",0]]
["parkcommit",0,"yes"]
["arrive",0,"6869","done"]
["pollevent",0,1,"r",0,"done"]
["blockswap",0,"yes"]
["sysread",0,0,8,["got",2]]
["rwunlock",0,0,"r","notlast"]
"#;

/// The cells that each step of `TEXT` changed.
const CHANGED: &str = "1 lock 0 = 0
1 rsem 0 = 0
1 wsem 0 = 0
1 in 0 = 0
1 out 0 = 0
1 shut 0 = 0
2 rg 0 = nil
2 wg 0 = nil
2 rd 0 = 0
2 wd 0 = 0
2 rseq 0 = 1
2 wseq 0 = 1
2 fdseq 0 = 1
2 info 0 = 0
3 lock 0 = 10
4 gor 0 = entering 0 r
5 gor 0 = armed 0 r
5 rg 0 = wait
6 gor 0 = parking 0 r
7 waiters = 1
7 gor 0 = parked 0 r
7 rg 0 = g0
8 in 0 = 2
9 waiters = 0
9 gor 0 = swapping 0 r
9 rg 0 = ready
10 gor 0 = idle
10 rg 0 = nil
11 in 0 = 0
12 lock 0 = 0
ok 12 steps
";

/// A number greater than the length of any text that is written here.
const ROOM: usize = 1_024;

/// Tests reading the text.
pub(crate) fn read_twice(rt: &HostRuntime) -> Twice {
    let alloc = rt.alloc();
    refuse(rt);
    let first = read(alloc, TEXT.as_bytes());
    grant(rt);
    let again = read(alloc, TEXT.as_bytes());
    Twice {
        first: came_of_reading(alloc, first),
        again: came_of_reading(alloc, again),
    }
}

fn came_of_reading(alloc: Global, reading: Result<Recording, ReadFault>) -> Came {
    match reading {
        Ok(recording) => written(alloc, &recording, TEXT),
        Err(ReadFault::Memory(_)) => Came::Refused,
        Err(_) => Came::Wrong,
    }
}

// Returns the result of writing a recording with enough room, given the expected text.
fn written(alloc: Global, recording: &Recording, text: &str) -> Came {
    let mut room = [0u8; ROOM];
    let (result, count) = write_into(alloc, recording, room.as_mut_slice());
    came_of_writing(result, room.get(..count), text)
}

// Writes a recording, and returns the number of bytes that were written.
fn write_into(
    alloc: Global,
    recording: &Recording,
    room: &mut [u8],
) -> (Result<(), WriteFault>, usize) {
    let all = room.len();
    let mut out = Sink::new(room);
    let result = write(alloc, recording, &mut out);
    let left = out.into_inner().len();
    (result, all.saturating_sub(left))
}

// Returns whether these bytes are the first lines of the text and end with a whole line.
fn are_first_lines(out: &[u8], text: &str) -> bool {
    matches!(out.last(), None | Some(b'\n')) && text.as_bytes().starts_with(out)
}

// Returns the result of writing. If memory ran out, the bytes written must be the first lines
// of the text and end with a whole line.
fn came_of_writing(outcome: Result<(), WriteFault>, out: Option<&[u8]>, text: &str) -> Came {
    let Some(out) = out else {
        return Came::Wrong;
    };
    match outcome {
        Ok(()) => Came::of(out == text.as_bytes()),
        Err(WriteFault::Memory(_)) => Came::Refused.leaving(are_first_lines(out, text)),
        Err(WriteFault::Device) => Came::Wrong,
    }
}

/// Tests writing the recording of the text.
pub(crate) fn write_twice(rt: &HostRuntime) -> Option<Twice> {
    let recording = read(rt.alloc(), TEXT.as_bytes()).ok()?;
    let mut room = [0u8; ROOM];
    refuse(rt);
    let (result, count) = write_into(rt.alloc(), &recording, room.as_mut_slice());
    grant(rt);
    Some(Twice {
        first: came_of_writing(result, room.get(..count), TEXT),
        again: written(rt.alloc(), &recording, TEXT),
    })
}

/// Tests a check of the text.
pub(crate) fn check_twice(rt: &HostRuntime) -> Twice {
    let mut room = [0u8; ROOM];
    refuse(rt);
    let (status, count) = check_into(rt.alloc(), room.as_mut_slice());
    grant(rt);
    let first = came_of_checking(status, room.get(..count));
    let (status, count) = check_into(rt.alloc(), room.as_mut_slice());
    Twice {
        first,
        again: came_of_checking(status, room.get(..count)),
    }
}

// Checks the text, and returns the number of bytes that were written.
fn check_into(alloc: Global, room: &mut [u8]) -> (ExitStatus, usize) {
    let all = room.len();
    let mut out = Sink::new(room);
    let status = check_bytes::<World, _>(alloc, TEXT.as_bytes(), &mut out);
    let left = out.into_inner().len();
    (status, all.saturating_sub(left))
}

fn came_of_checking(status: ExitStatus, out: Option<&[u8]>) -> Came {
    match (status, out) {
        (ExitStatus::Done, Some(b"ok 12 steps\n")) => Came::Right,
        (ExitStatus::Refused, Some(b"fault 108 memory\n")) => Came::Refused,
        _ => Came::Wrong,
    }
}

fn came_of_answering(alloc: Global, answered: Result<Recording, Memory>) -> Came {
    match answered {
        Ok(recording) => written(alloc, &recording, ANSWERED),
        Err(_) => Came::Refused,
    }
}

/// Tests adding the answers to a film of the text.
pub(crate) fn answer_twice(rt: &HostRuntime, film: &Film<World>) -> Twice {
    let alloc = rt.alloc();
    refuse(rt);
    let first = film.with_answers();
    grant(rt);
    let first = came_of_answering(alloc, first);
    Twice {
        first,
        again: came_of_answering(alloc, film.with_answers()),
    }
}

/// Tests upgrading the text.
pub(crate) fn upgrade_twice(rt: &HostRuntime) -> Twice {
    let mut room = [0u8; ROOM];
    refuse(rt);
    let (status, count) = upgrade_into(rt.alloc(), room.as_mut_slice());
    grant(rt);
    let first = came_of_upgrading(status, room.get(..count));
    let (status, count) = upgrade_into(rt.alloc(), room.as_mut_slice());
    Twice {
        first,
        again: came_of_upgrading(status, room.get(..count)),
    }
}

// Upgrades the text, and returns the number of bytes that were written.
fn upgrade_into(alloc: Global, room: &mut [u8]) -> (ExitStatus, usize) {
    let all = room.len();
    let mut out = Sink::new(room);
    let status = upgrade_bytes::<World, _>(alloc, TEXT.as_bytes(), &mut out);
    let left = out.into_inner().len();
    (status, all.saturating_sub(left))
}

// Returns the result of upgrading. If memory ran out, the output must be whole lines and then the
// line of that fault.
fn came_of_upgrading(status: ExitStatus, out: Option<&[u8]>) -> Came {
    let Some(out) = out else {
        return Came::Wrong;
    };
    match status {
        ExitStatus::Done => Came::of(out == ANSWERED.as_bytes()),
        ExitStatus::Refused => match out.strip_suffix(b"fault 108 memory\n") {
            Some(lines) => Came::Refused.leaving(are_first_lines(lines, ANSWERED)),
            None => Came::Wrong,
        },
        _ => Came::Wrong,
    }
}

/// Tests printing the changes of the text's steps.
pub(crate) fn change_twice(rt: &HostRuntime) -> Twice {
    let mut room = [0u8; ROOM];
    refuse(rt);
    let (status, count) = change_into(rt.alloc(), room.as_mut_slice());
    grant(rt);
    let first = came_of_changing(status, room.get(..count));
    let (status, count) = change_into(rt.alloc(), room.as_mut_slice());
    Twice {
        first,
        again: came_of_changing(status, room.get(..count)),
    }
}

// Prints the changes of the text's steps, and returns the number of bytes that were written.
fn change_into(alloc: Global, room: &mut [u8]) -> (ExitStatus, usize) {
    let all = room.len();
    let mut out = Sink::new(room);
    let status = changes_bytes::<World, _>(alloc, TEXT.as_bytes(), &mut out);
    let left = out.into_inner().len();
    (status, all.saturating_sub(left))
}

// Returns the result of printing changes. If memory ran out, the line of that fault must be the whole output.
fn came_of_changing(status: ExitStatus, out: Option<&[u8]>) -> Came {
    match (status, out) {
        (ExitStatus::Done, Some(out)) => Came::of(out == CHANGED.as_bytes()),
        (ExitStatus::Refused, Some(out)) => {
            Came::Refused.leaving(out == b"fault 108 memory\n".as_slice())
        }
        _ => Came::Wrong,
    }
}

/// A deadline ends a call. A goroutine takes an event and sleeps without a read. Another goroutine
/// closes the socket and keeps a reference.
const SUSPICIOUS: &str = r#"{"buf":16,"desc":2,"gor":4,"netrev":1,"sock":2}
["sockopen",16,16]
["pollopen",0,0]
["setdeadline",0,0,"w",-1]
["waitbegin",0,0,"w"]
["arrive",0,"6869"]
["pollevent",0,1,"r",0]
["pollreset",0,0,"r"]
["waitbegin",0,0,"r"]
["blockarm",0]
["blockcheck",0]
["parkcommit",0]
["spawn"]
["incref",1,0]
["increfclose",1,0]
["decref",1,0]
"#;

/// The suspects of that recording.
const SUSPECTED: &str = "at 4 timeout gor 0 desc 0 w set 3 by 0 w
at 15 lost-wakeup gor 0 desc 0 r event 6 taken 7 by 0
at 15 asleep gor 0 desc 0 r because bytes
at 15 held-reference sock 0 gor 1 count 1 since 14
ok 15 steps
";

/// Tests finding the suspects of a recording.
pub(crate) fn suspect_twice(rt: &HostRuntime) -> Twice {
    let mut room = [0u8; ROOM];
    refuse(rt);
    let (status, count) = suspect_into(rt.alloc(), room.as_mut_slice());
    grant(rt);
    let first = came_of_suspecting(status, room.get(..count));
    let (status, count) = suspect_into(rt.alloc(), room.as_mut_slice());
    Twice {
        first,
        again: came_of_suspecting(status, room.get(..count)),
    }
}

// Prints the suspects, and returns the number of bytes that were written.
fn suspect_into(alloc: Global, room: &mut [u8]) -> (ExitStatus, usize) {
    let all = room.len();
    let mut out = Sink::new(room);
    let status = suspects_bytes::<World, _>(alloc, SUSPICIOUS.as_bytes(), &mut out);
    let left = out.into_inner().len();
    (status, all.saturating_sub(left))
}

// Returns the result of printing suspects. If memory ran out, the line of that fault must be the whole output.
fn came_of_suspecting(status: ExitStatus, out: Option<&[u8]>) -> Came {
    match (status, out) {
        (ExitStatus::Done, Some(out)) => Came::of(out == SUSPECTED.as_bytes()),
        (ExitStatus::Refused, Some(out)) => {
            Came::Refused.leaving(out == b"fault 108 memory\n".as_slice())
        }
        _ => Came::Wrong,
    }
}
