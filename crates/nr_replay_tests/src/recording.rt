//! Texts of recordings: reading, refusing and writing them.

use crate::streams::{AtBrim, Cup, Stutter};
use crate::texts::{CLOSES, HEADER, TAKES_TURNS, WAITS};
use nr_recording::{Recording, Version, WriteFault, read, write};
use nr_rev::{Answer, Limits, Step};
use nr_text::Sink;
use std::alloc::Global;
use std::test::Fail;

const WRITTEN_HEADER: &str = "{\"buf\":16,\"desc\":2,\"gor\":4,\"netrev\":1,\"sock\":2}\n";

/// Each kind of step of version 1, with the least and the greatest arguments.
const ALL_KINDS: &str = r#"["spawn"]
["exit",4294967295]
["sockopen",0,4294967295]
["arrive",0,"00ff"]
["peerclose",0]
["sysread",1,2,3]
["syswrite",1,2,""]
["drain",1,2]
["incref",1,2]
["increfclose",1,2]
["decref",1,2]
["rwlock",1,2,"r"]
["rwunlock",1,2,"w"]
["acquire",1]
["release",1]
["pollopen",1,2]
["pollclose",1,2]
["pollreset",1,2,"w"]
["waitbegin",1,2,"r"]
["blockarm",1]
["blockcheck",1]
["parkcommit",1]
["blockswap",1]
["waitcheck",1]
["setdeadline",1,2,"rw",-9223372036854775808]
["evict",1,2]
["pollevent",1,18446744073709551615,"w",1]
["tick",9223372036854775807]
["pop"]
["fire",4294967295]
"#;

const ANSWERED_HEADER: &str = "{\"buf\":1048576,\"desc\":2,\"gor\":4,\"netrev\":2,\"sock\":2}\n";

/// Each answer, with the least and the greatest number, after steps of several forms.
const ALL_ANSWERS: &str = r#"["spawn",["number",0]]
["spawn",["number",4294967295]]
["waitcheck",0,["code",3]]
["sysread",1,2,3,["got",1]]
["syswrite",1,2,"00ff",["put",2]]
["tick",0,"done"]
["incref",1,2,"yes"]
["incref",1,2,"no"]
["blockarm",1,"wait"]
["decref",1,2,"last"]
["decref",1,2,"notlast"]
["sysread",1,2,3,"eof"]
["sysread",1,2,3,"again"]
["fire",0,"stale"]
["syswrite",1,2,"","pipe"]
["closewrite",1,2,"done"]
["pop","pipe"]
"#;

fn written(rt: &HostRuntime, recording: &Recording) -> Result<Vec<u8>, Fail> {
    let mut out = Sink::new(Vec::new(rt.alloc()));
    write(rt.alloc(), recording, &mut out)?;
    Ok(out.into_inner())
}

#[test]
fn reads_and_writes_answers(rt: HostRuntime) -> Result<(), Fail> {
    let text = format!(in rt.alloc(); "{ANSWERED_HEADER}{ALL_ANSWERS}")?;
    let recording = read(rt.alloc(), text.as_bytes())?;
    let answers = [
        recording.answer(1),
        recording.answer(16),
        recording.answer(17),
    ];
    assert_eq!(rt;
        (recording.version(), answers),
        (
            Version::Two,
            [Some(Answer::Number(u32::MAX)), Some(Answer::Pipe), None]
        )
    );
    let out = written(&rt, &recording)?;
    assert_eq!(rt; out.as_slice(), text.as_bytes());
    Ok(())
}

/// Reads a text, and returns what is written for its recording.
fn rewritten(rt: &HostRuntime, text: &str) -> Result<Vec<u8>, Fail> {
    let recording = read(rt.alloc(), text.as_bytes())?;
    written(rt, &recording)
}

#[test]
fn writes_what_is_read(rt: HostRuntime) -> Result<(), Fail> {
    for steps in [WAITS, TAKES_TURNS, CLOSES, ALL_KINDS] {
        let text = format!(in rt.alloc(); "{HEADER}\n{steps}")?;
        let again = format!(in rt.alloc(); "{WRITTEN_HEADER}{steps}")?;
        let out = rewritten(&rt, text.as_str())?;
        assert_eq!(rt; out.as_slice(), again.as_bytes());
    }
    Ok(())
}

/// Returns whether a writer that fails after this many bytes has exactly the first bytes of the
/// text, and `write` reports the failure.
fn is_cut(alloc: Global, recording: &Recording, text: &[u8], room: usize) -> bool {
    let mut out = Sink::new(Stutter::new(Cup {
        held: Vec::new(alloc),
        room,
        then: AtBrim::Fails,
    }));
    let written = write(alloc, recording, &mut out);
    let wanted = if room < text.len() {
        Err(WriteFault::Device)
    } else {
        Ok(())
    };
    written == wanted
        && out.has_failed() == wanted.is_err()
        && Some(out.into_inner().stream.held.as_slice()) == text.get(..room)
}

#[test]
fn reports_a_failed_write(rt: HostRuntime) -> Result<(), Fail> {
    let text = format!(in rt.alloc(); "{WRITTEN_HEADER}{CLOSES}")?;
    let recording = read(rt.alloc(), text.as_bytes())?;
    for room in 0..text.len() + 1 {
        assert!(rt;
            is_cut(rt.alloc(), &recording, text.as_bytes(), room),
            "behind {room} bytes"
        );
    }
    Ok(())
}

#[test]
fn makes_recordings(rt: HostRuntime) -> Result<(), Fail> {
    let limits = Limits {
        goroutines: 1,
        sockets: 256,
        descriptors: 256,
        buffer: 65_536,
    };
    let steps = vec![in rt.alloc(); Step::Pop, Step::Tick { time: 0 }]?;
    let recording = Recording::new(Version::One, limits, steps, Vec::new(rt.alloc()))?;
    let answer = recording.answer(1);
    let whole = (
        recording.version(),
        recording.limits(),
        recording.len(),
        answer,
    );
    assert_eq!(rt; whole, (Version::One, limits, 2, None));
    assert!(rt; matches!(recording.step(1), Some(Step::Tick { time: 0 })));
    assert!(rt; recording.step(2).is_none() && !recording.is_empty());
    Ok(())
}
