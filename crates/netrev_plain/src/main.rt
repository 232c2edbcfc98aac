//! The oracle: netrev's programs over lists. `make agree` compares its output with netrev's, byte
//! for byte.
//!
//! `netrev_plain run FILE`, `netrev_plain check FILE` and `netrev_plain upgrade FILE` do the same
//! as netrev's commands, with the same code, but over the world of `nr_plain`.
#![tactic(auto)]

use nr_plain::PlainWorld;
use nr_programs::{ExitStatus, check_bytes, run_bytes, upgrade_bytes};
use nr_text::{Sink, Source};
use std::process::ExitCode;
use std::thread::Threads;
use std::{env, fs, io};

/// The usage text.
const USAGE: &str =
    "usage: netrev_plain run FILE\n       netrev_plain check FILE\n       netrev_plain upgrade FILE\n";

// Runs one of the programs on the text of its file, with the process's streams.
fn play<H: Threads + Sync>(
    rt: &HostRuntime,
    handles: &H,
    program: &str,
    text: Vec<u8>,
) -> ExitStatus {
    let alloc = rt.alloc();
    let mut input = Source::new(rt.stdin());
    let mut output = Sink::new(rt.stdout());
    match program {
        "run" => run_bytes::<PlainWorld, _, _, _>(handles, alloc, text, &mut input, &mut output),
        "check" => check_bytes::<PlainWorld, _>(alloc, text.as_slice(), &mut output),
        "upgrade" => upgrade_bytes::<PlainWorld, _>(alloc, text.as_slice(), &mut output),
        _ => ExitStatus::Usage,
    }
}

// Runs the program that the arguments select. Fails if the arguments or the file can't be read.
fn play_asked<H: Threads + Sync>(rt: &HostRuntime, handles: &H) -> io::Result<ExitStatus> {
    let words: Vec<String> = env::args(rt)?.collect(rt.alloc())?;
    let [_, program, file] = words.as_slice() else {
        return Ok(ExitStatus::Usage);
    };
    let text = fs::read(rt, file.as_str())?;
    Ok(play(rt, handles, program.as_str(), text))
}

fn main(rt: HostRuntime) -> ExitCode {
    let status = play_asked(&rt, &rt).unwrap_or(ExitStatus::StreamFailed);
    if status == ExitStatus::Usage {
        let _printed = eprint!(rt; "{USAGE}");
    }
    ExitCode::from(status)
}
