//! Replays a recorded schedule of goroutines, sockets and timers forwards and backwards.
//!
//! `netrev run FILE` reads commands from standard input and writes replies to standard output.
//! `netrev check FILE` reports whether the recording can be replayed. `netrev upgrade FILE` writes
//! the recording with the answer of each step. `netrev changes FILE` writes the cells that each
//! step changed. `netrev suspects FILE` writes the findings about deadlines, the lost wake-ups, the
//! sleepers, and the references to closed sockets that are still held. `netrev serve FILE --port P`
//! answers the commands of several callers, who share one session, over the loopback interface.
#![tactic(auto)]

mod loopback;
pub mod starting;

use crate::loopback::Loopback;
use crate::starting::{Unstarted, start};
use nr_arguments::read_words;
use nr_machine::World;
use nr_programs::ExitStatus;
use nr_serving::LoggedPorts;
use nr_text::{Sink, Source};
use std::process::ExitCode;
use std::thread::Threads;
use std::{env, fs};

// Returns the process's arguments. If an argument isn't valid text, it returns a usage error.
fn collect_arguments(rt: &HostRuntime) -> Result<Vec<String>, Unstarted> {
    match env::args(rt) {
        Ok(args) => Ok(args.collect(rt.alloc())?),
        Err(error) => Err(Unstarted::of_kind(error.kind(), Unstarted::Usage)),
    }
}

// Runs the program that the arguments select, with the process's streams and with ports of the
// loopback interface. `serve` starts threads.
fn run_program<H: Threads + Sync>(rt: &HostRuntime, handles: &H) -> Result<ExitStatus, Unstarted> {
    let alloc = rt.alloc();
    let texts = collect_arguments(rt)?;
    let arguments: Vec<&str> = texts.iter().map(|text| text.as_str()).collect(alloc)?;
    let program = read_words(alloc, arguments.as_slice())?;
    let file = fs::read(rt, program.file());
    let mut input = Source::new(rt.stdin());
    let mut output = Sink::new(rt.stdout());
    let mut ports = LoggedPorts::new(Loopback::new(rt, program));
    start::<World, _, _, _, _>(
        handles,
        alloc,
        program,
        file,
        &mut input,
        &mut output,
        &mut ports,
    )
}

fn main(rt: HostRuntime) -> ExitCode {
    let status = match run_program(&rt, &rt) {
        Ok(status) => status,
        Err(unstarted) => {
            unstarted.tell(&mut Sink::new(rt.stdout()), &mut Sink::new(rt.stderr()))
        }
    };
    ExitCode::from(status)
}
