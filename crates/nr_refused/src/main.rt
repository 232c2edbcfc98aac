//! Makes a call of netrev's libraries while requests for memory may be refused, and then again while all requests are
//! granted: `nr_refused CALL`, or `nr_refused all` for all calls, one after the other.
//!
//! The program refuses nothing itself. After it prints the line `refuse`, requests for memory may
//! be refused; after the line `grant`, all are granted. The line `refuse the next` makes the next
//! request fail. python/tests/program/each_call.py preloads a library that obeys these lines. The
//! library is built from scripts/refused.c. If a call was refused, the program also checks that the
//! call changed nothing that it had to preserve. After the second call, the program prints a line
//! with the result of both calls.
#![tactic(auto)]

mod calls;
mod films;
mod fronts;
mod journals;
mod parts;
mod searches;
mod serving;
mod switchboard;
mod texts;
mod twice;
mod walks;
mod worlds;

use crate::calls::{CALLS, Call};
use crate::twice::Twice;
use std::process::ExitCode;
use std::thread::Threads;
use std::{env, io};

fn main(rt: HostRuntime) -> ExitCode {
    match run(&rt, &rt) {
        Ok(status) => ExitCode::from(status),
        Err(error) => {
            let _printed = eprintln!(rt; "nr_refused: {error}");
            ExitCode::from(1)
        }
    }
}

// Runs the command that the arguments name, and returns the exit status.
fn run<H: Threads + Sync>(rt: &HostRuntime, handles: &H) -> io::Result<u8> {
    let words: Vec<String> = env::args(rt)?.collect(rt.alloc())?;
    let Some(word) = words.get(1) else {
        return list(rt);
    };
    if word.as_str() == "all" {
        return play_all(rt, handles);
    }
    match Call::named(word.as_str()) {
        Some(call) => play(rt, handles, word.as_str(), call),
        None => list(rt),
    }
}

// Prints the list of calls.
fn list(rt: &HostRuntime) -> io::Result<u8> {
    for (name, _) in CALLS.iter() {
        println!(rt; "{name}")?;
    }
    Ok(2)
}

fn play_all<H: Threads + Sync>(rt: &HostRuntime, handles: &H) -> io::Result<u8> {
    let mut worst = 0;
    for (name, call) in CALLS.iter() {
        worst = play(rt, handles, name, *call)?.max(worst);
    }
    Ok(worst)
}

// Tests a call and prints the result.
fn play<H: Threads + Sync>(
    rt: &HostRuntime,
    handles: &H,
    name: &str,
    call: Call,
) -> io::Result<u8> {
    let (text, status) = match call.make_twice(rt, handles) {
        None => ("no memory before it", 1),
        Some(twice) => (twice.text(), if twice.is_right() { 0 } else { 1 }),
    };
    println!(rt; "{name}: {text}")?;
    Ok(status)
}
