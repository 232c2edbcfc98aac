//! Writes a recording, with a line for the header and one for each step.

ghost use Rattle.std.specs.Prelude.{◌≡◌, ◌||◌, IfOk, OnOk, false};
ghost use Rattle.serde_json.specs.View.{view};
ghost use Rattle.serde_json.specs.Written.{has_float};
ghost use Rattle.nr_rev.specs.Refusing.{refused_memory};
ghost use Rattle.nr_recording.specs.Reading.{reading};
ghost use Rattle.nr_recording.specs.Text.{IsTextOf};
ghost use Rattle.nr_recording.specs.Writing.{header_data, line_text, line_texts, text, is_device_failure, SendsPart, SendsLines};
ghost use Rattle.nr_text.specs.Streams.{Sends};

use crate::fault::WriteFault;
use crate::recording::Recording;
use crate::steps::line_value;
use crate::version::Version;
use nr_rev::{Limits, Memory};
use nr_text::Sink;
use serde_json::{Value, json};
use std::alloc::Global;
use std::io::Write;

fn header_value(alloc: Global, version: Version, limits: Limits) -> Result<Value, Memory>
    ensures { IfOk result (λ v. view v ≡ header_data version limits) }
{
    Ok(json!(in alloc; {
        "buf": limits.buffer,
        "desc": limits.descriptors,
        "gor": limits.goroutines,
        "netrev": version.number(),
        "sock": limits.sockets
    })?)
}

#[tactic(auto, unfolding(crate::specs::Writing::line_text))]
fn line_bytes(alloc: Global, value: &Value) -> Result<Vec<u8>, Memory>
    requires { has_float (view value.now) ≡ false }
    ensures { IfOk result (λ line. line.items ≡ line_text (view value.now)) }
{
    let mut line = value.to_vec(alloc)?;
    line.push(b'\n')?;
    Ok(line)
}

fn write_line<W: Write>(alloc: Global, value: &Value, out: &mut Sink<W>) -> Result<(), WriteFault>
    requires { has_float (view value.now) ≡ false }
    ensures ok { OnOk result
        (Sends out.old out.new (line_text (view value.now))) }
    ensures memory { result ≡ Err (WriteFault.Memory refused_memory) → out.new ≡ out.old }
    ensures device { result ≡ Err WriteFault.Device
        → SendsPart out.old out.new (line_text (view value.now)) }
    ensures failed { out.new.failed ≡ (out.old.failed || is_device_failure result) }
{
    let line = line_bytes(alloc, value)?;
    out.print(&line.as_slice())?;
    Ok(())
}

/// Writes the text of a recording in its version: each value in compact form, with its keys in
/// alphabetical order and hexadecimal digits in lower case, and a line feed after each line.
/// `WriteFault` says what was written before an error. An interrupted write is retried. If no
/// earlier write to the sink failed, the call fails with `Device` if and only if a write fails or
/// accepts no bytes.
pub fn write<W: Write>(
    alloc: Global,
    recording: &Recording,
    out: &mut Sink<W>,
) -> Result<(), WriteFault>
    ensures ok { OnOk result
        (Sends out.old out.new (text recording.now)) }

    // `read` parses the written text as the recording.
    ensures again { OnOk result (IsTextOf (text recording.now) recording.now) }
    ensures read_again { OnOk result (reading (text recording.now) ≡ Ok recording.now) }

    // Only whole lines were written, and not all of them.
    ensures memory { result ≡ Err (WriteFault.Memory refused_memory) → SendsLines
        out.old out.new (line_texts recording.now) }

    // The text was written only up to some point before its end.
    ensures device { result ≡ Err WriteFault.Device
        → SendsPart out.old out.new (text recording.now) }

    // If no earlier write failed, a write in this call failed if and only if the result is
    // `Device`.
    ensures failed { out.new.failed ≡ (out.old.failed || is_device_failure result) }
{
    let header = header_value(alloc, recording.version(), recording.limits())?;
    write_line(alloc, &header, out)?;
    for n in 0..recording.len() {
        let Some(step) = recording.step(n) else {
            unreachable!()
        };
        write_line(alloc, &line_value(alloc, step, recording.answer(n))?, out)?;
    }
    Ok(())
}
