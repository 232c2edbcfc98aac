//! Opening a recording: reading its text and replaying its steps once.

ghost use Rattle.std.specs.Prelude.{◌≡◌, ◌≤◌, IfOk, IfErr};
ghost use Rattle.nr_programs.specs.Opening.{IsGoodText, IsFirstFault, fault_line};
ghost use Rattle.nr_snaps.specs.declared.film.TheConstants.{LEAST_EVERY, MOST_EVERY};
ghost use Rattle.nr_programs.specs.declared.opening.OpenFault.TheVariants as faults;

use nr_recording::{ReadFault, read};
use nr_rev::Worlds;
use nr_snaps::{Film, LoadFault, Snaps};
use nr_text::{Buffered, Text, WriteFailed};
use std::alloc::Global;
use std::io::Write;

/// Why a recording is refused: its first fault.
#[derive(Clone, Copy, Debug, PartialEq, Eq)]
pub enum OpenFault {
    /// A line isn't part of a recording, or memory ran out while reading it.
    Read(ReadFault),
    /// A step doesn't apply after the earlier steps, or its answer differs from the recorded one,
    /// or memory ran out during the replay.
    Load(LoadFault),
}

impl From<ReadFault> for OpenFault {
    ghost from_gives = { λ fault e. e ≡ faults.Read fault };

    fn from(fault: ReadFault) -> OpenFault {
        OpenFault::Read(fault)
    }
}

impl From<LoadFault> for OpenFault {
    ghost from_gives = { λ fault e. e ≡ faults.Load fault };

    fn from(fault: LoadFault) -> OpenFault {
        OpenFault::Load(fault)
    }
}

/// Prints as a line, such as `line 6: fault 102 not JSON`, `step 5: fault 107 reason 2`, `step 5:
/// fault 109 answer` or `fault 108 memory`.
impl Text for OpenFault {
    ghost text = { fault_line };

    fn send<W: Write>(&self, w: &mut Buffered<W>) -> Result<(), WriteFailed> {
        match self {
            OpenFault::Read(fault) => fault.send(w),
            OpenFault::Load(fault) => fault.send(w),
        }
    }
}

/// The number of steps between two copies of the world in a session. `check` and `upgrade` never go
/// back, so they keep a copy only every 65536 steps, which is the longest interval for a film.
pub(crate) const COPY_EVERY: usize = 1_024;

/// Reads the recording from the bytes and replays it once, with a copy of the world every `every`
/// steps. Fails with the first fault of the lines, or of the steps if no line has a fault. Fails
/// with `Memory` if memory runs out.
pub(crate) fn open<W: Worlds + Drop>(
    alloc: Global,
    bytes: &[u8],
    every: usize,
) -> Result<Film<W>, OpenFault>
where
    W::Snapshot: Drop,
    requires least { LEAST_EVERY ≤ every }
    requires most { every ≤ MOST_EVERY }
    ensures film { IfOk result (λ film. IsGoodText bytes.now film.recording) }
    ensures every { IfOk result (λ film. film.every ≡ every) }
    ensures fault { IfErr result (IsFirstFault bytes.now) }
{
    let recording = read(alloc, bytes)?;
    let film = Snaps::load(alloc, recording, every)?;
    Ok(film)
}

/// Does the same as `open`, but takes ownership of the text and frees it after reading, so that the
/// session can reuse its memory.
pub(crate) fn open_given<W: Worlds + Drop>(
    alloc: Global,
    text: Vec<u8>,
    every: usize,
) -> Result<Film<W>, OpenFault>
where
    W::Snapshot: Drop,
    requires least { LEAST_EVERY ≤ every }
    requires most { every ≤ MOST_EVERY }
    ensures film { IfOk result (λ film. IsGoodText text.items film.recording) }
    ensures every { IfOk result (λ film. film.every ≡ every) }
    ensures fault { IfErr result (IsFirstFault text.items) }
{
    let recording = read(alloc, text.as_slice())?;
    drop(text);
    let film = Snaps::load(alloc, recording, every)?;
    Ok(film)
}
