//! The reasons why a recording can't be loaded.

ghost use Rattle.std.specs.Prelude.{◌≡◌};
ghost use Rattle.nr_rev.specs.Refusing.{refused_memory};
ghost use Rattle.nr_snaps.specs.Fault.{load_fault_line};
ghost use Rattle.nr_snaps.specs.declared.fault.LoadFault.TheVariants as faults;

use nr_recording::OutOfMemory;
use nr_rev::{Memory, Refusal};
use nr_text::{Buffered, Text, Token, WriteFailed, send_all};
use std::alloc::AllocError;
use std::io::Write;
use thiserror::Error;

/// The reason why a recording can't be loaded.
#[derive(Clone, Copy, Debug, PartialEq, Eq, Error)]
pub enum LoadFault {
    /// The step with this number, counted from 1, does not apply after the earlier steps.
    #[error("step {step}: fault 107 reason {}", .reason.number())]
    Refused { step: usize, reason: Refusal },
    /// The step with this number, counted from 1, applies after the earlier steps, but its answer
    /// differs from the recorded one.
    #[error("step {step}: fault 109 answer")]
    OtherAnswer { step: usize },
    /// Memory ran out for the world that replays the steps, for a copy of it, or for the list of copies.
    #[error("fault 108 memory")]
    Memory(Memory),
}

/// The text is one line: `step 5: fault 107 reason 2`, where 2 is the number of the refusal,
/// `step 5: fault 109 answer`, or `fault 108 memory`.
impl Text for LoadFault {
    ghost text = { load_fault_line };

    fn send<W: Write>(&self, w: &mut Buffered<W>) -> Result<(), WriteFailed> {
        match self {
            LoadFault::Refused { step, reason } => {
                let parts = [
                    Token::Text(b"step "),
                    Token::Number(*step as u64),
                    Token::Text(b": fault 107 reason "),
                    Token::Number(u64::from(reason.number())),
                    Token::Text(b"\n"),
                ];
                send_all(&parts, w)
            }
            LoadFault::OtherAnswer { step } => {
                let parts = [
                    Token::Text(b"step "),
                    Token::Number(*step as u64),
                    Token::Text(b": fault 109 answer\n"),
                ];
                send_all(&parts, w)
            }
            LoadFault::Memory(refused) => OutOfMemory(*refused).send(w),
        }
    }
}

impl From<Memory> for LoadFault {
    ghost from_gives = { λ _ fault. fault ≡ faults.Memory refused_memory };

    fn from(refused: Memory) -> LoadFault {
        LoadFault::Memory(refused)
    }
}

impl From<AllocError> for LoadFault {
    ghost from_gives = { λ _ fault. fault ≡ faults.Memory refused_memory };

    fn from(refused: AllocError) -> LoadFault {
        LoadFault::Memory(refused.into())
    }
}
