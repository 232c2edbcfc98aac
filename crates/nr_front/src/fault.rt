//! Why a call has no reply.

ghost use Rattle.std.specs.Prelude.{◌≡◌};
ghost use Rattle.nr_rev.specs.Refusing.{refused_memory};
ghost use Rattle.nr_front.specs.declared.fault.FrontFault.TheVariants as faults;

use nr_rev::Memory;

/// Why a call has no reply.
#[derive(Clone, Copy, Debug, PartialEq, Eq)]
pub enum FrontFault {
    /// Memory ran out for another user's command that is earlier in the journal, or for the query.
    /// The call's command isn't placed.
    Memory(Memory),
    /// The command at this index of the journal, counted from 1, ran out of memory. The command's
    /// reply is owed.
    Placed(usize),
    /// The journal is full. The call's command isn't placed.
    Full,
}

impl From<Memory> for FrontFault {
    ghost from_gives = { λ _ fault. fault ≡ faults.Memory refused_memory };

    fn from(refused: Memory) -> FrontFault {
        FrontFault::Memory(refused)
    }
}
