//! The command that a front's machine hasn't run yet.

ghost use Rattle.std.specs.Prelude.{◌≡◌};
ghost use Rattle.nr_command.specs.Word.{command_of};
ghost use Rattle.nr_front.specs.Auxiliary.FrontState.{pending_command, own_pending};
ghost use Rattle.nr_front.specs.Steps.{pending_after};

use nr_command::Command;

/// The command that a front's machine hasn't run yet, if there is one; it is the command of the
/// last word read.
#[derive(Clone, Copy, Debug, PartialEq, Eq)]
pub enum Pending {
    Nothing,
    /// A command of another user.
    Others(Command),
    /// The front's own command, whose reply is owed.
    Own(Command),
}

impl Pending {
    /// Returns the pending state after the front has read this word of another user.
    pub(crate) fn at(word: u64) -> Pending
        ensures { result ≡ pending_after (command_of word) }
    {
        match Command::of_word(word) {
            Some(tagged) => Pending::Others(tagged.1),
            None => Pending::Nothing,
        }
    }

    /// Returns the pending command.
    pub(crate) fn command(self) -> Option<Command>
        ensures { result ≡ pending_command self }
    {
        match self {
            Pending::Nothing => None,
            Pending::Others(command) | Pending::Own(command) => Some(command),
        }
    }

    /// Returns the pending command, if it is the front's own.
    pub(crate) fn own(self) -> Option<Command>
        ensures { result ≡ own_pending self }
    {
        match self {
            Pending::Nothing | Pending::Others(_) => None,
            Pending::Own(command) => Some(command),
        }
    }
}
