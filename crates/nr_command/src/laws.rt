//! Laws of the definitions.

ghost use Rattle.std.specs.Prelude.{◌≡◌, ◌<◌, ◌^◌, ℕ, List, length, Ok, Some, IfSome};
ghost use Rattle.nr_rev.specs.CellName.{cell_index};
ghost use Rattle.nr_rev.specs.Run.{Recording};
ghost use Rattle.nr_rev.specs.declared.cell.Cell.{Cell};
ghost use Rattle.nr_command.specs.Command.{cell_of, words};
ghost use Rattle.nr_command.specs.Debugger.{after_words, opening};
ghost use Rattle.nr_command.specs.Auxiliary.Debugger.{IsWithin};
ghost use Rattle.nr_command.specs.Value.{cell_text};
ghost use Rattle.nr_command.specs.Word.{command_of, word_of};
ghost use Rattle.nr_command.specs.Auxiliary.Word.{HasTypedNumbers};
ghost use Rattle.nr_command.specs.declared.command.Command.{Command};
ghost use Rattle.nr_command.specs.declared.checkpoint.TheConstants.{MOST_CHECKPOINTS};
ghost use Rattle.nr_command.specs.declared.parsing.TheConstants.{MAX_LINE};

/// Each command, with each tag, can be read back from its word; and if a command is read from a number, that number is
/// its word.
pub fn commands_are_read_from_their_words()
    ensures read { (tag : ℕ) (command : Command) → tag < 256 → HasTypedNumbers command
        → command_of (word_of tag command) ≡ Some (tag, command) }
    ensures word { (n tag : ℕ) (command : Command) → command_of n ≡ Some (tag, command)
        → (n ≡ word_of tag command) × (tag < 256) × HasTypedNumbers command }
{}

/// The printed form of a cell is read back as that cell.
pub fn printed_cells_are_read()
    ensures { (cell : Cell) → IfSome (cell_index cell) (λ n. n < 2 ^ 32)
        → cell_of (words (cell_text cell)) ≡ Ok cell }
{}

/// After any history, the debugger's position and its checkpoints are in the recording. The history
/// may contain words that encode no command.
pub fn histories_stay_in_the_recording()
    ensures { (r : Recording) (words : List ℕ)
        → IsWithin (length r.steps) (after_words r opening words) }
{}

/// A command line has at most 256 bytes, and there are at most 64 checkpoints at a time.
pub fn the_numbers()
    ensures line { MAX_LINE ≡ 256 }
    ensures checkpoints { MOST_CHECKPOINTS ≡ 64 }
{}
