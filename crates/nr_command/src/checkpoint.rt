//! Checkpoints: numbered positions.

ghost use Rattle.std.specs.Prelude.{◌≡◌, ◌≤◌, length, OnErr};
ghost use Rattle.nr_marks.specs.Numbered.{empty, item_of, with_item, without_item};
ghost use Rattle.nr_command.specs.Checkpoints.{checkpoint_deletion, next_checkpoint};
ghost use Rattle.nr_command.specs.declared.checkpoint.TheConstants.{MOST_CHECKPOINTS};

use nr_marks::{MOST_NUMBERED, Numbered, NumberedList};
use std::marker::Model;

/// The maximum number of checkpoints at a time.
pub const MOST_CHECKPOINTS: usize = MOST_NUMBERED;

/// A kept position and its number.
pub type Checkpoint = Numbered<usize>;

/// Why a call left the checkpoints unchanged.
#[derive(Clone, Copy, Debug, PartialEq, Eq)]
pub enum CheckpointFault {
    /// No checkpoint has this number.
    NoSuchCheckpoint,
    /// No checkpoint can be made: there are 64 already, or the numbers up to 4,294,967,295 are used up.
    CheckpointsFull,
}

/// The checkpoints of a debugger. Checkpoints are numbered from 1 in the order in which they are
/// made, and a number is never used twice. No call allocates memory.
#[derive(Debug, Drop)]
pub struct Checkpoints {
    list: NumberedList<usize>,
}

impl Model for Checkpoints {
    ghost use Rattle.nr_command.specs.Checkpoints.{CheckpointList};

    ghost Value = { CheckpointList };

    ghost view = { λ c. c.list };
}

impl Checkpoints {
    /// Makes an empty list of checkpoints.
    pub fn new() -> Checkpoints
        ensures { result ≡ empty }
    {
        Checkpoints {
            list: NumberedList::new(),
        }
    }

    /// Keeps a position under the next number. Fails, without any change, if there are 64 checkpoints already or the
    /// numbers are used up.
    pub fn make(&mut self, position: usize) -> Result<Checkpoint, CheckpointFault>
        ensures answer { result ≡ next_checkpoint position self.old }
        ensures kept { self.new ≡ with_item position self.old }
        ensures unchanged { OnErr result (self.new ≡ self.old) }
    {
        match self.list.make(position) {
            Some(made) => Ok(made),
            None => Err(CheckpointFault::CheckpointsFull),
        }
    }

    /// Returns the position of the checkpoint with this number, if there is one.
    pub fn position_of(&self, number: u32) -> Option<usize>
        ensures { result ≡ item_of number self.now }
    {
        self.list.find(number)
    }

    /// Deletes the checkpoint with this number. The other checkpoints keep their numbers. Fails,
    /// without any change, if no checkpoint has this number.
    pub fn delete(&mut self, number: u32) -> Result<(), CheckpointFault>
        ensures answer { result ≡ checkpoint_deletion number self.old }
        ensures gone { self.new ≡ without_item number self.old }
        ensures unchanged { OnErr result (self.new ≡ self.old) }
    {
        if self.list.delete(number) {
            Ok(())
        } else {
            Err(CheckpointFault::NoSuchCheckpoint)
        }
    }

    /// Returns the checkpoints, in ascending order of their numbers.
    pub fn as_slice(&self) -> &[Checkpoint]
        ensures checkpoints { result.now ≡ self.now.present }
        ensures few { length result.now ≤ MOST_CHECKPOINTS }
    {
        self.list.as_slice()
    }
}
