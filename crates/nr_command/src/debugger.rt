//! The debugger, a state machine with a position in a film, marks and checkpoints, which replies to
//! commands.

ghost use Rattle.std.specs.Prelude.{◌≡◌, ◌<◌, ◌≤◌, ◌^◌, length, false, IfOk, OnErr};
ghost use Rattle.nr_command.specs.Debugger.{NeedsWorlds, Searches, stop_at, continue, delete_checkpoint, delete_mark, keep_position, make_mark, opening, restart, run, step, to_end};
ghost use Rattle.nr_command.specs.Auxiliary.Debugger.{IsWithin, continues};

use crate::checkpoint::{CheckpointFault, Checkpoints};
use crate::command::Command;
use crate::reply::{Fault, Reply};
use nr_marks::{Mark, Marks};
use nr_rev::{Memory, Worlds};
use nr_search::{Direction, Finder, Found, nearest_hit};
use nr_snaps::Film;

/// A position in a film, with marks and checkpoints. A debugger holds no world: commands only move
/// the position.
#[derive(Debug, Drop)]
pub struct Debugger {
    /// The number of steps before the position.
    pub(crate) position: usize,
    /// The direction of `stepi` and `continue`.
    pub(crate) direction: Direction,
    pub(crate) marks: Marks,
    pub(crate) checkpoints: Checkpoints,
}

impl Debugger {
    /// Makes a debugger at position 0 that goes forwards and has no marks and no checkpoints.
    pub fn new() -> Debugger
        ensures { result ≡ opening }
    {
        Debugger {
            position: 0,
            direction: Direction::Forward,
            marks: Marks::new(),
            checkpoints: Checkpoints::new(),
        }
    }

    /// Returns the number of steps before the debugger's position.
    pub fn position(&self) -> usize
        ensures { result ≡ self.now.position }
    {
        self.position
    }

    /// Returns the direction of `stepi` and `continue`.
    pub fn direction(&self) -> Direction
        ensures { result ≡ self.now.direction }
    {
        self.direction
    }

    /// Returns the marks, which stop `continue` and `reverse-continue`.
    pub fn marks(&self) -> &Marks
        ensures { result.now ≡ self.now.marks }
    {
        &self.marks
    }

    /// Returns the checkpoints.
    pub fn checkpoints(&self) -> &Checkpoints
        ensures { result.now ≡ self.now.checkpoints }
    {
        &self.checkpoints
    }

    /// Runs a command and returns its reply. `run` in `specs/Debugger.antt` computes the reply and
    /// the next state.
    ///
    /// Only `continue` and `reverse-continue` allocate memory, for copies of the film's worlds, and
    /// only if there is a watch and the search visits a position other than the start. If memory
    /// runs out, nothing changes.
    pub fn exec<W: Worlds + Drop + Sync, F: Finder>(
        &mut self,
        film: &Film<W>,
        finder: &F,
        command: Command,
    ) -> Result<Reply, Memory>
    where
        W::Snapshot: Drop + Sync,
        requires { IsWithin (length film.now.recording.steps) self.old }
        ensures ok { IfOk result (λ reply. (reply, self.new)
            ≡ run film.now.recording command self.old) }
        ensures within { IsWithin (length film.now.recording.steps) self.new }
        ensures unchanged { OnErr result (self.new ≡ self.old) }
        ensures memory { OnErr result (Searches film.now.recording command self.old) }
    {
        self.dispatch(film, finder, command)
    }

    /// Runs a command with the function for its kind, from any position in the recording.
    fn dispatch<W: Worlds + Drop + Sync, F: Finder>(
        &mut self,
        film: &Film<W>,
        finder: &F,
        command: Command,
    ) -> Result<Reply, Memory>
    where
        W::Snapshot: Drop + Sync,
        requires { self.old.position ≤ length film.now.recording.steps }
        ensures ok { IfOk result (λ reply. (reply, self.new)
            ≡ run film.now.recording command self.old) }
        ensures unchanged { OnErr result (self.new ≡ self.old) }
        ensures memory { OnErr result (Searches film.now.recording command self.old) }
    {
        match command {
            Command::Continue => self.continue_in(film, finder, self.direction),
            Command::ReverseContinue => self.continue_in(film, finder, Direction::Backward),
            other => Ok(self.obey(film, other)),
        }
    }

    /// Runs a command that doesn't search.
    fn obey<W: Worlds + Drop>(&mut self, film: &Film<W>, command: Command) -> Reply
    where
        W::Snapshot: Drop,
        requires position { self.old.position ≤ length film.now.recording.steps }
        requires command { continues command ≡ false }
        ensures { (result, self.new) ≡ run film.now.recording command self.old }
    {
        let last = film.len();
        match command {
            Command::Step(count) => self.step(self.direction, count.get(), last),
            Command::ReverseStep(count) => self.step(Direction::Backward, count.get(), last),
            Command::SetDirection(direction) => {
                self.direction = direction;
                Reply::Direction(direction)
            }
            Command::Break(wanted) => self.make_mark(Mark::Break(wanted)),
            Command::TemporaryBreak(wanted) => self.make_mark(Mark::TemporaryBreak(wanted)),
            Command::Watch(cell) => self.make_mark(Mark::Watch(cell)),
            Command::Delete(number) => self.delete_mark(number),
            Command::Checkpoint => self.keep_position(),
            Command::Restart(number) => self.restart(number),
            Command::DeleteCheckpoint(number) => self.delete_checkpoint(number),
            Command::Continue | Command::ReverseContinue => unreachable!(),
        }
    }

    /// Goes to the end of the film in that direction.
    fn to_end(&mut self, direction: Direction, last: usize) -> Reply
        ensures { (result, self.new) ≡ to_end direction last self.old }
    {
        match direction {
            Direction::Forward => {
                self.position = last;
                Reply::AtEnd(last)
            }
            Direction::Backward => {
                self.position = 0;
                Reply::AtStart
            }
        }
    }

    /// Goes this many steps in that direction, but not beyond the end of the film.
    fn step(&mut self, direction: Direction, count: u32, last: usize) -> Reply
        requires within { self.old.position ≤ last }
        requires last { last < 2 ^ 63 }
        ensures { (result, self.new) ≡ step direction count last self.old }
    {
        let count = count as usize;
        match direction {
            Direction::Forward if count > last - self.position => self.to_end(direction, last),
            Direction::Backward if count > self.position => self.to_end(direction, last),
            Direction::Forward => {
                self.position += count;
                Reply::At(self.position)
            }
            Direction::Backward => {
                self.position -= count;
                Reply::At(self.position)
            }
        }
    }

    /// Goes to the nearest hit in that direction and deletes the temporary marks that hit there. If
    /// there is no hit, goes to the end of the film in that direction.
    fn continue_in<W: Worlds + Drop + Sync, F: Finder>(
        &mut self,
        film: &Film<W>,
        finder: &F,
        direction: Direction,
    ) -> Result<Reply, Memory>
    where
        W::Snapshot: Drop + Sync,
        requires { self.old.position ≤ length film.now.recording.steps }
        ensures ok { IfOk result (λ reply. (reply, self.new)
            ≡ continue direction film.now.recording self.old) }
        ensures unchanged { OnErr result (self.new ≡ self.old) }
        ensures memory { OnErr result (NeedsWorlds direction film.now.recording self.old) }
    {
        let found = nearest_hit(finder, film, &self.marks, direction, self.position)?;
        match found {
            Found::Hit(hit) => {
                self.position = hit.position;
                self.marks.delete_temporary(hit.marks.as_slice());
                Ok(Reply::AtHit {
                    position: hit.position,
                    marks: hit.marks,
                })
            }
            Found::Nothing => Ok(self.to_end(direction, film.len())),
        }
    }

    fn make_mark(&mut self, mark: Mark) -> Reply
        ensures { (result, self.new) ≡ make_mark mark self.old }
    {
        match self.marks.add(mark) {
            Ok(number) => Reply::MarkMade(number),
            Err(fault) => Reply::Fault(Fault::Mark(fault)),
        }
    }

    fn delete_mark(&mut self, number: u32) -> Reply
        ensures { (result, self.new) ≡ delete_mark number self.old }
    {
        match self.marks.delete(number) {
            Ok(()) => Reply::MarkDeleted(number),
            Err(fault) => Reply::Fault(Fault::Mark(fault)),
        }
    }

    fn keep_position(&mut self) -> Reply
        ensures { (result, self.new) ≡ keep_position self.old }
    {
        match self.checkpoints.make(self.position) {
            Ok(made) => Reply::CheckpointMade(made),
            Err(fault) => Reply::Fault(Fault::Checkpoint(fault)),
        }
    }

    /// Goes to a kept position, or to the start for 0.
    fn restart(&mut self, number: u32) -> Reply
        ensures { (result, self.new) ≡ restart number self.old }
    {
        if number == 0 {
            self.position = 0;
            return Reply::At(0);
        }
        match self.checkpoints.position_of(number) {
            Some(position) => {
                self.position = position;
                Reply::At(position)
            }
            None => Reply::Fault(Fault::Checkpoint(CheckpointFault::NoSuchCheckpoint)),
        }
    }

    fn delete_checkpoint(&mut self, number: u32) -> Reply
        ensures { (result, self.new) ≡ delete_checkpoint number self.old }
    {
        match self.checkpoints.delete(number) {
            Ok(()) => Reply::CheckpointDeleted(number),
            Err(fault) => Reply::Fault(Fault::Checkpoint(fault)),
        }
    }
}
