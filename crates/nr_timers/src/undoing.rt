//! Undoing operations.

ghost use Rattle.std.specs.Prelude.{◌≡◌};
ghost use Rattle.nr_timers.specs.Back.{UndoBack};
ghost use Rattle.nr_timers.specs.State.{State};

use crate::delta::TimersUndo;
use crate::timers::Timers;
use nr_rev::Entry;

impl Timers {
    /// Restores what an operation changed: afterwards the timers are in the state before that
    /// operation.
    #[inline(always)]
    pub(crate) fn lead_back(&mut self, undo: TimersUndo)
        requires { (old : State) × UndoBack undo self.old old }
        ensures { UndoBack undo self.old self.new }
    {
        match undo {
            TimersUndo::Armed { to } => {
                let _ = self.heap.uninsert(to as usize);
                self.next -= 1;
            }
            TimersUndo::Rearmed {
                to,
                place,
                last,
                timer,
            } => {
                let armed = self.heap.uninsert(to as usize);
                let entry = Entry { timer, ..armed };
                self.heap.unremove(place as usize, last as usize, entry);
                self.next -= 1;
            }
            TimersUndo::Stopped { place, last, entry } => {
                self.heap.unremove(place as usize, last as usize, entry);
            }
            TimersUndo::Still => {}
            TimersUndo::Popped { last } => {
                let entry = self.firings.remove(self.firings.len() - 1);
                self.heap.unremove(0, last as usize, entry);
            }
            TimersUndo::Taken { place, entry } => {
                self.firings.insert(place as usize, entry);
            }
        }
    }
}
