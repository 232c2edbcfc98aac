//! The plan of a step.

ghost use Rattle.std.specs.Prelude.{◌≡◌, ◌<◌, ◌∷◌, ◌++◌, [], length};

use crate::edit::{Edit, Undo};
use arrayvec::ArrayVec;
use nr_rev::Answer;

/// The maximum number of changes in a step.
pub(crate) const MOST_EDITS: usize = 5;

/// A step's answer, and the changes to make, in order.
#[derive(Drop)]
pub(crate) struct Plan<'a> {
    pub(crate) answer: Answer,
    pub(crate) edits: ArrayVec<Edit<'a>, MOST_EDITS>,
}

impl Default for Edit<'_> {
    fn default() -> Self {
        Edit::AddRow
    }
}

impl Default for Undo {
    fn default() -> Self {
        Undo::RemoveRow
    }
}

impl<'a> Plan<'a> {
    /// Returns a plan with this answer and no changes.
    pub(crate) fn new(answer: Answer) -> Plan<'a>
        ensures answer { result.answer ≡ answer }
        ensures edits { result.edits.items ≡ [] }
    {
        Plan {
            answer,
            edits: ArrayVec::new(),
        }
    }

    /// Returns the plan with one more change at its end.
    pub(crate) fn then(mut self, edit: Edit<'a>) -> Plan<'a>
        requires { length self.edits.items < MOST_EDITS }
        ensures answer { result.answer ≡ self.entry.answer }
        ensures edits { result.edits.items ≡ self.entry.edits.items ++ edit.entry ∷ [] }
    {
        self.edits.push(edit);
        self
    }
}
