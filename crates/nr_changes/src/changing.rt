//! The changes of a step, with the new values.

ghost use Rattle.std.specs.Prelude.{◌≡◌, ◌≤◌, [], Ok, Err, IfOk, IfErr, OnOk, OnErr, filter, length, map, not};
ghost use Rattle.nr_rev.specs.Cell.{cell, same_value};
ghost use Rattle.nr_rev.specs.Step.{outcome};
ghost use Rattle.nr_changes.specs.Changes.{changes_between, with_value};

use crate::cell_list::MOST_CELLS;
use crate::touches_cells::TouchesCells;
use arrayvec::ArrayVec;
use nr_rev::{Answer, Cell, CellValue, Refusal, Step};

/// A cell with a value.
#[derive(Clone, Copy, Debug, PartialEq, Eq)]
pub struct CellWithValue {
    /// The cell.
    pub cell: Cell,
    /// The value.
    pub value: CellValue,
}

/// The default is a cell without a value. It fills the unused places of a list.
impl Default for CellWithValue {
    fn default() -> CellWithValue {
        CellWithValue {
            cell: Cell::Clock,
            value: CellValue::Absent,
        }
    }
}

/// Cells with values, at most as many as a step changes.
pub type Changes = ArrayVec<CellWithValue, MOST_CELLS>;

// Replaces the list's contents with the cells and their values in the world.
fn list_values<W: TouchesCells>(world: &W, cells: &[Cell], values: &mut Changes)
    requires world { W.is_well_formed world.now }
    requires few { length cells.now ≤ 22 }
    ensures { values.new.items ≡ map (with_value (W.world world.now)) cells.now }
{
    values.clear();
    for cell in cells {
        values.push(CellWithValue {
            cell: *cell,
            value: world.cell(*cell),
        });
    }
}

// Keeps the cells whose value differs in the world, and stores the new value.
fn keep_changed<W: TouchesCells>(world: &W, changes: &mut Changes)
    requires world { W.is_well_formed world.now }
    ensures { changes.new.items ≡ map (λ old. with_value (W.world world.now) old.cell)
        (filter (λ old. not (same_value (cell (W.world world.now) old.cell) old.value)) changes.old.items) }
{
    changes.retain(
        |listed|
            requires { W.is_well_formed world.now }
            ensures is_another { result
                ≡ not (same_value (cell (W.world world.entry.now) listed.old.cell) listed.old.value) }
            ensures value { listed.new
                ≡ with_value (W.world world.entry.now) listed.old.cell }
        {
            let value = world.cell(listed.cell);
            let is_another = value != listed.value;
            listed.value = value;
            is_another
        },
    );
}

/// Applies the step without an undo, and returns its answer. Replaces the list's contents with the
/// cells that the step changed, in listing order, each once and with its new value. If the step is
/// refused, the world stays as it was, and the list is empty. Allocates no memory.
pub fn advance<W: TouchesCells>(
    world: &mut W,
    step: &Step,
    changes: &mut Changes,
) -> Result<Answer, Refusal>
    requires { W.is_well_formed world.old }
    ensures step { IfOk result (λ answer.
        outcome (W.world world.old) step.now ≡ Ok (answer, W.world world.new)) }
    ensures changes { OnOk result
        (changes.new.items ≡ changes_between (W.world world.old) (W.world world.new)) }
    ensures well_formed { W.is_well_formed world.new }
    ensures refusal { IfErr result (λ reason. outcome (W.world world.old) step.now ≡ Err reason) }
    ensures unchanged { OnErr result (world.new ≡ world.old) }
    ensures nothing { OnErr result (changes.new.items ≡ []) }
{
    let cells = world.touched(step).cells(step.kind());
    list_values(world, cells.as_slice(), changes);
    match world.advance(step) {
        Ok(answer) => {
            keep_changed(world, changes);
            Ok(answer)
        }
        Err(reason) => {
            changes.clear();
            Err(reason)
        }
    }
}
