//! The two facts behind the theorem, as short functions: undoing a step restores the state, and the
//! world at a position is the replay of the steps before it.

ghost use Rattle.std.specs.Prelude.{◌≡◌, ◌≤◌, length, IfErr, IfOk, OnErr, OnOk};
ghost use Rattle.nr_rev.specs.Cell.{cell};
ghost use Rattle.nr_rev.specs.Reversible.{Refuses};
ghost use Rattle.nr_rev.specs.Run.{world_at};
ghost use Rattle.nr_rev.specs.WellFormed.{WellFormed};
ghost use Rattle.nr_walker.specs.Walk.{IsRefusedBy, route};

use nr_rev::{Cell, CellValue, Memory, Refusal, Reversible, Worlds};
use nr_walker::Walker;

/// Applies an operation to a machine whose operations can be undone, in any well-formed state, and undoes it.
/// Afterwards every part of the state is as it was before, even if the operation doesn't apply. Returns the operation's
/// answer, or why it doesn't apply.
pub fn there_and_back<M: Reversible>(machine: &mut M, op: &M::Op) -> Result<M::Answer, Refusal>
    requires { M.is_well_formed machine.old }
    ensures same { machine.new ≡ machine.old }
    ensures answer { IfOk result (λ answer. (after : M) × M.steps machine.old op.now answer after) }
    ensures refusal { IfErr result (Refuses M.reason M.takes_memory machine.old op.now) }
{
    let (answer, delta) = machine.apply(op)?;
    machine.undo(delta);
    Ok(answer)
}

/// Moves a walker from any position to position n, and returns the value of a cell there. This is
/// the cell's value in the world after a replay of the recording's first n steps; that world is
/// well-formed. Fails with `Memory` if memory runs out, and leaves the walker where `Walker::goto`
/// leaves it.
pub fn value_at<W: Worlds + Drop>(
    walker: &mut Walker<'_, W>,
    n: usize,
    what: Cell,
) -> Result<CellValue, Memory>
where
    W::Delta: Drop,
    W::Snapshot: Drop,
    requires { n ≤ length walker.old.film.recording.steps }
    ensures value { IfOk result (λ value. value ≡ cell (world_at walker.old.film.recording n) what) }
    ensures possible { OnOk result (WellFormed (world_at walker.old.film.recording n)) }
    ensures there { OnOk result (walker.new.position ≡ n) }
    ensures film { OnOk result (walker.new.film ≡ walker.old.film) }
    ensures refused { OnErr result (IsRefusedBy (route walker.old n) walker.old n walker.new) }
{
    walker.goto(n)?;
    Ok(walker.world().cell(what))
}
