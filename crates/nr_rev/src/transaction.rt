//! Transactions: sequences of operations that are applied either completely or not at all.

ghost use Rattle.std.specs.Prelude.{◌≡◌, ◌≤◌, [], length, OnOk, OnErr, IfErr};
ghost use Rattle.nr_rev.specs.Reversible.{Refuses};
ghost use Rattle.nr_rev.specs.Auxiliary.Reversible.{IsLight};
ghost use Rattle.nr_rev.specs.Transaction.{Applied, LeadsBack, FirstRefused};

use crate::refusal::Refusal;
use crate::reversible::Reversible;
use arrayvec::ArrayVec;

/// Undoes the deltas from the last to the first, and empties the list. Allocates no memory and
/// can't fail.
pub fn undo_all<S: Reversible>(state: &mut S, deltas: &mut ArrayVec<S::Delta, 8>)
where
    S::Delta: Default + Drop,
    requires { (old : S) × LeadsBack S.back deltas.old.items state.old old }
    ensures back { (old : S) → LeadsBack S.back deltas.old.items state.old old → state.new ≡ old }
    ensures empty { deltas.new.items ≡ [] }
{
    while let Some(delta) = deltas.pop() {
        state.undo(delta);
    }
}

/// Applies all the operations in order, or none of them: if one doesn't apply, those before it are
/// undone. On success, `out` has a delta for each operation, in order, so that `undo_all` can undo
/// them. Otherwise, returns the reason for the first refusal; the state is as it was before, and
/// `out` is empty.
pub fn transact<S: Reversible>(
    state: &mut S,
    ops: &[S::Op],
    out: &mut ArrayVec<S::Delta, 8>,
) -> Result<(), Refusal>
where
    S::Answer: Drop,
    S::Delta: Default + Drop,
    requires well_formed { S.is_well_formed state.old }
    requires few { length ops.now ≤ 8 }
    requires empty { out.old.items ≡ [] }
    ensures well_formed { S.is_well_formed state.new }

    // All operations are applied, and each has its delta.
    ensures applied { OnOk result
        (Applied S.steps S.back
        (IsLight S.weight S.allowance S.bytes_out) state.old ops.now out.new.items state.new) }
    ensures leads_back { OnOk result (LeadsBack S.back out.new.items state.new state.old) }

    // Otherwise, no operation is applied, and the error is the reason for the first refusal.
    ensures refusal { IfErr result
        (FirstRefused S.steps (Refuses S.reason S.takes_memory) state.old ops.now) }
    ensures unchanged { OnErr result (state.new ≡ state.old) }
    ensures nothing_out { OnErr result (out.new.items ≡ []) }
{
    for op in ops {
        match state.apply(op) {
            Ok((_, delta)) => out.push(delta),
            Err(refusal) => {
                undo_all(state, out);
                return Err(refusal);
            }
        }
    }
    Ok(())
}
