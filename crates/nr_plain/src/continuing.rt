//! The common part of steps that change a descriptor with its timers: carrying out timer orders and
//! waking goroutines.

ghost use Rattle.std.specs.Prelude.{◌≡◌, ◌++◌, ◌≤◌, [], length, map, option_to_list};
ghost use Rattle.nr_rev.specs.Step as step;
ghost use Rattle.nr_plain.specs.declared.edit.Edit.TheVariants.{Wake};
ghost use Rattle.nr_plain.specs.Change.{change_view};
ghost use Rattle.nr_plain.specs.Continuing.{ContinuesOr};
ghost use Rattle.nr_plain.specs.Plan.{CanEditAll, after_edits};

use crate::change::PlainChange;
use crate::edit::Edit;
use crate::plan::Plan;
use crate::world::PlainWorld;
use nr_rev::{DescriptorRow, Refusal, Sides, Timer, TimerOrder, raised_sequence};

impl PlainWorld {
    /// Extends the plan with a change to a descriptor: its timer orders are carried out, and the goroutines that it
    /// wakes continue.
    pub(crate) fn then_changed<'a>(
        &self,
        plan: Plan<'a>,
        descriptor: u32,
        row: DescriptorRow,
        change: PlainChange,
    ) -> Result<Plan<'a>, Refusal>
        requires few { length plan.edits.items ≤ 1 }
        requires can { CanEditAll plan.edits.items self.now }
        requires arming { (after_edits plan.edits.items self.now).next_arming
            ≡ self.now.next_arming }
        ensures { ContinuesOr descriptor row (change_view change) self.now plan.entry result }
    {
        let (timers, number) = after_order(change.orders.read, row.timers, self.next_arming)?;
        let (timers, number) = after_order(change.orders.write, timers, number)?;
        let row = DescriptorRow {
            descriptor: change.descriptor,
            timers,
        };
        let plan = plan
            .then(Edit::Row { descriptor, row })
            .then(Edit::Arming { number });
        Ok(then_woken(plan, change.woken))
    }
}

/// Returns the timers after an order, if any, and the next arming number.
fn after_order(
    order: Option<TimerOrder>,
    timers: Sides<Option<Timer>>,
    number: u64,
) -> Result<(Sides<Option<Timer>>, u64), Refusal>
    ensures { result ≡ step.after_orders (option_to_list order) (timers, number) }
{
    match order {
        None => Ok((timers, number)),
        Some(TimerOrder::Stop { side }) => Ok((timers.with(side, None), number)),
        Some(
            TimerOrder::Arm {
                side,
                due,
                function,
                sequence,
            },
        ) => {
            let next = raised_sequence(number)?;
            let timer = Timer {
                due,
                number,
                function,
                sequence,
            };
            Ok((timers.with(side, Some(timer)), next))
        }
    }
}

/// Extends the plan with the wakes: first of the reader, then of the writer, if any.
fn then_woken<'a>(plan: Plan<'a>, woken: Sides<Option<u32>>) -> Plan<'a>
    requires { length plan.edits.items ≤ 3 }
    ensures answer { result.answer ≡ plan.entry.answer }
    ensures edits { result.edits.items
        ≡ plan.entry.edits.items ++ map Wake
        (option_to_list woken.read ++ option_to_list woken.write) }
{
    let plan = match woken.read {
        None => plan,
        Some(goroutine) => plan.then(Edit::Wake { goroutine }),
    };
    match woken.write {
        None => plan,
        Some(goroutine) => plan.then(Edit::Wake { goroutine }),
    }
}
