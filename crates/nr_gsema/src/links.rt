//! The links between the nodes of queued goroutines.

ghost use Rattle.std.specs.Prelude.{◌≡◌, ◌<◌, length, slice_set, Some, None, IfSome};
ghost use Rattle.nr_gsema.specs.Relinking.{with_next, with_previous};

use crate::node::GoroutineNode;

/// Sets the goroutine that comes after `goroutine` in a queue, if `goroutine` is given.
#[inline(always)]
pub(crate) fn set_next(nodes: &mut [GoroutineNode], goroutine: Option<u32>, next: Option<u32>)
    requires { IfSome goroutine (λ g. g < length nodes.old) }
    ensures { nodes.new ≡ with_next goroutine next nodes.old }
{
    if let Some(goroutine) = goroutine {
        let node = nodes[goroutine as usize];
        nodes[goroutine as usize] = GoroutineNode { next, ..node };
    }
}

/// Sets the goroutine that comes before `goroutine` in a queue, if `goroutine` is given.
#[inline(always)]
pub(crate) fn set_previous(
    nodes: &mut [GoroutineNode],
    goroutine: Option<u32>,
    previous: Option<u32>,
)
    requires { IfSome goroutine (λ g. g < length nodes.old) }
    ensures { nodes.new ≡ with_previous goroutine previous nodes.old }
{
    if let Some(goroutine) = goroutine {
        let node = nodes[goroutine as usize];
        nodes[goroutine as usize] = GoroutineNode { previous, ..node };
    }
}
