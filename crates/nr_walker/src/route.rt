//! The routes of a walker.

/// The route that a walker takes to a position.
#[derive(Clone, Copy, Debug, PartialEq, Eq)]
pub(crate) enum Route {
    /// Back from the current position, by undoing deltas that the walker keeps.
    Back,
    /// Forward by fewer steps than lie between two copies.
    Forward,
    /// From the copy at or below the position.
    FromCopy,
}
