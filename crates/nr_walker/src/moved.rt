//! The cost of a walk to a position.

/// The cost of a walk to a position: how many steps are applied, how many are undone, and how many
/// copies of the world are made.
#[derive(Clone, Copy, Debug, PartialEq, Eq)]
pub struct Moved {
    pub applies: usize,
    pub undos: usize,
    pub copies: usize,
}
