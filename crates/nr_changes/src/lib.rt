//! Lists the cells that a step of a recording may change. The definitions are in `specs/`:
//! `Touched` defines what a step touches, and `Changed` the cells that it may change and those that
//! it changed.
#![tactic(auto)]

mod cell_list;
mod changing;
pub mod laws;
mod listing;
mod touched;
mod touches_cells;

pub use cell_list::{CellList, MOST_CELLS};
pub use changing::{CellWithValue, Changes, advance};
pub use listing::MOST_TOUCHED;
pub use touched::Touched;
pub use touches_cells::TouchesCells;
