//! Laws about steps, as `nr_rev` defines them: each step keeps a world well formed, and changes
//! only cells of its aspects. The laws are public functions with an empty body, whose contract is
//! the law. Nothing runs here.
#![tactic(auto)]

pub mod aspects;
pub mod well_formed;
