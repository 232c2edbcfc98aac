//! One user's *replica* of the shared session. A replica has a pass of the journal and a debugger.
//! The pass reads all words of the journal in order, including those of other fronts, and the
//! debugger runs them.
#![tactic(auto)]

mod fault;
mod front;
mod pending;
mod replica;
mod steps;

pub use fault::FrontFault;
pub use front::Front;
pub use replica::Replica;
