//! Serves fronts, each in a thread of its own.
#![tactic(auto)]

mod connection;
mod conversations;
mod fronts;
mod logged;
mod session;

pub use connection::{Connections, Next, Ports, read_away};
pub use conversations::{Arrival, Conversations, Fronts};
pub use logged::LoggedPorts;
pub use session::{Ended, Shape, share};
