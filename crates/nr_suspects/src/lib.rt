//! Finds suspects from the effects of a recording's steps: lost wake-ups, stale deadlines and leaked references.
#![tactic(auto)]

mod account;
mod accounts;
mod deadline_finding;
mod held_reference;
mod holding;
pub mod laws;
mod ledger;
mod lost_wake_up;
mod notebook;
mod notice;
mod peer;
mod peers;
mod setting;
mod sleeper;
mod suspects;

pub use account::{Account, Debt};
pub use accounts::Accounts;
pub use deadline_finding::{Consequence, DeadlineFinding};
pub use held_reference::{HeldReference, list_held_references};
pub use holding::Holding;
pub use ledger::Ledger;
pub use lost_wake_up::{LostWakeUp, LostWakeUps, MOST_LOST, list_lost_wake_ups};
pub use notebook::Notebook;
pub use notice::{Notice, Passing, Visit, advance};
pub use peer::Peer;
pub use peers::Peers;
pub use setting::{Deadline, Setting, StepBy};
pub use sleeper::{MOST_SLEEPERS, Reason, Sleeper, Sleepers, list_sleepers};
pub use suspects::Suspects;
