//! The programs, from the bytes of the file and the streams to the exit status.
#![tactic(auto)]

mod changes;
pub mod headline;
pub mod laws;
mod opening;
mod run;
mod serving;
mod sharing;
pub mod short;
mod suspects;
mod upgrade;
pub mod worked;

pub use changes::changes_bytes;
pub use opening::OpenFault;
pub use run::{ExitStatus, JOURNAL_ROOM, check_bytes, refuse, run_bytes};
pub use serving::serve_bytes;
pub use sharing::{MOST_FRONTS, MOST_JOURNAL, MOST_PORT, MOST_WORKERS, Sharing};
pub use suspects::suspects_bytes;
pub use upgrade::upgrade_bytes;
