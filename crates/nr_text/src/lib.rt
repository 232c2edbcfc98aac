//! Streams and texts: a reader and a writer that remember whether they failed, and texts that are written in pieces.
#![tactic(auto)]

mod buffered;
mod calls;
pub mod laws;
mod logged;
mod sink;
mod source;
mod text;
mod token;

pub use buffered::{Buffered, WriteFailed};
pub use sink::{Part, Sink};
pub use source::{ReadFailed, Source};
pub use text::{Parts, Text, send_all};
pub use token::Token;
