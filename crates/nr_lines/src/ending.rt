//! How serving ends.

/// How serving ended.
#[derive(Clone, Copy, Debug, PartialEq, Eq)]
pub enum End {
    /// All bytes of the reader were read, and no line was `quit`.
    Closed,
    /// A line was `quit`.
    Quit,
}

/// Why serving stopped.
#[derive(Clone, Copy, Debug, PartialEq, Eq)]
pub enum LineEnd {
    /// A read failed.
    Read,
    /// A write failed, or accepted no bytes, after this many whole texts and this many bytes of the
    /// next text. Each count stops at `u64::MAX`.
    Write { whole: u64, part: u64 },
}

/// The stream that failed, if replies are written together. There is no count of the replies that
/// were written.
#[derive(Clone, Copy, Debug, PartialEq, Eq)]
pub enum StreamFailure {
    /// A read failed.
    Read,
    /// A write failed, or accepted no bytes.
    Write,
}
