//! The view of a buffer: its bytes and its capacity.

ghost use Rattle.nr_rev.specs.Socket.{room_of};
ghost use Rattle.nr_plain.specs.Buffer.{buffer_view};
ghost use Rattle.std.specs.Prelude.{◌≡◌, ◌^◌, ◌<◌};

/// The bytes of a buffer and their maximum number.
#[derive(Clone, Copy)]
pub(crate) struct PlainBuffer<'a> {
    pub(crate) bytes: &'a [u8],
    pub(crate) capacity: u32,
}

impl PlainBuffer<'_> {
    /// Returns how many more bytes fit.
    pub(crate) fn room(self) -> usize
        ensures room { result ≡ room_of (buffer_view self.entry) }
        ensures small { result < 2 ^ 32 }
    {
        (self.capacity as usize).saturating_sub(self.bytes.len())
    }
}
