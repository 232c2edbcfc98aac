//! The bytes in a step or in a buffer.

use std::marker::Model;

/// Bytes; in contracts, a list. Conversion from or to a `Vec` allocates no memory.
#[derive(Drop)]
pub struct Bytes {
    items: Vec<u8>,
}

impl Model for Bytes {
    ghost use Rattle.std.specs.Prelude.{ℕ, List};

    ghost Value = { List ℕ };

    ghost view = { λ b. b.items.items };
}

impl Bytes {
    ghost use Rattle.std.specs.Prelude.{◌≡◌, ◌==◌, length};

    /// Makes bytes from a `Vec`.
    pub fn new(items: Vec<u8>) -> Self
        ensures { result ≡ items.items }
    {
        Bytes { items }
    }

    /// Returns the bytes as a slice.
    pub fn as_slice(&self) -> &[u8]
        ensures { result.now ≡ self.now }
    {
        self.items.as_slice()
    }

    /// Returns the number of bytes.
    pub fn len(&self) -> usize
        ensures { result ≡ length self.now }
    {
        self.items.len()
    }

    /// Returns whether there are no bytes.
    pub fn is_empty(&self) -> bool
        ensures { result ≡ (length self.now == 0) }
    {
        self.items.is_empty()
    }

    /// Returns the `Vec` that holds the bytes.
    pub fn into_vec(self) -> Vec<u8>
        ensures { result.items ≡ self }
    {
        self.items
    }
}

impl From<Vec<u8>> for Bytes {
    ghost use Rattle.std.specs.Prelude.{◌≡◌};

    ghost from_gives = { λ items kept. kept ≡ items.items };

    fn from(items: Vec<u8>) -> Bytes {
        Bytes::new(items)
    }
}

impl From<Bytes> for Vec<u8> {
    ghost use Rattle.std.specs.Prelude.{◌≡◌};

    ghost from_gives = { λ kept items. items.items ≡ kept };

    fn from(kept: Bytes) -> Vec<u8> {
        kept.into_vec()
    }
}
