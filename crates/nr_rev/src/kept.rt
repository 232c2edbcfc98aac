//! Bytes that left a buffer, kept so that the step can be undone.

use crate::Memory;
use std::alloc::Global;
use std::marker::Model;

/// Bytes that are kept so that a step can be undone; in contracts, a list. They have no spare room:
/// the capacity is the number of bytes.
#[derive(Drop)]
pub struct KeptBytes {
    items: Vec<u8>,
}

impl Model for KeptBytes {
    ghost use Rattle.std.specs.Prelude.{◌≡◌, ℕ, List, vec_len, vec_capacity};

    ghost Value = { List ℕ };

    ghost view = { λ b. b.items.items };

    ghost invariant = { λ b. vec_capacity b.items ≡ vec_len b.items };
}

impl KeptBytes {
    ghost use Rattle.std.specs.Prelude.{◌≡◌, ◌<◌, [], length, IfOk, OnErr};

    /// Makes an empty list of bytes. Allocates no memory.
    #[inline(always)]
    pub fn none(alloc: Global) -> KeptBytes
        ensures { result ≡ [] }
    {
        KeptBytes {
            items: Vec::new(alloc),
        }
    }

    /// Copies the bytes. Fails only if there are bytes and memory runs out.
    pub fn copy_of(alloc: Global, bytes: &[u8]) -> Result<KeptBytes, Memory>
        ensures ok { IfOk result (λ kept. kept ≡ bytes.now) }
        ensures err { OnErr result (0 < length bytes.now) }
    {
        let mut items = Vec::with_capacity(alloc, bytes.len())?;
        for byte in bytes {
            items.push_reserved(*byte);
        }
        Ok(KeptBytes { items })
    }

    /// Returns the bytes as a slice.
    pub fn as_slice(&self) -> &[u8]
        ensures { result.now ≡ self.now }
    {
        self.items.as_slice()
    }

    /// Returns the number of bytes.
    pub fn len(&self) -> usize
        ensures { result ≡ length self.now }
    {
        self.items.len()
    }
}
