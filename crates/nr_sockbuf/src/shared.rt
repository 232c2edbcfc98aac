//! The bytes of snapshots, which several snapshots may share.

ghost use Rattle.std.specs.Prelude.{◌≡◌, ◌+◌, ◌++◌, ◌↔◌, length, vec_len, vec_capacity, IsTrue, IfOk, IfSome};

use nr_rev::Memory;
use std::alloc::Global;
use std::marker::Model;
use std::sync::Arc;

/// Immutable bytes that several owners may share. In contracts, they are a list. They use only the memory that they
/// need, and none if the list is empty.
#[derive(Drop)]
pub(crate) struct SharedBytes {
    block: Option<Arc<Vec<u8>>>,
}

impl Model for SharedBytes {
    ghost use Rattle.std.specs.Prelude.{ℕ, List};
    ghost use Rattle.nr_sockbuf.specs.Shared.{items_of, HasNoSpareRoom};

    ghost Value = { List ℕ };

    ghost view = { λ s. items_of s.block };

    ghost invariant = { λ s. HasNoSpareRoom s.block };
}

// Returns the concatenation of two pieces, in a block of exactly this size. Fails with `Memory` if memory runs out.
fn joined(alloc: Global, front: &[u8], back: &[u8], len: usize) -> Result<Vec<u8>, Memory>
    requires { len ≡ length front.now + length back.now }
    ensures bytes { IfOk result (λ bytes. bytes.items ≡ front.now ++ back.now) }
    ensures exact { IfOk result (λ bytes. vec_capacity bytes ≡ vec_len bytes) }
{
    let mut bytes = Vec::with_capacity(alloc, len)?;
    for first in front {
        bytes.push_reserved(*first);
    }
    for second in back {
        bytes.push_reserved(*second);
    }
    Ok(bytes)
}

impl SharedBytes {
    /// Returns the concatenation of two pieces, with a single owner. Fails with `Memory` if memory
    /// runs out.
    pub(crate) fn of_pieces(
        alloc: Global,
        front: &[u8],
        back: &[u8],
        len: usize,
    ) -> Result<SharedBytes, Memory>
        requires { len ≡ length front.now + length back.now }
        ensures { IfOk result (λ bytes. bytes ≡ front.now ++ back.now) }
    {
        if len == 0 {
            return Ok(SharedBytes { block: None });
        }
        let bytes = joined(alloc, front, back, len)?;
        Ok(SharedBytes {
            block: Some(Arc::new(alloc, bytes)?),
        })
    }

    // Returns another owner of the bytes, or `None` if there can't be more owners.
    fn share(&self) -> Option<SharedBytes>
        ensures { IfSome result (λ bytes. bytes ≡ self.now) }
    {
        match &self.block {
            None => Some(SharedBytes { block: None }),
            Some(block) => {
                let block = Arc::try_clone(block).ok()?;
                Some(SharedBytes { block: Some(block) })
            }
        }
    }

    /// Returns the bytes as a slice.
    pub(crate) fn as_slice(&self) -> &[u8]
        ensures { result.now ≡ self.now }
    {
        match &self.block {
            None => &[],
            Some(block) => block.as_slice(),
        }
    }

    // Returns whether the bytes are the concatenation of two pieces.
    fn is(&self, front: &[u8], back: &[u8]) -> bool
        ensures { IsTrue result ↔ (self.now ≡ front.now ++ back.now) }
    {
        match self.as_slice().strip_prefix(front) {
            Some(rest) => rest == back,
            None => false,
        }
    }

    /// Returns another owner of the bytes if they are the concatenation of two pieces; `None` if they aren't, or if
    /// there can't be more owners.
    pub(crate) fn shared_if(&self, front: &[u8], back: &[u8]) -> Option<SharedBytes>
        ensures { IfSome result (λ bytes. bytes ≡ front.now ++ back.now) }
    {
        if self.is(front, back) {
            self.share()
        } else {
            None
        }
    }
}
