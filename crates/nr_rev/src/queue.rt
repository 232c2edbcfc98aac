//! The goroutines that wait for a semaphore.

use std::marker::Model;

/// The numbers of the goroutines queued at a semaphore, front first; in contracts, a list.
/// Conversion from or to a `Vec` allocates no memory.
#[derive(Drop)]
pub struct Queue {
    items: Vec<u32>,
}

impl Model for Queue {
    ghost use Rattle.std.specs.Prelude.{ℕ, List};

    ghost Value = { List ℕ };

    ghost view = { λ q. q.items.items };
}

impl Queue {
    ghost use Rattle.std.specs.Prelude.{◌≡◌};

    /// Makes a queue from a `Vec`.
    pub fn new(items: Vec<u32>) -> Self
        ensures { result ≡ items.items }
    {
        Queue { items }
    }

    /// Returns the goroutines as a slice, front first.
    pub fn as_slice(&self) -> &[u32]
        ensures { result.now ≡ self.now }
    {
        self.items.as_slice()
    }

    /// Returns the `Vec` that holds the goroutines.
    pub fn into_vec(self) -> Vec<u32>
        ensures { result.items ≡ self }
    {
        self.items
    }
}

impl From<Vec<u32>> for Queue {
    ghost use Rattle.std.specs.Prelude.{◌≡◌};

    ghost from_gives = { λ items kept. kept ≡ items.items };

    fn from(items: Vec<u32>) -> Queue {
        Queue::new(items)
    }
}

impl From<Queue> for Vec<u32> {
    ghost use Rattle.std.specs.Prelude.{◌≡◌};

    ghost from_gives = { λ kept items. items.items ≡ kept };

    fn from(kept: Queue) -> Vec<u32> {
        kept.into_vec()
    }
}
