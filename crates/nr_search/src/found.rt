//! The result of a search.

ghost use Rattle.std.specs.Prelude.{◌≡◌};
ghost use Rattle.nr_search.specs.Nearest.{found_after};
ghost use Rattle.nr_search.specs.Search.{is_hit, is_decided};

use crate::direction::Direction;
use arrayvec::ArrayVec;
use nr_marks::MOST_MARKS;

/// The numbers of marks, in ascending order.
pub(crate) type Numbers = ArrayVec<u32, MOST_MARKS>;

/// A position at which marks hit.
#[derive(Debug, PartialEq, Eq, Drop)]
pub struct Hit {
    pub position: usize,
    /// The numbers of the marks that hit there, in ascending order. At least one mark hits.
    pub marks: ArrayVec<u32, MOST_MARKS>,
}

/// The result of a search.
#[derive(Debug, PartialEq, Eq, Drop)]
pub enum Found {
    /// The nearest position at which a mark hits.
    Hit(Hit),
    /// No mark hits in that direction.
    Nothing,
}

impl Found {
    // If marks hit at position p, makes this hit the result. Otherwise, leaves the result unchanged
    // and copies nothing.
    pub(crate) fn look_at(&mut self, p: usize, hits: &Numbers)
        ensures { self.new ≡ found_after self.old p hits.now.items }
    {
        if !hits.is_empty() {
            *self = Found::Hit(Hit {
                position: p,
                marks: copied(hits),
            });
        }
    }

    // Returns a copy that shares no memory with this result.
    pub(crate) fn copy(&self) -> Found
        ensures { result ≡ self.now }
    {
        match self {
            Found::Hit(hit) => Found::Hit(Hit {
                position: hit.position,
                marks: copied(&hit.marks),
            }),
            Found::Nothing => Found::Nothing,
        }
    }

    // Returns whether this is a hit.
    pub(crate) fn is_hit(&self) -> bool
        ensures { result ≡ is_hit self.now }
    {
        match self {
            Found::Hit(_) => true,
            Found::Nothing => false,
        }
    }

    // Returns whether the result is final: the search is forward and has a hit.
    pub(crate) fn is_decided(&self, direction: Direction) -> bool
        ensures { result ≡ is_decided direction self.now }
    {
        match (direction, self) {
            (Direction::Forward, Found::Hit(_)) => true,
            _ => false,
        }
    }
}

// Returns a copy of the numbers of marks. Allocates no memory.
fn copied(numbers: &Numbers) -> Numbers
    ensures { result ≡ numbers.now }
{
    let mut copy = ArrayVec::new();
    let Ok(()) = copy.try_extend_from_slice(numbers.as_slice()) else {
        unreachable!()
    };
    copy
}
