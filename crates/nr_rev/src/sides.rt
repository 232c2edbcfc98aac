//! The two directions of a socket or descriptor, and pairs with one value for each.

/// A direction of a socket or descriptor.
#[derive(Clone, Copy, Debug, PartialEq, Eq)]
pub enum Side {
    /// Reading.
    Read,
    /// Writing.
    Write,
}

impl Side {
    ghost use Rattle.std.specs.Prelude.{◌≡◌};
    ghost use Rattle.nr_rev.specs.Sides.{same_side};

    /// Returns whether two sides are the same.
    #[inline(always)]
    pub fn is(self, other: Side) -> bool
        ensures { result ≡ same_side self other }
    {
        matches!(
            (self, other),
            (Side::Read, Side::Read) | (Side::Write, Side::Write)
        )
    }
}

/// The sides that a deadline or an event applies to.
#[derive(Clone, Copy, Debug, PartialEq, Eq)]
pub enum Mode {
    /// Reading only.
    Read,
    /// Writing only.
    Write,
    /// Reading and writing.
    Both,
}

impl Mode {
    ghost use Rattle.std.specs.Prelude.{◌≡◌};
    ghost use Rattle.nr_rev.specs.Sides.{names_side};

    /// Returns whether the mode includes a side.
    pub fn names(self, side: Side) -> bool
        ensures { result ≡ names_side self side }
    {
        match self {
            Mode::Read => side == Side::Read,
            Mode::Write => side == Side::Write,
            Mode::Both => true,
        }
    }
}

/// A pair of values, one for reading and one for writing.
#[derive(Clone, Copy, Debug, PartialEq, Eq)]
pub struct Sides<T> {
    /// The value for reading.
    pub read: T,
    /// The value for writing.
    pub write: T,
}

impl<T: Copy> Sides<T> {
    ghost use Rattle.std.specs.Prelude.{◌≡◌};
    ghost use Rattle.nr_rev.specs.Sides.{of_side, twice, with_side};

    /// Makes a pair of the same value for both sides.
    pub fn twice(both: T) -> Self
        ensures { result ≡ twice both }
    {
        Sides {
            read: both,
            write: both,
        }
    }

    /// Returns the value for a side.
    pub fn of(self, side: Side) -> T
        ensures { result ≡ of_side side self }
    {
        match side {
            Side::Read => self.read,
            Side::Write => self.write,
        }
    }

    /// Returns the pair with a new value for one side; the other side keeps its value.
    pub fn with(self, side: Side, new: T) -> Self
        ensures { result ≡ with_side side new self }
    {
        match side {
            Side::Read => Sides { read: new, ..self },
            Side::Write => Sides { write: new, ..self },
        }
    }
}
