//! Numbers that are at least 1.

ghost use Rattle.std.specs.Prelude.{◌≡◌};
ghost use Rattle.nr_command.specs.Count.{from_one};

use std::num::NonZeroU32;

/// Returns the number as a `NonZeroU32`, or `None` for 0.
pub fn from_one(number: u32) -> Option<NonZeroU32>
    ensures { result ≡ from_one number }
{
    NonZeroU32::new(number)
}
