//! The versions of the format, and what the lines of each may contain.

ghost use Rattle.std.specs.Prelude.{◌≡◌};

use nr_rev::{Kind, MOST_BUFFER};

/// The maximum `buf` in version 1.
pub(crate) const MOST_BUFFER_IN_ONE: u32 = 65_536;

/// A version of the format.
#[derive(Clone, Copy, Debug, PartialEq, Eq)]
pub enum Version {
    /// Steps without answers. No step shuts a write side, and `buf` is at most 65,536.
    One,
    /// Each step ends with its recorded answer. `buf` is at most 1,048,576.
    Two,
}

impl Version {
    ghost use Rattle.nr_recording.specs.Version.{version_numbered, most_buffer, has_kind, kind_in};
    ghost use Rattle.nr_recording.specs.Auxiliary.Version.{version_number, answer_count};

    /// Returns the version with this number, if any.
    pub(crate) fn numbered(number: u64) -> Option<Self>
        ensures { result ≡ version_numbered number }
    {
        match number {
            1 => Some(Version::One),
            2 => Some(Version::Two),
            _ => None,
        }
    }

    /// Returns the version's number in the header.
    pub(crate) fn number(self) -> u32
        ensures { result ≡ version_number self }
    {
        match self {
            Version::One => 1,
            Version::Two => 2,
        }
    }

    /// Returns the maximum `buf` that a header may have.
    pub(crate) fn most_buffer(self) -> u32
        ensures { result ≡ most_buffer self }
    {
        match self {
            Version::One => MOST_BUFFER_IN_ONE,
            Version::Two => MOST_BUFFER,
        }
    }

    /// Returns whether the version has steps of this kind.
    pub(crate) fn has(self, kind: Kind) -> bool
        ensures { result ≡ has_kind self kind }
    {
        match self {
            Version::One => !matches!(kind, Kind::CloseWrite),
            Version::Two => true,
        }
    }

    /// Returns the kind with this name, if the version has it.
    #[tactic(auto, unfolding(crate::specs::Version::kind_in))]
    pub(crate) fn kind(self, name: &[u8]) -> Option<Kind>
        ensures { result ≡ kind_in self name.now }
    {
        let kind = Kind::named(name)?;
        if self.has(kind) { Some(kind) } else { None }
    }

    /// Returns the number of answers for this many steps.
    pub(crate) fn answer_count(self, steps: usize) -> usize
        ensures { result ≡ answer_count self steps }
    {
        match self {
            Version::One => 0,
            Version::Two => steps,
        }
    }
}
