//! Worlds that know what a step touches.

ghost use Rattle.std.specs.Prelude.{◌≡◌};
ghost use Rattle.nr_changes.specs.Touched.{touched};

use crate::touched::Touched;
use nr_rev::{Step, Worlds};

/// A world that knows what a step touches before applying it.
pub trait TouchesCells: Worlds {
    /// Returns what a step touches in this world, whether it applies or not.
    fn touched(&self, step: &Step) -> Touched
        requires { Self.is_well_formed self.now }
        ensures { result ≡ touched (Self.world self.now) step.now };
}
