//! Laws of streams: each is a public function with an empty body, and its contract is the law.

ghost use Rattle.std.specs.Prelude.{◌≡◌};
ghost use Rattle.nr_text.specs.declared.buffered.TheConstants.{ROOM};

/// Up to 512 bytes of a text are joined before they are written.
pub fn the_numbers()
    ensures room { ROOM ≡ 512 }
{}
