//! A law that states the crate's limits. A law is a public function with an empty body; its
//! contract is the law.

ghost use Rattle.std.specs.Prelude.{◌≡◌};
ghost use Rattle.nr_walker.specs.declared.walker.TheConstants.{LEAST_DEPTH, MOST_DEPTH};

/// The maximum number of deltas that a walker keeps is from 1 to 65,536.
pub fn the_numbers()
    ensures least { LEAST_DEPTH ≡ 1 }
    ensures most { MOST_DEPTH ≡ 65536 }
{}
