//! The places of deltas: the delta of the step after position k is at place k modulo `depth + 1`.

ghost use Rattle.std.specs.Prelude.{◌≡◌, ℕ, ◌<◌, ◌≤◌, ◌+◌, ◌-◌, ◌%◌, vec_capacity, vec_len};

use nr_rev::Worlds;

/// Adds places until there are `count`, without allocating memory. The new places contain deltas
/// that belong to no step.
pub(crate) fn make_places<W: Worlds>(places: &mut Vec<W::Delta>, count: usize)
where
    W::Delta: Drop,
    requires { count ≤ vec_capacity places.old }
    ensures made { count ≤ vec_len places.new }
    ensures room { vec_capacity places.new ≡ vec_capacity places.old }
{
    while places.len() < count {
        places.push_reserved(W::no_delta());
    }
}

/// Returns the place of the step after the one at this place.
#[inline(always)]
pub(crate) fn place_after(place: usize, depth: usize) -> usize
    ensures is { (position : ℕ) → place ≡ position % (depth + 1)
        → result ≡ (position + 1) % (depth + 1) }
    ensures near { result ≤ place + 1 }
{
    if place >= depth { 0 } else { place + 1 }
}

/// Returns the place of the step before the one at this place.
#[inline(always)]
pub(crate) fn place_before(place: usize, depth: usize) -> usize
    ensures { (position : ℕ) → 0 < position → place ≡ position % (depth + 1)
        → result ≡ (position - 1) % (depth + 1) }
{
    if place == 0 { depth } else { place - 1 }
}
