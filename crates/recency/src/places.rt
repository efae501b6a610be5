// The places of a slice that a store is made over.
ghost use Rattle.std.specs.Prelude.{◌≡◌};
ghost use Rattle.recency.specs.Rules.{places_in};

// The most places of a store.
pub const MOST_PLACES: usize = 4096;

// The number of places in a slice: its length, at most 4,096.
pub fn places_in<T>(slots: &[T]) -> usize
    ensures { result ≡ places_in slots.now }
{
    slots.len().min(MOST_PLACES)
}
