// Intervals and distances, by looking back from a position.
ghost use Rattle.std.specs.Prelude.{◌≡◌, reverse};
ghost use Rattle.locality.specs.Calls.{interval_answer, distance_answer};

use crate::position::Position;
use keys::Key;
use refusals::Refusal;

// The interval of a position, counted from 1: none at a first access.
pub fn interval<K: Key>(keys: &[K], position: usize) -> Result<Option<usize>, Refusal>
    ensures { result ≡ interval_answer K.same position (reverse keys.now) }
{
    Ok(Position::of(keys, position)?.interval())
}

// The distance of a position, its own key counted: none at a first access.
pub fn distance<K: Key>(keys: &[K], position: usize) -> Result<Option<usize>, Refusal>
    ensures { result ≡ distance_answer K.same position (reverse keys.now) }
{
    Ok(Position::of(keys, position)?.distance())
}
