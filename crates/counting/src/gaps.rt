// Gap counts, by going through every position.
ghost use Rattle.std.specs.Prelude.{◌≡◌, reverse};
ghost use Rattle.locality.specs.Log.{gap_count};

use crate::position::Position;
use keys::Key;

// The gap count of an entry: the gaps of that size, at all positions. (The loop goes over positions, which are numbers from
// 1, and not over indices.)
pub fn gap_count<K: Key>(keys: &[K], size: usize) -> u128
    ensures { result ≡ gap_count K.same size (reverse keys.now) }
{
    let mut count = 0u128;
    for at in 1..=keys.len() {
        count += u128::from(Position { keys, at }.share(size));
    }
    count
}
