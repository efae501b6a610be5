// Footprints, by visiting every window.
ghost use Rattle.std.specs.Prelude.{◌≡◌, ◌≤◌, reverse, length};
ghost use Rattle.locality.specs.Log.{distinct, windows, total};

use crate::finds::is_held;
use keys::Key;

// The number of different keys. (As a chain with `filter` and `count`, the number stays open.)
pub fn distinct_keys<K: Key>(keys: &[K]) -> usize
    ensures slice { result ≡ distinct K.same keys.now }
    ensures log { result ≡ distinct K.same (reverse keys.now) }
    ensures bound { result ≤ length keys.now }
{
    let mut count = 0;
    for (i, key) in keys.iter().enumerate() {
        if !is_held(&keys[..i], key) {
            count += 1;
        }
    }
    count
}

// The footprint total of a window length, and the number of windows: 0 and 0 where it is longer than the burst.
pub fn footprint<K: Key>(keys: &[K], window: usize) -> (u128, u128)
    ensures total { result.0 ≡ total K.same window (reverse keys.now) }
    ensures windows { result.1 ≡ length (windows window (reverse keys.now)) }
{
    (footprint_total(keys, window), window_count(keys, window))
}

// The number of windows of a length. (`as` here and below: there is no `From` of a `usize` for a `u128`.)
fn window_count<K: Key>(keys: &[K], window: usize) -> u128
    ensures { result ≡ length (windows window (reverse keys.now)) }
{
    keys.len()
        .checked_sub(window)
        .map_or(0, |last| last as u128 + 1)
}

// The different keys of each window, counted afresh and added up. (As a chain with `map` and `sum`, bound and value
// stay open.)
fn footprint_total<K: Key>(keys: &[K], window: usize) -> u128
    ensures { result ≡ total K.same window (reverse keys.now) }
{
    // The slice's `windows` has none of length 0, and no key is in those.
    if window == 0 {
        return 0;
    }
    let mut sum = 0u128;
    for keys in keys.windows(window) {
        sum += distinct_keys(keys) as u128;
    }
    sum
}
