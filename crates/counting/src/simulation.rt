// The misses of an LRU cache, by simulating it.
ghost use Rattle.std.specs.Prelude.{◌≡◌, ◌+◌, ◌<◌, ◌≤◌, ◌∷◌, ◌++◌, reverse, length, take, drop, slice_index_or};
ghost use Rattle.locality.specs.Cache.{misses};
ghost use Rattle.counting.specs.Memory.{memory_after};

use crate::finds::find;
use keys::Key;

// The misses of a cache with as many places as the slice has, empty at the start. The slice is the cache's memory: it
// then holds the keys of the cache, the newest first, and behind them what it held before. (A loop: a proof knows
// nothing of a cache that a closure changes.)
pub fn lru_misses<K: Key>(keys: &[K], places: &mut [K]) -> usize
    ensures misses { result ≡ misses K.same (length places.old) (reverse keys.now) }
    ensures places { places.new ≡ memory_after K.same keys.now places.old }
{
    let mut cache = Cache { places, count: 0 };
    let mut missed = 0;
    for key in keys {
        if !cache.access(key) {
            missed += 1;
        }
    }
    missed
}

// A cache: its keys stand in the first `count` places of a lent slice, the newest first. (A slice and a count and no `Vec`:
// the memory is the caller's, so that counting misses cannot fail.)
#[derive(Drop)]
struct Cache<'a, K> {
    places: &'a mut [K],
    count: usize,
    ghost within: { count ≤ length places.now },
}

impl<'a, K: Key> Cache<'a, K> {
    ghost use Rattle.std.specs.Prelude.{◌≡◌, ◌∷◌, length, take};
    ghost use Rattle.std.specs.List.{position};
    ghost use Rattle.locality.specs.Log.{held};
    ghost use Rattle.locality.specs.Cache.{accessed};
    ghost use Rattle.locality.specs.Slices.{in_front};
    ghost use Rattle.counting.specs.InCache.{in_cache};

    // One access: whether it hits.
    fn access(&mut self, key: &K) -> bool
        ensures hit { result ≡ held K.Key.same key.now (in_cache self.old) }
        ensures keys { in_cache self.new ≡ accessed K.Key.same (length self.old.places.now) key.now (in_cache self.old) }
        ensures places { self.new.places.now ≡ in_front (in_cache self.new) self.old.places.now }
        ensures lent { self.new.places.ghost_name ≡ self.old.places.ghost_name }
    {
        match self.find(key) {
            Some(at) => {
                bring_forward(self.places, at);
                true
            }
            None => {
                self.admit(key);
                false
            }
        }
    }

    // The place of the same key, counted from 0.
    fn find(&self, key: &K) -> Option<usize>
        ensures { result ≡ position (λ x. K.Key.same key.now x) (in_cache self.now) }
    {
        find(&self.places[..self.count], key)
    }

    // A miss: the key goes to the front, and the last key falls out where every place is taken.
    fn admit(&mut self, key: &K)
        ensures keys { in_cache self.new ≡ take (length self.old.places.now) (key.now ∷ in_cache self.old) }
        ensures places { self.new.places.now ≡ in_front (in_cache self.new) self.old.places.now }
        ensures lent { self.new.places.ghost_name ≡ self.old.places.ghost_name }
    {
        let Some(end) = self.places.len().checked_sub(1) else {
            return;
        };
        let last = self.count.min(end);
        bring_forward(self.places, last);
        self.places[0] = *key;
        self.count = last + 1;
    }
}

// Moves one key to the front, behind which the ones that stood before it follow.
fn bring_forward<K: Key>(places: &mut [K], at: usize)
    requires { at < length places.old }
    ensures { (d : K) → places.new ≡ slice_index_or places.old at d ∷ (take at places.old ++ drop (at + 1) places.old) }
{
    places[..=at].rotate_right(1);
}
