// Looking for a key in a slice.
ghost use Rattle.std.specs.Prelude.{◌≡◌};
ghost use Rattle.std.specs.List.{position};
ghost use Rattle.locality.specs.Log.{held};
ghost use Rattle.counting.specs.Finds.{IsLast};

use keys::Key;

// The index of the first same key.
pub(crate) fn find<K: Key>(keys: &[K], key: &K) -> Option<usize>
    ensures { result ≡ position (λ x. K.same key.now x) keys.now }
{
    keys.iter().position(|other| key.same_as(other))
}

// Whether the slice has a same key. (A loop: `any` takes longer where a search ends soon.)
pub(crate) fn is_held<K: Key>(keys: &[K], key: &K) -> bool
    ensures { result ≡ held K.same key.now keys.now }
{
    for other in keys {
        if key.same_as(other) {
            return true;
        }
    }
    false
}

// The index of the last same key.
pub(crate) fn last_same<K: Key>(keys: &[K], key: &K) -> Option<usize>
    ensures { IsLast (λ x. K.same key.now x) keys.now result }
{
    keys.iter().rposition(|other| key.same_as(other))
}
