// Entries of a recency list.
ghost use Rattle.std.specs.Prelude.{◌≡◌};
ghost use Rattle.locality.specs.Recency.{at_time};
ghost use Rattle.recency.specs.Rules.{stored_or};

use keys::Key;
use locality::Entry;

// The entry that a touch leaves in front: the key as it is stored, or the one asked for where none is, at the new time.
pub fn touched_entry<K: Key>(stored: Option<Entry<K>>, key: K, time: u16) -> Entry<K>
    ensures { result ≡ at_time (stored_or stored key) time }
{
    Entry {
        key: stored.map_or(key, |entry| entry.key),
        time,
    }
}
