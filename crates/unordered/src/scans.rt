// What is read in a caller's slots, of which the first 4,096 are places. A time of 0 marks a free slot.
ghost use Rattle.std.specs.Prelude.{◌≡◌, ◌≢◌, ◌<◌, ◌≤◌, position, IfSome, All, None, length, slice_index_or};
ghost use Rattle.locality.specs.declared.entry.Entry.{Entry};
ghost use Rattle.locality.specs.Numbers.{count_above};
ghost use Rattle.locality.specs.Recency.{times_of};
ghost use Rattle.recency.specs.Rules.{places_in};
ghost use Rattle.unordered.specs.Shown.{in_places, holds, is_free, place_for, RankedIn};

use keys::Key;
use locality::Entry;
use recency::places_in;

// The slots that are places: what is read is read in them.
pub(crate) fn in_places<K>(slots: &[Entry<K>]) -> &[Entry<K>]
    ensures slots { result.now ≡ in_places slots.now }
    ensures places { length result.now ≡ places_in slots.now }
{
    &slots[..places_in(slots)]
}

// The first of the places that holds the key.
fn holding<K: Key>(places: &[Entry<K>], key: &K) -> Option<usize>
    ensures { result ≡ position (holds K.same key.now) places.now }
{
    places
        .iter()
        .position(|e| e.time > 0 && key.same_as(&e.key))
}

// The first of them that is free.
fn vacant<K>(places: &[Entry<K>]) -> Option<usize>
    ensures { result ≡ position is_free places.now }
{
    places.iter().position(|e| e.time == 0)
}

// The place that a touch of the key takes: the first that holds the key, else the first free one.
pub(crate) fn place_for<K: Key>(slots: &[Entry<K>], key: &K) -> Option<usize>
    ensures { result ≡ place_for K.same key.now slots.now }
{
    let places = in_places(slots);
    holding(places, key).or_else(|| vacant(places))
}

// How many entries have later times. (At most as many as a store has places, so that the sum fits.)
#[tactic(auto, using(crate::proofs::Places::later_counted))]
pub(crate) fn later_than<K>(places: &[Entry<K>], time: u16) -> u32
    requires { length places.now ≤ 4096 }
    ensures count { result ≡ count_above time (times_of places.now) }
    ensures most { result ≤ length places.now }
{
    places.iter().map(|e| u32::from(e.time > time)).sum()
}

// The first place with the latest time, if one is taken.
pub(crate) fn latest<K>(places: &[Entry<K>]) -> Option<usize>
    ensures within { IfSome result (λ i. i < length places.now) }
    ensures taken { IfSome result (λ i. (d : Entry K) → 1 ≤ (slice_index_or places.now i d).time) }
    ensures latest { IfSome result (λ i. (d : Entry K) → All (λ e. e.time ≤ (slice_index_or places.now i d).time) places.now) }
    ensures none { result ≡ None → All (λ e. e.time ≡ 0) places.now }
{
    let time = latest_time(places);
    if time == 0 {
        return None;
    }
    places.iter().position(|e| e.time == time)
}

// The latest time; 0 where no place is taken.
fn latest_time<K>(places: &[Entry<K>]) -> u16
    ensures most { All (λ e. e.time ≤ result) places.now }
    ensures reached { All (λ e. e.time ≢ result) places.now → result ≡ 0 }
{
    places.iter().fold(0, |time, e| e.time.max(time))
}

// A held entry with j − 1 later times; none where there is none.
pub(crate) fn ranked<K: Copy>(places: &[Entry<K>], j: u32) -> Option<Entry<K>>
    requires { length places.now ≤ 4096 }
    ensures { RankedIn j places.now result }
{
    places
        .iter()
        .find(|e| e.time > 0 && later_than(places, e.time) + 1 == j)
        .copied()
}
