// What is written in a caller's slots. An entry is rewritten whole, and a call writes one at most, but to free every place.
ghost use Rattle.std.specs.Prelude.{◌≡◌, ◌+◌, ◌<◌, ◌≤◌, [], length, map, None, Some, slice_set};
ghost use Rattle.std.specs.List.{slice_get};
ghost use Rattle.locality.specs.declared.entry.Entry.{Entry};
ghost use Rattle.locality.specs.Numbers.{count_above};
ghost use Rattle.locality.specs.Recency.{at_time, times_of};
ghost use Rattle.recency.specs.Rules.{places_in};
ghost use Rattle.unordered.specs.Shown.{in_places, list_in, KeptIn, freed, SlotsRule, SlotsBackRule, TouchedSlots, PutBackSlots};

use crate::scans::{in_places, later_than, latest, place_for};
use keys::Key;
use locality::Entry;
use recency::{places_in, touched_entry};
use refusals::Refusal;

// Frees every place; the slots past the places are not written.
pub(crate) fn free_all<K: Key>(slots: &mut [Entry<K>])
    ensures slots { slots.new ≡ freed slots.old }
    ensures places { places_in slots.new ≡ places_in slots.old }
    ensures list { list_in slots.new ≡ [] }
    ensures sound { KeptIn K.same slots.new }
{
    let n = places_in(slots);
    free(&mut slots[..n]);
}

// Frees every slot.
fn free<K: Copy>(slots: &mut [Entry<K>])
    ensures { slots.new ≡ map (λ e. at_time e.key 0) slots.old }
{
    for slot in slots.iter_mut() {
        *slot = Entry { time: 0, ..*slot };
    }
}

// A touch of a place: its entry takes the time, or, if it is free, the place takes the key and the time. Answers the depth
// and the former time of an entry, or none.
fn touch_place<K: Key>(slots: &mut [Entry<K>], at: usize, key: K, time: u16) -> Option<(u32, u16)>
    requires { at < length slots.old }
    ensures first { (x : Entry K) → slice_get slots.old at ≡ Some x → x.time ≡ 0 → (result ≡ None) × (slots.new ≡ slice_set slots.old at (at_time key time)) }
    ensures again { (x : Entry K) → slice_get slots.old at ≡ Some x → 1 ≤ x.time → (result ≡ Some (count_above x.time (times_of (in_places slots.old)) + 1, x.time)) × (slots.new ≡ slice_set slots.old at (at_time x.key time)) }
{
    let stored = slots[at];
    if stored.time == 0 {
        slots[at] = touched_entry(None, key, time);
        return None;
    }
    let depth = later_than(in_places(slots), stored.time) + 1;
    slots[at] = touched_entry(Some(stored), key, time);
    Some((depth, stored.time))
}

// A touch: of the place that holds the key, or else of a free one. (It has the contract of the public method, over slots:
// with an attribute that names the lemma the proof of that one is not found, and by hand it would hide a wrong body.)
pub(crate) fn touch_slot<K: Key>(
    slots: &mut [Entry<K>],
    key: K,
    time: u16,
) -> Result<Option<(u32, u16)>, Refusal>
    ensures rule { SlotsRule K.same key time slots.old slots.new result }
    ensures slots { TouchedSlots K.same key time slots.old slots.new result }
{
    let Some(at) = place_for(slots, &key) else {
        return Err(Refusal::NoPlace);
    };
    Ok(touch_place(slots, at, key, time))
}

// A put back: a place with the latest time takes the time given, by which 0 frees it. (Its contract, too, is the
// public method's, over slots, and for the same reason.)
pub(crate) fn take_back<K: Key>(slots: &mut [Entry<K>], former: u16)
    ensures rule { SlotsBackRule K.same former slots.old slots.new }
    ensures slots { PutBackSlots former slots.old slots.new }
{
    if let Some(at) = latest(in_places(slots)) {
        lower(slots, at, former);
    }
}

// The entry in a slot takes a time, by which 0 frees it; its key stays.
fn lower<K: Copy>(slots: &mut [Entry<K>], at: usize, former: u16)
    requires { at < length slots.old }
    ensures { (x : Entry K) → slice_get slots.old at ≡ Some x → slots.new ≡ slice_set slots.old at (at_time x.key former) }
{
    slots[at] = Entry {
        time: former,
        ..slots[at]
    };
}
