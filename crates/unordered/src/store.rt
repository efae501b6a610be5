// The unordered store.
ghost use Rattle.std.specs.Prelude.{◌≡◌, true, [], length, is_err};
ghost use Rattle.locality.specs.ByPosition.{key_at};
ghost use Rattle.recency.specs.Rules.{places_in};
ghost use Rattle.recency.specs.ByTime.{SortedByTime};
ghost use Rattle.unordered.specs.Shown.{in_places, held_in, unordered_places, unordered_list, unordered_sound, UnorderedRule, UnorderedBackRule, freed, TouchedSlots, RankedIn, PutBackSlots};

use crate::scans::{in_places, later_than, ranked};
use crate::writes::{free_all, take_back, touch_slot};
use keys::Key;
use locality::Entry;
use recency::{RecencyStore, places_in};
use refusals::Refusal;

// A store over a slice that the caller provides. An entry stays in the slot that it took; a time of 0 marks a free
// slot, since the slots are the caller's entries, each rewritten whole. (No `Vec`: the memory is the caller's, and a
// store allocates nothing.)
#[derive(Drop)]
pub struct Unordered<'a, K> {
    slots: &'a mut [Entry<K>],
}

impl<'a, K: Key> Unordered<'a, K> {
    // A store with an empty list, over any slice: its length, at most 4,096, is the number of places. Every place is freed,
    // and the slots past the places are not written. The caller's slice is what the store leaves when it is done.
    pub fn new(slots: &'a mut [Entry<K>]) -> Self
        ensures places { unordered_places result ≡ places_in slots.old }
        ensures list { unordered_list result ≡ [] }
        ensures sound { unordered_sound K.Key.same result }
        ensures slots { result.slots.now ≡ freed slots.old }
        ensures callers { result.slots.ghost_name ≡ slots.entry.ghost_name }
    {
        free_all(slots);
        Unordered { slots }
    }
}

// The clauses named `always`, `sorted`, `slots` and `callers` hold whatever calls came before. Outside the premises the
// list is free, limited by what the slots then hold. Which free slot a first touch takes is free at all times, and so is
// which of several slots is taken that have one key, or the latest time, or one rank, as can be outside the premises.
// (`callers` compares a store before and after a call, which no invariant can.)
impl<'a, K: Key> RecencyStore for Unordered<'a, K> {
    type Key = K;

    ghost entries = { unordered_list };

    ghost room = { unordered_places };

    ghost sound = { unordered_sound K.Key.same };

    // At most 4,096, so `as` keeps the number.
    fn places(&self) -> u32 {
        places_in(self.slots) as u32
    }

    #[tactic(auto, using(crate::proofs::Slots::count_held, recency::proofs::ByTime::length_by_time))]
    fn held(&self) -> u32
        ensures count { unordered_sound K.Key.same self.now → result ≡ length (unordered_list self.now) }
        ensures kept { unordered_sound K.Key.same self.now → unordered_sound K.Key.same self.now }
        ensures always { result ≡ length (unordered_list self.now) }
        ensures sorted { SortedByTime (held_in (in_places self.now.slots.now)) (unordered_list self.now) }
    {
        later_than(in_places(self.slots), 0)
    }

    #[tactic(auto, using(crate::proofs::Slots::ranked_is))]
    fn entry(&self, j: u32) -> Option<Entry<K>>
        ensures value { unordered_sound K.Key.same self.now → result ≡ key_at (unordered_list self.now) j }
        ensures slots { RankedIn j (in_places self.now.slots.now) result }
    {
        ranked(in_places(self.slots), j)
    }

    fn touch(&mut self, key: K, time: u16) -> Result<Option<(u32, u16)>, Refusal>
        ensures rule { UnorderedRule K.Key.same key time self.old self.new result }
        ensures refusal { is_err result ≡ true → self.new ≡ self.old }
        ensures slots { TouchedSlots K.Key.same key time self.old.slots.now self.new.slots.now result }
        ensures callers { self.new.slots.ghost_name ≡ self.old.slots.ghost_name }
    {
        touch_slot(self.slots, key, time)
    }

    fn put_back(&mut self, former: u16)
        ensures rule { UnorderedBackRule K.Key.same former self.old self.new }
        ensures slots { PutBackSlots former self.old.slots.now self.new.slots.now }
        ensures callers { self.new.slots.ghost_name ≡ self.old.slots.ghost_name }
    {
        take_back(self.slots, former);
    }

    fn empty(&mut self)
        ensures places { unordered_places self.new ≡ unordered_places self.old }
        ensures list { unordered_list self.new ≡ [] }
        ensures sound { unordered_sound K.Key.same self.new }
        ensures slots { self.new.slots.now ≡ freed self.old.slots.now }
        ensures callers { self.new.slots.ghost_name ≡ self.old.slots.ghost_name }
    {
        free_all(self.slots);
    }
}
