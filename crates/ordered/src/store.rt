// The ordered store.
ghost use Rattle.std.specs.Prelude.{◌≤◌};
ghost use Rattle.recency.specs.Rules.{places_in};

use crate::moves::{admit, later_ones, lower, remove, renew};
use keys::Key;
use locality::Entry;
use recency::{RecencyStore, places_in};
use refusals::Refusal;

// A store over a slice that the caller provides. Its list stands in the first `count` slots, newest first. (A slice and
// a count and no `Vec`: the memory is the caller's, and a store allocates nothing.)
#[derive(Drop)]
pub struct Ordered<'a, K> {
    slots: &'a mut [Entry<K>],
    count: usize,

    // No more entries than places.
    ghost fits: { count ≤ places_in slots.now },
}

impl<'a, K: Key> Ordered<'a, K> {
    ghost use Rattle.std.specs.Prelude.{◌≡◌, ◌<◌, [], length, None, Some, Ok, nat_eq};
    ghost use Rattle.std.specs.List.{position};
    ghost use Rattle.ordered.specs.Shown.{ordered_places, ordered_list, ordered_sound, OrderedRule, OrderedBackRule, OrderedTouch, OrderedBack};

    // A store with an empty list, over any slice: its length, at most 4,096, is the number of places. The slice is not
    // written, and the caller's slice is what the store leaves when it is done.
    pub fn new(slots: &'a mut [Entry<K>]) -> Self
        ensures places { ordered_places result ≡ places_in slots.old }
        ensures list { ordered_list result ≡ [] }
        ensures sound { ordered_sound K.Key.same result }
        ensures slots { result.slots.now ≡ slots.old }
        ensures callers { result.slots.ghost_name ≡ slots.entry.ghost_name }
    {
        Ordered { slots, count: 0 }
    }

    // The list.
    fn list(&self) -> &[Entry<K>]
        ensures { result.now ≡ ordered_list self.now }
    {
        &self.slots[..self.count]
    }

    // The index of the first entry with the same key. (Not inlined: amid the rest of a touch each turn of the loop takes a
    // quarter more instructions.)
    #[inline(never)]
    fn find(&self, key: &K) -> Option<usize>
        ensures { result ≡ position (λ e. K.Key.same key.now e.key) (ordered_list self.now) }
    {
        self.list().iter().position(|entry| key.same_as(&entry.key))
    }

    // Whether every place is taken.
    fn is_full(&self) -> bool
        ensures { result ≡ nat_eq (length (ordered_list self.now)) (ordered_places self.now) }
    {
        self.held() == self.places()
    }

    // A touch of the key that the entry at `at` has.
    fn touch_held(&mut self, at: usize, key: K, time: u16) -> (u32, u16)
        requires { position (λ e. K.Key.same key e.key) (ordered_list self.old) ≡ Some at }
        ensures rule { OrderedRule K.Key.same key time self.old self.new (Ok (Some result)) }
        ensures always { OrderedTouch K.Key.same key time self.old self.new (Ok (Some result)) }
    {
        renew(self.slots, at, key, time)
    }

    // A touch of a key that no entry has.
    fn touch_other(&mut self, key: K, time: u16)
        requires absent { position (λ e. K.Key.same key e.key) (ordered_list self.old) ≡ None }
        requires free { length (ordered_list self.old) < ordered_places self.old }
        ensures rule { OrderedRule K.Key.same key time self.old self.new (Ok None) }
        ensures always { OrderedTouch K.Key.same key time self.old self.new (Ok None) }
    {
        self.count = admit(self.slots, self.count, key, time);
    }

    // A put back. (It has the contract of the public method: with an attribute that names the lemmas the proof of that
    // one is not found, and by hand it would hide a wrong body.)
    fn take_back(&mut self, former: u16)
        ensures rule { OrderedBackRule K.Key.same former self.old self.new }
        ensures always { OrderedBack former self.old self.new }
    {
        let &[front, ref behind @ ..] = self.list() else {
            return;
        };
        if former == 0 {
            self.count = remove(self.slots, self.count);
            return;
        }
        let at = later_ones(behind, former);
        lower(self.slots, at, front, former);
    }
}

// The clauses named `always` and `slice` hold whatever calls came before: this store follows the rules outside the
// premises too, though it may lose its soundness there.
impl<'a, K: Key> RecencyStore for Ordered<'a, K> {
    ghost use Rattle.std.specs.Prelude.{◌≡◌, true, [], length, is_err};
    ghost use Rattle.locality.specs.ByPosition.{key_at};
    ghost use Rattle.ordered.specs.Shown.{ordered_places, ordered_list, ordered_sound, OrderedRule, OrderedBackRule, InCallersSlice, OrderedTouch, OrderedBack};

    type Key = K;

    ghost entries = { ordered_list };

    ghost room = { ordered_places };

    ghost sound = { ordered_sound K.Key.same };

    // At most 4,096, so `as` keeps the number here and in `held`; `try_from` would add a branch for what cannot be.
    fn places(&self) -> u32 {
        places_in(self.slots) as u32
    }

    fn held(&self) -> u32
        ensures count { ordered_sound K.Key.same self.now → result ≡ length (ordered_list self.now) }
        ensures kept { ordered_sound K.Key.same self.now → ordered_sound K.Key.same self.now }
        ensures always { result ≡ length (ordered_list self.now) }
    {
        self.count as u32
    }

    // `as`: there is no `From` of a `u32` for a `usize`, which holds every one.
    fn entry(&self, j: u32) -> Option<Entry<K>>
        ensures value { ordered_sound K.Key.same self.now → result ≡ key_at (ordered_list self.now) j }
        ensures always { result ≡ key_at (ordered_list self.now) j }
    {
        self.list().get(j.checked_sub(1)? as usize).copied()
    }

    #[tactic(auto, using(crate::proofs::Calls::no_room, std::proofs::lemmas::Grind::common_steps))]
    fn touch(&mut self, key: K, time: u16) -> Result<Option<(u32, u16)>, Refusal>
        ensures rule { OrderedRule K.Key.same key time self.old self.new result }
        ensures refusal { is_err result ≡ true → self.new ≡ self.old }
        ensures always { OrderedTouch K.Key.same key time self.old self.new result }
    {
        match self.find(&key) {
            Some(at) => Ok(Some(self.touch_held(at, key, time))),
            None if self.is_full() => Err(Refusal::NoPlace),
            None => {
                self.touch_other(key, time);
                Ok(None)
            }
        }
    }

    fn put_back(&mut self, former: u16)
        ensures rule { OrderedBackRule K.Key.same former self.old self.new }
        ensures always { OrderedBack former self.old self.new }
    {
        self.take_back(former);
    }

    fn empty(&mut self)
        ensures places { ordered_places self.new ≡ ordered_places self.old }
        ensures list { ordered_list self.new ≡ [] }
        ensures sound { ordered_sound K.Key.same self.new }
        ensures slice { InCallersSlice self.old self.new }
    {
        self.count = 0;
    }
}
