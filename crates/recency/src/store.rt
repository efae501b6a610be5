// What a recency store is.
ghost use Rattle.std.specs.Prelude.{◌≡◌, ℕ, ◌≤◌, true, List, [], length, is_err};
ghost use Rattle.locality.specs.declared.entry.Entry.{Entry};
ghost use Rattle.locality.specs.ByPosition.{key_at};
ghost use Rattle.recency.specs.Rules.{Kept, Touching, PuttingBack};

use keys::Key;
use locality::Entry;
use refusals::Refusal;

// A store means a list of entries, newest first, in a fixed number of places. What it answers, when it refuses and what
// becomes of its list is promised of a sound store under the premise of the call. Otherwise that is free, until the store
// is emptied. What limits it: every call ends, the number of places stays, a refused touch leaves the whole store as a
// value, and `empty` gives the empty, sound list. No call tells whether its premise held.
pub trait RecencyStore {
    type Key: Key;

    // The list, newest first.
    ghost entries: { Self → List (Entry Self.Key) };

    // The number of places.
    ghost room: { Self → ℕ };

    // It holds at least while every call since the store was last emptied kept its premise; who makes a store says whether
    // it holds at first.
    ghost sound: { Self → Type 0 };

    // The number of places.
    fn places(&self) -> u32
        ensures value { result ≡ room self.now }
        ensures most { result ≤ 4096 };

    // The number of entries. A sound store's list is as the rules keep it. (A clause of the calls and no law of the trait: a
    // law would ask it of values too that no store has, with numbers past their types.)
    fn held(&self) -> u32
        ensures count { sound self.now → result ≡ length (entries self.now) }
        ensures kept { sound self.now → Kept Self.Key.Key.same (room self.now) (entries self.now) };

    // The j-th entry, counted from 1; none outside the list.
    fn entry(&self, j: u32) -> Option<Entry<Self::Key>>
        ensures value { sound self.now → result ≡ key_at (entries self.now) j };

    // An access of the key at a time. A held key answers its depth and its former time, and its entry moves to the front
    // with the new time, its key as first stored. Another key, where a place is free, answers none, for "first", and its
    // entry goes in front; where none is free, it is refused with `NoPlace`, and nothing changes. The premise: a time from
    // 1 to 4,096, later than every entry's.
    fn touch(&mut self, key: Self::Key, time: u16) -> Result<Option<(u32, u16)>, Refusal>
        ensures rule { Touching Self.Key.Key.same key time (room self.old) (room self.new) (entries self.old) (entries self.new) (sound self.old) (sound self.new) result }
        ensures refusal { is_err result ≡ true → self.new ≡ self.old };

    // Takes the newest touch back. Given 0, after a first touch, the front entry goes (0 and no `Option`: times begin
    // at 1); given the former time that the touch answered, the front entry takes it and moves behind all entries with
    // later times. The premise: the list is not empty, and a time other than 0 is earlier than the front's and no entry
    // has it.
    fn put_back(&mut self, former: u16)
        ensures rule { PuttingBack Self.Key.Key.same former (room self.old) (room self.new) (entries self.old) (entries self.new) (sound self.old) (sound self.new) };

    // Removes every entry, whatever calls came before.
    fn empty(&mut self)
        ensures places { room self.new ≡ room self.old }
        ensures list { entries self.new ≡ [] }
        ensures sound { sound self.new };
}
