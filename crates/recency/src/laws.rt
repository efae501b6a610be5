// What holds of every store that keeps its meaning, from the trait alone. As in the trait, what is told of the answer and
// the list holds of a sound store under the premise of a touch, and is free otherwise. Clauses that several functions have
// compare a store before a call with the store after it, which no invariant can.
ghost use Rattle.std.specs.Prelude.{◌≡◌, true, ◌&&◌, ◌||◌, [], is_err};
ghost use Rattle.locality.specs.Log.{held};
ghost use Rattle.locality.specs.Recency.{former_time, keys};
ghost use Rattle.recency.specs.Rules.{has_room, touch_answer, touch_list, Later, Touching, TouchUndone, RulesKeepLists};

use crate::store::RecencyStore;
use keys::Key;
use refusals::Refusal;

// What a touch would answer: a put back of the former time after it gives the former list.
pub fn peek<S: RecencyStore>(
    store: &mut S,
    key: S::Key,
    time: u16,
) -> Result<Option<(u32, u16)>, Refusal>
    ensures places { S.room store.new ≡ S.room store.old }
    ensures refusal { is_err result ≡ true → store.new ≡ store.old }
    ensures undone { S.sound store.old → Later time (S.entries store.old) → (result ≡ touch_answer S.Key.Key.same (S.room store.old) key (S.entries store.old)) × (S.entries store.new ≡ S.entries store.old) × S.sound store.new }
    ensures law { TouchUndone S.Key.Key.same }
{
    touch_and_back(store, key, time)
}

// A touch, and at once its put back. (It has the contract of `peek`: with an attribute that names the lemma its proof is not
// found, and by hand it would hide a wrong body.)
fn touch_and_back<S: RecencyStore>(
    store: &mut S,
    key: S::Key,
    time: u16,
) -> Result<Option<(u32, u16)>, Refusal>
    ensures places { S.room store.new ≡ S.room store.old }
    ensures refusal { is_err result ≡ true → store.new ≡ store.old }
    ensures undone { S.sound store.old → Later time (S.entries store.old) → (result ≡ touch_answer S.Key.Key.same (S.room store.old) key (S.entries store.old)) × (S.entries store.new ≡ S.entries store.old) × S.sound store.new }
    ensures law { TouchUndone S.Key.Key.same }
{
    let answer = store.touch(key, time)?;
    store.put_back(former_time(answer));
    Ok(answer)
}

// The time to put back after a touch that answered this: 0, as a put back takes it, after a first touch.
fn former_time(answer: Option<(u32, u16)>) -> u16
    ensures { result ≡ former_time answer }
{
    answer.map_or(0, |(_, former)| former)
}

// A touch. A key is then held if it was before, or if it is the one touched and that was not refused.
#[tactic(auto, using(crate::proofs::Keeps::touch_held))]
pub fn touch_keeping<S: RecencyStore>(
    store: &mut S,
    key: S::Key,
    time: u16,
) -> Result<Option<(u32, u16)>, Refusal>
    ensures rule { Touching S.Key.Key.same key time (S.room store.old) (S.room store.new) (S.entries store.old) (S.entries store.new) (S.sound store.old) (S.sound store.new) result }
    ensures refusal { is_err result ≡ true → store.new ≡ store.old }
    ensures keeps { S.sound store.old → Later time (S.entries store.old) → (x : S.Key) → held S.Key.Key.same x (keys (S.entries store.new)) ≡ (held S.Key.Key.same x (keys (S.entries store.old)) || (has_room S.Key.Key.same (S.room store.old) key (S.entries store.old) && S.Key.Key.same x key)) }
{
    store.touch(key, time)
}

// The first touch of a store that is emptied, whatever state it comes in: no premise is left to keep.
pub fn first_touch<S: RecencyStore>(
    store: &mut S,
    key: S::Key,
) -> Result<Option<(u32, u16)>, Refusal>
    ensures places { S.room store.new ≡ S.room store.old }
    ensures answer { result ≡ touch_answer S.Key.Key.same (S.room store.old) key [] }
    ensures list { S.entries store.new ≡ touch_list S.Key.Key.same (S.room store.old) key 1 [] }
    ensures sound { S.sound store.new }
{
    store.empty();
    store.touch(key, 1)
}

// The rules keep every list in recency order, each key once, within its places.
#[tactic(auto, using(crate::proofs::Keeps::keep_lists))]
pub fn rules_keep_lists<K: Key>()
    ensures { RulesKeepLists K.same }
{}
