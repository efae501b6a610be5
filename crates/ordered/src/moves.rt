// Moves of entries within a slice. (Each asks for an index within it: a struct of slice and index would be made for one
// call. `admit` and `remove` answer the new number of entries, so that a wrong one breaks their contracts.)
ghost use Rattle.std.specs.Prelude.{◌≡◌, ◌+◌, ◌-◌, ◌<◌, ◌≤◌, ◌∷◌, ◌++◌, length, take, drop, nat_le, slice_index_or};
ghost use Rattle.locality.specs.declared.entry.Entry.{Entry};
ghost use Rattle.std.specs.List.{position_or_len};
ghost use Rattle.locality.specs.Recency.{at_time};

use keys::Key;
use locality::Entry;
use recency::touched_entry;

// The entry stored at `at` goes to the front with a new time. Answers its depth and its former time. (At most 4,096, so
// `as` keeps the number.)
pub(crate) fn renew<K: Key>(slots: &mut [Entry<K>], at: usize, key: K, time: u16) -> (u32, u16)
    requires inside { at < length slots.old }
    requires depth { at < 4096 }
    ensures told { (d : Entry K) → result ≡ (at + 1, (slice_index_or slots.old at d).time) }
    ensures slots { (d : Entry K) → slots.new ≡ at_time (slice_index_or slots.old at d).key time ∷ (take at slots.old ++ drop (at + 1) slots.old) }
{
    let stored = slots[at];
    shift_in(slots, at, touched_entry(Some(stored), key, time));
    (at as u32 + 1, stored.time)
}

// A new entry goes in front of those that are held. Answers how many are held then.
pub(crate) fn admit<K: Key>(slots: &mut [Entry<K>], held: usize, key: K, time: u16) -> usize
    requires { held < length slots.old }
    ensures count { result ≡ held + 1 }
    ensures slots { slots.new ≡ at_time key time ∷ (take held slots.old ++ drop (held + 1) slots.old) }
{
    shift_in(slots, held, touched_entry(None, key, time));
    held + 1
}

// The front entry goes, and the others move up; the slot of the last keeps what it held. Answers how many are left.
pub(crate) fn remove<K: Copy>(slots: &mut [Entry<K>], held: usize) -> usize
    requires some { 0 < held }
    requires inside { held ≤ length slots.old }
    ensures count { result ≡ held - 1 }
    ensures slots { slots.new ≡ take (held - 1) (drop 1 slots.old) ++ drop (held - 1) slots.old }
{
    shift_out(slots, held - 1);
    held - 1
}

// How many entries at the front have later times. No binary search: times need not fall in a store that is not sound.
pub(crate) fn later_ones<K>(entries: &[Entry<K>], time: u16) -> usize
    ensures count { result ≡ position_or_len (λ e. nat_le e.time time) entries.now }
    ensures within { result ≤ length entries.now }
{
    entries.iter().take_while(|entry| entry.time > time).count()
}

// The front entry takes an earlier time and goes behind the `n` entries that follow it.
pub(crate) fn lower<K: Copy>(slots: &mut [Entry<K>], n: usize, front: Entry<K>, former: u16)
    requires { n < length slots.old }
    ensures { slots.new ≡ take n (drop 1 slots.old) ++ at_time front.key former ∷ drop (n + 1) slots.old }
{
    let lowered = Entry {
        time: former,
        ..front
    };
    sink(slots, n, lowered);
}

// The entry goes to the front, and the first `n` entries one slot towards the end, over the one behind them.
fn shift_in<K: Copy>(slots: &mut [Entry<K>], n: usize, front: Entry<K>)
    requires { n < length slots.old }
    ensures { slots.new ≡ front ∷ (take n slots.old ++ drop (n + 1) slots.old) }
{
    slots.copy_within(..n, 1);
    slots[0] = front;
}

// The `n` entries behind the first go one slot towards the front, over it; the last of their slots keeps what it held.
fn shift_out<K: Copy>(slots: &mut [Entry<K>], n: usize)
    requires { n < length slots.old }
    ensures { slots.new ≡ take n (drop 1 slots.old) ++ drop n slots.old }
{
    slots.copy_within(1..=n, 0);
}

// The `n` entries behind the first go one slot towards the front, over it, and the last of their slots takes the entry.
#[tactic(auto, using(crate::proofs::Fronts::set_first, std::proofs::lemmas::Grind::common_steps))]
fn sink<K: Copy>(slots: &mut [Entry<K>], n: usize, sunk: Entry<K>)
    requires { n < length slots.old }
    ensures { slots.new ≡ take n (drop 1 slots.old) ++ sunk ∷ drop (n + 1) slots.old }
{
    shift_out(slots, n);
    slots[n] = sunk;
}
