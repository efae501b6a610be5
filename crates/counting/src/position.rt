// A position of a slice of keys, and what is told by looking back from it.
ghost use Rattle.std.specs.Prelude.{◌≡◌, ◌<◌, ◌≤◌, true, false, reverse, length, MatchOption, MatchResult};
ghost use Rattle.refusals.specs.declared.Refusal.TheVariants.{NoSuchPosition};
ghost use Rattle.locality.specs.Log.{interval_at, distance_at};
ghost use Rattle.locality.specs.ByPosition.{same_at, greatest, former_of};
ghost use Rattle.locality.specs.Calls.{is_position};
ghost use Rattle.counting.specs.Shares.{share_of};

use crate::finds::last_same;
use crate::windows::distinct_keys;
use keys::Key;
use refusals::Refusal;

// A position, counted from 1, that the slice has.
#[derive(Drop)]
pub(crate) struct Position<'a, K> {
    pub(crate) keys: &'a [K],
    pub(crate) at: usize,
    ghost some: { 1 ≤ at },
    ghost within: { at ≤ length keys.now },
}

impl<'a, K: Key> Position<'a, K> {
    // The position of a number, where the slice has it.
    pub(crate) fn of(keys: &'a [K], at: usize) -> Result<Self, Refusal>
        ensures { MatchResult result
            (λ p. (is_position at (reverse keys.now) ≡ true) × (p.keys.now ≡ keys.now) × (p.at ≡ at))
            (λ e. (is_position at (reverse keys.now) ≡ false) × (e ≡ NoSuchPosition)) }
    {
        if at < 1 || keys.len() < at {
            return Err(Refusal::NoSuchPosition);
        }
        Ok(Position { keys, at })
    }

    // The position less the former one.
    pub(crate) fn interval(&self) -> Option<usize>
        ensures { result ≡ interval_at K.Key.same self.now.at (reverse self.now.keys.now) }
    {
        Some(self.at - self.former()?)
    }

    // The different keys from the former position on.
    pub(crate) fn distance(&self) -> Option<usize>
        ensures { result ≡ distance_at K.Key.same self.now.at (reverse self.now.keys.now) }
    {
        Some(distinct_keys(&self.keys[self.former()? - 1..self.at - 1]))
    }

    // The greatest earlier position with the same key.
    fn former(&self) -> Option<usize>
        ensures { MatchOption result (former_of K.Key.same self.now.keys.now self.now.at ≡ 0) (λ p. (former_of K.Key.same self.now.keys.now self.now.at ≡ p) × (1 ≤ p) × (p < self.now.at)) }
    {
        self.latest_same(self.at - 1)
    }

    // The greatest of the positions from 1 to `most` with the same key.
    fn latest_same(&self, most: usize) -> Option<usize>
        requires { most ≤ length self.now.keys.now }
        ensures { MatchOption result (greatest (same_at K.Key.same self.now.keys.now self.now.at) most ≡ 0) (λ p. (greatest (same_at K.Key.same self.now.keys.now self.now.at) most ≡ p) × (1 ≤ p) × (p ≤ most)) }
    {
        last_same(&self.keys[..most], &self.keys[self.at - 1]).map(|index| index + 1)
    }

    // How many gaps of a size the position has: its interval, and at a key's first or last position the gap at that end.
    pub(crate) fn share(&self, size: usize) -> u8
        ensures { result ≡ share_of K.Key.same self.now.keys.now size self.now.at }
    {
        let back = self.at - self.former().unwrap_or(0);
        let is_last = self.latest_same(self.keys.len()) == Some(self.at);
        u8::from(back == size) + u8::from(is_last && self.keys.len() - self.at + 1 == size)
    }
}
