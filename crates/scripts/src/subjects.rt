// What a script is run on: a recency store, or a list kept by the rules in the plainest way.
ghost use Rattle.std.specs.Prelude.{◌<◌, ◌≤◌, vec_len, vec_capacity};

use keys::Key;
use locality::Entry;
use recency::RecencyStore;
use refusals::Refusal;
use std::alloc::{AllocError, Global};

// What takes touches and put backs, and has a list to show.
pub(crate) trait Subject {
    type Key: Key;

    fn touch(&mut self, key: Self::Key, time: u16) -> Result<Option<(u32, u16)>, Refusal>;

    // 0 after a first touch, as a store takes it.
    fn put_back(&mut self, former: u16);

    fn empty(&mut self);

    // The list, newest first.
    fn list(&self, alloc: Global) -> Result<Vec<Entry<Self::Key>>, AllocError>;
}

// A store, known by the calls of its trait alone.
impl<S: RecencyStore> Subject for S {
    type Key = S::Key;

    fn touch(&mut self, key: S::Key, time: u16) -> Result<Option<(u32, u16)>, Refusal> {
        RecencyStore::touch(self, key, time)
    }

    fn put_back(&mut self, former: u16) {
        RecencyStore::put_back(self, former);
    }

    fn empty(&mut self) {
        RecencyStore::empty(self);
    }

    fn list(&self, alloc: Global) -> Result<Vec<Entry<S::Key>>, AllocError> {
        (1..=self.held())
            .filter_map(|j| self.entry(j))
            .collect(alloc)
    }
}

// A list kept by the rules, with a number of places, which are reserved.
#[derive(Drop)]
pub(crate) struct ByRules<K> {
    entries: Vec<Entry<K>>,
    places: u8,
    ghost within: { vec_len entries ≤ places },
    ghost reserved: { places ≤ vec_capacity entries },
}

impl<K: Key> ByRules<K> {
    pub(crate) fn new(alloc: Global, places: u8) -> Result<Self, AllocError> {
        Ok(ByRules {
            entries: Vec::with_capacity(alloc, usize::from(places))?,
            places,
        })
    }

    // Puts an entry at an index, where a place is free.
    fn insert(&mut self, at: usize, key: K, time: u16)
        requires index { at ≤ vec_len self.old.entries }
        requires free { vec_len self.old.entries < self.old.places }
    {
        self.entries.insert(at, Entry { key, time }).unwrap();
    }
}

impl<K: Key> Subject for ByRules<K> {
    type Key = K;

    fn touch(&mut self, key: K, time: u16) -> Result<Option<(u32, u16)>, Refusal> {
        let places = usize::from(self.places);
        let held = self
            .entries
            .iter()
            .position(|entry| key.same_as(&entry.key));
        match held {
            Some(at) => {
                let entry = self.entries.remove(at);
                self.insert(0, entry.key, time);
                // At most 64 places, so `as` keeps the number.
                Ok(Some((at as u32 + 1, entry.time)))
            }
            None if self.entries.len() < places => {
                self.insert(0, key, time);
                Ok(None)
            }
            None => Err(Refusal::NoPlace),
        }
    }

    fn put_back(&mut self, former: u16) {
        if self.entries.is_empty() {
            return;
        }
        let front = self.entries.remove(0);
        if former > 0 {
            let later = self.entries.iter().position(|entry| entry.time <= former);
            let at = later.unwrap_or(self.entries.len());
            self.insert(at, front.key, former);
        }
    }

    fn empty(&mut self) {
        self.entries.clear();
    }

    fn list(&self, alloc: Global) -> Result<Vec<Entry<K>>, AllocError> {
        Vec::from_slice(alloc, &self.entries)
    }
}
