// A table of counts that a burst can have.
ghost use Rattle.std.specs.Prelude.{◌≡◌, ◌*◌, ◌<◌, ◌≤◌, true, false, length, drop, slice_index, sum, MatchOption};
ghost use Rattle.locality.specs.Numbers.{sum_above};
ghost use Rattle.locality.specs.Tables.{is_table, last_entry, beyond};

// Entries 0 to n for a burst of n accesses, at most 4,096. (`as` below: there is no `From` between `usize` and the numbers
// of 32 and 64 bits.)
#[derive(Drop)]
pub(crate) struct Table<'a> {
    pub(crate) entries: &'a [u32],
    ghost some: { 1 ≤ length entries.now },
    ghost most: { length entries.now ≤ 4097 },
}

impl<'a> Table<'a> {
    // The entries as a table; none where no burst has so many.
    pub(crate) fn of(entries: &'a [u32]) -> Option<Table<'a>>
        ensures { MatchOption result (is_table entries.now ≡ false) (λ t. (is_table entries.now ≡ true) × (t.entries.now ≡ entries.now)) }
    {
        if entries.is_empty() || entries.len() > 4097 {
            return None;
        }
        Some(Table { entries })
    }

    // The table from an entry on; none past its end.
    pub(crate) fn from(&self, entry: u32) -> Option<Table<'a>>
        ensures { MatchOption result (length self.now.entries.now ≤ entry) (λ t. (entry < length self.now.entries.now) × (t.entries.now ≡ drop entry self.now.entries.now)) }
    {
        Table::of(self.entries.get(entry as usize..)?)
    }

    // The sum of i × entry i over all entries. (As a chain with `sum`, its bound and its value stay open.)
    pub(crate) fn weighed(&self) -> u64
        ensures { result ≡ beyond 0 self.now.entries.now }
    {
        let mut sum = 0;
        for (i, count) in self.entries.iter().enumerate() {
            sum += i as u64 * u64::from(*count);
        }
        sum
    }

    // The sum of the entries above c.
    pub(crate) fn beyond(&self, c: u32) -> u64
        ensures value { result ≡ sum_above c (last_entry self.now.entries.now) (λ d. slice_index self.now.entries.now d) }
        ensures bound { result ≤ 4096 * 4294967295 }
    {
        match self.entries.get(c as usize + 1..) {
            Some(above) => total(above),
            None => 0,
        }
    }
}

// The sum of counts.
fn total(counts: &[u32]) -> u64
    requires { length counts.now ≤ 4096 }
    ensures value { result ≡ sum counts.now }
    ensures bound { result ≤ 4096 * 4294967295 }
{
    counts.iter().map(|count| u64::from(*count)).sum()
}
