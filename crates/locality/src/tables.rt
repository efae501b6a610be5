// Curves from tables of counts. (`as`: there is no `From` of a `usize` for a `u64`.)
ghost use Rattle.std.specs.Prelude.{◌≡◌};
ghost use Rattle.locality.specs.Statements.{TotalFromTable};
ghost use Rattle.locality.specs.Tables.{misses_of_table};

use crate::table::Table;
use keys::Key;

// The total of a window length, from a gap table and the number of different keys. (It has the contract of the public
// function: with only the formula here, the proof of that one is not found, and by hand it would hide a wrong body.)
pub(crate) fn table_total<K: Key>(gaps: &[u32], keys: u32, window: u32) -> Option<u64>
    ensures { TotalFromTable K.same gaps.now keys window result }
{
    let table = Table::of(gaps)?.from(window)?;
    let windows = table.entries.len() as u64;
    (u64::from(keys) * windows).checked_sub(table.weighed())
}

// The misses of a cache size, from a table of depth counts and the number of different keys.
pub(crate) fn table_misses(depths: &[u32], keys: u32, size: u32) -> Option<u64>
    ensures { result ≡ misses_of_table size keys depths.now }
{
    Some(u64::from(keys) + Table::of(depths)?.beyond(size))
}
