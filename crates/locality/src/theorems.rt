// The theorems, each the contract of a function named after what it says, over every lawful key kind.
// Where a computation goes with a theorem, the function makes it; the others have nothing to answer.
ghost use Rattle.std.specs.Prelude.{◌≡◌, List};
ghost use Rattle.keys.specs.Blocks.{one_line, one_page};
ghost use Rattle.locality.specs.Statements.{TotalFromTable, MissesFromTable, TablesTellTotals, NextFromRecency, RecencyList, PutBackUndoes, DepthFromTimes, WholeBurstFills, EntryZeroIsEmpty, TextbookAgrees};
ghost use Rattle.locality.specs.Worked.{WorkedBursts};

use crate::tables::{table_misses, table_total};
use keys::{Key, Line, Page};

// The footprint total of a window length, from a gap table and the number of different keys, visiting no window.
// None where the table has no entry or more than 4,097, where the window is longer than the burst, and where the sum of
// the gaps is larger than keys × windows, which no burst's table has.
pub fn total_from_gaps<K: Key>(gaps: &[u32], keys: u32, window: u32) -> Option<u64>
    ensures { TotalFromTable K.same gaps.now keys window result }
{
    table_total::<K>(gaps, keys, window)
}

// The misses of an LRU cache, from a table of depth counts and the number of different keys.
// None where the table has no entry or more than 4,097.
#[tactic(auto, using(crate::proofs::OfTables::misses_told))]
pub fn misses_from_depths<K: Key>(depths: &[u32], keys: u32, size: u32) -> Option<u64>
    ensures { MissesFromTable K.same depths.now keys size result }
{
    table_misses(depths, keys, size)
}

// Whether two bursts, of whatever kinds, have one length and equal totals at every window length, from their gap tables.
#[tactic(auto, using(crate::proofs::OfTables::equal_tables_tell))]
pub fn gaps_tell_totals<K: Key, L: Key>(one: &[u32], other: &[u32]) -> bool
    ensures { TablesTellTotals K.Key.same L.Key.same one.now other.now result }
{
    one == other
}

// Interval and distance of the next access can be read off the recency list.
pub fn next_from_recency<K: Key>()
    ensures { NextFromRecency K.same }
{}

// The recency list has each different key once, under its last position, newest first, as first stored.
pub fn recency_list_of_a_log<K: Key>()
    ensures { (log : List K) → RecencyList K.same log }
{}

// A put back of the former time after a touch gives the list before it.
pub fn put_back_undoes_touch<K: Key>()
    ensures { PutBackUndoes K.same }
{}

// The depth of a key is one more than the number of later times.
#[tactic(auto, using(crate::proofs::Recency::depths_later))]
pub fn depth_from_later_times<K: Key>()
    ensures { DepthFromTimes K.same }
{}

// Every size up to the number of keys has a window length that fills it.
#[tactic(auto, using(crate::proofs::Curves::whole_fills))]
pub fn whole_burst_fills<K: Key>()
    ensures { WholeBurstFills K.same }
{}

// Entry 0 of every table of counts is 0.
pub fn entry_zero_is_empty<K: Key>()
    ensures { EntryZeroIsEmpty K.same }
{}

// Every definition in use is the textbook's, by position and oldest first, and so is the access log of any calls.
#[tactic(auto, using(crate::proofs::Positions::agrees))]
pub fn textbook_agrees<K: Key>()
    ensures { TextbookAgrees K.same }
{}

// The worked bursts have the values that docs/LOCALITY.md states; the sameness of line keys and of page keys is that of
// blocks of 64 and of 4,096 bytes.
pub fn worked_bursts()
    ensures bursts { WorkedBursts }
    ensures lines { ⟦<Line as Key>⟧.same ≡ one_line }
    ensures pages { ⟦<Page as Key>⟧.same ≡ one_page }
{}
