// The curves that are printed of a burst, each with its values, counted afresh.
ghost use Rattle.std.specs.Prelude.{◌≡◌, ◌+◌, ◌≤◌, reverse, length, Some, IfOk};
ghost use Rattle.locality.specs.Cache.{misses};
ghost use Rattle.cases.specs.Texts.{label_of};
ghost use Rattle.cases.specs.Values.{found_in, value_of, first_index, end_index};

use counting::gaps::gap_count;
use counting::looks::{distance, interval};
use counting::simulation::lru_misses;
use counting::windows::footprint;
use keys::Key;
use refusals::Refusal;
use std::alloc::{AllocError, Global};
use std::fmt;

// What is printed of a burst: one row each.
#[derive(Clone, Copy)]
pub(crate) enum Curve {
    Totals,
    Windows,
    Gaps,
    Misses,
    Intervals,
    Distances,
}

// What a row begins with.
impl fmt::Display for Curve {
    ghost output = { λ curve. Some (label_of curve) };

    fn fmt<W: fmt::Write>(&self, f: &mut fmt::Formatter<W>) -> fmt::Result {
        f.write_str(match self {
            Curve::Totals => "  totals   ",
            Curve::Windows => "  windows  ",
            Curve::Gaps => "  gaps     ",
            Curve::Misses => "  misses   ",
            Curve::Intervals => "  intervals",
            Curve::Distances => "  distances",
        })
    }
}

impl Curve {
    // The curves in the order of their rows.
    pub(crate) const ALL: [Curve; 6] = [
        Curve::Totals,
        Curve::Windows,
        Curve::Gaps,
        Curve::Misses,
        Curve::Intervals,
        Curve::Distances,
    ];

    // Where the curve begins.
    pub(crate) fn first_index(self) -> usize
        ensures { result ≡ first_index self }
    {
        match self {
            Curve::Totals | Curve::Windows | Curve::Gaps | Curve::Misses => 0,
            Curve::Intervals | Curve::Distances => 1,
        }
    }

    // The index where the curve ends, from the numbers of accesses and of keys.
    pub(crate) fn last_index(self, accesses: usize, keys: usize) -> usize
        ensures { result + 1 ≡ end_index self accesses keys }
    {
        match self {
            Curve::Misses => keys,
            _ => accesses,
        }
    }

    // The value at a length, entry, size or position: none at a first access.
    pub(crate) fn value<K: Key>(
        self,
        alloc: Global,
        keys: &[K],
        i: usize,
    ) -> Result<Option<u128>, AllocError>
        requires { i ≤ length keys.now }
        ensures { IfOk result (λ o. o ≡ value_of K.same self i (reverse keys.now)) }
    {
        Ok(match self {
            Curve::Totals => Some(footprint(keys, i).0),
            Curve::Windows => Some(footprint(keys, i).1),
            Curve::Gaps => Some(gap_count(keys, i)),
            Curve::Misses => Some(misses_at(alloc, keys, i)?),
            Curve::Intervals => found_in(interval(keys, i)),
            Curve::Distances => found_in(distance(keys, i)),
        })
    }
}

// The misses of a cache of a size, a copy of as many keys being its memory. (`as` here and below: there is no `From` of a
// `usize` for a `u128`.)
fn misses_at<K: Key>(alloc: Global, keys: &[K], size: usize) -> Result<u128, AllocError>
    requires { size ≤ length keys.now }
    ensures { IfOk result (λ m. m ≡ misses K.same size (reverse keys.now)) }
{
    let mut places = Vec::from_slice(alloc, &keys[..size])?;
    Ok(lru_misses(keys, &mut places) as u128)
}

// What a position answers: none at a first access, and outside the burst.
fn found_in(answer: Result<Option<usize>, Refusal>) -> Option<u128>
    ensures { result ≡ found_in answer }
{
    answer.ok().flatten().map(|found| found as u128)
}
