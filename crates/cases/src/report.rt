// The text that answers a line: what its burst measures, or what is wrong with it.
ghost use Rattle.std.specs.Prelude.{◌≡◌, ◌++◌, reverse, IfOk, string_bytes, OnOk};
ghost use Rattle.cases.specs.Texts.{cell_text, row_text, rows_text, head_text, burst_text, stray_text, long_text, answer_text};

use crate::curve::Curve;
use crate::letters::{first_stray, keys_of};
use counting::windows::distinct_keys;
use keys::Key;
use lines::{Quoted, without_return};
use std::alloc::{AllocError, Global};

// The answer to a line.
#[tactic(auto, using(crate::proofs::Strays::strayed, crate::proofs::Strays::measured))]
pub(crate) fn answer(alloc: Global, bytes: &[u8]) -> Result<String, AllocError>
    ensures { IfOk result (λ s. string_bytes s ≡ answer_text bytes.now) }
{
    let line = without_return(bytes);
    let mut out = String::new(alloc);
    if line.len() > 128 {
        add_long(&mut out, line.len())?;
    } else if let Some(stray) = first_stray(line) {
        add_stray(&mut out, line, stray + 1)?;
    } else {
        add_burst(&mut out, line)?;
    }
    Ok(out)
}

// What a burst measures.
#[tactic(auto, unfolding(crate::specs::Texts::burst_text))]
fn add_burst(out: &mut String, line: &[u8]) -> Result<(), AllocError>
    ensures { OnOk result (string_bytes out.new ≡ string_bytes out.old ++ burst_text line.now) }
{
    let keys = keys_of(*out.allocator(), line)?;
    add_head(out, line, distinct_keys(&keys))?;
    add_rows(out, &keys)
}

// Says that a line is too long.
fn add_long(out: &mut String, bytes: usize) -> Result<(), AllocError>
    ensures { OnOk result (string_bytes out.new ≡ string_bytes out.old ++ long_text bytes) }
{
    writeln!(
        out,
        "a line of {bytes} bytes is too long: a burst has at most 128 letters here"
    )
}

// Says which byte of a line is no letter.
fn add_stray(out: &mut String, line: &[u8], position: usize) -> Result<(), AllocError>
    ensures { OnOk result (string_bytes out.new ≡ string_bytes out.old ++ stray_text line.now position) }
{
    writeln!(
        out,
        "{}: byte {position} is no letter; a line is a burst of letters, one for each access",
        Quoted(line)
    )
}

// A burst, its length and its number of different keys.
fn add_head(out: &mut String, line: &[u8], keys: usize) -> Result<(), AllocError>
    ensures { OnOk result (string_bytes out.new ≡ string_bytes out.old ++ head_text line.now keys) }
{
    writeln!(
        out,
        "{}: accesses {}, keys {keys}",
        Quoted(line),
        line.len()
    )
}

// A row for each curve.
fn add_rows<K: Key>(out: &mut String, keys: &[K]) -> Result<(), AllocError>
    ensures { OnOk result (string_bytes out.new ≡ string_bytes out.old ++ rows_text K.same (reverse keys.now)) }
{
    for curve in Curve::ALL {
        add_row(out, keys, curve)?;
    }
    Ok(())
}

// The values of one curve.
#[tactic(auto, unfolding(crate::specs::Texts::values_text, crate::specs::Texts::row_text))]
fn add_row<K: Key>(out: &mut String, keys: &[K], curve: Curve) -> Result<(), AllocError>
    ensures { OnOk result (string_bytes out.new ≡ string_bytes out.old ++ row_text K.same curve (reverse keys.now)) }
{
    write!(out, "{curve}")?;
    // The index is itself a length, an entry, a size or a position.
    let last = curve.last_index(keys.len(), distinct_keys(keys));
    for i in curve.first_index()..=last {
        let value = curve.value(*out.allocator(), keys, i)?;
        add_value(out, value)?;
    }
    writeln!(out)
}

// A value after a blank, or a dash for none.
fn add_value(out: &mut String, value: Option<u128>) -> Result<(), AllocError>
    ensures { OnOk result (string_bytes out.new ≡ string_bytes out.old ++ cell_text value) }
{
    match value {
        Some(number) => write!(out, " {number}"),
        None => write!(out, " -"),
    }
}
