// Keys of letters, for each key kind, and lists of them as they are shown. A capital is the same key as its small letter,
// by another byte of its block.
ghost use Rattle.std.specs.Prelude.{◌<◌};

use keys::{BlockSize, InBlock, Key, Object};
use locality::Entry;
use std::alloc::AllocError;

// A key kind that can be made of a letter and shown.
pub(crate) trait Lettered: Key {
    // The key of a letter. (No `From<u8>`: the kinds are another crate's.)
    fn lettered(letter: u8) -> Self;

    // Adds the key to a text. (No `Display`: the kinds are another crate's, which does not print them.)
    fn show(&self, out: &mut String) -> Result<(), AllocError>;
}

// The number of a letter, from 1; 0 for another byte, of which the keys in unused slots are made.
fn number_of(letter: u8) -> u8
    ensures { result < 27 }
{
    match letter {
        b'a'..=b'z' => letter - b'a' + 1,
        b'A'..=b'Z' => letter - b'A' + 1,
        _ => 0,
    }
}

// The first byte of a letter's block, or the last one for a capital. (What the sizes here give fits 64 bits; a bound on
// every size would be one more law.)
fn byte_of(letter: u8, size: u64) -> u64 {
    let first = u64::from(number_of(letter)).saturating_mul(size);
    if letter.is_ascii_uppercase() {
        return first.saturating_add(size.saturating_sub(1));
    }
    first
}

impl<B: BlockSize> Lettered for InBlock<B> {
    fn lettered(letter: u8) -> Self {
        InBlock::at(byte_of(letter, B::BYTES))
    }

    fn show(&self, out: &mut String) -> Result<(), AllocError> {
        write!(out, "{}", self.address)
    }
}

impl Lettered for Object {
    fn lettered(letter: u8) -> Object {
        Object {
            pool: u32::from(number_of(letter)),
            object: 7,
        }
    }

    fn show(&self, out: &mut String) -> Result<(), AllocError> {
        write!(out, "{}.{}", self.pool, self.object)
    }
}

// Adds a list, newest first, each entry as its key and its time. (To the text itself: through a formatter, a step whose
// list is short takes twice the time and more.)
pub(crate) fn add_list<K: Lettered>(
    out: &mut String,
    entries: &[Entry<K>],
) -> Result<(), AllocError> {
    out.push_str(" [")?;
    let mut separator = "";
    for entry in entries {
        out.push_str(separator)?;
        entry.key.show(out)?;
        write!(out, "@{}", entry.time)?;
        separator = " ";
    }
    out.push_str("]")
}
