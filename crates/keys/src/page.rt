// Page keys: a byte address, for its page of 4,096 bytes.
ghost use Rattle.std.specs.Prelude.{refl};
ghost use Rattle.std.proofs.lemmas.Bool.{ltb-true};

use crate::in_block::{BlockSize, InBlock};

// The size of a page.
#[derive(Clone, Copy)]
pub struct MemoryPage;

impl BlockSize for MemoryPage {
    const BYTES: u64 = Page::SIZE;

    ghost BYTES = { 4096 };

    // (Written out: what a tactic finds would be a part of what others read.)
    ghost some = { ltb-true 0 4096 refl };
}

pub type Page = InBlock<MemoryPage>;

impl Page {
    // The block size, for where only a constant will do: a pattern, or the length of an array.
    pub const SIZE: u64 = 4096;
}
