// Line keys: a byte address, for its cache line of 64 bytes.
ghost use Rattle.std.specs.Prelude.{refl};
ghost use Rattle.std.proofs.lemmas.Bool.{ltb-true};

use crate::in_block::{BlockSize, InBlock};

// The size of a cache line.
#[derive(Clone, Copy)]
pub struct CacheLine;

impl BlockSize for CacheLine {
    const BYTES: u64 = Line::SIZE;

    ghost BYTES = { 64 };

    // (Written out: what a tactic finds would be a part of what others read.)
    ghost some = { ltb-true 0 64 refl };
}

pub type Line = InBlock<CacheLine>;

impl Line {
    // The block size, for where only a constant will do: a pattern, or the length of an array.
    pub const SIZE: u64 = 64;
}
