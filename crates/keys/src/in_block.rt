// Byte addresses, each for the block of memory that it lies in: one kind for every block size.
ghost use Rattle.std.specs.Prelude.{◌≡◌, ℕ, ◌<◌};
ghost use Rattle.keys.specs.Blocks.{one_block};
ghost use Rattle.keys.specs.Laws.{in_blocks};

use crate::block::{Block, one_block};
use crate::kind::Key;
use std::marker::PhantomData;

// A block size, as a type of its own. (No number as a parameter: that would allow 0, for which there is no block.)
pub trait BlockSize: Copy {
    // The size in bytes.
    const BYTES: u64;

    ghost BYTES: { ℕ };

    ghost some: { 0 < BYTES };
}

// A byte address, for its block. (Both fields are public, so that a key can be a constant: a constant's value calls no
// function.)
#[derive(Clone, Copy)]
pub struct InBlock<B> {
    pub address: u64,
    pub size: PhantomData<B>,
}

impl<B> InBlock<B> {
    // The key of a byte address.
    pub fn at(address: u64) -> Self
        ensures { result.address ≡ address }
    {
        InBlock {
            address,
            size: PhantomData,
        }
    }
}

impl<B: BlockSize> Key for InBlock<B> {
    ghost same = { λ x y. one_block B.BYTES x.address y.address };

    ghost lawful = { in_blocks B.BYTES (λ k. k.address) };

    fn same_as(&self, other: &Self) -> bool {
        one_block(B::BYTES, self.address, other.address)
    }
}

impl<B: BlockSize> Block for InBlock<B> {
    const SIZE: u64 = B::BYTES;

    ghost SIZE = { B.BYTES };

    ghost place = { λ x. x.address };

    ghost some = { B.some };

    fn address(&self) -> u64 {
        self.address
    }
}
