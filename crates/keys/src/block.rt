// Key kinds that are byte addresses, told apart by the block of memory that they lie in.
ghost use Rattle.std.specs.Prelude.{◌≡◌, ℕ, ◌/◌, ◌<◌};
ghost use Rattle.keys.specs.Blocks.{one_block};

use crate::kind::Key;

// A key kind of byte addresses: two are the same when they lie in one block.
pub trait Block: Key {
    // The block size in bytes.
    const SIZE: u64;

    ghost SIZE: { ℕ };

    ghost place: { Self → ℕ };

    // The block size, for code that is generic over block kinds.
    fn block_size() -> u64
        ensures { result ≡ SIZE }
    {
        Self::SIZE
    }

    // The byte address. Same keys are those in one block.
    fn address(&self) -> u64
        ensures value { result ≡ place self.now }
        ensures tied { (x y : Self) → Self.Key.same x y ≡ one_block SIZE (place x) (place y) };

    // The number of the block that the address lies in.
    fn block(&self) -> u64
        ensures { result ≡ place self.now / SIZE }
    {
        self.address() / Self::SIZE
    }

    ghost some: { 0 < SIZE };
}

// Whether two byte addresses lie in one block. (`same_as` of a block kind cannot compare by `block`: the impl of `Block`
// stands on that of `Key`, and the two would call one another in a ring.)
pub(crate) fn one_block(size: u64, a: u64, b: u64) -> bool
    requires { 0 < size }
    ensures { result ≡ one_block size a b }
{
    a / size == b / size
}
