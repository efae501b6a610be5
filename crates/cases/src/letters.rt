// Letters as keys, and the lines that are bursts of them.
ghost use Rattle.std.specs.Prelude.{◌≡◌, not, map, position, IfOk};
ghost use Rattle.std.specs.Char.{is_ascii_alphabetic};
ghost use Rattle.cases.specs.Letters.{one_letter, as_letter};
ghost use Rattle.std.proofs.Common.{rules};

use keys::Key;
use std::alloc::{AllocError, Global};

// A key kind of one's own: two letters are the same when they are equal, case and all.
#[derive(Clone, Copy, PartialEq, Eq)]
pub(crate) struct Letter {
    pub(crate) code: u8,
}

impl Key for Letter {
    ghost same = { one_letter };

    ghost lawful = { Prim.search rules };

    fn same_as(&self, other: &Letter) -> bool {
        self == other
    }
}

impl From<u8> for Letter {
    ghost from_gives = { λ byte letter. letter ≡ as_letter byte };

    fn from(code: u8) -> Letter {
        Letter { code }
    }
}

// The index of the first byte of a line that is no letter.
pub(crate) fn first_stray(line: &[u8]) -> Option<usize>
    ensures { result ≡ position (λ byte. not (is_ascii_alphabetic byte)) line.now }
{
    line.iter().position(|byte| !byte.is_ascii_alphabetic())
}

// A line as keys, a byte each.
pub(crate) fn keys_of(alloc: Global, line: &[u8]) -> Result<Vec<Letter>, AllocError>
    ensures { IfOk result (λ v. v.items ≡ map as_letter line.now) }
{
    line.iter().copied().map(Letter::from).collect(alloc)
}
