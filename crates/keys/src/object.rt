// Object keys: an object of a memory pool.
ghost use Rattle.keys.specs.Objects.{one_object};
ghost use Rattle.keys.specs.Laws.{of_objects};

use crate::kind::Key;

#[derive(Clone, Copy, PartialEq, Eq)]
pub struct Object {
    pub pool: u32,
    pub object: u64,
}

impl Key for Object {
    ghost same = { one_object };

    ghost lawful = { of_objects };

    fn same_as(&self, other: &Object) -> bool {
        self == other
    }
}
