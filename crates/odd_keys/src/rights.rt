//! A custom type of sets, for the values of a multimap.

ghost use Rattle.std.specs.Prelude.{refl, ⊤};
ghost use Rattle.odd_keys.specs.RightSets.{HasNoRight, clones_are_equal, equal_are_void, equal_have_same, equal_rights, has_right, same_are_equal, void_has_none};

use btree_range_map::generic::multimap::{MaybeEmpty, SetMut};
use std::alloc::{AllocError, Global};

/// What may be done with what an address names.
#[derive(Clone, Copy, PartialEq, Eq, Debug)]
pub enum Right {
    Read,
    Write,
}

/// A set of rights.
#[derive(Clone, Copy, PartialEq, Eq, Debug)]
pub struct Rights {
    read: bool,
    write: bool,
}

impl MaybeEmpty for Rights {
    ghost is_void = { HasNoRight };

    ghost is_set = { λ _. ⊤ };

    fn default(_alloc: Global) -> Rights {
        Rights {
            read: false,
            write: false,
        }
    }

    fn is_empty(&self) -> bool {
        !self.read && !self.write
    }

    fn known(&self) {}

    ghost void_equal = { equal_are_void };
}

impl SetMut<Right> for Rights {
    ghost has = { has_right };

    fn contains(&self, right: &Right) -> bool {
        match right {
            Right::Read => self.read,
            Right::Write => self.write,
        }
    }

    fn insert(&mut self, right: Right) -> Result<(), AllocError> {
        match right {
            Right::Read => self.read = true,
            Right::Write => self.write = true,
        }
        Ok(())
    }

    fn remove(&mut self, right: &Right) {
        match right {
            Right::Read => self.read = false,
            Right::Write => self.write = false,
        }
    }

    ghost void_is = { void_has_none };

    ghost has_equal = { equal_rights _ refl refl };

    ghost equal_same = { equal_have_same };

    ghost same_equal = { λ s t _ _. same_are_equal s t };

    ghost clones_equal = { λ _. clones_are_equal };
}
