//! What a box is made of: a place in memory, and the allocator that frees it.
ghost use Rattle.std.specs.Prelude.{◌≡◌};
ghost use Rattle.std.specs.Box.Ownership.{box_owns};

use std::alloc::Allocator;
use std::marker::Model;

/// A box taken apart. It owns what the box owned.
pub struct Unboxed<T, A: Allocator> {
    pub(crate) place: *mut T,
    pub(crate) allocator: A,
    pub ghost value: { T },
}

impl<T, A: Allocator> Model for Unboxed<T, A> {
    ghost also_owns = { λ u. box_owns (A.dealloc_token u.allocator) T.row u.place u.value };
}

/// Takes a box apart.
pub fn unbox<T: Drop, A: Allocator>(whole: Box<T, A>) -> Unboxed<T, A>
    ensures { result.value ≡ whole.value }
{
    let (place, allocator) = Box::into_raw_with_allocator(whole);
    Unboxed { place, allocator }
}

/// Puts it together again.
pub fn rebox<T, A: Allocator>(parts: Unboxed<T, A>) -> Box<T, A>
    ensures { result.value ≡ parts.value }
{
    let Unboxed { place, allocator } = parts;
    unsafe { Box::from_raw(allocator, place) }
}
