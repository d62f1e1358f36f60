//! A box of a collection, or nothing, as C may keep it.
ghost use Rattle.std.specs.Prelude.{◌≡◌, Option, Some, None, IsSome};
ghost use Rattle.range_handles.specs.declared.collection.Collection.{Collection};
ghost use Rattle.range_handles.specs.Seals.{held_coded, seal_owns};

mod lend;

use crate::collection::Collection;
use crate::unboxed::{Unboxed, rebox, unbox};
use std::alloc::Global;
use std::marker::Model;

/// The pointer that a box is, while it holds one. Its type is hidden, since a collection cannot
/// cross to C.
#[repr(C)]
#[derive(Drop)]
pub struct Seal {
    ptr: *mut u8,
    alloc: Global,
    pub ghost held: { Option Collection } by { held_coded },
}

impl Model for Seal {
    ghost also_owns = { λ s. seal_owns s.alloc s.ptr s.held };
}

impl Seal {
    /// A seal of no box.
    pub fn empty(ptr: *mut u8, alloc: Global) -> Seal
        ensures { result.held ≡ None }
    {
        Seal { ptr, alloc }
    }

    /// A seal of the box.
    pub fn of(b: Box<Collection, Global>) -> Seal
        ensures { result.held ≡ Some b.value }
    {
        Seal::on(unbox(b))
    }

    fn on(parts: Unboxed<Collection, Global>) -> Seal
        ensures { result.held ≡ Some parts.value }
    {
        let Unboxed { place, allocator } = parts;
        Seal {
            ptr: place as *mut u8,
            alloc: allocator,
        }
    }

    /// The box.
    pub fn into_box(self) -> Box<Collection, Global>
        requires { IsSome self.held }
        ensures { self.held ≡ Some result.value }
    {
        rebox(self.opened())
    }

    fn opened(self) -> Unboxed<Collection, Global>
        requires { IsSome self.held }
        ensures { self.held ≡ Some result.value }
    {
        let Seal { ptr, alloc } = self;
        Unboxed {
            place: ptr as *mut Collection,
            allocator: alloc,
        }
    }
}
