//! What a caller in C keeps.
ghost use Rattle.std.specs.Prelude.{◌≡◌, ◌≢◌, ◌⊎◌, ◌↔◌, Some, None, IsSome, IsTrue, true, false};

use crate::collection::Collection;
use crate::seal::Seal;
use range_ffi::status::{DONE, NO_MEMORY};
use std::alloc::Global;
use std::ptr::null_mut;

/// A collection, while it is open.
#[repr(C)]
#[derive(Drop)]
pub struct Handle {
    pub is_open: bool,
    pub seal: Seal,
    pub ghost agrees: { IsTrue is_open ↔ IsSome seal.held },
}

impl Handle {
    /// A handle of no collection.
    pub fn closed(alloc: Global) -> Handle
        ensures { (result.is_open ≡ false) × (result.seal.held ≡ None) }
    {
        let nowhere = null_mut();
        Handle {
            is_open: false,
            seal: Seal::empty(nowhere, alloc),
        }
    }

    /// Opens a closed handle on the collection. Allocates one block.
    pub fn fill(&mut self, alloc: Global, collection: Collection) -> u32
        ensures filled { result ≡ DONE → self.new.seal.held ≡ Some collection }
        ensures refused { result ≢ DONE → self.new.seal.held ≡ self.old.seal.held }
        ensures answer { (result ≡ DONE) ⊎ (result ≡ NO_MEMORY) }
    {
        match Box::new(alloc, collection) {
            Ok(kept) => {
                *self = Handle {
                    is_open: true,
                    seal: Seal::of(kept),
                };
                DONE
            }
            Err(_) => NO_MEMORY,
        }
    }

    /// The collection of an open handle.
    pub fn into_box(self) -> Box<Collection, Global>
        requires { self.is_open ≡ true }
        ensures { self.seal.held ≡ Some result.value }
    {
        let Handle { is_open: _, seal } = self;
        seal.into_box()
    }
}
