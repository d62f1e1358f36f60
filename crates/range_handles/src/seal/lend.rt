//! The collection behind a seal.
ghost use Rattle.std.specs.Borrow.{sem};
ghost use Rattle.std.specs.Prelude.{◌≡◌, Some, IsSome};
ghost use Rattle.range_handles.specs.Lending.{LendsHeld};

use crate::collection::Collection;
use crate::seal::Seal;

impl Seal {
    /// The collection in the box, which stays where it is.
    pub fn as_mut(&mut self) -> &mut Collection
        requires { IsSome self.old.held }
        ensures* written { sem 𝓛 (LendsHeld self.entry result) }
        ensures held { self.old.held ≡ Some result.now }
    {
        unsafe { &mut *(self.ptr as *mut Collection) }
    }
}
