//! Bounds as seen from their other side, and clones of these.
ghost use Rattle.std.specs.Prelude.{◌≡◌, IfOk, IsOk};
ghost use Rattle.std.specs.Option.{option_map};
ghost use Rattle.range_keys.specs.Position.{bound_of};
ghost use Rattle.range_algebra.specs.Clones.{IsBoundClone, SameBound};
ghost use Rattle.range_algebra.specs.Compared.{flipped};
ghost use Rattle.range_algebra.specs.Range.{ClonesAreEqual, IsBoundOfKey};
ghost use Rattle.range_runs.specs.Clones.{ClonesNeverFail};
ghost use Rattle.range_runs.specs.Edits.{flipped_bound};

use range_keys::traits::PartialEnum;
use std::alloc::AllocError;
use std::ops::Bound;

/// The bound just past a bound, on its other side.
pub fn flip<K>(bound: Bound<&K>) -> Option<Bound<&K>>
    ensures { option_map bound_of result ≡ flipped (bound_of bound.entry) }
{
    match bound {
        Bound::Included(key) => Some(Bound::Excluded(key)),
        Bound::Excluded(key) => Some(Bound::Included(key)),
        Bound::Unbounded => None,
    }
}

/// The bound on the other side of a bound: what it includes is excluded, and the other way round.
pub fn flip_bound<K>(bound: Bound<K>) -> Bound<K>
    ensures { result ≡ flipped_bound bound }
{
    match bound {
        Bound::Included(key) => Bound::Excluded(key),
        Bound::Excluded(key) => Bound::Included(key),
        Bound::Unbounded => Bound::Unbounded,
    }
}

/// Does nothing, and promises that the bound is a key.
pub fn known_bound<K: PartialEnum>(bound: &Bound<K>)
    ensures { IsBoundOfKey K.order bound.now }
{
    match bound {
        Bound::Included(key) | Bound::Excluded(key) => key.known(),
        Bound::Unbounded => (),
    }
}

/// A clone of the bound on the other side of the one that is referred to.
fn flip_clone<K: Clone>(bound: Bound<&K>) -> Result<Bound<K>, AllocError>
    ensures clone { IfOk result
        (λ copy. IsBoundClone K.is_clone (flipped_bound (bound_of bound.entry)) copy) }
    ensures succeeds { ClonesNeverFail K.is_infallible → IsOk result }
{
    Ok(match bound {
        Bound::Included(key) => Bound::Excluded(key.clone()?),
        Bound::Excluded(key) => Bound::Included(key.clone()?),
        Bound::Unbounded => Bound::Unbounded,
    })
}

/// The bound that an item has where it is cut at a bound: that one on its other side, with a clone
/// of its value.
pub fn cut_bound<K: PartialEnum + Clone>(bound: Bound<&K>) -> Result<Bound<K>, AllocError>
    requires { ClonesAreEqual K.is_clone K.eq }
    ensures known { IfOk result (λ cut. IsBoundOfKey K.order cut) }
    ensures flipped { IfOk result
        (λ cut. SameBound K.order (flipped_bound (bound_of bound.entry)) cut) }
    ensures succeeds { ClonesNeverFail K.is_infallible → IsOk result }
{
    let cut = flip_clone(bound)?;
    known_bound(&cut);
    Ok(cut)
}
