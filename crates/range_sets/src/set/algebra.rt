//! Two sets put together.
ghost use Rattle.std.specs.Prelude.{◌≡◌, Bool, IfOk, is_some, not};
ghost use Rattle.std.specs.Bool.{beq};
ghost use Rattle.range_algebra.specs.Range.{ClonesAreEqual};
ghost use Rattle.range_set_extend.specs.KeySets.{IsCanonicalSet};
ghost use Rattle.range_sets.specs.TwoSets.{HoldsEither, HoldsBoth, HoldsFirstAlone, HoldsJustOne, AreKept};

use super::RangeSet;
use crate::set::shared::share;
use crate::set::subtracted::subtract;
use crate::set::union::unite;
use range_algebra::any::AnyRange;
use range_keys::traits::PartialEnum;
use range_map::inner::build::map_of;
use range_map::map::{MapError, UpdateError};
use range_store::storage::{Item, Storage};

/// A test of which of two sets have a key.
trait Test {
    // What it says.
    ghost truth: { Bool → Bool → Bool };

    fn says(in_first: bool, in_second: bool) -> bool
        ensures { result ≡ truth in_first in_second };
}

/// Whether just one has it.
pub(crate) struct JustOne;

impl Test for JustOne {
    ghost truth = { λ first second. not (beq first second) };

    fn says(in_first: bool, in_second: bool) -> bool {
        in_first != in_second
    }
}

/// What the test says of a piece, as the result of a closure that puts two maps together.
fn answer<W: Test>(first: Option<&()>, second: Option<&()>) -> Result<Option<()>, MapError>
    ensures { IfOk result
        (λ answer. is_some answer ≡ W.truth (is_some first.entry) (is_some second.entry)) }
{
    if W::says(first.is_some(), second.is_some()) {
        Ok(Some(()))
    } else {
        Ok(None)
    }
}

impl<T: PartialEnum + Clone, C: Storage<Item<AnyRange<T>, ()>>> RangeSet<T, C> {
    /// A set of the keys of both sets of which the test says so.
    fn kept<W: Test, D: Storage<Item<AnyRange<T>, ()>>>(
        &self,
        other: &RangeSet<T, D>,
    ) -> Result<Self, MapError>
        requires { ClonesAreEqual T.is_clone T.eq }
        ensures kept { IfOk result
            (λ new. AreKept T.order (C.items self.now) (D.items other.now) (C.items new) W.truth) }
        ensures canonical { IfOk result (λ new. IsCanonicalSet T.order (C.items new)) }
    {
        match self
            .map
            .combine(&other.map, |first, second| answer::<W>(first, second))
        {
            Ok(map) => Ok(RangeSet {
                map,
                alloc: self.alloc,
            }),
            Err(UpdateError::Closure(error)) => Err(error),
            Err(UpdateError::Memory) => Err(MapError::Memory),
        }
    }

    /// A set of the keys that are in this set, in the other, or in both, whatever containers they
    /// are kept in.
    ///
    /// Allocates a list of its ranges with clones of their bounds, and then what its container needs
    /// for them; fails where an allocation is refused. Goes once over both sets, and searches
    /// neither.
    ///
    /// ```
    /// // of a set of the keys 0..=5, and one of the keys 4..9
    /// let either = set.union(other)?;
    /// assert!(rt; either.len() == 9); // 0..9
    /// ```
    pub fn union<D: Storage<Item<AnyRange<T>, ()>>>(
        &self,
        other: &RangeSet<T, D>,
    ) -> Result<Self, MapError>
        requires { ClonesAreEqual T.is_clone T.eq }
        ensures held { IfOk result
            (λ new. HoldsEither T.order (C.items self.now) (D.items other.now) (C.items new)) }
        ensures canonical { IfOk result (λ new. IsCanonicalSet T.order (C.items new)) }
    {
        let mut ranges = Vec::new(self.alloc);
        unite(&mut ranges, self, other)?;
        Ok(RangeSet {
            map: map_of(self.alloc, ranges)?,
            alloc: self.alloc,
        })
    }

    /// A set of the keys that are in both sets, whatever containers they are kept in.
    ///
    /// Allocates a list of its ranges with clones of their bounds, and then what its container needs
    /// for them; fails where an allocation is refused. Goes once over both sets, and searches
    /// neither.
    ///
    /// ```
    /// // of a set of the keys 0..=5, and one of the keys 4..9
    /// let both = set.intersection(other)?;
    /// assert!(rt; both.len() == 2); // 4..=5
    /// ```
    pub fn intersection<D: Storage<Item<AnyRange<T>, ()>>>(
        &self,
        other: &RangeSet<T, D>,
    ) -> Result<Self, MapError>
        requires { ClonesAreEqual T.is_clone T.eq }
        ensures held { IfOk result
            (λ new. HoldsBoth T.order (C.items self.now) (D.items other.now) (C.items new)) }
        ensures canonical { IfOk result (λ new. IsCanonicalSet T.order (C.items new)) }
    {
        let mut ranges = Vec::new(self.alloc);
        share(&mut ranges, self, other)?;
        Ok(RangeSet {
            map: map_of(self.alloc, ranges)?,
            alloc: self.alloc,
        })
    }

    /// A set of the keys of this set that are not in the other, whatever containers they are kept
    /// in.
    ///
    /// Allocates a list of its ranges with clones of their bounds, and then what its container needs
    /// for them; fails where an allocation is refused. Goes once over both sets, and searches
    /// neither.
    ///
    /// ```
    /// // of a set of the keys 0..=5, and one of the keys 4..9
    /// let first = set.difference(other)?;
    /// assert!(rt; first.len() == 4); // 0..4
    /// ```
    pub fn difference<D: Storage<Item<AnyRange<T>, ()>>>(
        &self,
        other: &RangeSet<T, D>,
    ) -> Result<Self, MapError>
        requires { ClonesAreEqual T.is_clone T.eq }
        ensures held { IfOk result
            (λ new. HoldsFirstAlone T.order (C.items self.now) (D.items other.now)
            (C.items new)) }
        ensures canonical { IfOk result (λ new. IsCanonicalSet T.order (C.items new)) }
    {
        let mut ranges = Vec::new(self.alloc);
        subtract(&mut ranges, self, other)?;
        Ok(RangeSet {
            map: map_of(self.alloc, ranges)?,
            alloc: self.alloc,
        })
    }

    /// A set of the keys that are in just one of the two sets, whatever containers they are kept
    /// in.
    ///
    /// Allocates a list of its ranges with clones of their bounds, and then what its container needs
    /// for them; fails where an allocation is refused. Goes once over both sets, and searches
    /// neither.
    ///
    /// ```
    /// // of a set of the keys 0..=5, and one of the keys 4..9
    /// let just_one = set.symmetric_difference(other)?;
    /// assert!(rt; just_one.len() == 7); // 0..4 and 6..9
    /// ```
    pub fn symmetric_difference<D: Storage<Item<AnyRange<T>, ()>>>(
        &self,
        other: &RangeSet<T, D>,
    ) -> Result<Self, MapError>
        requires { ClonesAreEqual T.is_clone T.eq }
        ensures held { IfOk result
            (λ new. HoldsJustOne T.order (C.items self.now) (D.items other.now) (C.items new)) }
        ensures canonical { IfOk result (λ new. IsCanonicalSet T.order (C.items new)) }
    {
        self.kept::<JustOne, D>(other)
    }
}
