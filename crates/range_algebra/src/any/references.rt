//! Ranges over references to keys, as the parts of ranges are.

ghost use Rattle.std.specs.Prelude.{◌↔◌, IsTrue, MatchResult};
ghost use Rattle.range_keys.specs.Order.{IsComplete};
ghost use Rattle.range_algebra.specs.Clones.{IsRangeClone, IsRangeInfallible};
ghost use Rattle.range_algebra.specs.Range.{IsEmptyRange, IsKeyless};
ghost use Rattle.range_algebra.specs.References.{range_of};

use crate::any::AnyRange;
use crate::inner;
use crate::range::AsRange;
use range_keys::traits::PartialEnum;
use std::alloc::AllocError;

impl<T: Clone> AnyRange<T> {
    /// The range by its bounds, which are cloned.
    ///
    /// Allocates what clones of the keys do, and fails only where one of them fails.
    pub fn from<R: AsRange<Item = T>>(range: R) -> Result<AnyRange<T>, AllocError>
        ensures { MatchResult result (IsRangeClone T.is_clone (R.range range))
            (λ _. ¬ IsRangeInfallible T.is_infallible (R.range range)) }
    {
        Ok(AnyRange {
            start: inner::clone_of(range.start())?,
            end: inner::clone_of(range.end())?,
        })
    }
}

impl<'a, T: Clone> AnyRange<&'a T> {
    /// The same range over clones of the keys.
    ///
    /// Allocates what clones of the keys do, and fails only where one of them fails.
    pub fn cloned(self) -> Result<AnyRange<T>, AllocError>
        ensures { MatchResult result (IsRangeClone T.is_clone (range_of self.entry))
            (λ _. ¬ IsRangeInfallible T.is_infallible (range_of self.entry)) }
    {
        Ok(AnyRange {
            start: inner::clone_of(self.start)?,
            end: inner::clone_of(self.end)?,
        })
    }
}

impl<'a, T: PartialEnum> AnyRange<&'a T> {
    /// Whether the start lies past the end, so that no key is held.
    pub fn ref_is_empty(&self) -> bool
        ensures by_position { IsTrue result ↔ IsEmptyRange T.order (range_of self.now) }
        ensures keyless { IsTrue result → IsKeyless T.order (range_of self.now) }
        ensures complete { IsComplete T.order → IsKeyless T.order (range_of self.now)
            → IsTrue result }
    {
        inner::known_bound(self.start);
        inner::known_bound(self.end);
        inner::starts_past_end(self.start, self.end)
    }
}
