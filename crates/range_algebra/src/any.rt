//! Ranges by their two bounds.

ghost use Rattle.std.specs.Prelude.{◌≡◌, ◌↔◌, ◌⊎◌, ⊤, IsTrue, IfOk, OnErr, IfSome, IfNone, MatchResult, Ok, None};
ghost use Rattle.range_algebra.specs.Extremes.{IsLeastOf, IsGreatestOf, HasNoLeast, HasNoGreatest};
ghost use Rattle.range_algebra.specs.Clones.{IsBoundClone, IsBoundInfallible, IsIncludedInfallible};
ghost use Rattle.std.specs.declared.cmp.Ordering.TheVariants.{Equal};
ghost use Rattle.std.specs.Option.{option_or};
ghost use Rattle.range_keys.specs.Order.{IsComplete, SameAnswer};
ghost use Rattle.range_algebra.specs.Range.{IsEmptyRange, IsKeyless, Holds, HoldSame, LiesWithin, IsKeyRange, ClonesAreEqual, start_key, end_key};
ghost use Rattle.std.proofs.Common.{refl, ap, ◌∙◌};
ghost use Rattle.std.specs.Ordering.{eq_by_cmp, as_partial_cmp, is_eq};
ghost use Rattle.std.specs.Cmp.{eq_by_cmp_equiv, partial_equiv_from_equiv, partial_order_from_total};
ghost use Rattle.range_algebra.specs.RangeOrder.{range_cmp, range_total, range_input, range_respects};

mod combined;
mod conversion;
mod references;
mod text;

use crate::inner;
use crate::inner::clone_bound;
use range_keys::bound::Directed;
use range_keys::traits::{Bounded, MaybeBounded, PartialEnum};
use std::alloc::AllocError;
use std::cmp::Ordering;
use std::hash::{Hash, Hasher};
use std::ops::{Bound, RangeBounds};

/// A range with any start and any end.
///
/// A range holds the keys that both its bounds hold. One whose start lies past its end, as from 8
/// to 3, is empty, and so is the one from excluded 255 on over `u8`. Ranges are compared by the
/// positions of their bounds. A neighbour or an end that the key type has takes the place of an
/// excluded or an unbounded bound. So over `u8` the full range equals that from 0 to 255, both
/// included. The order is by the start, then by the end.
///
/// ```text
/// let range: AnyRange<i32> = (0..10).into();
/// assert!(range == AnyRange::new(Bound::Included(0), Bound::Included(9)));
/// assert!(range.len() == 10);
/// ```
#[derive(Drop)]
pub struct AnyRange<T> {
    /// Where the keys start.
    pub start: Bound<T>,
    /// Where the keys end.
    pub end: Bound<T>,
}

impl<T: Copy> Copy for AnyRange<T> {}

impl<T: Clone> Clone for AnyRange<T> {
    ghost is_clone = { λ r s. IsBoundClone T.is_clone r.start s.start
        × IsBoundClone T.is_clone r.end s.end };

    ghost is_infallible = { λ r. IsBoundInfallible T.is_infallible r.start
        × IsBoundInfallible T.is_infallible r.end };

    fn clone(&self) -> Result<AnyRange<T>, AllocError> {
        Ok(AnyRange {
            start: clone_bound(&self.start)?,
            end: clone_bound(&self.end)?,
        })
    }
}

impl<T> AnyRange<T> {
    /// The range from the start to the end, whichever of the two is greater.
    pub fn new(start: Bound<T>, end: Bound<T>) -> AnyRange<T>
        ensures start { result.start ≡ start }
        ensures end { result.end ≡ end }
    {
        AnyRange { start, end }
    }

    /// The start and the end, as they were given.
    pub fn into_bounds(self) -> (Bound<T>, Bound<T>)
        ensures start { result.0 ≡ self.start }
        ensures end { result.1 ≡ self.end }
    {
        (self.start, self.end)
    }
}

impl<T: Drop> RangeBounds<T> for AnyRange<T> {
    ghost has_bounds = { λ _. ⊤ };

    ghost start_bound = { λ r. r.start };

    ghost end_bound = { λ r. r.end };

    fn start_bound(&self) -> Bound<&T> {
        match &self.start {
            Bound::Included(key) => Bound::Included(key),
            Bound::Excluded(key) => Bound::Excluded(key),
            Bound::Unbounded => Bound::Unbounded,
        }
    }

    fn end_bound(&self) -> Bound<&T> {
        match &self.end {
            Bound::Included(key) => Bound::Included(key),
            Bound::Excluded(key) => Bound::Excluded(key),
            Bound::Unbounded => Bound::Unbounded,
        }
    }
}

impl<T: PartialEnum> AnyRange<T> {
    /// Whether the start lies past the end, so that no key is held.
    ///
    /// Over complete keys, as integers and characters, a range that holds no key is empty. Over
    /// other keys it need not be.
    pub fn is_empty(&self) -> bool
        ensures by_position { IsTrue result ↔ IsEmptyRange T.order self.now }
        ensures keyless { IsTrue result → IsKeyless T.order self.now }
        ensures complete { IsComplete T.order → IsKeyless T.order self.now → IsTrue result }
    {
        inner::known(self);
        inner::starts_past_end(self.start_bound(), self.end_bound())
    }
}

impl<T: PartialEnum + Bounded + Clone> AnyRange<T> {
    /// The least key of the range, or `None` where the range is empty or its start names no key.
    ///
    /// An included start is cloned, so the call allocates what a clone of a key does, and fails
    /// only where the clone fails. It never fails at an excluded or unbounded start, nor of an
    /// empty range.
    pub fn first(&self) -> Result<Option<T>, AllocError>
        requires clones { ClonesAreEqual T.is_clone T.eq }
        ensures empty { IsEmptyRange T.order self.now → result ≡ Ok None }
        ensures nonempty { ¬ IsEmptyRange T.order self.now
            → IfOk result (λ key. SameAnswer T.order (start_key T.order self.now.start) key) }
        ensures least { IfOk result (λ key. IfSome key (IsLeastOf T.order self.now)) }
        ensures complete { IsComplete T.order
            → IfOk result (λ key. IfNone key (HasNoLeast T.order self.now)) }
        ensures fails { OnErr result (¬ IsIncludedInfallible T.is_infallible self.now.start) }
    {
        inner::known(self);
        if self.is_empty() {
            return Ok(None);
        }
        key_of_start(&self.start)
    }

    /// The greatest key of the range, or `None` where the range is empty or its end names no key.
    ///
    /// An included end is cloned, so the call allocates what a clone of a key does, and fails only
    /// where the clone fails. It never fails at an excluded or unbounded end, nor of an empty
    /// range.
    pub fn last(&self) -> Result<Option<T>, AllocError>
        requires clones { ClonesAreEqual T.is_clone T.eq }
        ensures empty { IsEmptyRange T.order self.now → result ≡ Ok None }
        ensures nonempty { ¬ IsEmptyRange T.order self.now
            → IfOk result (λ key. SameAnswer T.order (end_key T.order self.now.end) key) }
        ensures greatest { IfOk result (λ key. IfSome key (IsGreatestOf T.order self.now)) }
        ensures complete { IsComplete T.order
            → IfOk result (λ key. IfNone key (HasNoGreatest T.order self.now)) }
        ensures fails { OnErr result (¬ IsIncludedInfallible T.is_infallible self.now.end) }
    {
        inner::known(self);
        if self.is_empty() {
            return Ok(None);
        }
        key_of_end(&self.end)
    }
}

impl<T: PartialEnum + Bounded + Clone> AnyRange<T> {
    /// The least and the greatest key of the range, or `None` where the range is empty or one of
    /// its bounds names no key.
    ///
    /// Included bounds are cloned, so the call allocates what clones of their keys do, and fails
    /// only where such a clone fails.
    ///
    /// ```
    /// let range: AnyRange<i32> = (0..10).into();
    /// assert!(rt; range.first_and_last()? == Some((0, 9)));
    /// ```
    pub fn first_and_last(&self) -> Result<Option<(T, T)>, AllocError>
        requires clones { ClonesAreEqual T.is_clone T.eq }
        ensures empty { IsEmptyRange T.order self.now → result ≡ Ok None }
        ensures least { IfOk result
            (λ keys. IfSome keys (λ pair. IsLeastOf T.order self.now pair.0)) }
        ensures greatest { IfOk result
            (λ keys. IfSome keys (λ pair. IsGreatestOf T.order self.now pair.1)) }
        ensures complete { IsComplete T.order → IfOk result (λ keys. IfNone keys
            (HasNoLeast T.order self.now ⊎ HasNoGreatest T.order self.now)) }
        ensures fails { OnErr result (¬ IsIncludedInfallible T.is_infallible self.now.start
            ⊎ ¬ IsIncludedInfallible T.is_infallible self.now.end) }
    {
        let first = self.first()?;
        let last = self.last()?;
        Ok(first.zip(last))
    }

    /// A key of the range: the least, or else the greatest, or `None` where the range is empty or
    /// its bounds name no key. Allocates what a clone of an included bound's key does, and fails
    /// only where that fails.
    pub fn pick(&self) -> Result<Option<T>, AllocError>
        requires clones { ClonesAreEqual T.is_clone T.eq }
        ensures empty { IsEmptyRange T.order self.now → result ≡ Ok None }
        ensures nonempty { ¬ IsEmptyRange T.order self.now
            → IfOk result (λ key. SameAnswer T.order
            (option_or (start_key T.order self.now.start) (end_key T.order self.now.end)) key) }
        ensures held { IfOk result (λ key. IfSome key (Holds T.order self.now)) }
        ensures fails { OnErr result (¬ IsIncludedInfallible T.is_infallible self.now.start
            ⊎ ¬ IsIncludedInfallible T.is_infallible self.now.end) }
    {
        match self.first()? {
            Some(key) => Ok(Some(key)),
            None => self.last(),
        }
    }
}

/// The least key that the start bound names, where it is known.
fn key_of_start<T: PartialEnum + Bounded + Clone>(start: &Bound<T>) -> Result<Option<T>, AllocError>
    requires { ClonesAreEqual T.is_clone T.eq }
    ensures named { IfOk result (SameAnswer T.order (start_key T.order start.now)) }
    ensures fails { OnErr result (¬ IsIncludedInfallible T.is_infallible start.now) }
{
    Ok(match start {
        Bound::Included(key) => Some(key.clone()?),
        Bound::Excluded(key) => key.succ(),
        Bound::Unbounded => Some(<T as Bounded>::min()),
    })
}

/// The greatest key that the end bound names, where it is known.
fn key_of_end<T: PartialEnum + Bounded + Clone>(end: &Bound<T>) -> Result<Option<T>, AllocError>
    requires { ClonesAreEqual T.is_clone T.eq }
    ensures named { IfOk result (SameAnswer T.order (end_key T.order end.now)) }
    ensures fails { OnErr result (¬ IsIncludedInfallible T.is_infallible end.now) }
{
    Ok(match end {
        Bound::Included(key) => Some(key.clone()?),
        Bound::Excluded(key) => key.pred(),
        Bound::Unbounded => Some(<T as Bounded>::max()),
    })
}

impl<T: PartialEnum> PartialEq for AnyRange<T> {
    ghost eq = { eq_by_cmp (range_cmp T.order) };

    ghost laws = { partial_equiv_from_equiv (eq_by_cmp_equiv (range_total T.order T.lawful)) };

    fn eq(&self, other: &AnyRange<T>) -> bool
        ensures value { result ≡ eq_by_cmp (range_cmp T.order) self.now other.now }
        ensures same { IsTrue result → HoldSame T.order self.now other.now }
        ensures complete { IsComplete T.order → ¬ IsEmptyRange T.order self.now
            → ¬ IsEmptyRange T.order other.now → HoldSame T.order self.now other.now
            → IsTrue result }
    {
        inner::known(self);
        inner::known(other);
        self.cmp(other) == Ordering::Equal
    }
}

impl<T: PartialEnum> Eq for AnyRange<T> {
    ghost laws = { eq_by_cmp_equiv (range_total T.order T.lawful) };
}

impl<T: PartialEnum> PartialOrd for AnyRange<T> {
    ghost partial_cmp = { as_partial_cmp (range_cmp T.order) };

    ghost laws = { partial_order_from_total (range_total T.order T.lawful) };

    fn partial_cmp(&self, other: &AnyRange<T>) -> Option<Ordering> {
        Some(self.cmp(other))
    }
}

impl<T: PartialEnum> Ord for AnyRange<T> {
    ghost cmp = { range_cmp T.order };

    ghost total = { range_total T.order T.lawful };

    ghost matches_partial_cmp = { λ a b. refl };

    ghost matches_eq = { λ a b. refl };

    fn cmp(&self, other: &AnyRange<T>) -> Ordering {
        let starts = Directed::Start(self.start_bound()).cmp(&Directed::Start(other.start_bound()));
        starts.then(Directed::End(self.end_bound()).cmp(&Directed::End(other.end_bound())))
    }
}

impl<T: PartialEnum + Hash> Hash for AnyRange<T> {
    ghost hash_input = { range_input T.order T.hash_input };

    ghost respects_eq = { range_respects T.order T.hash_input
        (λ a b f. T.respects_eq a b (T.matches_eq a b ∙ ap is_eq (T.order_is_cmp a b ∙ f))) };

    fn hash<H: Hasher>(&self, state: &mut H) {
        Directed::Start(self.start_bound()).hash(state);
        Directed::End(self.end_bound()).hash(state);
    }
}
