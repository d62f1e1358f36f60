//! The common part and the hull of ranges.

ghost use Rattle.std.specs.Prelude.{◌≡◌, ◌↔◌, IsTrue, IsFalse, IfOk, OnOk, OnErr, unwrap_or};
ghost use Rattle.range_keys.specs.Order.{IsComplete};
ghost use Rattle.range_keys.specs.Position.{bound_of};
ghost use Rattle.range_algebra.specs.Clones.{SameBound, IsBoundInfallible, IsRangeInfallible};
ghost use Rattle.range_algebra.specs.Combined.{earlier_start, later_end, common};
ghost use Rattle.range_algebra.specs.Compared.{starts_past_end};
ghost use Rattle.range_algebra.specs.Range.{ClonesAreEqual, with_bounds};
ghost use Rattle.range_algebra.specs.Relations.{Meets, ShareKey, TellsOfNonempty, HoldsShared, HoldsHull};

use crate::any::AnyRange;
use crate::{cutting, inner};
use range_keys::bound::Directed;
use range_keys::traits::PartialEnum;
use std::alloc::AllocError;
use std::ops::{Bound, RangeBounds};

impl<T: PartialEnum> AnyRange<T> {
    /// Whether the end of each range is at or after the start of the other.
    ///
    /// Two nonempty ranges intersect where that is so, as `AsRange::intersects` says; over complete
    /// keys, where some key is in both. Where one of the two is empty the calls may answer
    /// differently, as for `8..3` and `5..10`: the start of the one is within the other, its end is
    /// not.
    ///
    /// ```text
    /// let empty: AnyRange<i32> = (8..3).into();
    /// empty.intersects(&(5..10))               false
    /// AsRange::intersects(&empty, &(5..10))    true
    /// ```
    pub fn intersects<S: RangeBounds<T>>(&self, other: &S) -> bool
        ensures by_position { S.has_bounds other.now → IsTrue result
            ↔ (IsFalse (starts_past_end T.order self.now.start (S.end_bound other.now))
            × IsFalse (starts_past_end T.order (S.start_bound other.now) self.now.end)) }
        ensures meets { S.has_bounds other.now
            → TellsOfNonempty T.order result (Meets T.order) self.now
            (with_bounds (S.start_bound other.now) (S.end_bound other.now)) }
        ensures complete { S.has_bounds other.now → IsComplete T.order
            → TellsOfNonempty T.order result (ShareKey T.order) self.now
            (with_bounds (S.start_bound other.now) (S.end_bound other.now)) }
    {
        let (start, end) = (other.start_bound(), other.end_bound());
        inner::known(self);
        inner::known_bound(start);
        inner::known_bound(end);
        !inner::starts_past_end(self.start_bound(), end)
            && !inner::starts_past_end(start, self.end_bound())
    }
}

impl<T: PartialEnum + Clone> AnyRange<T> {
    /// What the two ranges have in common, with clones of the bounds.
    ///
    /// Allocates what clones of the keys do, and fails only where one of them fails.
    pub fn intersection(&self, other: &AnyRange<T>) -> Result<AnyRange<T>, AllocError>
        requires clones { ClonesAreEqual T.is_clone T.eq }
        ensures start { IfOk result
            (λ r. SameBound T.order (common T.order self.now other.now).start r.start) }
        ensures end { IfOk result
            (λ r. SameBound T.order (common T.order self.now other.now).end r.end) }
        ensures held { IfOk result (HoldsShared T.order self.now other.now) }
        ensures fails { OnErr result
            (¬ IsRangeInfallible T.is_infallible (common T.order self.now other.now)) }
    {
        let own = cutting::by_reference(self);
        let others = cutting::by_reference(other);
        cutting::common(own, others).cloned()
    }

    /// Widens the range to the hull of it and the other: the earlier start and the later end.
    ///
    /// A hole between the two is included: `0..3` becomes `0..10` by `add(&(8..10))`. The bounds of
    /// the other are cloned where they are taken. Allocates what such a clone does; fails only
    /// where one fails, and leaves the range as it was then.
    pub fn add<S: RangeBounds<T>>(&mut self, other: &S) -> Result<(), AllocError>
        requires clones { ClonesAreEqual T.is_clone T.eq }
        ensures start { S.has_bounds other.now
            → OnOk result (SameBound T.order
            (earlier_start T.order self.old.start (S.start_bound other.now)) self.new.start) }
        ensures end { S.has_bounds other.now
            → OnOk result (SameBound T.order
            (later_end T.order self.old.end (S.end_bound other.now)) self.new.end) }
        ensures held { S.has_bounds other.now → OnOk result (HoldsHull T.order self.old
            (with_bounds (S.start_bound other.now) (S.end_bound other.now)) self.new) }
        ensures refused { OnErr result (self.new ≡ self.old) }
        ensures fails { S.has_bounds other.now
            → OnErr result (¬ IsRangeInfallible T.is_infallible
            (with_bounds (S.start_bound other.now) (S.end_bound other.now))) }
    {
        let start = start_to_take(self.start_bound(), other.start_bound())?;
        let end = end_to_take(self.end_bound(), other.end_bound())?;
        put(&mut self.start, start);
        put(&mut self.end, end);
        Ok(())
    }
}

/// A clone of the other start, unless the own one is earlier.
fn start_to_take<T: PartialEnum + Clone>(
    own: Bound<&T>,
    other: Bound<&T>,
) -> Result<Option<Bound<T>>, AllocError>
    requires { ClonesAreEqual T.is_clone T.eq }
    ensures taken { IfOk result (λ taken. SameBound T.order
        (earlier_start T.order (bound_of own.entry) (bound_of other.entry))
        (unwrap_or taken (bound_of own.entry))) }
    ensures fails { OnErr result (¬ IsBoundInfallible T.is_infallible (bound_of other.entry)) }
{
    if Directed::Start(own).cmp(&Directed::Start(other)).is_lt() {
        Ok(None)
    } else {
        Ok(Some(inner::clone_of(other)?))
    }
}

/// A clone of the other end, unless the own one is later.
fn end_to_take<T: PartialEnum + Clone>(
    own: Bound<&T>,
    other: Bound<&T>,
) -> Result<Option<Bound<T>>, AllocError>
    requires { ClonesAreEqual T.is_clone T.eq }
    ensures taken { IfOk result (λ taken. SameBound T.order
        (later_end T.order (bound_of own.entry) (bound_of other.entry))
        (unwrap_or taken (bound_of own.entry))) }
    ensures fails { OnErr result (¬ IsBoundInfallible T.is_infallible (bound_of other.entry)) }
{
    if Directed::End(own).cmp(&Directed::End(other)).is_gt() {
        Ok(None)
    } else {
        Ok(Some(inner::clone_of(other)?))
    }
}

/// Replaces the bound by the new one, if there is one.
fn put<T: Drop>(place: &mut Bound<T>, new: Option<Bound<T>>)
    ensures { place.new ≡ unwrap_or new place.old }
{
    if let Some(bound) = new {
        *place = bound;
    }
}
