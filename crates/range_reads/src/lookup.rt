//! Look-ups in a container.
ghost use Rattle.std.specs.Prelude.{◌≡◌, ◌↔◌, ◌+◌, [], IfSome, IsTrue};
ghost use Rattle.std.specs.Option.{option_map};
ghost use Rattle.range_keys.specs.Order.{IsComplete};
ghost use Rattle.range_store.specs.Counting.{AddsSteps};
ghost use Rattle.range_algebra.specs.Range.{IsEmptyRange};
ghost use Rattle.range_runs.specs.Bindings.{Binds, IsItemFor};
ghost use Rattle.range_runs.specs.Lookups.{MeetsSome, BindsKeyOf};
ghost use Rattle.range_runs.specs.Stored.{IsStored};

use range_algebra::any::AnyRange;
use range_algebra::inner;
use range_algebra::range::AsRange;
use range_keys::bound::Directed;
use range_keys::traits::{Measure, PartialEnum};
use range_runs::window::{ends_before, find_last_started};
use range_store::storage::{Item, Steps, Storage};
use std::ops::Bound;

/// The stored item whose range holds the key; adds the steps that it takes to find it.
pub fn stored_for<'a, K: PartialEnum, V: Eq + Drop, C: Storage<Item<AnyRange<K>, V>>>(
    stored: &'a C,
    key: K,
    steps: &mut Steps,
) -> Option<&'a Item<AnyRange<K>, V>>
    requires { IsStored K.order V.eq (C.items stored.now) }
    ensures value { Binds K.order V.eq (C.items stored.now) key
        (option_map (λ i. i.now.value) result) }
    ensures stored { IfSome result (λ i. IsItemFor K.order (C.items stored.now) key i.now) }
    ensures counted { AddsSteps steps.old steps.new (C.least_asks stored.now)
        (C.most_asks stored.now + 1) }
    ensures none { C.items stored.now ≡ [] → AddsSteps steps.old steps.new 0 0 }
{
    key.known();
    let end = Directed::End(Bound::Included(&key));
    let last = find_last_started::<K, V, C>(stored, &end, steps);
    match last {
        None => None,
        Some(p) => {
            let item = stored.get(p);
            let start = Directed::Start(Bound::Included(&key));
            if ends_before::<K, V>(item, &start, steps) {
                None
            } else {
                Some(item)
            }
        }
    }
}

/// Whether the range is nonempty and meets a stored one; adds the steps that it takes.
#[inline]
pub fn meets_some<K: Measure, V: Eq + Drop, C: Storage<Item<AnyRange<K>, V>>, R: AsRange<Item = K>>(
    stored: &C,
    range: &R,
    steps: &mut Steps,
) -> bool
    requires { IsStored K.order V.eq (C.items stored.now) }
    ensures meets { IsTrue result
        ↔ (¬ IsEmptyRange K.order (R.range range.now))
        × MeetsSome K.order (C.items stored.now) (R.range range.now) }
    ensures bound { BindsKeyOf K.order (C.items stored.now) (R.range range.now) → IsTrue result }
    ensures complete { IsComplete K.order → IsTrue result
        → BindsKeyOf K.order (C.items stored.now) (R.range range.now) }
    ensures counted { ¬ IsEmptyRange K.order (R.range range.now)
        → AddsSteps steps.old steps.new (C.least_asks stored.now) (C.most_asks stored.now + 1) }
    ensures none { C.items stored.now ≡ [] → AddsSteps steps.old steps.new 0 0 }
    ensures empty_uncounted { IsEmptyRange K.order (R.range range.now) → steps.new ≡ steps.old }
{
    inner::known_range(range);
    if range.is_empty() {
        return false;
    }
    let end = Directed::End(range.end());
    let nearest = find_last_started::<K, V, C>(stored, &end, steps);
    match nearest {
        None => false,
        Some(p) => {
            let start = Directed::Start(range.start());
            !ends_before::<K, V>(stored.get(p), &start, steps)
        }
    }
}
