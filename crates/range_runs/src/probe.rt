//! Questions to stored items.
ghost use Rattle.std.specs.Ordering.{is_le, is_lt};
ghost use Rattle.range_keys.specs.Directed.{reference_position};
ghost use Rattle.range_keys.specs.Position.{position_cmp, start_position, end_position};

use range_algebra::any::AnyRange;
use range_keys::bound::Directed;
use range_keys::traits::PartialEnum;
use range_store::storage::{Item, Probe, Steps};
use std::ops::{Bound, RangeBounds};

/// Asks whether a range ends before a bound.
#[derive(Drop)]
pub struct EndsBefore<'a, K> {
    pub bound: Directed<Bound<&'a K>>,
    pub steps: Steps,
}

impl<'a, K: PartialEnum, V> Probe<Item<AnyRange<K>, V>> for EndsBefore<'a, K> {
    ghost test = { λ probe item. is_lt
        (position_cmp K.order.cmp (end_position K.order item.key.end)
        (reference_position K.order probe.bound)) };

    ghost steps_taken = { λ probe. probe.steps };

    fn ask(&mut self, item: &Item<AnyRange<K>, V>) -> bool {
        self.steps.tick();
        if let Directed::Start(Bound::Included(key)) = self.bound {
            match &item.key.end {
                Bound::Included(end) => return *end < *key,
                Bound::Excluded(end) => {
                    key.known();
                    return *end <= *key;
                }
                Bound::Unbounded => (),
            }
        }
        Directed::End(item.key.end_bound()) < self.bound
    }

    fn steps(&self) -> &Steps {
        &self.steps
    }

    #[inline(always)]
    fn mark(&self, item: &Item<AnyRange<K>, V>) -> bool {
        matches!(item.key.end, Bound::Unbounded)
    }
}

/// Asks whether a range starts at most at a bound.
#[derive(Drop)]
pub struct StartsBy<'a, K> {
    pub bound: Directed<Bound<&'a K>>,
    pub steps: Steps,
}

impl<'a, K: PartialEnum, V> Probe<Item<AnyRange<K>, V>> for StartsBy<'a, K> {
    ghost test = { λ probe item. is_le
        (position_cmp K.order.cmp (start_position K.order item.key.start)
        (reference_position K.order probe.bound)) };

    ghost steps_taken = { λ probe. probe.steps };

    fn ask(&mut self, item: &Item<AnyRange<K>, V>) -> bool {
        self.steps.tick();
        if let Directed::End(Bound::Included(key)) = self.bound {
            if let Bound::Included(start) = &item.key.start {
                return *start <= *key;
            }
        }
        Directed::Start(item.key.start_bound()) <= self.bound
    }

    fn steps(&self) -> &Steps {
        &self.steps
    }

    #[inline(always)]
    fn mark(&self, item: &Item<AnyRange<K>, V>) -> bool {
        matches!(item.key.start, Bound::Unbounded)
    }
}
