//! The stored ranges with their values, from both ends.
ghost use Rattle.std.specs.Prelude.{◌≡◌, ◌+◌, ◌<◌, length, take, drop, IfSome, List, Some, ⊤};
ghost use Rattle.std.specs.Iterator.{UpTo, YieldsFirstBy, YieldsLastBy, at_most, item_count};
ghost use Rattle.std.specs.Iterator.SizeHint.{IsWithinCount};
ghost use Rattle.range_algebra.specs.declared.any.AnyRange.{AnyRange};
ghost use Rattle.range_store.specs.declared.storage.Item.{Item};
ghost use Rattle.range_reads.specs.Iteration.{shown_item};

use range_algebra::any::AnyRange;
use range_store::storage::{Item, Run, Storage};
use std::alloc::AllocError;
use std::marker::{Model, PhantomData};

/// The stored ranges that are left, each with its value, in order. A contract sees their list.
#[derive(Drop)]
pub struct Iter<'a, K: 'a, V: 'a, C: Storage<Item<AnyRange<K>, V>> + 'a> {
    stored: &'a C,
    // The next items, and the position after them.
    run: Run<'a, Item<AnyRange<K>, V>>,
    front: Option<C::Position>,
    back: Option<C::Position>,
    left: usize,
    item: PhantomData<(K, V)>,
}

impl<'a, K: 'a, V: 'a, C: Storage<Item<AnyRange<K>, V>> + 'a> Model for Iter<'a, K, V, C> {
    ghost use Rattle.std.specs.Prelude.{◌-◌, take, drop, List};
    ghost use Rattle.range_algebra.specs.declared.any.AnyRange.{AnyRange};
    ghost use Rattle.range_store.specs.declared.storage.Item.{Item};
    ghost use Rattle.range_reads.specs.Iteration.{IsIterator};
    ghost use Rattle.range_runs.specs.Window.{index_after};

    ghost Value = { List (Item (AnyRange K) V) };

    ghost view = { λ i. take i.left
        (drop (index_after (C.rank i.stored.now) i.back - i.left) (C.items i.stored.now)) };

    ghost invariant = { λ i. IsIterator (C.items i.stored.now) (C.is_good i.stored.now)
        (C.rank i.stored.now) i.run i.front i.back i.left };
}

impl<'a, K: 'a, V: 'a, C: Storage<Item<AnyRange<K>, V>> + 'a> Iter<'a, K, V, C> {
    /// All items of a container.
    pub fn new(stored: &'a C) -> Self
        ensures { result ≡ C.items stored.now }
    {
        Iter {
            stored,
            run: Run::of_items(&[]),
            front: stored.first(),
            back: stored.last(),
            left: stored.len(),
            item: PhantomData,
        }
    }
}

/// A clone has the same items left. It allocates nothing and never fails.
impl<'a, K: 'a, V: 'a, C: Storage<Item<AnyRange<K>, V>> + 'a> Clone for Iter<'a, K, V, C> {
    ghost is_clone = { λ iter copy. copy ≡ iter };

    ghost is_infallible = { λ _. ⊤ };

    fn clone(&self) -> Result<Self, AllocError> {
        Ok(Iter {
            stored: self.stored,
            run: self.run.clone()?,
            front: self.front,
            back: self.back,
            left: self.left,
            item: PhantomData,
        })
    }
}

impl<'a, K: 'a, V: 'a, C: Storage<Item<AnyRange<K>, V>> + 'a> Iterator for Iter<'a, K, V, C> {
    type Item = (&'a AnyRange<K>, &'a V);

    ghost next_gives = { YieldsFirstBy shown_item (λ rest. rest) };

    ghost remaining = { item_count (λ rest. rest) };

    #[inline(always)]
    fn next(&mut self) -> Option<(&'a AnyRange<K>, &'a V)> {
        if self.left == 0 {
            return None;
        }
        let item = match self.run.next() {
            Some(item) => item,
            None => {
                let Some(p) = self.front else { unreachable!() };
                let chunk = self.stored.chunk_from(p);
                self.run = chunk.rest;
                self.front = chunk.after;
                chunk.first
            }
        };
        self.left -= 1;
        Some((&item.key, &item.value))
    }

    fn size_hint(&self) -> (usize, Option<usize>)
        ensures lower { IsWithinCount result.0 (at_most (length self.now)) }
        ensures upper { IfSome result.1 (UpTo (at_most (length self.now))) }
        ensures exact { result ≡ (length self.now, Some (length self.now)) }
    {
        (self.left, Some(self.left))
    }
}

impl<'a, K: 'a, V: 'a, C: Storage<Item<AnyRange<K>, V>> + 'a> DoubleEndedIterator
    for Iter<'a, K, V, C> {
    ghost next_back_gives = { YieldsLastBy shown_item (λ rest. rest) };

    fn next_back(&mut self) -> Option<(&'a AnyRange<K>, &'a V)> {
        if self.left == 0 {
            return None;
        }
        match self.back {
            Some(p) => {
                let item = self.stored.get(p);
                self.back = self.stored.prev(p);
                self.left -= 1;
                Some((&item.key, &item.value))
            }
            None => unreachable!(),
        }
    }
}

impl<'a, K: 'a, V: 'a, C: Storage<Item<AnyRange<K>, V>> + 'a> ExactSizeIterator
    for Iter<'a, K, V, C> {
    fn len(&self) -> usize {
        self.left
    }
}
