//! An ordered container, seen as a list of items with capacity to spare, and a probe that searches
//! it.
ghost use Rattle.std.specs.Prelude.{◌≡◌, ℕ, ◌+◌, ◌-◌, ◌^◌, ◌<◌, ◌≤◌, List, Bool, true, false, [], ◌∷◌, ◌++◌, length, map, take, drop, slice_index_or, slice_set, insert, remove, IsTrue, IsSome, Some, IfSome, IfNone, IsOk, OnOk, OnErr, IfOk, MatchOption, All, min, Option, ⊤};
ghost use Rattle.std.specs.List.Sorted.{IsPartitionedBy, IsPartitionPoint};
ghost use Rattle.std.specs.List.{AllZip};
ghost use Rattle.std.specs.Option.{ForSome};
ghost use Rattle.std.specs.Borrow.{Lends, sem};
ghost use Rattle.range_store.specs.Counting.{one_step_after, AddsSteps, greatest_count};
ghost use Rattle.range_store.specs.ListRanks.{rank_or_len, IsAt, IsFrontOf};

use std::alloc::{AllocError, Global};
use std::marker::Model;

/// A count of steps, at most the greatest `u64`, where it stops.
#[derive(Drop)]
pub struct Steps {
    count: u64,
}

impl Model for Steps {
    ghost Value = { ℕ };

    ghost view = { λ steps. steps.count };
}

impl Steps {
    /// A count of no steps. Allocates nothing.
    pub fn new() -> Self
        ensures { result ≡ 0 }
    {
        Steps { count: 0 }
    }

    /// How many steps were counted.
    pub fn count(&self) -> u64
        ensures { result ≡ self.now }
    {
        self.count
    }

    /// Adds one step.
    pub fn tick(&mut self)
        ensures { self.new ≡ one_step_after self.old }
    {
        self.count = self.count.saturating_add(1);
    }
}

/// A key beside its value.
#[derive(Clone, PartialEq, Eq, Drop)]
pub struct Item<K, V> {
    /// What the items are ordered by: in a map the range.
    pub key: K,
    /// What is stored with it.
    pub value: V,
}

impl<K, V> Item<K, V> {
    /// The key beside the value. Allocates nothing.
    pub fn new(key: K, value: V) -> Self
        ensures key { result.key ≡ key }
        ensures value { result.value ≡ value }
    {
        Item { key, value }
    }

    /// The key and the value, borrowed.
    pub fn as_pair(&self) -> (&K, &V)
        ensures key { result.0.now ≡ self.now.key }
        ensures value { result.1.now ≡ self.now.value }
    {
        (&self.key, &self.value)
    }

    /// The key and the value, moved out.
    pub fn into_pair(self) -> (K, V)
        ensures { result ≡ (self.key, self.value) }
    {
        (self.key, self.value)
    }
}

/// Items that lie together, which can be taken from both ends. A contract sees their list.
#[derive(Drop)]
pub struct Run<'a, T> {
    items: &'a [T],
}

impl<'a, T> Model for Run<'a, T> {
    ghost use Rattle.std.specs.Prelude.{List};

    ghost Value = { List T };

    ghost view = { λ run. run.items.now };
}

impl<'a, T> Run<'a, T> {
    /// The items of a slice. Allocates nothing.
    pub fn of_items(items: &'a [T]) -> Self
        ensures { result ≡ items.now }
    {
        Run { items }
    }

    /// The first item, which is taken from the run, or none where no item is left.
    #[inline(always)]
    pub fn next(&mut self) -> Option<&'a T>
        ensures { MatchOption result ((self.old ≡ []) × (self.new ≡ []))
            (λ item. self.old ≡ item.now ∷ self.new) }
    {
        let (item, rest) = self.items.split_first()?;
        self.items = rest;
        Some(item)
    }

    /// The first items, at most so many, which are taken from the run.
    #[inline(always)]
    pub fn next_items(&mut self, most: usize) -> &'a [T]
        ensures items { result.now ≡ take most self.old }
        ensures rest { self.new ≡ drop most self.old }
    {
        let (items, rest) = self.items.split_at(self.items.len().min(most));
        self.items = rest;
        items
    }

    /// The last item, which is taken from the run, or none where no item is left.
    pub fn next_back(&mut self) -> Option<&'a T>
        ensures { MatchOption result ((self.old ≡ []) × (self.new ≡ []))
            (λ item. self.old ≡ self.new ++ item.now ∷ []) }
    {
        let (item, rest) = self.items.split_last()?;
        self.items = rest;
        Some(item)
    }
}

/// A copy has the same items left.
impl<'a, T> Clone for Run<'a, T> {
    ghost is_clone = { λ run copy. copy ≡ run };

    ghost is_infallible = { λ _. ⊤ };

    fn clone(&self) -> Result<Self, AllocError> {
        Ok(Run { items: self.items })
    }
}

/// An item of a container, those after it that lie together, and the position after these.
#[derive(Drop)]
pub struct Chunk<'a, T, P: Copy> {
    /// The first item.
    pub first: &'a T,
    /// The items after it, perhaps none.
    pub rest: Run<'a, T>,
    /// The position after these, or none after the last item.
    pub after: Option<P>,
}

/// A question to the items of a container, which counts how often it is asked.
pub trait Probe<T> {
    /// What it returns for each item.
    ghost test: { Self → T → Bool };

    /// How many steps were counted.
    ghost steps_taken: { Self → ℕ };

    /// What the probe returns for the item. Counts one step.
    fn ask(&mut self, item: &T) -> bool
        ensures answer { result ≡ test self.old item.now }
        ensures test_kept { (x : T) → test self.new x ≡ test self.old x }
        ensures counted { steps_taken self.new ≡ one_step_after (steps_taken self.old) };

    /// The steps that were counted so far.
    fn steps(&self) -> &Steps
        ensures { result.now ≡ steps_taken self.now };

    /// A bit of the item, whichever it is. A container may ask for it so that an item's memory is
    /// read before the probe is asked: no result depends on it, and no step is counted.
    #[inline(always)]
    fn mark(&self, _item: &T) -> bool {
        false
    }
}

/// An ordered container: a list of items, and capacity for more.
pub trait Storage<T>: Drop {
    /// Where an item stands. A change of the container may make it useless.
    type Position: Copy;

    /// The items in order.
    ghost items: { Self → List T };

    /// How many items can be inserted without an allocation.
    ghost room: { Self → ℕ };

    /// Whether a position may be used.
    ghost is_good: { Self → Self.Position → Type 0 };

    /// The rank of a good position.
    ghost rank: { Self → Self.Position → ℕ };

    /// The container with another item at a good position.
    ghost with_item: { Self → Self.Position → T → Self };

    /// The least and the greatest number of items that one search asks.
    ghost least_asks: { Self → ℕ };

    ghost most_asks: { Self → ℕ };

    /// A container without an item. Allocates nothing.
    fn new(alloc: Global) -> Self
        ensures { items result ≡ [] };

    /// How many items there are. Costs the same however many.
    fn len(&self) -> usize
        ensures { result ≡ length (items self.now) };

    /// The position of the first item, or none where there is no item.
    fn first(&self) -> Option<Self::Position>
        ensures { IsAt (is_good self.now) (rank self.now) (length (items self.now)) result 0 };

    /// The position of the last item, or none where there is no item.
    fn last(&self) -> Option<Self::Position>
        ensures { MatchOption result (items self.now ≡ [])
            (λ p. is_good self.now p × (rank self.now p + 1 ≡ length (items self.now))) };

    /// The position after this one, or none after the last item.
    fn next(&self, p: Self::Position) -> Option<Self::Position>
        requires { is_good self.now p }
        ensures { IsAt (is_good self.now) (rank self.now) (length (items self.now)) result
            (rank self.now p + 1) };

    /// The position before this one, or none before the first item.
    fn prev(&self, p: Self::Position) -> Option<Self::Position>
        requires { is_good self.now p }
        ensures { MatchOption result (rank self.now p ≡ 0)
            (λ q. is_good self.now q × (rank self.now q + 1 ≡ rank self.now p)) };

    /// The item at a position.
    fn get(&self, p: Self::Position) -> &T
        requires { is_good self.now p }
        ensures { result.now ≡ slice_index_or (items self.now) (rank self.now p) result.now };

    /// The item at a position, the items after it that lie together, and the position after these.
    /// Allocates nothing.
    ///
    /// The default gives one item.
    fn chunk_from(&self, p: Self::Position) -> Chunk<'_, T, Self::Position>
        requires { is_good self.now p }
        ensures first { result.first.now
            ≡ slice_index_or (items self.now) (rank self.now p) result.first.now }
        ensures rest { result.rest ≡ take (length result.rest)
            (drop (rank self.now p + 1) (items self.now)) }
        ensures after { IsAt (is_good self.now) (rank self.now) (length (items self.now))
            result.after (rank self.now p + 1 + length result.rest) }
    {
        Chunk {
            first: self.get(p),
            rest: Run::of_items(&[]),
            after: self.next(p),
        }
    }

    /// The item at a position, to be changed where it stands. Allocates nothing.
    fn get_mut(&mut self, p: Self::Position) -> &mut T
        requires { is_good self.old p }
        ensures* writes_back { sem 𝓛
            (Lends Self.row T.row self.entry result (with_item self.old p)) }
        ensures value { result.now ≡ slice_index_or (items self.old) (rank self.old p) result.now };

    /// Puts the item at the position, and returns the one that stood there. Allocates nothing.
    fn replace(&mut self, p: Self::Position, item: T) -> T
        requires { is_good self.old p }
        ensures before { result ≡ slice_index_or (items self.old) (rank self.old p) result }
        ensures list { items self.new ≡ slice_set (items self.old) (rank self.old p) item }
        ensures space { room self.old ≤ room self.new }
        ensures positions { (q : Self.Position) → is_good self.old q
            → is_good self.new q × (rank self.new q ≡ rank self.old q) };

    /// The position of the last item for which the probe returns true, or none.
    ///
    /// The items for which it does have to stand before all others. Allocates nothing. How many
    /// items a vector and a B-tree ask grows as the logarithm of their number.
    fn search<P: Probe<T>>(&self, probe: &mut P) -> Option<Self::Position>
        requires { IsPartitionedBy (P.test probe.old) (items self.now) }
        ensures found { MatchOption result (IsFrontOf (P.test probe.old) (items self.now) 0)
            (λ p. is_good self.now p
            × IsFrontOf (P.test probe.old) (items self.now) (rank self.now p + 1)) }
        ensures test_kept { (x : T) → P.test probe.new x ≡ P.test probe.old x }
        ensures asked { AddsSteps (P.steps_taken probe.old) (P.steps_taken probe.new)
            (least_asks self.now) (most_asks self.now) };

    /// Makes capacity for so many further items.
    ///
    /// Fails where an allocation does, or where the container cannot have so many items, and never
    /// where there is room for them. The items are as they were in any case.
    fn reserve(&mut self, n: usize) -> Result<(), AllocError>
        ensures list { items self.new ≡ items self.old }
        ensures ok { OnOk result (n ≤ room self.new) }
        ensures succeeds { n ≤ room self.old → IsOk result }
        ensures space { room self.old ≤ room self.new }
        ensures positions { (q : Self.Position) → is_good self.old q
            → is_good self.new q × (rank self.new q ≡ rank self.old q) };

    /// Puts the item before the one at the position, or after all others, and returns its position.
    ///
    /// Takes from the capacity, and never fails. A vector moves all items after it, a B-tree
    /// changes nodes on the path to its root.
    fn insert_at(&mut self, before: Option<Self::Position>, item: T) -> Self::Position
        requires good { ForSome before (λ p. is_good self.old p) }
        requires has_room { 1 ≤ room self.old }
        ensures list { items self.new
            ≡ insert (items self.old)
            (rank_or_len (λ q. rank self.old q) (length (items self.old)) before) item }
        ensures space { room self.old ≡ room self.new + 1 }
        ensures position { is_good self.new result
            × (rank self.new result
            ≡ rank_or_len (λ q. rank self.old q) (length (items self.old)) before) };

    /// Puts the items, in their order, after all others.
    ///
    /// Takes from the capacity, and never fails. Searches nothing: a vector moves none of its
    /// items, an empty B-tree is built from its leaves up, and another changes nodes at its end.
    /// The default inserts one item after the other.
    fn append(&mut self, added: Vec<T>)
        requires has_room { length added.items ≤ room self.old }
        ensures list { items self.new ≡ items self.old ++ added.items }
        ensures space { room self.old ≡ room self.new + length added.items }
    {
        let mut left = added.into_iter();
        while let Some(item) = left.next() {
            let _inserted = self.insert_at(None, item);
        }
        left.destroy_empty();
    }

    /// Takes the item at the position out, and returns it with the position of the one after it.
    ///
    /// Never fails, and leaves room for one more item than there was. A vector moves all items
    /// after it, a B-tree changes nodes up to its root.
    fn remove_at(&mut self, p: Self::Position) -> (T, Option<Self::Position>)
        requires { is_good self.old p }
        ensures removed { result.0 ≡ slice_index_or (items self.old) (rank self.old p) result.0 }
        ensures list { items self.new ≡ remove (items self.old) (rank self.old p) }
        ensures space { room self.old + 1 ≤ room self.new }
        ensures following { IsAt (is_good self.new) (rank self.new) (length (items self.new))
            result.1 (rank self.old p) };

    /// Takes the first item out, or returns none where there is no item. Leaves room for one more
    /// item than there was, where it takes one.
    fn pop_first(&mut self) -> Option<T>
        ensures list { MatchOption result ((items self.old ≡ []) × (items self.new ≡ []))
            (λ x. items self.old ≡ x ∷ items self.new) }
        ensures space { MatchOption result (room self.old ≤ room self.new)
            (λ _. room self.old + 1 ≤ room self.new) };

    /// Takes the last item out, or returns none where there is no item. Leaves room as `pop_first`
    /// does.
    fn pop_last(&mut self) -> Option<T>
        ensures list { MatchOption result ((items self.old ≡ []) × (items self.new ≡ []))
            (λ x. items self.old ≡ items self.new ++ x ∷ []) }
        ensures space { MatchOption result (room self.old ≤ room self.new)
            (λ _. room self.old + 1 ≤ room self.new) };

    /// A container of clones of the items, in order.
    ///
    /// Allocates for them and for each clone; fails where an allocation does.
    fn clone(&self) -> Result<Self, AllocError>
    where
        T: Clone + Eq,
        requires { All (λ x. (y : T) → T.is_clone x y → T.eq y x ≡ true) (items self.now) }
        ensures { IfOk result
            (λ copy. AllZip (λ x y. T.eq y x ≡ true) (items self.now) (items copy)) };

    /// A good position names a rank below the length.
    ghost good_is_in_range: { (s : Self) (p : Self.Position) → is_good s p
        → rank s p < length (items s) };

    /// What is written to a lent item stands at its rank, and nothing else changes.
    ghost items_with: { (s : Self) (p : Self.Position) (x : T)
        → items (with_item s p x) ≡ slice_set (items s) (rank s p) x };

    ghost room_with: { (s : Self) (p : Self.Position) (x : T) → room (with_item s p x) ≡ room s };

    ghost good_with: { (s : Self) (p : Self.Position) (x : T) (q : Self.Position)
        → is_good s q → is_good (with_item s p x) q };

    ghost rank_with: { (s : Self) (p : Self.Position) (x : T) (q : Self.Position)
        → rank (with_item s p x) q ≡ rank s q };

    /// The length is a `usize`.
    ghost length_fits: { (s : Self) → length (items s) < 2 ^ 64 };

    /// A search of the empty list asks nothing.
    ghost none_asked: { (s : Self) → length (items s) ≡ 0 → most_asks s ≡ 0 };
}
