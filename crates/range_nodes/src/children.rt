//! The children of all nodes: a list of their numbers under each number.
ghost use Rattle.std.specs.Prelude.{◌≡◌, ◌≢◌, ◌⊎◌, ◌+◌, ◌<◌, ◌≤◌, [], ◌∷◌, ◌++◌, length, take, drop, slice_get, slice_index, insert, remove, OnOk};
ghost use Rattle.range_nodes.specs.Children.{with_list, FitsFull, FitsPlace};
ghost use Rattle.range_nodes.specs.Heap.{with_child};
ghost use Rattle.range_nodes.specs.Rows.{row_of};

use crate::nodes::{CHILD_PLACES, HALF};
use arrayvec::ArrayVec;
use slab::Slab;
use std::alloc::{AllocError, Global};
use std::marker::Model;

/// Up to `CHILD_PLACES` numbers under each number from 0 on.
#[derive(Drop)]
pub struct Children {
    // Under each number the key of its list, if it has children. Most nodes are leaves, or spare.
    keys: Vec<Option<usize>>,
    // There is room for a list under each number. Memory that has had no list was never written.
    lists: Slab<ArrayVec<usize, CHILD_PLACES>>,
}

impl Model for Children {
    ghost use Rattle.range_nodes.specs.Children.{Children as Lists, children_code};

    ghost Value = { Lists };

    ghost coded = { children_code };

    ghost use Rattle.std.specs.Prelude.{min, vec_capacity};
    ghost use Rattle.range_nodes.specs.Children.{lists_under, AreKept};

    ghost view = { λ s. record {
      lists = lists_under s.lists s.keys.items;
      capacity = min (vec_capacity s.keys) s.lists.capacity;
    } };

    ghost invariant = { λ s. AreKept s.lists s.keys.items };
}

// The children from `start` on, moved out.
fn children_from(
    list: &mut ArrayVec<usize, CHILD_PLACES>,
    start: usize,
) -> ArrayVec<usize, CHILD_PLACES>
    requires { start ≤ length list.old.items }
    ensures left { list.new.items ≡ take start list.old.items }
    ensures right { result.items ≡ drop start list.old.items }
{
    // For the proof: the number of children is a `usize`.
    let _many = list.len();
    let mut upper = ArrayVec::new();
    upper
        .try_extend_from_slice(&list.as_slice()[start..])
        .unwrap();
    list.truncate(start);
    upper
}

// Puts a child among those of a full node, of which the first half stays; the rest is moved out.
fn divide_children(
    list: &mut ArrayVec<usize, CHILD_PLACES>,
    index: usize,
    child: usize,
) -> ArrayVec<usize, CHILD_PLACES>
    requires many { length list.old.items ≡ CHILD_PLACES }
    requires within { index ≤ CHILD_PLACES }
    ensures left { list.new.items ≡ take (HALF + 1) (insert list.old.items index child) }
    ensures right { result.items ≡ drop (HALF + 1) (insert list.old.items index child) }
{
    if index <= HALF {
        let upper = children_from(list, HALF);
        list.insert(index, child);
        return upper;
    }
    let mut upper = children_from(list, HALF + 1);
    upper.insert(index - HALF - 1, child);
    upper
}

impl Children {
    /// No numbers. Allocates nothing.
    pub fn new(alloc: Global) -> Self
        ensures { result.lists ≡ [] }
    {
        Children {
            keys: Vec::new(alloc),
            lists: Slab::new(alloc),
        }
    }

    /// How many numbers there are.
    pub fn len(&self) -> usize
        ensures { result ≡ length self.now.lists }
    {
        self.keys.len()
    }

    /// Makes room for so many numbers in all, each with children.
    pub fn reserve(&mut self, many: usize) -> Result<(), AllocError>
        requires { length self.old.lists ≤ many }
        ensures room { OnOk result (many ≤ self.new.capacity) }
        ensures kept { self.new.lists ≡ self.old.lists }
    {
        self.keys.reserve(many - self.keys.len())?;
        self.lists.reserve(many - self.lists.len())
    }

    /// Adds a number without children.
    pub fn add(&mut self)
        requires { length self.old.lists < self.old.capacity }
        ensures lists { self.new.lists ≡ self.old.lists ++ [] ∷ [] }
        ensures capacity { self.new.capacity ≡ self.old.capacity }
    {
        self.keys.push_reserved(None);
    }

    /// The child under a number at an index.
    #[inline(always)]
    pub fn child_at(&self, number: usize, index: usize) -> usize
        requires { index < length (row_of self.now.lists number) }
        ensures { result ≡ slice_index (row_of self.now.lists number) index }
    {
        self.lists[self.keys[number].unwrap()].as_slice()[index]
    }

    // Gives a list to a number without children.
    fn give(&mut self, number: usize, list: ArrayVec<usize, CHILD_PLACES>)
        requires number { number < length self.old.lists }
        requires none { row_of self.old.lists number ≡ [] }
        requires some { 0 < length list.items }
        ensures { self.new ≡ with_list self.old number list.items }
    {
        self.keys[number] = Some(self.lists.insert_reserved(list));
    }

    /// Puts the first child under a number.
    pub fn put_first(&mut self, number: usize, child: usize)
        requires number { number < length self.old.lists }
        requires none { row_of self.old.lists number ≡ [] }
        ensures { self.new ≡ with_list self.old number (child ∷ []) }
    {
        let mut list = ArrayVec::new();
        list.push(child);
        self.give(number, list);
    }

    /// Puts another child, if there is one, before the one at `place`.
    #[inline(always)]
    pub fn put(&mut self, number: usize, place: usize, child: Option<usize>)
        requires { FitsPlace child place (row_of self.old.lists number) }
        ensures { self.new
            ≡ with_list self.old number (with_child (row_of self.old.lists number) place child) }
    {
        if let Some(child) = child {
            let key = self.keys[number].unwrap();
            self.lists[key].insert(place, child);
        }
    }

    /// Takes the child at `place`, if there is one.
    #[inline(always)]
    pub fn take(&mut self, number: usize, place: usize) -> Option<usize>
        requires { number < length self.old.lists }
        ensures child { result ≡ slice_get (row_of self.old.lists number) place }
        ensures rest { self.new
            ≡ with_list self.old number (remove (row_of self.old.lists number) place) }
    {
        let key = self.keys[number]?;
        let child = self.lists[key].pop_at(place);
        if self.lists[key].is_empty() {
            self.lists.remove(key);
            self.keys[number] = None;
        }
        child
    }

    /// Takes all children away.
    pub fn clear(&mut self, number: usize)
        requires { number < length self.old.lists }
        ensures { self.new ≡ with_list self.old number [] }
    {
        if let Some(key) = self.keys[number] {
            self.lists.remove(key);
            self.keys[number] = None;
        }
    }

    /// Puts a child, if there is one, before the one at `place` of a full node, and moves the second
    /// half to a number without children.
    pub fn divide(&mut self, left: usize, right: usize, place: usize, child: Option<usize>)
        requires right { right < length self.old.lists }
        requires apart { left ≢ right }
        requires none { row_of self.old.lists right ≡ [] }
        requires near { place ≤ CHILD_PLACES }
        requires child { FitsFull child (row_of self.old.lists left) }
        ensures { self.new ≡ with_list
            (with_list self.old left
            (take (HALF + 1) (with_child (row_of self.old.lists left) place child)))
            right (drop (HALF + 1) (with_child (row_of self.old.lists left) place child)) }
    {
        if let Some(child) = child {
            let key = self.keys[left].unwrap();
            let upper = divide_children(&mut self.lists[key], place, child);
            self.give(right, upper);
        }
    }

    /// Moves all children of one number behind those of another.
    pub fn absorb(&mut self, left: usize, right: usize)
        requires left { left < length self.old.lists }
        requires right { right < length self.old.lists }
        requires apart { left ≢ right }
        requires children { (length (row_of self.old.lists right) ≡ 0)
            ⊎ (0 < length (row_of self.old.lists left)) }
        requires places { length (row_of self.old.lists left)
            + length (row_of self.old.lists right) ≤ CHILD_PLACES }
        ensures { self.new ≡ with_list (with_list self.old right []) left
            (row_of self.old.lists left ++ row_of self.old.lists right) }
    {
        if let Some(key) = self.keys[right] {
            let upper = self.lists.remove(key);
            self.keys[right] = None;
            let lower = self.keys[left].unwrap();
            self.lists[lower]
                .try_extend_from_slice(upper.as_slice())
                .unwrap();
        }
    }
}
