//! The levels of a map's tree.
ghost use Rattle.std.specs.Prelude.{ℕ, ◌≡◌, ◌+◌, ◌-◌, ◌*◌, ◌^◌, ◌<◌, ◌≤◌, length};
ghost use Rattle.range_tree.specs.Holding.{box_items, level_count};
ghost use Rattle.range_edit.specs.Costs.{IsGreatestLevel, greatest_level};
ghost use Rattle.range_nodes.specs.declared.nodes.TheConstants.{MIN_LEN, CAPACITY};

use crate::map::RangeMap;
use range_algebra::any::AnyRange;
use range_keys::traits::PartialEnum;
use range_store::storage::Item;
use range_tree::btree::BoxStorage;

impl<K: PartialEnum, V: Eq + Drop> RangeMap<K, V, BoxStorage<Item<AnyRange<K>, V>>> {
    /// How many levels of nodes the tree has in which the ranges are kept: 0 for a map without any.
    ///
    /// A look-up reads one node on each level. Allocates nothing.
    ///
    /// ```
    /// // of a map that binds 0..=5 to 1
    /// assert!(rt; map.levels() == 1);
    /// ```
    pub fn levels(&self) -> usize
        ensures value { result ≡ level_count self.now }
        ensures empty { length (box_items self.now) ≡ 0 → result ≡ 0 }
        ensures least { 0 < length (box_items self.now)
            → 2 * (MIN_LEN + 1) ^ (result - 1) ≤ length (box_items self.now) + 1 }
        ensures most { 0 < length (box_items self.now)
            → length (box_items self.now) + 1 ≤ (CAPACITY + 1) ^ result }
    {
        self.stored.levels()
    }
}

/// There is one greatest number of levels that a tree of fewer than so many items may have, or 0,
/// and `greatest_level` is it. A law: the body does nothing.
pub fn one_level_is_greatest()
    ensures greatest { (many : ℕ) → IsGreatestLevel many (greatest_level many) }
    ensures only { (many level : ℕ) → IsGreatestLevel many level → level ≡ greatest_level many }
{}
