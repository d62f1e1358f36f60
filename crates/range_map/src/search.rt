//! Searching a list of items that is no map.
ghost use Rattle.std.specs.Prelude.{All, MatchOption};
ghost use Rattle.std.specs.List.{AllByRecursion};
ghost use Rattle.range_algebra.specs.Range.{IsEmptyRange};
ghost use Rattle.range_runs.specs.Neighbours.{EachNext};
ghost use Rattle.range_algebra.specs.Relations.{LiesBefore};
ghost use Rattle.range_runs.specs.Searches.{ElementIsBefore, IsLastNotAfter};

use range_algebra::any::AnyRange;
use range_algebra::inner::{self, compare_ranges};
use range_algebra::range::AsRange;
use range_keys::traits::Measure;
use range_store::storage::Item;

/// The greatest index whose item the element is not before; where `connected` is set, an element
/// that touches an item is not before it.
///
/// Costs one comparison for each halving of the list. Allocates nothing.
///
/// ```
/// // of two items, of the key 0 alone and of the key 3 alone
/// assert!(rt; binary_search(&items, &(1..2), false) == Some(0)); // 1..2 is before 3
/// assert!(rt; binary_search(&items, &(1..3), true) == Some(1)); // 1..3 touches 3
/// ```
pub fn binary_search<T: Measure, V, U: AsRange<Item = T>>(
    items: &[Item<AnyRange<T>, V>],
    element: &U,
    connected: bool,
) -> Option<usize>
    requires nonempty { AllByRecursion (λ i. ¬ IsEmptyRange T.order i.key) items.now }
    requires rising { EachNext (λ i j. LiesBefore T.order i.key j.key) items.now }
    ensures { MatchOption result
        (All (λ i. ElementIsBefore T.order (U.range element.now) connected i.key) items.now)
        (λ at. IsLastNotAfter T.order (U.range element.now) connected items.now at) }
{
    inner::known_range(element);
    let mut low = 0;
    let mut high = items.len();
    while low < high {
        let middle = low + (high - low) / 2;
        let item = &items[middle];
        inner::known_range(&item.key);
        if compare_ranges(element, &item.key).is_before(connected) {
            high = middle;
        } else {
            low = middle + 1;
        }
    }
    if low == 0 { None } else { Some(low - 1) }
}
