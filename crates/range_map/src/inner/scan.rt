//! A key looked up in a list of items, one after the other.
ghost use Rattle.std.specs.Option.{option_map};
ghost use Rattle.range_runs.specs.Bindings.{Binds};

use range_algebra::any::AnyRange;
use range_algebra::inner;
use range_keys::traits::PartialEnum;
use range_store::storage::Item;

/// The value of the first item whose range holds the key.
///
/// Asks each item in turn, so that it can be held against a map.
pub fn scan<'a, K: PartialEnum, V: Eq>(items: &'a [Item<AnyRange<K>, V>], key: &K) -> Option<&'a V>
    ensures { Binds K.order V.eq items.now key.now (option_map (λ v. v.now) result) }
{
    for item in items {
        if inner::holds(&item.key, key) {
            return Some(&item.value);
        }
    }
    None
}
