//! How a map is shown.
ghost use Rattle.std.specs.Fmt.{DisplaysOnOk};
ghost use Rattle.range_map.specs.Texts.{item_text, items_text, list_text};

use crate::map::{Iter, RangeMap};
use range_algebra::any::AnyRange;
use range_keys::traits::PartialEnum;
use range_store::storage::{Item, Storage};
use std::fmt::{self, Debug, Formatter, Write};

/// Writes a range with its value.
fn write_item<K: Debug, V: Debug, W: Write>(
    range: &AnyRange<K>,
    value: &V,
    f: &mut Formatter<W>,
) -> fmt::Result
    ensures { DisplaysOnOk W.write_str_gives f.old result
        (item_text K.debug_output V.debug_output (record { key = range.now; value = value.now }))
        f.new }
{
    write!(f, "{range:?}=>{value:?}")
}

/// Writes all items of a container, in order.
fn write_items<K, V, C, W>(stored: &C, f: &mut Formatter<W>) -> fmt::Result
where
    K: Debug,
    V: Debug,
    C: Storage<Item<AnyRange<K>, V>>,
    W: Write,
    ensures { DisplaysOnOk W.write_str_gives f.old result
        (items_text K.debug_output V.debug_output (C.items stored.now)) f.new }
{
    let mut items = Iter::new(stored);
    while let Some((range, value)) = items.next() {
        write_item(range, value, f)?;
    }
    Ok(())
}

/// Shows each stored range with its value, with nothing between them: `{0..5=>110..=12=>2}`.
impl<K: PartialEnum + Debug, V: Eq + Debug, C: Storage<Item<AnyRange<K>, V>>> Debug
    for RangeMap<K, V, C> {
    ghost debug_output = { λ map. list_text K.debug_output V.debug_output (C.items map) };

    fn fmt<W: Write>(&self, f: &mut Formatter<W>) -> fmt::Result {
        f.write_str("{")?;
        write_items::<K, V, C, W>(&self.stored, f)?;
        f.write_str("}")
    }
}
