//! How a set is shown.
ghost use Rattle.std.specs.Fmt.{DisplaysOnOk};
ghost use Rattle.range_reads.specs.FreeRanges.{item_ranges};
ghost use Rattle.range_sets.specs.SetTexts.{ranges_text, set_text};

use super::RangeSet;
use range_algebra::any::AnyRange;
use range_keys::traits::PartialEnum;
use range_store::storage::{Item, Storage};
use std::fmt::{self, Debug, Formatter, Write};

/// Writes all ranges of a set, in order.
fn write_ranges<T, C, W>(set: &RangeSet<T, C>, f: &mut Formatter<W>) -> fmt::Result
where
    T: PartialEnum + Debug,
    C: Storage<Item<AnyRange<T>, ()>>,
    W: Write,
    ensures { DisplaysOnOk W.write_str_gives f.old result
        (ranges_text T.debug_output (item_ranges (C.items set.now))) f.new }
{
    let mut ranges = set.iter();
    while let Some(range) = ranges.next() {
        range.fmt(f)?;
    }
    Ok(())
}

/// Shows each stored range, with nothing between them: `{0..510..=12}`.
impl<T: PartialEnum + Debug, C: Storage<Item<AnyRange<T>, ()>>> Debug for RangeSet<T, C> {
    ghost debug_output = { λ set. set_text T.debug_output (C.items set) };

    fn fmt<W: Write>(&self, f: &mut Formatter<W>) -> fmt::Result {
        f.write_str("{")?;
        write_ranges::<T, C, W>(self, f)?;
        f.write_str("}")
    }
}
