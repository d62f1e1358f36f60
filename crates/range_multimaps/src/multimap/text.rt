//! How a multimap is shown.
ghost use Rattle.range_map.specs.Texts.{list_text};

use super::RangeMultiMap;
use crate::members::MaybeEmpty;
use range_algebra::any::AnyRange;
use range_keys::traits::PartialEnum;
use range_store::storage::{Item, Storage};
use std::fmt::{self, Debug, Formatter, Write};

/// Shows each stored range with its set, with nothing between them: `{0..5=>{1}5..=12=>{1, 2}}`.
impl<K: PartialEnum + Debug, S: MaybeEmpty + Debug, C: Storage<Item<AnyRange<K>, S>>> Debug
    for RangeMultiMap<K, S, C> {
    ghost debug_output = { λ map. list_text K.debug_output S.debug_output (C.items map) };

    fn fmt<W: Write>(&self, f: &mut Formatter<W>) -> fmt::Result {
        self.map.fmt(f)
    }
}
