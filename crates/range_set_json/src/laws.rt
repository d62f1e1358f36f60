//! Laws of what is written and read of sets and multimaps. Their bodies do nothing.
ghost use Rattle.range_set_json.specs.Laws.{WrittenSetsHaveNoFault, WrittenSetsAreReadEqual};
ghost use Rattle.range_set_json.specs.Laws.{WrittenMultimapsHaveNoFault, WrittenMultimapsAreReadEqual};
ghost use Rattle.range_set_json.specs.Laws.{ReadMultimapsHaveNoFault};

use range_json::json::{Json, ReadsBack};
use range_keys::traits::PartialEnum;

/// A written set has no fault, and what is read there equals it, as `==` compares sets.
pub fn sets_are_read_back<K: ReadsBack + PartialEnum>()
    ensures sound { WrittenSetsHaveNoFault K.shape K.is_value K.reads }
    ensures equal { WrittenSetsAreReadEqual K.shape K.is_value K.order K.is_read }
{}

/// A written multimap has no fault, and what is read there equals it, as `==` compares multimaps.
pub fn multimaps_are_read_back<K: ReadsBack + PartialEnum, V: ReadsBack + Ord>()
    ensures sound { WrittenMultimapsHaveNoFault K.order V.cmp V.eq K.reads V.reads K.is_read
        V.is_read K.shape V.shape K.is_value V.is_value }
    ensures equal { WrittenMultimapsAreReadEqual K.order V.cmp V.eq K.reads V.reads K.is_read
        V.is_read K.shape V.shape K.is_value V.is_value }
{}

/// A JSON value that is read as a multimap has no fault.
pub fn read_multimaps_have_no_fault<K: ReadsBack + PartialEnum, V: Json + Ord>()
    ensures { ReadMultimapsHaveNoFault K.order V.cmp V.eq K.reads V.reads K.is_read V.is_read }
{}
