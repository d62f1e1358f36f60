//! Laws of what is written and read of ranges and maps. Their bodies do nothing.
ghost use Rattle.range_json.specs.Laws.{WrittenRangesHaveNoFault, WrittenRangesAreReadEqual};
ghost use Rattle.range_json.specs.Laws.{WrittenMapsHaveNoFault, WrittenMapsAreReadEqual};
ghost use Rattle.range_json.specs.Laws.{ReadMapsHaveNoFault};

use crate::json::{Json, ReadsBack};
use range_keys::traits::PartialEnum;

/// A written range has no fault, and what is read there equals it.
pub fn ranges_are_read_back<K: ReadsBack + PartialEnum>()
    ensures sound { WrittenRangesHaveNoFault K.shape K.is_value K.reads }
    ensures equal { WrittenRangesAreReadEqual K.shape K.is_value K.order K.is_read }
{}

/// A written map has no fault, and what is read there equals it, as `==` compares maps.
pub fn maps_are_read_back<K: ReadsBack + PartialEnum, V: ReadsBack>()
    ensures sound { WrittenMapsHaveNoFault K.order V.eq K.reads V.reads K.is_read V.is_read
        K.shape V.shape K.is_value V.is_value }
    ensures equal { WrittenMapsAreReadEqual K.order V.eq K.reads V.reads K.is_read V.is_read
        K.shape V.shape K.is_value V.is_value }
{}

/// A JSON value that is read as a map has no fault.
pub fn read_maps_have_no_fault<K: ReadsBack + PartialEnum, V: Json + Eq>()
    ensures { ReadMapsHaveNoFault K.order V.eq K.reads V.reads K.is_read V.is_read }
{}
