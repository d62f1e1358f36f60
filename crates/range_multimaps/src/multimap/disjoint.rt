//! Sets that are bound only where their range intersects no stored one.
ghost use Rattle.std.specs.Prelude.{◌≡◌, ◌↔◌, IsErrAnd, IsOk, OnOk, OnErr};
ghost use Rattle.range_algebra.specs.Range.{IsEmptyRange};
ghost use Rattle.range_runs.specs.Bindings.{IsBoundAfter};
ghost use Rattle.range_runs.specs.Canonical.{IsCanonical};
ghost use Rattle.range_runs.specs.Frames.{IsInsertionFrame};
ghost use Rattle.range_runs.specs.Lookups.{MeetsSome, MeetAlso};
ghost use Rattle.range_map.specs.Freeing.{IsOccupied};
ghost use Rattle.range_multimaps.specs.Pairs.{HasNoEmptySet};

use super::RangeMultiMap;
use crate::members::MaybeEmpty;
use range_algebra::any::AnyRange;
use range_keys::traits::Measure;
use range_map::map::NotFree;
use range_store::storage::{Item, Storage};

/// Gives each key of the range the values of the set where the range intersects no stored one.
///
/// As a map's `try_insert`, which it calls.
pub fn insert_set<K: Measure, S: MaybeEmpty, C: Storage<Item<AnyRange<K>, S>>>(
    multimap: &mut RangeMultiMap<K, S, C>,
    range: AnyRange<K>,
    set: S,
) -> Result<(), NotFree<K, S>>
    requires { ¬ S.is_void set }
    ensures occupied { IsErrAnd result IsOccupied
        ↔ (¬ IsEmptyRange K.order range) × MeetsSome K.order (C.items multimap.old) range }
    ensures bound { OnOk result
        (IsBoundAfter K.order S.eq (C.items multimap.old) (C.items multimap.new) range set) }
    ensures frame { OnOk result
        (¬ IsEmptyRange K.order range
        → IsInsertionFrame K.order S.eq (C.items multimap.old) (C.items multimap.new) range
        set) }
    ensures meets { OnOk result
        (¬ IsEmptyRange K.order range
        → MeetAlso K.order (C.items multimap.old) (C.items multimap.new) range) }
    ensures canonical { IsCanonical K.order S.eq (C.items multimap.new) }
    ensures nonempty { HasNoEmptySet S.is_void (C.items multimap.new) }
    ensures refused { OnErr result (C.items multimap.new ≡ C.items multimap.old) }
    ensures empty { IsEmptyRange K.order range → IsOk result }
    ensures empty_unchanged { IsEmptyRange K.order range
        → C.items multimap.new ≡ C.items multimap.old }
{
    multimap.map.try_insert(range, set)
}
