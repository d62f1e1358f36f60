//! Laws of lists of calls and of stored lists. Their bodies do nothing.
ghost use Rattle.std.specs.Prelude.{List, [], Some};
ghost use Rattle.range_algebra.specs.declared.any.AnyRange.{AnyRange};
ghost use Rattle.range_store.specs.declared.storage.Item.{Item};
ghost use Rattle.range_runs.specs.Bindings.{IsItemFor};
ghost use Rattle.range_runs.specs.Stored.{IsStored};
ghost use Rattle.range_multimaps.specs.Calls.{Call, AreCallsBetween, HasJustInserted, HasInsertedOrKept};
ghost use Rattle.range_multimaps.specs.Pairs.{AreValuesAt};

use crate::members::SetMut;
use range_keys::traits::PartialEnum;
use range_map::map::stored_lists_bind_once;

/// A key has a value exactly where the last unrefused call on the key with an equal value was an
/// insertion. Over every lawful key and every list of calls.
///
/// So from the empty multimap on. From any other, a pair that was there before the first call stays
/// where no call is on it.
pub fn last_call_decides_pairs<K: PartialEnum, V: Eq + Clone, S: SetMut<V>>()
    ensures from_empty { (calls : List (Call K V)) (last : List (Item (AnyRange K) S))
        → AreCallsBetween K.order S.has V.eq [] calls last
        → HasJustInserted K.order S.has V.eq calls last }
    ensures from_any { (items last : List (Item (AnyRange K) S)) (calls : List (Call K V))
        → AreCallsBetween K.order S.has V.eq items calls last
        → HasInsertedOrKept K.order S.has V.eq items calls last }
{}

/// The set of a stored range has all values of each key that the range holds. Over every lawful
/// key and every list in the form of a multimap.
pub fn stored_sets_have_all_values<K: PartialEnum, V: Eq + Clone, S: SetMut<V>>()
    ensures { (items : List (Item (AnyRange K) S)) → IsStored K.order S.eq items → (k : K)
        → K.order.is_key k → (i : Item (AnyRange K) S) → IsItemFor K.order items k i
        → AreValuesAt K.order S.has items k (Some i.value) }
{
    stored_lists_bind_once::<K, S>();
}
