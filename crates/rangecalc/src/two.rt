//! What is made of two maps, and what is true of them.

ghost use Rattle.std.specs.Prelude.{◌≡◌, ◌↔◌, IfOk, IsTrue, Err, OnErr, OnOk};
ghost use Rattle.std.specs.Option.{option_copied};
ghost use Rattle.std.specs.Ordering.{int_eq};
ghost use Rattle.btree_range_map.specs.Combining.{AreCombined, MayAnswerBoth, MayBeAskedOfBoth, MayFailOnBoth, MayGiveValueOnBoth};
ghost use Rattle.btree_range_map.specs.PartWay.{BeforeOne};
ghost use Rattle.btree_range_map.specs.Together.{BindKeysOf, ShareNoKey};
ghost use Rattle.btree_range_map.specs.UpdateError.TheVariants.{Closure, Memory};
ghost use Rattle.rangecalc.specs.Two.{AreRelated, FindsAlone, FindsShared, IsAmended, IsKept, IsSum, Makes};

use crate::line::{Amendment, Kept, Relation, Way};
use crate::number::MapKey;
use btree_range_map::generic::map::RangeMap;
use btree_range_map::storage::{Item, Storage};
use btree_range_map::{AnyRange, MapError, UpdateError};

/// A sum that no `i64` holds.
#[derive(Drop)]
pub struct Overflow;

fn sum(first: i64, second: i64) -> Result<Option<i64>, Overflow>
    ensures { IsSum first second result }
{
    match first.checked_add(second) {
        Some(sum) => Ok(Some(sum)),
        None => Err(Overflow),
    }
}

/// What a key is bound to that two maps bind so.
fn made(way: Way, first: Option<&i64>, second: Option<&i64>) -> Result<Option<i64>, Overflow>
    ensures { Makes way (option_copied first.entry) (option_copied second.entry) result }
{
    match way {
        Way::Both => match (first, second) {
            (Some(first), Some(second)) => sum(*first, *second),
            (_, _) => Ok(None),
        },
        Way::Either => Ok(first.xor(second).copied()),
        Way::Over => Ok(first.or(second).copied()),
    }
}

/// The one call of `combine`, which is dear to link: what it makes of two maps by a closure.
fn put_together<
    K: MapKey,
    C: Storage<Item<AnyRange<K>, i64>>,
    E: Drop,
    F: Fn(Option<&i64>, Option<&i64>) -> Result<Option<i64>, E>,
>(
    first: &RangeMap<K, i64, C>,
    second: &RangeMap<K, i64, C>,
    f: F,
) -> Result<RangeMap<K, i64, C>, UpdateError<E>>
    requires { MayBeAskedOfBoth F.Fn f (C.items first.now) (C.items second.now) }
    ensures bound { IfOk result
        (λ made. AreCombined K.order int_eq int_eq int_eq (MayAnswerBoth F.Fn f)
        (C.items first.now) (C.items second.now) (C.items made)) }
    ensures closure { (e : E) → result ≡ Err (Closure e)
        → MayFailOnBoth K.order (MayAnswerBoth F.Fn f) (C.items first.now)
        (C.items second.now) e }
    ensures memory { result ≡ Err Memory
        → MayGiveValueOnBoth K.order (MayAnswerBoth F.Fn f) (C.items first.now)
        (C.items second.now) }
{
    first.combine(second, f)
}

/// A map that binds the keys of two others as the way says.
pub fn combined<K: MapKey, C: Storage<Item<AnyRange<K>, i64>>>(
    way: Way,
    first: &RangeMap<K, i64, C>,
    second: &RangeMap<K, i64, C>,
) -> Result<RangeMap<K, i64, C>, UpdateError<Overflow>>
    ensures bound { IfOk result
        (λ made. AreCombined K.order int_eq int_eq int_eq (Makes way) (C.items first.now)
        (C.items second.now) (C.items made)) }
    ensures fault { (fault : Overflow) → result ≡ Err (Closure fault)
        → MayFailOnBoth K.order (Makes way) (C.items first.now) (C.items second.now) fault }
{
    put_together(first, second, |one, two| made(way, one, two))
}

/// A map of the bindings of the first that are kept for the keys of the second.
pub fn kept<K: MapKey, C: Storage<Item<AnyRange<K>, i64>>>(
    kept: Kept,
    first: &RangeMap<K, i64, C>,
    second: &RangeMap<K, i64, C>,
) -> Result<RangeMap<K, i64, C>, MapError>
    ensures { IfOk result
        (λ made. IsKept K.order kept (C.items first.now) (C.items second.now)
        (C.items made)) }
{
    match kept {
        Kept::In => first.restrict(second),
        Kept::Without => first.without(second),
    }
}

/// Changes a map by another.
pub fn amend<K: MapKey, C: Storage<Item<AnyRange<K>, i64>>>(
    amendment: Amendment,
    map: &mut RangeMap<K, i64, C>,
    other: &RangeMap<K, i64, C>,
) -> Result<(), MapError>
    ensures amended { OnOk result
        (IsAmended K.order amendment (C.items map.old) (C.items other.now)
        (C.items map.new)) }
    ensures refused { OnErr result (BeforeOne (C.items other.now)
        (λ front. IsAmended K.order amendment (C.items map.old) front (C.items map.new))) }
{
    match amendment {
        Amendment::Extend => map.extend_from(other),
        Amendment::Subtract => map.remove_all(other),
    }
}

/// Changes a map as by another that binds each key alike.
pub fn amend_by_itself<K: MapKey, C: Storage<Item<AnyRange<K>, i64>>>(
    amendment: Amendment,
    map: &mut RangeMap<K, i64, C>,
)
    ensures { IsAmended K.order amendment (C.items map.old) (C.items map.old)
        (C.items map.new) }
{
    match amendment {
        Amendment::Extend => (),
        Amendment::Subtract => map.clear(),
    }
}

/// Keys that two maps bind, or that one of them binds alone.
#[derive(Drop)]
struct Found;

/// Finds keys that the first map alone binds.
fn find_alone(first: Option<&i64>, second: Option<&i64>) -> Result<Option<i64>, Found>
    ensures { FindsAlone (option_copied first.entry) (option_copied second.entry) result }
{
    match (first, second) {
        (Some(_), None) => Err(Found),
        (_, _) => Ok(None),
    }
}

/// Finds keys that both maps bind.
fn find_shared(first: Option<&i64>, second: Option<&i64>) -> Result<Option<i64>, Found>
    ensures { FindsShared (option_copied first.entry) (option_copied second.entry) result }
{
    match (first, second) {
        (Some(_), Some(_)) => Err(Found),
        (_, _) => Ok(None),
    }
}

/// Whether each key that the first map binds is bound by the second.
fn is_subset<K: MapKey, C: Storage<Item<AnyRange<K>, i64>>>(
    first: &RangeMap<K, i64, C>,
    second: &RangeMap<K, i64, C>,
) -> bool
    ensures { IsTrue result ↔ BindKeysOf K.order (C.items first.now) (C.items second.now) }
{
    let passed = put_together(first, second, |one, two| find_alone(one, two));
    passed.is_ok()
}

/// Whether no key is bound by both maps.
fn are_apart<K: MapKey, C: Storage<Item<AnyRange<K>, i64>>>(
    first: &RangeMap<K, i64, C>,
    second: &RangeMap<K, i64, C>,
) -> bool
    ensures { IsTrue result ↔ ShareNoKey K.order (C.items first.now) (C.items second.now) }
{
    let passed = put_together(first, second, |one, two| find_shared(one, two));
    passed.is_ok()
}

/// Whether it is true of two maps.
pub fn are_related<K: MapKey, C: Storage<Item<AnyRange<K>, i64>>>(
    relation: Relation,
    first: &RangeMap<K, i64, C>,
    second: &RangeMap<K, i64, C>,
) -> bool
    ensures { IsTrue result
        ↔ AreRelated K.order relation (C.items first.now) (C.items second.now) }
{
    match relation {
        Relation::Equals => *first == *second,
        Relation::Subset => is_subset(first, second),
        Relation::Apart => are_apart(first, second),
    }
}
