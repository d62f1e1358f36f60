//! Maps whose keys are gathered into ranges.
//!
//! A [`RangeMap`] binds each key of a range to one value. Ranges that touch and have equal values
//! are kept as one, so a map stores no more ranges than its bindings need. A [`RangeSet`] is a set
//! of keys, kept in the same way; a [`RangeMultiMap`] gives each key a set of values.
//!
//! Where to find what:
//!
//! - short names for callers' contracts, and how many keys a type has:
//!   `specs/{Names,KeyNumbers}.antt`
//! - laws that callers cite: which keys a range and a stored range hold, keys by their indices,
//!   the zero measure: `specs/{HeldKeys,KeyLaws}.antt`
#![tactic(auto)]

pub mod btree;
pub mod generic;
pub mod range;
pub mod storage;

use btree::BoxStorage;
pub use generic::map::{MapError, NotAppended, NotFree, NotInserted, NotSorted, UpdateError};
pub use generic::set::NotAdded;
pub use range::any::AnyRange;
pub use range::bound::{AsBound, BoundOrd, BoundOrdering, BoundPartialOrd, Directed, Dist};
pub use range::ordering::{RangeOrdering, RangePartialOrd};
pub use range::traits::{Measure, PartialEnum};
pub use range::{
    AsRange, Difference, IntoRange, Product, ProductArg, RangeFromExcluded, RangeFromExcludedTo,
    RangeFromExcludedToIncluded, RelativePosition,
};
pub use range_set_json::json;
use storage::Item;

/// The container of a map that names none: a B-tree.
pub type DefaultMapContainer<T> = BoxStorage<T>;

/// The container of a set that names none: a B-tree.
pub type DefaultSetContainer<T> = BoxStorage<T>;

/// A map from ranges of keys to values, in the default container.
pub type RangeMap<K, V> = generic::map::RangeMap<K, V, DefaultMapContainer<Item<AnyRange<K>, V>>>;

/// A set of keys, in the default container.
pub type RangeSet<K> = generic::set::RangeSet<K, DefaultSetContainer<Item<AnyRange<K>, ()>>>;

/// A relation between keys and values, in the default container; `S` is the type of the sets of
/// values, as `BTreeSet<V>` or `HashSet<V>`.
pub type RangeMultiMap<K, S> = generic::multimap::RangeMultiMap<
    K,
    S,
    DefaultMapContainer<Item<AnyRange<K>, S>>,
>;
