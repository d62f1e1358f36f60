//! Two multimaps put together.
ghost use Rattle.std.specs.Prelude.{IfOk, OnOk, IfSome};
ghost use Rattle.std.specs.Option.{option_copied};
ghost use Rattle.range_algebra.specs.Range.{ClonesAreEqual};
ghost use Rattle.range_multimaps.specs.Members.{HasAllAlso, HasAllWithout};
ghost use Rattle.range_multimaps.specs.Pairs.{HasNoEmptySet, HasAllPairsAlso, HasAllPairsWithout, HasPairsOfEither, HasPairsOfFirstAlone};
ghost use Rattle.range_runs.specs.Canonical.{IsCanonical};

use super::RangeMultiMap;
use crate::members::{MaybeEmpty, SetAlgebra};
use range_algebra::any::AnyRange;
use range_keys::traits::Measure;
use range_map::map::{MapError, stored_lists_bind_once};
use range_store::storage::{Item, Storage};
use std::alloc::AllocError;

/// The set with the values of another, or a clone of the other where there is none.
fn with_values<V: Eq + Clone, S: SetAlgebra<V>>(
    old: Option<&S>,
    values: &S,
) -> Result<Option<S>, AllocError>
    requires { ClonesAreEqual V.is_clone V.eq }
    ensures added { IfOk result
        (λ new. HasAllAlso S.has (option_copied old.entry) new values.now) }
    ensures nonempty { (¬ S.is_void values.now)
        → IfOk result (λ new. IfSome new (λ s. ¬ S.is_void s)) }
{
    Ok(Some(match old {
        Some(set) => set.united_with(values)?,
        None => values.clone()?,
    }))
}

/// The set without the values of another, or none where no other is left.
fn without_values<V: Eq + Clone, S: SetAlgebra<V>>(
    old: Option<&S>,
    values: &S,
) -> Result<Option<S>, AllocError>
    requires { ClonesAreEqual V.is_clone V.eq }
    ensures removed { IfOk result
        (λ new. HasAllWithout S.has (option_copied old.entry) new values.now) }
    ensures nonempty { IfOk result (λ new. IfSome new (λ s. ¬ S.is_void s)) }
{
    let Some(old) = old else {
        return Ok(None);
    };
    let set = old.without(values)?;
    if set.is_empty() {
        return Ok(None);
    }
    Ok(Some(set))
}

impl<K: Measure + Clone, S: MaybeEmpty, C: Storage<Item<AnyRange<K>, S>>> RangeMultiMap<K, S, C> {
    /// Pairs each key of the range with each value of the set. After an error nothing is changed.
    fn insert_values<V: Eq + Clone>(
        &mut self,
        range: &AnyRange<K>,
        values: &S,
    ) -> Result<(), MapError>
    where
        S: SetAlgebra<V>,
        requires keys { ClonesAreEqual K.is_clone K.eq }
        requires values { ClonesAreEqual V.is_clone V.eq }
        requires nonempty { ¬ S.is_void values.now }
        ensures { OnOk result (HasAllPairsAlso K.order S.has (C.items self.old) (C.items self.new)
            range.now values.now) }
    {
        stored_lists_bind_once::<K, S>();
        let answer = |old: Option<&S>| -> Result<Option<S>, AllocError>
            requires { ClonesAreEqual V.is_clone V.eq }
            ensures added { IfOk result
                (λ new. HasAllAlso S.has (option_copied old.entry) new values.entry.now) }
            ensures nonempty { (¬ S.is_void values.entry.now)
                → IfOk result (λ new. IfSome new (λ s. ¬ S.is_void s)) }
        { with_values::<V, S>(old, values) };
        self.update_sets(range, answer)?;
        Ok(())
    }

    /// Takes each value of the set from each key of the range. After an error nothing is changed.
    fn remove_values<V: Eq + Clone>(
        &mut self,
        range: &AnyRange<K>,
        values: &S,
    ) -> Result<(), MapError>
    where
        S: SetAlgebra<V>,
        requires keys { ClonesAreEqual K.is_clone K.eq }
        requires values { ClonesAreEqual V.is_clone V.eq }
        ensures { OnOk result (HasAllPairsWithout K.order S.has (C.items self.old)
            (C.items self.new) range.now values.now) }
    {
        stored_lists_bind_once::<K, S>();
        let answer = |old: Option<&S>| -> Result<Option<S>, AllocError>
            requires { ClonesAreEqual V.is_clone V.eq }
            ensures removed { IfOk result
                (λ new. HasAllWithout S.has (option_copied old.entry) new values.entry.now) }
            ensures nonempty { IfOk result (λ new. IfSome new (λ s. ¬ S.is_void s)) }
        { without_values::<V, S>(old, values) };
        self.update_sets(range, answer)?;
        Ok(())
    }

    /// A multimap of the pairs that are in this one, in the other, or in both, whatever containers
    /// they are kept in.
    ///
    /// Allocates as `clone` and then, for each stored range of the other, as `update` of a map with
    /// a set of the values of both. Fails where an allocation is refused. Costs a clone, and a
    /// search for each stored range of the other.
    ///
    /// ```
    /// // of a multimap that gives '0'..='9' the value 1, and one that gives '5'..='z' the value 2
    /// let either = classes.union(others)?;
    /// assert!(rt; either.contains('7', &1) && either.contains('7', &2));
    /// assert!(rt; either.contains('0', &1) && either.contains('a', &2));
    /// ```
    pub fn union<V: Eq + Clone, D: Storage<Item<AnyRange<K>, S>>>(
        &self,
        other: &RangeMultiMap<K, S, D>,
    ) -> Result<Self, MapError>
    where
        S: SetAlgebra<V>,
        requires keys { ClonesAreEqual K.is_clone K.eq }
        requires values { ClonesAreEqual V.is_clone V.eq }
        ensures pairs { IfOk result (λ new. HasPairsOfEither K.order S.has (C.items self.now)
            (D.items other.now) (C.items new)) }
        ensures canonical { IfOk result (λ new. IsCanonical K.order S.eq (C.items new)) }
        ensures nonempty { IfOk result (λ new. HasNoEmptySet S.is_void (C.items new)) }
    {
        let mut new = self.clone::<V>()?;
        let mut items = other.iter();
        while let Some((range, values)) = items.next() {
            new.insert_values::<V>(range, values)?;
        }
        new.in_form();
        Ok(new)
    }

    /// A multimap of the pairs of this one that are not in the other, whatever containers they are
    /// kept in.
    ///
    /// Allocates as `clone` and then, for each stored range of the other, as `update` of a map with
    /// a set of the values that are left. Fails where an allocation is refused. Costs a clone, and
    /// a search for each stored range of the other.
    ///
    /// ```
    /// // of a multimap that gives '0'..='9' the value 1, and one that gives '5'..='z' the value 1
    /// let first = classes.difference(others)?;
    /// assert!(rt; first.contains('4', &1) && !first.contains('5', &1));
    /// ```
    pub fn difference<V: Eq + Clone, D: Storage<Item<AnyRange<K>, S>>>(
        &self,
        other: &RangeMultiMap<K, S, D>,
    ) -> Result<Self, MapError>
    where
        S: SetAlgebra<V>,
        requires keys { ClonesAreEqual K.is_clone K.eq }
        requires values { ClonesAreEqual V.is_clone V.eq }
        ensures pairs { IfOk result (λ new. HasPairsOfFirstAlone K.order S.has (C.items self.now)
            (D.items other.now) (C.items new)) }
        ensures canonical { IfOk result (λ new. IsCanonical K.order S.eq (C.items new)) }
        ensures nonempty { IfOk result (λ new. HasNoEmptySet S.is_void (C.items new)) }
    {
        let mut new = self.clone::<V>()?;
        let mut items = other.iter();
        while let Some((range, values)) = items.next() {
            new.remove_values::<V>(range, values)?;
        }
        new.in_form();
        Ok(new)
    }
}
