//! How the values of the keys of a range are added and taken out.
ghost use Rattle.std.specs.Prelude.{◌≡◌, IsTrue, Ok, IsOk, IfOk, OnOk, OnErr, IfSome, Option};
ghost use Rattle.std.specs.Option.{option_copied};
ghost use Rattle.range_algebra.specs.Range.{ClonesAreEqual, Holds, IsEmptyRange};
ghost use Rattle.range_map.specs.Askable.{MayBeAskedAnything};
ghost use Rattle.range_map.specs.Rebinding.{AreRebound};
ghost use Rattle.range_runs.specs.Answers.{IsAsAnswered, IsUpdated, MayAnswer};
ghost use Rattle.range_runs.specs.Canonical.{IsCanonical};
ghost use Rattle.range_runs.specs.Frames.{IsMergeFrame};
ghost use Rattle.range_runs.specs.Spelling.{KeepsSpelling};
ghost use Rattle.range_multimaps.specs.Members.{HasAlso, HasAllBut, among};
ghost use Rattle.range_multimaps.specs.Pairs.{HasNoEmptySet, HasPair, HasPairsAlso, HasPairsWithout, StayBound};

use super::RangeMultiMap;
use crate::members::{MaybeEmpty, SetMut};
use range_algebra::any::AnyRange;
use range_algebra::range::AsRange;
use range_keys::traits::Measure;
use range_map::map::{MapError, stored_lists_bind_once};
use range_store::storage::{Item, Storage};
use std::alloc::{AllocError, Global};

/// A copy of the set, or an empty set where there is none.
fn copied<V: Eq + Clone, S: SetMut<V>>(alloc: Global, old: Option<&S>) -> Result<S, AllocError>
    requires { ClonesAreEqual V.is_clone V.eq }
    ensures alike { IfOk result
        (λ copy. (v : V) → S.has copy v ≡ among S.has (option_copied old.entry) v) }
    ensures equal { IfOk result
        (λ copy. IfSome (option_copied old.entry) (λ s. IsTrue (S.eq s copy))) }
{
    Ok(match old {
        Some(set) => set.clone()?,
        None => S::default(alloc),
    })
}

/// The set with the value, or a set of the value alone.
fn with_value<V: Eq + Clone, S: SetMut<V>>(
    alloc: Global,
    old: Option<&S>,
    value: &V,
) -> Result<Option<S>, AllocError>
    requires { ClonesAreEqual V.is_clone V.eq }
    ensures added { IfOk result
        (λ new. HasAlso S.has V.eq (option_copied old.entry) new value.now) }
    ensures nonempty { IfOk result (λ new. IfSome new (λ s. ¬ S.is_void s)) }
    ensures kept { IfOk result (λ new. IsTrue (among S.has (option_copied old.entry) value.now)
        → IsAsAnswered S.eq (option_copied old.entry) new) }
{
    let mut set = copied::<V, S>(alloc, old)?;
    if !set.contains(value) {
        set.insert(value.clone()?)?;
    }
    Ok(Some(set))
}

/// The set without the value, or none where no other is left.
fn without_value<V: Eq + Clone, S: SetMut<V>>(
    old: Option<&S>,
    value: &V,
) -> Result<Option<S>, AllocError>
    requires { ClonesAreEqual V.is_clone V.eq }
    ensures removed { IfOk result
        (λ new. HasAllBut S.has V.eq (option_copied old.entry) new value.now) }
    ensures nonempty { IfOk result (λ new. IfSome new (λ s. ¬ S.is_void s)) }
    ensures kept { IfOk result (λ new. IfSome (option_copied old.entry) (λ s. ¬ S.is_void s)
        → ¬ IsTrue (among S.has (option_copied old.entry) value.now)
        → IsAsAnswered S.eq (option_copied old.entry) new) }
{
    let Some(old) = old else {
        return Ok(None);
    };
    let mut set = old.clone()?;
    set.remove(value);
    if set.is_empty() {
        return Ok(None);
    }
    old.known();
    set.known();
    Ok(Some(set))
}

impl<K: Measure + Clone, S: MaybeEmpty, C: Storage<Item<AnyRange<K>, S>>> RangeMultiMap<K, S, C> {
    /// Gives the keys of the range the sets that the closure answers to theirs. After an error
    /// nothing is changed.
    pub(super) fn update_sets<
        R: AsRange<Item = K>,
        F: Fn(Option<&S>) -> Result<Option<S>, AllocError>,
    >(&mut self, range: R, f: F) -> Result<(), MapError>
        requires keys { ClonesAreEqual K.is_clone K.eq }
        requires sets { ClonesAreEqual S.is_clone S.eq }
        requires callable { MayBeAskedAnything F.Fn f }
        requires nonempty { (old answer : Option S) → MayAnswer F.Fn f old (Ok answer)
            → IfSome answer (λ s. ¬ S.is_void s) }
        ensures updated { OnOk result (¬ IsEmptyRange K.order (R.range range)
            → IsUpdated K.order S.eq F.Fn f (C.items self.old) (C.items self.new)
            (R.range range)) }
        ensures rebound { OnOk result (AreRebound K.order S.eq (MayAnswer F.Fn f)
            (C.items self.old) (C.items self.new) (R.range range)) }
        ensures spelled { OnOk result
            (KeepsSpelling K.order (C.items self.old) (C.items self.new)) }
        ensures was { IsCanonical K.order S.eq (C.items self.old) }
        ensures canonical { IsCanonical K.order S.eq (C.items self.new) }
        ensures full { HasNoEmptySet S.is_void (C.items self.old) }
        ensures nonempty { HasNoEmptySet S.is_void (C.items self.new) }
        ensures refused { OnErr result (C.items self.new ≡ C.items self.old) }
        ensures empty { IsEmptyRange K.order (R.range range) → IsOk result }
        ensures empty_unchanged { IsEmptyRange K.order (R.range range)
            → C.items self.new ≡ C.items self.old }
    {
        self.in_form();
        if let Err(_) = self.map.update(range, f) {
            return Err(MapError::Memory);
        }
        Ok(())
    }

    /// Pairs each key of the range with the value.
    ///
    /// Each key that has an equal value already keeps its set, and so does each key outside the
    /// range. A stored range that the range neither meets nor touches stands as it was, and a bound
    /// that lies where a stored range had one stays as it was written. An empty range changes
    /// nothing. Allocates for a copy of each set that the range meets, for a clone of the value in
    /// each set that it joins, and for clones of bounds. It also allocates where more ranges are
    /// stored than the container has capacity for. After an error nothing is changed. Costs one
    /// search, a step for each stored range that the range meets or touches, and the copies. So `n`
    /// values that are given to one range one by one copy `n * n / 2` values in all.
    ///
    /// ```
    /// classes.insert('0'..='9', 1)?; // digits
    /// classes.insert('a'..='z', 2)?; // letters
    /// classes.insert('a'..='f', 1)?; // hexadecimal digits, too
    /// ```
    pub fn insert<R: AsRange<Item = K>, V: Eq + Clone>(
        &mut self,
        range: R,
        value: V,
    ) -> Result<(), MapError>
    where
        S: SetMut<V>,
        requires keys { ClonesAreEqual K.is_clone K.eq }
        requires values { ClonesAreEqual V.is_clone V.eq }
        ensures added { OnOk result
            (HasPairsAlso K.order S.has V.eq (C.items self.old) (C.items self.new)
            (R.range range) value) }
        ensures kept { StayBound K.order S.eq (C.items self.old) (C.items self.new)
            (λ k. HasPair K.order S.has (C.items self.old) k value) }
        ensures others { StayBound K.order S.eq (C.items self.old) (C.items self.new)
            (λ k. ¬ Holds K.order (R.range range) k) }
        ensures frame { OnOk result (¬ IsEmptyRange K.order (R.range range)
            → IsMergeFrame K.order S.eq (C.items self.old) (C.items self.new) (R.range range)
            (λ s. IsTrue (S.has s value))) }
        ensures spelled { OnOk result
            (KeepsSpelling K.order (C.items self.old) (C.items self.new)) }
        ensures canonical { IsCanonical K.order S.eq (C.items self.new) }
        ensures nonempty { HasNoEmptySet S.is_void (C.items self.new) }
        ensures refused { OnErr result (C.items self.new ≡ C.items self.old) }
        ensures empty { IsEmptyRange K.order (R.range range) → IsOk result }
        ensures empty_unchanged { IsEmptyRange K.order (R.range range)
            → C.items self.new ≡ C.items self.old }
    {
        stored_lists_bind_once::<K, S>();
        let alloc = self.alloc;
        let answer = |old: Option<&S>| -> Result<Option<S>, AllocError>
            requires { ClonesAreEqual V.is_clone V.eq }
            ensures added { IfOk result
                (λ new. HasAlso S.has V.eq (option_copied old.entry) new value) }
            ensures nonempty { IfOk result (λ new. IfSome new (λ s. ¬ S.is_void s)) }
            ensures kept { IfOk result (λ new. IsTrue (among S.has (option_copied old.entry) value)
                → IsAsAnswered S.eq (option_copied old.entry) new) }
        { with_value::<V, S>(alloc, old, &value) };
        self.update_sets(range, answer)?;
        Ok(())
    }

    /// Takes the value from each key of the range.
    ///
    /// A key without a value left is bound no more; each key that has no equal value keeps its set,
    /// and so does each key outside the range. A stored range that the range neither meets nor
    /// touches stands as it was, and a bound that lies where a stored range had one stays as it was
    /// written. An empty range changes nothing. Allocates for a copy of each set that the range
    /// meets, for clones of bounds, and where more ranges are stored than the container has
    /// capacity for. After an error nothing is changed. Costs one search, a step for each stored
    /// range that the range meets or touches, and the copies.
    ///
    /// ```
    /// classes.remove('0'..='z', &1)?;
    /// assert!(rt; classes.range_count() == 1); // 'a'..='z' has {2}
    /// ```
    pub fn remove<R: AsRange<Item = K>, V: Eq + Clone>(
        &mut self,
        range: R,
        value: &V,
    ) -> Result<(), MapError>
    where
        S: SetMut<V>,
        requires keys { ClonesAreEqual K.is_clone K.eq }
        requires values { ClonesAreEqual V.is_clone V.eq }
        ensures removed { OnOk result
            (HasPairsWithout K.order S.has V.eq (C.items self.old) (C.items self.new)
            (R.range range) value.now) }
        ensures kept { StayBound K.order S.eq (C.items self.old) (C.items self.new)
            (λ k. ¬ HasPair K.order S.has (C.items self.old) k value.now) }
        ensures others { StayBound K.order S.eq (C.items self.old) (C.items self.new)
            (λ k. ¬ Holds K.order (R.range range) k) }
        ensures frame { OnOk result (¬ IsEmptyRange K.order (R.range range)
            → IsMergeFrame K.order S.eq (C.items self.old) (C.items self.new) (R.range range)
            (λ s. ¬ IsTrue (S.has s value.now))) }
        ensures spelled { OnOk result
            (KeepsSpelling K.order (C.items self.old) (C.items self.new)) }
        ensures canonical { IsCanonical K.order S.eq (C.items self.new) }
        ensures nonempty { HasNoEmptySet S.is_void (C.items self.new) }
        ensures refused { OnErr result (C.items self.new ≡ C.items self.old) }
        ensures empty { IsEmptyRange K.order (R.range range) → IsOk result }
        ensures empty_unchanged { IsEmptyRange K.order (R.range range)
            → C.items self.new ≡ C.items self.old }
    {
        stored_lists_bind_once::<K, S>();
        let answer = |old: Option<&S>| -> Result<Option<S>, AllocError>
            requires { ClonesAreEqual V.is_clone V.eq }
            ensures removed { IfOk result
                (λ new. HasAllBut S.has V.eq (option_copied old.entry) new value.entry.now) }
            ensures nonempty { IfOk result (λ new. IfSome new (λ s. ¬ S.is_void s)) }
            ensures kept { IfOk result (λ new. IfSome (option_copied old.entry) (λ s. ¬ S.is_void s)
                → ¬ IsTrue (among S.has (option_copied old.entry) value.entry.now)
                → IsAsAnswered S.eq (option_copied old.entry) new) }
        { without_value::<V, S>(old, value) };
        self.update_sets(range, answer)?;
        Ok(())
    }
}
