//! What a closure returns for the pieces of two lists, a piece or two at once.
ghost use Rattle.std.specs.Prelude.{◌≡◌, ◌∷◌, [], IfOk, OnOk, MatchOption, Option, Some, None, Ok, Err};
ghost use Rattle.std.specs.Option.{option_copied, option_map};
ghost use Rattle.range_algebra.specs.References.{range_of};
ghost use Rattle.range_runs.specs.Put.{IsPut};
ghost use Rattle.range_runs.specs.Window.{option_items};
ghost use Rattle.range_runs.specs.declared.error.UpdateError.TheVariants.{Closure as ClosureError, Memory as MemoryError};
ghost use Rattle.range_merge.specs.AskedPieces.{IsFirstAskable, AreAsked, MayAnswerOnOne, AreFirstAsked, MayAnswerOnFirst};
ghost use Rattle.range_merge.specs.Combining.{MayAnswerBoth, MayBeAskedBoth, MayBeAskedOfBoth, IsAnsweredByBoth};
ghost use Rattle.range_merge.specs.Merged.{IsPlaced, IsPlacedIn, part_item};

use crate::comparing::compare_starts;
use crate::merged::{
    Part, Piece, Rests, first_alone, first_of_both, second_alone, whole_other, whole_part,
};
use range_algebra::any::AnyRange;
use range_keys::traits::PartialEnum;
use range_runs::answers::put;
use range_runs::error::UpdateError;
use range_store::storage::Item;
use std::cmp::Ordering;

/// Asks the closure for one piece, and puts its answer after the others.
#[inline(always)]
fn ask_both<
    'a,
    K: PartialEnum + Clone,
    V: 'a,
    W: 'a,
    X: Eq + Drop,
    E: Drop,
    F: Fn(Option<&V>, Option<&W>) -> Result<Option<X>, E>,
>(
    answers: &mut Vec<Item<AnyRange<K>, X>>,
    range: AnyRange<&'a K>,
    value: Option<&'a V>,
    other_value: Option<&'a W>,
    f: &F,
) -> Result<(), UpdateError<E>>
    requires { MayBeAskedBoth F.Fn f.now (option_copied value) (option_copied other_value) }
    ensures ok { OnOk result
        (IsAnsweredByBoth F.Fn f.now (option_copied value.entry) (option_copied other_value.entry)
        (IsPut K.order X.eq K.is_clone answers.old.items answers.new.items
        (range_of range.entry))) }
    ensures closure { (e : E) → result ≡ Err (ClosureError e)
        → MayAnswerBoth F.Fn f.now (option_copied value.entry) (option_copied other_value.entry)
        (Err e) }
    ensures memory { result ≡ Err MemoryError
        → (answer : X) × MayAnswerBoth F.Fn f.now (option_copied value.entry)
        (option_copied other_value.entry) (Ok (Some answer)) }
{
    match f(value, other_value) {
        Ok(Some(answer)) => {
            put(answers, range, answer)?;
            Ok(())
        }
        Ok(None) => Ok(()),
        Err(e) => Err(UpdateError::Closure(e)),
    }
}

/// Asks the closure for a piece, and at once for the next one where what is left on both sides
/// starts at one position. Returns what is left then.
#[inline(always)]
fn ask_pieces<
    'a,
    K: PartialEnum + Clone,
    V: 'a,
    W: 'a,
    X: Eq + Drop,
    E: Drop,
    F: Fn(Option<&V>, Option<&W>) -> Result<Option<X>, E>,
>(
    answers: &mut Vec<Item<AnyRange<K>, X>>,
    piece: Piece<'a, K, V, W>,
    f: &F,
) -> Result<Rests<'a, K, V, W>, UpdateError<E>>
    requires { IsFirstAskable K.order F.Fn f.now piece }
    ensures ok { IfOk result
        (λ rests. AreAsked K.order X.eq K.is_clone (MayAnswerBoth F.Fn f.now) piece.entry
        answers.old.items answers.new.items rests) }
    ensures closure { (e : E) → result ≡ Err (ClosureError e)
        → MayAnswerOnOne K.order X.eq K.is_clone (MayAnswerBoth F.Fn f.now) piece.entry
        answers.old.items (Err e) }
    ensures memory { result ≡ Err MemoryError
        → (answer : X) × MayAnswerOnOne K.order X.eq K.is_clone (MayAnswerBoth F.Fn f.now)
        piece.entry answers.old.items (Ok (Some answer)) }
{
    ask_both(answers, piece.range, piece.value, piece.other_value, f)?;
    match (piece.left, piece.right) {
        (Some(part), Some(other)) => {
            let next = first_of_both(part, other);
            ask_both(answers, next.range, next.value, next.other_value, f)?;
            Ok(Rests {
                left: next.left,
                right: next.right,
            })
        }
        (left, right) => Ok(Rests { left, right }),
    }
}

/// Asks the closure for the first piece of two parts, and for the next one where both go on at
/// one position.
#[inline(always)]
fn ask_two<
    'a,
    K: PartialEnum + Clone,
    V: 'a,
    W: 'a,
    X: Eq + Drop,
    E: Drop,
    F: Fn(Option<&V>, Option<&W>) -> Result<Option<X>, E>,
>(
    answers: &mut Vec<Item<AnyRange<K>, X>>,
    part: Part<'a, K, V>,
    other: Part<'a, K, W>,
    f: &F,
) -> Result<Rests<'a, K, V, W>, UpdateError<E>>
    requires part { IsPlaced K.order (part_item part).key }
    requires other { IsPlaced K.order (part_item other).key }
    requires asked { MayBeAskedOfBoth F.Fn f.now (part_item part ∷ []) (part_item other ∷ []) }
    ensures ok { IfOk result
        (λ rests. AreFirstAsked K.order X.eq K.is_clone (MayAnswerBoth F.Fn f.now)
        (Some (part_item part.entry)) (Some (part_item other.entry)) answers.old.items
        answers.new.items rests) }
    ensures closure { (e : E) → result ≡ Err (ClosureError e)
        → MayAnswerOnFirst K.order X.eq K.is_clone (MayAnswerBoth F.Fn f.now)
        (Some (part_item part.entry)) (Some (part_item other.entry)) answers.old.items (Err e) }
    ensures memory { result ≡ Err MemoryError
        → (answer : X) × MayAnswerOnFirst K.order X.eq K.is_clone (MayAnswerBoth F.Fn f.now)
        (Some (part_item part.entry)) (Some (part_item other.entry)) answers.old.items
        (Ok (Some answer)) }
{
    match compare_starts(part.start, other.start) {
        Ordering::Less => ask_pieces(answers, first_alone(part, other), f),
        Ordering::Equal => ask_pieces(answers, first_of_both(part, other), f),
        Ordering::Greater => ask_pieces(answers, second_alone(part, other), f),
    }
}

/// Asks the closure for the first piece of what is left on two sides, and for the next one where
/// both go on at one position. Returns what is left then, or `None` where nothing was.
#[inline(always)]
pub fn ask_first<
    'a,
    K: PartialEnum + Clone,
    V: 'a,
    W: 'a,
    X: Eq + Drop,
    E: Drop,
    F: Fn(Option<&V>, Option<&W>) -> Result<Option<X>, E>,
>(
    answers: &mut Vec<Item<AnyRange<K>, X>>,
    left: Option<Part<'a, K, V>>,
    right: Option<Part<'a, K, W>>,
    f: &F,
) -> Result<Option<Rests<'a, K, V, W>>, UpdateError<E>>
    requires left { IsPlacedIn K.order (option_map part_item left) }
    requires right { IsPlacedIn K.order (option_map part_item right) }
    requires asked { MayBeAskedOfBoth F.Fn f.now (option_items (option_map part_item left))
        (option_items (option_map part_item right)) }
    ensures ok { IfOk result
        (λ more. MatchOption more
        ((left.entry ≡ None) × (right.entry ≡ None) × (answers.new.items ≡ answers.old.items))
        (AreFirstAsked K.order X.eq K.is_clone (MayAnswerBoth F.Fn f.now)
        (option_map part_item left.entry) (option_map part_item right.entry) answers.old.items
        answers.new.items)) }
    ensures closure { (e : E) → result ≡ Err (ClosureError e)
        → MayAnswerOnFirst K.order X.eq K.is_clone (MayAnswerBoth F.Fn f.now)
        (option_map part_item left.entry) (option_map part_item right.entry) answers.old.items
        (Err e) }
    ensures memory { result ≡ Err MemoryError
        → (answer : X) × MayAnswerOnFirst K.order X.eq K.is_clone (MayAnswerBoth F.Fn f.now)
        (option_map part_item left.entry) (option_map part_item right.entry) answers.old.items
        (Ok (Some answer)) }
{
    match (left, right) {
        (None, None) => Ok(None),
        (Some(part), None) => Ok(Some(ask_pieces(answers, whole_part(part), f)?)),
        (None, Some(other)) => Ok(Some(ask_pieces(answers, whole_other(other), f)?)),
        (Some(part), Some(other)) => Ok(Some(ask_two(answers, part, other, f)?)),
    }
}
