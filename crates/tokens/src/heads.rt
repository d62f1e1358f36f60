//! The modes of a file, by the names that stand before its rules.
ghost use Rattle.std.specs.Prelude.{◌≡◌, ◌++◌, ◌∷◌, ◌≤◌, ◌^◌, [], List, ℕ, None, Some, IfOk, MatchOption, OnOk, OnErr, slice_get, length, map};
ghost use Rattle.std.specs.List.{Contains};
ghost use Rattle.tokens.specs.Heads.{AddsOnly, AreHeadsOf, AreModesOf, HasNumbers, KeepsNames, behind_modes, mode_names, named_modes, texts_of};
ghost use Rattle.tokens.specs.Tails.{IsUnknown};

use std::alloc::{AllocError, Global};

/// The mode in which a text begins, and rules hold that name no other.
const FIRST_MODE: &str = "initial";

/// The names of the modes in which the rule of the line holds, with commas between.
fn named_modes(line: &str) -> &str
    ensures { result.now ≡ named_modes line.now }
{
    match line.strip_prefix('<') {
        Some(behind) => match behind.split_once('>') {
            Some((names, _)) => names,
            None => behind,
        },
        None => FIRST_MODE,
    }
}

/// What stands behind them, unless the `<` is not closed.
pub(crate) fn behind_modes(line: &str) -> Option<&str>
    ensures { MatchOption result (behind_modes line.now ≡ None)
        (λ rest. behind_modes line.now ≡ Some rest.now) }
{
    match line.strip_prefix('<') {
        Some(behind) => {
            let (_, rest) = behind.split_once('>')?;
            Some(rest)
        }
        None => Some(line),
    }
}

/// The names of all modes of a file, and for each line the numbers of those in which its rule holds.
#[derive(Drop)]
pub(crate) struct Heads<'a> {
    pub(crate) names: Vec<&'a str>,
    pub(crate) modes: Vec<Vec<u32>>,
}

/// The modes of the lines. The first is that in which a text begins.
pub(crate) fn heads_of<'a>(alloc: Global, lines: &[&'a str]) -> Result<Heads<'a>, AllocError>
    ensures modes { IfOk result
        (λ heads. AreModesOf (texts_of lines.now) (texts_of heads.names.items)) }
    ensures numbers { IfOk result
        (λ heads. AreHeadsOf (texts_of lines.now) (texts_of heads.names.items)
        (map (λ numbers. numbers.items) heads.modes.items)) }
    ensures few { IfOk result (λ heads. length heads.names.items ≤ 2 ^ 32) }
{
    let mut names = Vec::new(alloc);
    push_copy(&mut names, FIRST_MODE)?;
    let mut modes = Vec::new(alloc);
    for at in 0..lines.len() {
        let numbers = numbers_of(alloc, &mut names, lines[at].trim())?;
        modes.push(numbers)?;
    }
    Ok(Heads { names, modes })
}

/// The numbers of the modes in which the rule of the line holds. Names that are new become the last.
fn numbers_of<'a>(
    alloc: Global,
    names: &mut Vec<&'a str>,
    line: &'a str,
) -> Result<Vec<u32>, AllocError>
    requires few { length names.old.items ≤ 2 ^ 32 }
    ensures numbers { IfOk result
        (λ numbers. HasNumbers (texts_of names.new.items) line.now numbers.items) }
    ensures kept { KeepsNames (texts_of names.old.items) (texts_of names.new.items) }
    ensures added { AddsOnly (Contains (mode_names line.now)) (texts_of names.old.items)
        (texts_of names.new.items) }
    ensures few { length names.new.items ≤ 2 ^ 32 }
{
    let called = names_in(alloc, line)?;
    let mut numbers = Vec::new(alloc);
    for at in 0..called.len() {
        let number = number_of(names, called[at])?;
        push_copy(&mut numbers, number)?;
    }
    Ok(numbers)
}

/// The names of the modes in which the rule of the line holds.
fn names_in(alloc: Global, line: &str) -> Result<Vec<&str>, AllocError>
    ensures { IfOk result (λ names. texts_of names.items ≡ mode_names line.now) }
{
    named_modes(line).split(',').collect(alloc)
}

/// The number of the mode of this name. A name that is new becomes the last.
fn number_of<'a>(names: &mut Vec<&'a str>, name: &'a str) -> Result<u32, AllocError>
    requires few { length names.old.items ≤ 2 ^ 32 }
    ensures number { IfOk result
        (λ number. slice_get (texts_of names.new.items) number ≡ Some name.now) }
    ensures kept { KeepsNames (texts_of names.old.items) (texts_of names.new.items) }
    ensures added { AddsOnly (λ other. other ≡ name.now) (texts_of names.old.items)
        (texts_of names.new.items) }
    ensures few { length names.new.items ≤ 2 ^ 32 }
{
    if let Some(number) = mode_called(names, name) {
        return Ok(number);
    }
    let Ok(number) = u32::try_from(names.len()) else {
        return Err(AllocError);
    };
    push_copy(names, name)?;
    Ok(number)
}

/// The number of the mode of this name, if there is one.
pub(crate) fn mode_called(names: &[&str], name: &str) -> Option<u32>
    requires few { length names.now ≤ 2 ^ 32 }
    ensures { MatchOption result (IsUnknown (texts_of names.now) name.now)
        (λ number. slice_get (texts_of names.now) number ≡ Some name.now) }
{
    for at in 0..names.len() {
        if names[at] == name {
            return Some(at as u32);
        }
    }
    None
}

pub(crate) fn push_copy<T: Copy + Drop>(items: &mut Vec<T>, item: T) -> Result<(), AllocError>
    ensures pushed { OnOk result (items.new.items ≡ items.old.items ++ item ∷ []) }
    ensures refused { OnErr result (items.new.items ≡ items.old.items) }
{
    match items.push(item) {
        Ok(()) => Ok(()),
        Err(_) => Err(AllocError),
    }
}
