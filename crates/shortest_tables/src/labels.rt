//! The labels with which blocks of addresses need fewest entries.
//!
//! A list of values is those of a block that has no unbound address. It is empty for a block that
//! has one, which can take no value from above.

ghost use Rattle.std.specs.Prelude.{◌≡◌, ◌<◌, ℕ, false, nat_eq, length, get_or, filter, if◌then◌else◌, IfOk, OnOk};
ghost use Rattle.std.specs.List.{AllByRecursion};
ghost use Rattle.shortest_tables.specs.Entries.{own};
ghost use Rattle.shortest_tables.specs.Labels.{choose, common, entry, has, join};
ghost use Rattle.shortest_tables.specs.Numbers.{as_labels};
ghost use Rattle.shortest_tables.specs.Trees.{IsClear};

use std::alloc::{AllocError, Global};

/// Marks some numbers as seen, or as not seen.
fn mark(values: &[u32], is_seen: bool, seen: &mut Vec<bool>)
    requires known { AllByRecursion (λ v. v < length seen.old.items) values.now }
    ensures length { length seen.new.items ≡ length seen.old.items }
    ensures marked { (v : ℕ) → get_or seen.new.items v false
        ≡ (if has nat_eq v values.now then is_seen else get_or seen.old.items v false) }
{
    for value in values {
        seen[*value as usize] = is_seen;
    }
}

/// Those of the values that are marked.
fn seen_values(alloc: Global, values: &[u32], seen: &[bool]) -> Result<Vec<u32>, AllocError>
    ensures { IfOk result (λ both. both.items
        ≡ filter (λ v. get_or seen.now v false) values.now) }
{
    values
        .iter()
        .copied()
        .filter(|value| seen.get(*value as usize).copied().unwrap_or(false))
        .collect(alloc)
}

/// The values that both lists have, in the order of the first. Nothing is marked before or after.
fn common_values(
    alloc: Global,
    first: &[u32],
    second: &[u32],
    seen: &mut Vec<bool>,
) -> Result<Vec<u32>, AllocError>
    requires first { AllByRecursion (λ v. v < length seen.old.items) first.now }
    requires second { AllByRecursion (λ v. v < length seen.old.items) second.now }
    requires clear { IsClear seen.old.items }
    ensures common { IfOk result (λ both. both.items ≡ common nat_eq first.now second.now) }
    ensures clear { OnOk result (IsClear seen.new.items) }
    ensures length { length seen.new.items ≡ length seen.old.items }
{
    mark(second, true, seen);
    let both = seen_values(alloc, first, seen.as_slice())?;
    mark(second, false, seen);
    Ok(both)
}

/// The labels of a block by those of its halves: what both have, or else what either has.
pub(crate) fn join_labels(
    alloc: Global,
    first: &[u32],
    second: &[u32],
    seen: &mut Vec<bool>,
) -> Result<Vec<u32>, AllocError>
    requires first { AllByRecursion (λ v. v < length seen.old.items) first.now }
    requires second { AllByRecursion (λ v. v < length seen.old.items) second.now }
    requires clear { IsClear seen.old.items }
    ensures joined { IfOk result (λ best. as_labels best.items
        ≡ join nat_eq (as_labels first.now) (as_labels second.now)) }
    ensures clear { OnOk result (IsClear seen.new.items) }
    ensures length { length seen.new.items ≡ length seen.old.items }
{
    if first.is_empty() || second.is_empty() {
        return Ok(Vec::new(alloc));
    }
    let mut best = common_values(alloc, first, second, seen)?;
    if best.is_empty() {
        best.extend_from_slice(first)?;
        best.extend_from_slice(second)?;
    }
    Ok(best)
}

/// The value of a block's own entry: none, where its label comes from above.
pub(crate) fn own_value(best: &[u32], above: Option<u32>) -> Option<u32>
    ensures { own result ≡ entry nat_eq (as_labels best.now) above }
{
    if let Some(value) = above {
        if best.contains(&value) {
            return None;
        }
    }
    best.first().copied()
}

/// The label of a block: the one from above, where it is one of the best.
pub(crate) fn choose_label(best: &[u32], above: Option<u32>) -> Option<u32>
    ensures { result ≡ choose nat_eq (as_labels best.now) above }
{
    if let Some(value) = above {
        if best.contains(&value) {
            return Some(value);
        }
    }
    best.first().copied()
}
