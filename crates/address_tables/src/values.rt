//! Values by numbers: by the place of the first that equals them.

ghost use Rattle.std.specs.Prelude.{◌≡◌, ◌<◌, ◌^◌, map, length, IfOk, IfSome, OnOk};
ghost use Rattle.std.specs.Option.{option_copied, option_map};
ghost use Rattle.btree_range_map.specs.Holding.{box_items};
ghost use Rattle.address_tables.specs.Numbers.{AreAmong, IsAmong, place};

use crate::AddressTable;
use address_keys::Address;
use std::alloc::{AllocError, Global};

/// The place of the first of the values that equals this one, or how many they are.
pub(crate) fn place_of<V: Eq>(values: &[&V], value: &V) -> usize
    ensures { result ≡ place V.eq (map (λ v. v.now) values.now) value.now }
{
    for (index, other) in values.iter().enumerate() {
        if **other == *value {
            return index;
        }
    }
    values.len()
}

/// The place of the one value, where there is one.
pub(crate) fn other_place<V: Eq>(values: &[&V], otherwise: Option<&V>) -> Option<u32>
    requires { length values.now < 2 ^ 32 }
    ensures { result ≡ option_map (place V.eq (map (λ v. v.now) values.now))
        (option_copied otherwise.entry) }
{
    match otherwise {
        Some(value) => Some(place_of(values, value) as u32),
        None => None,
    }
}

/// Adds a value that none of the others equals.
fn add<'a, V: Eq>(values: &mut Vec<&'a V>, value: &'a V) -> Result<(), AllocError>
    ensures here { OnOk result (IsAmong V.eq (map (λ v. v.now) values.new.items) value.now) }
    ensures kept { OnOk result ((v : V) → IsAmong V.eq (map (λ v. v.now) values.old.items) v
        → IsAmong V.eq (map (λ v. v.now) values.new.items) v) }
{
    if place_of(values.as_slice(), value) == values.len() {
        values.push(value)?;
    }
    Ok(())
}

/// The one value, where there is one.
fn other_alone<'a, V: Eq>(alloc: Global, otherwise: Option<&'a V>) -> Result<Vec<&'a V>, AllocError>
    ensures { IfOk result (λ values. IfSome (option_copied otherwise.entry)
        (IsAmong V.eq (map (λ v. v.now) values.items))) }
{
    let Some(value) = otherwise else {
        return Ok(Vec::new(alloc));
    };
    let mut values = Vec::new(alloc);
    add(&mut values, value)?;
    Ok(values)
}

/// The values of a table, and one more, where there is one.
pub(crate) fn values_of<'a, A: Address, V: Eq + Drop>(
    alloc: Global,
    table: &'a AddressTable<A, V>,
    otherwise: Option<&'a V>,
) -> Result<Vec<&'a V>, AllocError>
    ensures { IfOk result (λ values. AreAmong V.eq (map (λ v. v.now) values.items)
        (option_copied otherwise.entry) (box_items table.now)) }
{
    let mut values = other_alone(alloc, otherwise)?;
    let mut items = table.iter();
    while let Some((_, value)) = items.next() {
        add(&mut values, value)?;
    }
    Ok(values)
}
