//! Lists that have few prefixes, and more addresses than others.

ghost use Rattle.std.specs.Prelude.{◌<◌, IfOk};
ghost use Rattle.cidr.specs.Limits.{IsCovered, IsLimited};

use address_covers::least_cover;
use address_lists::Addresses;
use btree_range_map::MapError;
use std::alloc::Global;

/// How many addresses of each family are added.
#[derive(Clone, Copy)]
pub struct Added {
    pub v4: u128,
    pub v6: u128,
}

/// A list that is printed in place of another.
#[derive(Drop)]
pub struct Limited {
    pub list: Addresses,
    /// How many addresses it has that the other has not.
    pub added: Added,
}

/// A list of which each family has at most so many prefixes, with the fewest addresses more.
fn covered(alloc: Global, list: Addresses, most: u32) -> Result<Limited, MapError>
    requires { 0 < most }
    ensures { IfOk result (λ new. IsCovered most list new.list new.added) }
{
    let Addresses { v4, v6 } = list;
    let v4 = least_cover(alloc, v4, most)?;
    let v6 = least_cover(alloc, v6, most)?;
    Ok(Limited {
        list: Addresses {
            v4: v4.set,
            v6: v6.set,
        },
        added: Added {
            v4: v4.added,
            v6: v6.added,
        },
    })
}

/// The list that is printed in place of one, where at most so many prefixes of each family are
/// printed: the same, where there is no such number or it is 0.
pub fn limit_list(alloc: Global, list: Addresses, most: Option<u32>) -> Result<Limited, MapError>
    ensures { IfOk result (λ new. IsLimited most list new.list new.added) }
{
    match most {
        Some(most) if most > 0 => covered(alloc, list, most),
        _ => Ok(Limited {
            list,
            added: Added { v4: 0, v6: 0 },
        }),
    }
}
