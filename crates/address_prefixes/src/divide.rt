//! Numbers divided into prefixes, each as wide as it goes.

ghost use Rattle.std.specs.Prelude.{◌≡◌, ◌+◌, ◌≤◌, ◌<◌, ◌^◌, ◌∷◌, IfSome};
ghost use Rattle.address_prefixes.specs.Runs.{IsSpan};
ghost use Rattle.address_prefixes.specs.Tiles.{all_tiles, part_tiles};

use crate::prefix::{Prefix, free_bits, greatest_of};
use address_keys::Address;

/// What is left of some numbers after the one up to which they were divided.
fn part_after<A: Address>(end: u128, last: u128) -> Option<(u128, u128)>
    requires whole { end ≤ last }
    requires fits { last < 2 ^ A.WIDTH }
    ensures numbers { IfSome result (IsSpan A.WIDTH) }
    ensures tiles { part_tiles A.at A.WIDTH result
        ≡ all_tiles A.at A.WIDTH (end + 1) (last + 1) }
{
    if end < last {
        Some((end + 1, last))
    } else {
        None
    }
}

/// The first prefix of the numbers from the first to the last, and the numbers that are left.
pub fn divide<A: Address>(first: u128, last: u128) -> (Prefix<A>, Option<(u128, u128)>)
    requires { IsSpan A.WIDTH (first, last) }
    ensures numbers { IfSome result.1 (IsSpan A.WIDTH) }
    ensures tiles { all_tiles A.at A.WIDTH first (last + 1)
        ≡ result.0 ∷ part_tiles A.at A.WIDTH result.1 }
{
    let free = free_bits(first, last, A::WIDTH);
    let end = first + greatest_of(free);
    let prefix = Prefix {
        network: A::at(first),
        last: A::at(end),
        length: A::WIDTH - free,
    };
    (prefix, part_after::<A>(end, last))
}
