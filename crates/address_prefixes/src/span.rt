//! The numbers of the addresses that a range holds.

ghost use Rattle.std.specs.Prelude.{◌≡◌, ◌+◌, ◌<◌, ◌^◌};
ghost use Rattle.address_prefixes.specs.Spans.{HasSpan, past_number, span, start_number};

use crate::prefix::greatest_of;
use address_keys::Address;
use btree_range_map::AnyRange;
use std::ops::Bound;

/// The number of the first address from the bound on.
fn first_number<A: Address>(start: &Bound<A>) -> u128
    requires { start_number A.number start.now < 2 ^ A.WIDTH }
    ensures { result ≡ start_number A.number start.now }
{
    match start {
        Bound::Included(address) => address.number(),
        Bound::Excluded(address) => address.number() + 1,
        Bound::Unbounded => 0,
    }
}

/// The number of the last address up to the bound.
fn last_number<A: Address>(end: &Bound<A>) -> u128
    requires { 0 < past_number A.number A.WIDTH end.now }
    ensures { result + 1 ≡ past_number A.number A.WIDTH end.now }
{
    match end {
        Bound::Included(address) => address.number(),
        Bound::Excluded(address) => address.number() - 1,
        Bound::Unbounded => greatest_of(A::WIDTH),
    }
}

/// The numbers of the first and the last address that a range holds.
pub fn span_of<A: Address>(range: &AnyRange<A>) -> (u128, u128)
    requires { HasSpan A.number A.WIDTH range.now }
    ensures { result ≡ span A.number A.WIDTH range.now }
{
    (first_number(&range.start), last_number(&range.end))
}
