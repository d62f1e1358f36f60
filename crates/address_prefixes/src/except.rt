//! A set but for the addresses of another.

ghost use Rattle.std.specs.Prelude.{OnOk};
ghost use Rattle.btree_range_map.specs.Holding.{box_items};
ghost use Rattle.btree_range_map.specs.Range.{ClonesAreEqual};
ghost use Rattle.btree_range_map.specs.TwoSets.{HoldsFirstAlone};

use address_keys::Address;
use btree_range_map::{MapError, RangeSet};

/// Takes exceptions out of a set: it keeps just the addresses that they do not have.
///
/// Costs a search for each range of the exceptions. Allocates where stored ranges are cut. After an
/// error some of the exceptions are out, and no other address.
///
/// ```
/// // of a set of the addresses 10.0.0.0 to 10.0.0.5, and an exception 10.0.0.4
/// take_out(&mut set, &exceptions)?;
/// assert!(rt; !set.contains(Ipv4(0x0a000004)));
/// ```
pub fn take_out<A: Address>(set: &mut RangeSet<A>, exceptions: &RangeSet<A>) -> Result<(), MapError>
    requires { ClonesAreEqual A.is_clone A.eq }
    ensures { OnOk result (HoldsFirstAlone A.order (box_items set.old) (box_items exceptions.now)
        (box_items set.new)) }
{
    set.remove_all(exceptions)
}
