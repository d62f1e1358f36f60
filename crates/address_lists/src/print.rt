//! The prefixes of a list, each on a line.

ghost use Rattle.std.specs.Prelude.{◌≡◌, [], OnOk};
ghost use Rattle.line_program.specs.Listing.{Writes};
ghost use Rattle.address_lists.specs.Printed.{IsPrinted};
ghost use Rattle.address_text.specs.Texts.{width};
ghost use Rattle.address_text.specs.declared.family.Family.{Family};

use crate::addresses::Addresses;
use crate::split::write_split_prefixes;
use address_sets::{Address, Ipv4, Ipv6};
use address_text::Family;
use address_text::write::Around;
use std::io::{self, Write};

/// Addresses of one of the two families.
pub trait FamilyAddress: Address {
    ghost its_family: { Family };

    fn family() -> Family
        ensures { result ≡ its_family };

    ghost its_width: { width its_family ≡ Self.WIDTH };
}

impl FamilyAddress for Ipv4 {
    ghost use Rattle.std.specs.Prelude.{refl};
    ghost use Rattle.address_text.specs.declared.family.Family.TheVariants.{V4};

    ghost its_family = { V4 };

    fn family() -> Family {
        Family::V4
    }

    ghost its_width = { refl };
}

impl FamilyAddress for Ipv6 {
    ghost use Rattle.std.specs.Prelude.{refl};
    ghost use Rattle.address_text.specs.declared.family.Family.TheVariants.{V6};

    ghost its_family = { V6 };

    fn family() -> Family {
        Family::V6
    }

    ghost its_width = { refl };
}

/// Writes the prefixes of a list, those of IPv4 first, each on a line, with the same texts around
/// each. Allocates nothing.
///
/// They are as few as can be, in ascending order, and have just the addresses of the list.
pub fn write_prefixes_around<W: Write>(
    list: &Addresses,
    around: Around<'_>,
    out: &mut W,
) -> io::Result<()>
    ensures { OnOk result (Writes (W.contents out.old) (W.contents out.new)
        (IsPrinted around.entry.before.now around.entry.after.now list.now)) }
{
    write_split_prefixes(list, &[], around, out)
}

/// Writes the prefixes of a list, those of IPv4 first, each on a line. Allocates nothing.
///
/// They are as few as can be, in ascending order, and have just the addresses of the list.
pub fn write_prefixes<W: Write>(list: &Addresses, out: &mut W) -> io::Result<()>
    ensures { OnOk result (Writes (W.contents out.old) (W.contents out.new)
        (IsPrinted [] [] list.now)) }
{
    write_prefixes_around(list, Around::NONE, out)
}
