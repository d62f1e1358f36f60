//! What the lines of tables say.

ghost use Rattle.std.specs.Prelude.{◌≡◌, ◌∷◌, List, [], OnOk};
ghost use Rattle.address_text.specs.Lines.{AreAddresses};
ghost use Rattle.address_rows.specs.Rows.{Row};
ghost use Rattle.address_table_lists.specs.Rows.{Hold, HoldMore};

use address_keys::{Ipv4, Ipv6};
use address_rows::Texts;
use address_text::{Family, Line};
use std::alloc::{AllocError, Global};

/// The addresses from the first to the last, and the number of their value.
#[derive(Clone, Copy, PartialEq, Eq, Debug)]
pub struct Binding<A> {
    pub first: A,
    pub last: A,
    pub value: u32,
}

/// What the lines of tables say, in their order: addresses of either family with values.
#[derive(Drop)]
pub struct Rows {
    /// The values.
    pub texts: Texts,
    /// Addresses of IPv4.
    pub v4: Vec<Binding<Ipv4>>,
    /// Addresses of IPv6.
    pub v6: Vec<Binding<Ipv6>>,
}

impl Rows {
    /// No rows. Allocates nothing.
    pub fn new(alloc: Global) -> Rows
        ensures { Hold result [] }
    {
        Rows {
            texts: Texts::new(alloc),
            v4: Vec::new(alloc),
            v6: Vec::new(alloc),
        }
    }

    /// Takes out the addresses with their memory, and keeps the numbers of the values.
    ///
    /// What is read after that has the same number for the same value.
    pub fn clear(&mut self, alloc: Global)
        ensures texts { self.new.texts ≡ self.old.texts }
        ensures none { (rows : List Row) → Hold self.old rows → Hold self.new [] }
    {
        self.v4 = Vec::new(alloc);
        self.v6 = Vec::new(alloc);
    }

    /// Adds the addresses that a line says, with a value.
    pub fn add(&mut self, line: Line, value: &str) -> Result<(), AllocError>
        requires { AreAddresses line }
        ensures { OnOk result (HoldMore self.old self.new
            (record { addresses = line; value = value.now } ∷ [])) }
    {
        let value = self.texts.number_of(value)?;
        match line {
            Line::Nothing => Ok(()),
            Line::Addresses(Family::V4, first, last) => {
                let (first, last) = (Ipv4(first as u32), Ipv4(last as u32));
                self.v4.push(Binding { first, last, value })?;
                Ok(())
            }
            Line::Addresses(Family::V6, first, last) => {
                let (first, last) = (Ipv6(first), Ipv6(last));
                self.v6.push(Binding { first, last, value })?;
                Ok(())
            }
        }
    }
}
