//! The addresses of a list.

ghost use Rattle.std.specs.Prelude.{◌⊎◌, ◌≡◌, ◌↔◌, [], IfOk, IsTrue, OnOk};
ghost use Rattle.btree_range_map.specs.Holding.{box_items};
ghost use Rattle.address_text.specs.Lines.{AreAddresses, SaysAddress};
ghost use Rattle.address_lists.specs.Lists.{Has, HasAllOf, HasJust, ShareNone};

use crate::sets;
use address_sets::{Address, AddressSet, Ipv4, Ipv6, take_out};
use address_text::{Family, Line};
use btree_range_map::MapError;
use std::alloc::Global;

/// Addresses of both families.
#[derive(Drop)]
pub struct Addresses {
    /// Those of IPv4.
    pub v4: AddressSet<Ipv4>,
    /// Those of IPv6.
    pub v6: AddressSet<Ipv6>,
}

/// No addresses of one family. Allocates nothing.
pub fn empty_set<A: Address>(alloc: Global) -> AddressSet<A>
    ensures { box_items result ≡ [] }
{
    AddressSet::new(alloc)
}

impl Addresses {
    /// No addresses. Allocates nothing.
    pub fn new(alloc: Global) -> Addresses
        ensures v4 { box_items result.v4 ≡ [] }
        ensures v6 { box_items result.v6 ≡ [] }
    {
        Addresses {
            v4: empty_set(alloc),
            v6: empty_set(alloc),
        }
    }

    /// Adds the addresses that a line says. Costs no search where they come after all others.
    pub fn add(&mut self, line: Line) -> Result<(), MapError>
        requires { AreAddresses line }
        ensures { OnOk result (HasJust self.new
            (λ family n. Has self.old family n ⊎ SaysAddress family n line)) }
    {
        match line {
            Line::Nothing => Ok(()),
            Line::Addresses(Family::V4, first, last) => {
                sets::insert(&mut self.v4, Ipv4(first as u32), Ipv4(last as u32))
            }
            Line::Addresses(Family::V6, first, last) => {
                sets::insert(&mut self.v6, Ipv6(first), Ipv6(last))
            }
        }
    }

    /// Adds the addresses of the other list.
    pub fn join(&mut self, other: &Addresses) -> Result<(), MapError>
        ensures { OnOk result (HasJust self.new
            (λ family n. Has self.old family n ⊎ Has other.now family n)) }
    {
        sets::join(&mut self.v4, &other.v4)?;
        sets::join(&mut self.v6, &other.v6)
    }

    /// Keeps the addresses that the other list has too.
    pub fn keep_common(&mut self, other: &Addresses) -> Result<(), MapError>
        ensures { OnOk result (HasJust self.new
            (λ family n. Has self.old family n × Has other.now family n)) }
    {
        sets::keep_common(&mut self.v4, &other.v4)?;
        sets::keep_common(&mut self.v6, &other.v6)
    }

    /// Takes out the addresses of the other list.
    pub fn take_out(&mut self, other: &Addresses) -> Result<(), MapError>
        ensures { OnOk result (HasJust self.new
            (λ family n. Has self.old family n × ¬ Has other.now family n)) }
    {
        take_out(&mut self.v4, &other.v4)?;
        take_out(&mut self.v6, &other.v6)
    }

    /// The addresses that just one of both lists has.
    pub fn symmetric_difference(&self, other: &Addresses) -> Result<Addresses, MapError>
        ensures { IfOk result (λ new. HasJust new
            (λ family n. (Has self.now family n × ¬ Has other.now family n)
            ⊎ ((¬ Has self.now family n) × Has other.now family n))) }
    {
        let v4 = sets::symmetric_difference(&self.v4, &other.v4)?;
        let v6 = sets::symmetric_difference(&self.v6, &other.v6)?;
        Ok(Addresses { v4, v6 })
    }

    /// All other addresses of both families.
    pub fn inverse(&self) -> Result<Addresses, MapError>
        ensures { IfOk result (λ new. HasJust new (λ family n. ¬ Has self.now family n)) }
    {
        let v4 = sets::inverse(&self.v4)?;
        let v6 = sets::inverse(&self.v6)?;
        Ok(Addresses { v4, v6 })
    }

    /// Whether the other list has each address of this one. Allocates nothing.
    pub fn is_subset(&self, other: &Addresses) -> bool
        ensures { IsTrue result ↔ HasAllOf other.now self.now }
    {
        sets::is_subset(&self.v4, &other.v4) && sets::is_subset(&self.v6, &other.v6)
    }

    /// Whether no address is in both lists. Allocates nothing.
    pub fn is_disjoint(&self, other: &Addresses) -> bool
        ensures { IsTrue result ↔ ShareNone self.now other.now }
    {
        sets::is_disjoint(&self.v4, &other.v4) && sets::is_disjoint(&self.v6, &other.v6)
    }
}
