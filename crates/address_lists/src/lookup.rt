//! Whether a list has an address, and the addresses around it.

ghost use Rattle.std.specs.Prelude.{◌≡◌, ◌↔◌, ◌<◌, ◌^◌, IfOk, IsTrue, MatchOption, OnOk};
ghost use Rattle.std.specs.Io.KnownBytes.{Appends};
ghost use Rattle.std.specs.List.{AllByRecursion};
ghost use Rattle.address_text.specs.Texts.{width};
ghost use Rattle.address_lists.specs.Lookups.{HasIp, IsLookup, IsRunOf, IsTold, ip_family, run_line, told_line};
ghost use Rattle.line_program.specs.Listing.{SpellsEach, Writes};

use crate::addresses::Addresses;
use address_sets::{Ipv4, Ipv6, run_around};
use address_text::Family;
use address_text::write::{Around, write_span_line};
use std::io::{self, Write};
use std::net::IpAddr;

fn family_of(address: IpAddr) -> Family
    ensures { result ≡ ip_family address }
{
    match address {
        IpAddr::V4(_) => Family::V4,
        IpAddr::V6(_) => Family::V6,
    }
}

fn run_of(list: &Addresses, address: IpAddr) -> Option<(u128, u128)>
    ensures { IsRunOf list.now address result }
{
    match address {
        IpAddr::V4(address) => run_around(&list.v4, Ipv4(address.to_bits())),
        IpAddr::V6(address) => run_around(&list.v6, Ipv6(address.to_bits())),
    }
}

/// Whether a list has an address. Allocates nothing. Costs a search.
pub fn has(list: &Addresses, address: IpAddr) -> bool
    ensures { IsTrue result ↔ HasIp list.now address }
{
    match address {
        IpAddr::V4(address) => list.v4.contains(Ipv4(address.to_bits())),
        IpAddr::V6(address) => list.v6.contains(Ipv6(address.to_bits())),
    }
}

fn write_run<W: Write>(address: IpAddr, run: Option<(u128, u128)>, out: &mut W) -> io::Result<()>
    requires { MatchOption run (Unit {0}) (λ ends. (ends.0 < 2 ^ width (ip_family address))
        × (ends.1 < 2 ^ width (ip_family address))) }
    ensures { OnOk result (Appends (W.contents out.old) (W.contents out.new)
        (run_line address run)) }
{
    match run {
        Some(ends) => {
            write!(out, "{address} ")?;
            write_span_line(Around::NONE, family_of(address), ends.0, ends.1, out)
        }
        None => writeln!(out, "{address} -"),
    }
}

fn write_lookup<W: Write>(list: &Addresses, address: IpAddr, out: &mut W) -> io::Result<bool>
    ensures told { IfOk result (λ has. IsTrue has ↔ HasIp list.now address) }
    ensures written { OnOk result (Writes (W.contents out.old) (W.contents out.new)
        (IsLookup list.now address)) }
{
    let run = run_of(list, address);
    write_run(address, run, out)?;
    Ok(run.is_some())
}

fn write_told_run<W: Write>(
    address: IpAddr,
    run: Option<(u128, u128)>,
    out: &mut W,
) -> io::Result<()>
    requires { MatchOption run (Unit {0}) (λ ends. (ends.0 < 2 ^ width (ip_family address))
        × (ends.1 < 2 ^ width (ip_family address))) }
    ensures { OnOk result (Appends (W.contents out.old) (W.contents out.new)
        (told_line address run)) }
{
    match run {
        Some(ends) => {
            write!(out, "{address} in ")?;
            write_span_line(Around::NONE, family_of(address), ends.0, ends.1, out)
        }
        None => writeln!(out, "{address} out"),
    }
}

/// Writes whether a list has an address, a line, and returns it.
///
/// The line is `10.1.2.3 in 10.0.0.0-10.255.255.255`, with the first and the last of the addresses
/// that follow each other around it in the list, or `10.1.2.3 out`. Allocates nothing. Costs a
/// search.
pub fn write_told<W: Write>(list: &Addresses, address: IpAddr, out: &mut W) -> io::Result<bool>
    ensures told { IfOk result (λ has. IsTrue has ↔ HasIp list.now address) }
    ensures written { OnOk result (Writes (W.contents out.old) (W.contents out.new)
        (IsTold list.now address)) }
{
    let run = run_of(list, address);
    write_told_run(address, run, out)?;
    Ok(run.is_some())
}

/// Writes where a list has some addresses, a line each, and returns whether it has them all.
///
/// A line is the address, and the first and the last of the addresses that follow each other around
/// it in the list, as `10.1.2.3 10.0.0.0-10.255.255.255`. It is `10.1.2.3 -` where the list does
/// not have the address. Allocates nothing. Costs a search for each address.
pub fn write_lookups<W: Write>(
    list: &Addresses,
    addresses: &[IpAddr],
    out: &mut W,
) -> io::Result<bool>
    ensures told { IfOk result (λ all. IsTrue all ↔ AllByRecursion (HasIp list.now) addresses.now) }
    ensures written { OnOk result (Writes (W.contents out.old) (W.contents out.new)
        (SpellsEach (IsLookup list.now) addresses.now)) }
{
    let mut has_all = true;
    for address in addresses {
        let has = write_lookup(list, *address, out)?;
        has_all &= has;
    }
    Ok(has_all)
}
