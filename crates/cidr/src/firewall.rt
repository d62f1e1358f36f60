//! Lists as files that `ipset restore` and `nft -f` read.

ghost use Rattle.std.specs.Prelude.{◌≡◌, ◌↔◌, IfOk, IsTrue, OnOk, string_bytes};
ghost use Rattle.line_program.specs.Listing.{Writes};
ghost use Rattle.address_text.specs.declared.family.Family.TheVariants.{V4, V6};
ghost use Rattle.cidr.specs.Firewalls.{HasNone, IsFilled, IsFirewallFile, IsIpsetText, IsNftText, IsSetText, ipset_head, ipset_kind, nft_head, nft_name, nft_set, set_name};
ghost use Rattle.cidr.specs.declared.firewall.Firewall.{Firewall};

use address_lists::{Addresses, write_family_prefixes};
use address_text::Family;
use address_text::write::Around;
use std::alloc::{AllocError, Global};
use std::io::{self, Write};

/// Whose file it is, and how its sets are named.
#[derive(Clone, Copy)]
pub enum Firewall<'a> {
    /// That of `ipset`: the name of each set begins with this one.
    Ipset(&'a str),
    /// That of `nft`: the table, and how the name of each set begins.
    Nft(&'a str, &'a str),
}

/// What a file has of the set of one family.
#[derive(Drop)]
pub struct SetText {
    /// The lines that make the set.
    head: String,
    /// What stands before and behind all of its prefixes, where it has any.
    opening: String,
    closing: &'static str,
    /// What stands before and behind each.
    before: String,
    after: &'static str,
    /// None is shorter.
    least: u8,
}

fn named(alloc: Global, name: &str, family: Family) -> Result<String, AllocError>
    ensures { IfOk result (λ text. string_bytes text ≡ set_name name.now family) }
{
    match family {
        Family::V4 => format!(in alloc; "{name}_v4"),
        Family::V6 => format!(in alloc; "{name}_v6"),
    }
}

fn ipset_kind(family: Family) -> &'static str
    ensures { result.now ≡ ipset_kind family }
{
    match family {
        Family::V4 => "hash:net family inet maxelem 4294967295 -exist",
        Family::V6 => "hash:net family inet6 maxelem 4294967295 -exist",
    }
}

fn ipset_head(alloc: Global, set: &str, family: Family) -> Result<String, AllocError>
    ensures { IfOk result (λ text. string_bytes text ≡ ipset_head set.now family) }
{
    let kind = ipset_kind(family);
    format!(in alloc; "create {set} {kind}\nflush {set}\n")
}

fn nft_name(alloc: Global, table: &str, set: &str) -> Result<String, AllocError>
    ensures { IfOk result (λ text. string_bytes text ≡ nft_name table.now set.now) }
{
    format!(in alloc; "inet {table} {set}")
}

fn nft_set(alloc: Global, name: &str, family: Family) -> Result<String, AllocError>
    ensures { IfOk result (λ text. string_bytes text ≡ nft_set name.now family) }
{
    match family {
        Family::V4 => format!(in alloc; "add set {name} {{ type ipv4_addr; flags interval; }}\n"),
        Family::V6 => format!(in alloc; "add set {name} {{ type ipv6_addr; flags interval; }}\n"),
    }
}

fn nft_head(alloc: Global, table: &str, set: &str, family: Family) -> Result<String, AllocError>
    ensures { IfOk result (λ text. string_bytes text ≡ nft_head table.now set.now family) }
{
    let name = nft_name(alloc, table, set)?;
    let set = nft_set(alloc, name.as_str(), family)?;
    format!(in alloc; "add table inet {table}\n{set}flush set {name}\n")
}

fn ipset_text(alloc: Global, set: &str, family: Family) -> Result<SetText, AllocError>
    ensures { IfOk result (λ text. IsIpsetText set.now family text) }
{
    Ok(SetText {
        head: ipset_head(alloc, set, family)?,
        opening: String::new(alloc),
        closing: "",
        before: format!(in alloc; "add {set} ")?,
        after: "",
        least: 1,
    })
}

fn nft_text(alloc: Global, table: &str, set: &str, family: Family) -> Result<SetText, AllocError>
    ensures { IfOk result (λ text. IsNftText table.now set.now family text) }
{
    Ok(SetText {
        head: nft_head(alloc, table, set, family)?,
        opening: format!(in alloc; "add element inet {table} {set} {{\n")?,
        closing: "}\n",
        before: String::new(alloc),
        after: ",",
        least: 0,
    })
}

/// What a file has of the set of one family. Allocates.
pub fn set_text(
    alloc: Global,
    firewall: Firewall<'_>,
    family: Family,
) -> Result<SetText, AllocError>
    ensures { IfOk result (λ text. IsSetText firewall.entry family text) }
{
    match firewall {
        Firewall::Ipset(name) => {
            let set = named(alloc, name, family)?;
            ipset_text(alloc, set.as_str(), family)
        }
        Firewall::Nft(table, name) => {
            let set = named(alloc, name, family)?;
            nft_text(alloc, table, set.as_str(), family)
        }
    }
}

fn has_none(list: &Addresses, family: Family) -> bool
    ensures { IsTrue result ↔ HasNone list.now family }
{
    match family {
        Family::V4 => list.v4.is_empty(),
        Family::V6 => list.v6.is_empty(),
    }
}

fn write_set<W: Write>(
    text: &SetText,
    family: Family,
    list: &Addresses,
    out: &mut W,
) -> io::Result<()>
    ensures { OnOk result (Writes (W.contents out.old) (W.contents out.new)
        (IsFilled text.now family list.now)) }
{
    out.write_all(text.head.as_bytes())?;
    if has_none(list, family) {
        return Ok(());
    }
    out.write_all(text.opening.as_bytes())?;
    let around = Around {
        before: text.before.as_str(),
        after: text.after,
    };
    write_family_prefixes(list, family, &[text.least], around, out)?;
    out.write_all(text.closing.as_bytes())
}

/// Writes the sets of both families, IPv4 first, or that of one alone. Allocates nothing.
pub fn write_sets<W: Write>(
    v4: &SetText,
    v6: &SetText,
    only: Option<Family>,
    list: &Addresses,
    out: &mut W,
) -> io::Result<()>
    ensures { (firewall : Firewall) → IsSetText firewall V4 v4.now → IsSetText firewall V6 v6.now
        → OnOk result (Writes (W.contents out.old) (W.contents out.new)
        (IsFirewallFile firewall only list.now)) }
{
    match only {
        Some(Family::V4) => write_set(v4, Family::V4, list, out),
        Some(Family::V6) => write_set(v6, Family::V6, list, out),
        None => {
            write_set(v4, Family::V4, list, out)?;
            write_set(v6, Family::V6, list, out)
        }
    }
}
