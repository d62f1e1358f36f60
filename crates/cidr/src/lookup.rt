//! Addresses looked up in a list.

ghost use Rattle.std.specs.Prelude.{◌≡◌, ◌≢◌, ◌↔◌, ◌++◌, ◌∷◌, ℕ, List, String, [], Err, IfErr, IfOk, IfSome, IsTrue, OnErr, OnOk};
ghost use Rattle.std.specs.List.{AllByRecursion};
ghost use Rattle.std.specs.declared.alloc.Global.{Global};
ghost use Rattle.address_lists.specs.Lookups.{HasIp, IsLookup};
ghost use Rattle.address_lists.specs.declared.addresses.Addresses.{Addresses};
ghost use Rattle.address_lists.specs.declared.read.ListError.TheVariants.{Unread};
ghost use Rattle.line_program.specs.Listing.{SpellsEach, Writes};
ghost use Rattle.cidr.specs.Commands.{AreKnown, IsList, IsStop};
ghost use Rattle.cidr.specs.declared.serve.Stop.TheVariants.{Bad, Unwritable};

use crate::serve::{Reading, Source, Stop, read_source};
use address_lists::{Addresses, write_lookups};
use line_program::read::LineRead;
use std::alloc::Global;
use std::io::Write;
use std::net::IpAddr;

fn print<W: Write>(list: &Addresses, addresses: &[IpAddr], out: &mut W) -> Result<bool, Stop>
    ensures told { IfOk result (λ all. IsTrue all ↔ AllByRecursion (HasIp list.now) addresses.now) }
    ensures printed { OnOk result (Writes (W.contents out.old) (W.contents out.new)
        (SpellsEach (IsLookup list.now) addresses.now)) }
    ensures failed { IfErr result (λ stop. stop ≡ Unwritable) }
{
    let has_all = match write_lookups(list, addresses, out) {
        Ok(has_all) => has_all,
        Err(_) => return Err(Stop::Unwritable),
    };
    match out.flush() {
        Ok(()) => Ok(has_all),
        Err(_) => Err(Stop::Unwritable),
    }
}

/// Reads a list, prints where it has each of the addresses, and tells whether it has them all.
///
/// A line for each is the address, and the first and the last of those that follow each other
/// around it in the list, or `-` where it is not there. `out` is flushed. Nothing is printed where
/// the list cannot be read or an allocation fails. Adds to `left_out` how many bad lines are left
/// out of the list.
pub fn look_up<R: LineRead + Drop, W: Write>(
    alloc: Global,
    source: Source<R>,
    reading: Reading,
    addresses: &[IpAddr],
    left_out: &mut Vec<u64>,
    out: &mut W,
) -> Result<bool, Stop>
    ensures printed { IfOk result (λ all. IfSome (R.remaining source.reader)
        (λ bytes. (list : Addresses × ℕ) × IsList reading bytes list
        × (left_out.new.items ≡ left_out.old.items ++ list.1 ∷ [])
        × (IsTrue all ↔ AllByRecursion (HasIp list.0) addresses.now)
        × Writes (W.contents out.old) (W.contents out.new)
        (SpellsEach (IsLookup list.0) addresses.now))) }
    ensures silent { result ≢ Err Unwritable → OnErr result (out.new ≡ out.old) }
    ensures bad { IfErr result (λ stop. (files : List (List ℕ))
        → AreKnown (R.remaining source.reader ∷ []) files
        → IsStop reading (source.name ∷ []) files stop) }
    ensures unread { IfErr result (λ stop. (name : String Global)
        → stop ≡ Bad name Unread → R.fails) }
{
    let list = read_source(alloc, source, reading, left_out)?;
    print(&list, addresses, out)
}
