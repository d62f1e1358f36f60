//! How two lists lie to each other.

ghost use Rattle.std.specs.Prelude.{◌≡◌, ◌≢◌, ◌++◌, ◌∷◌, ℕ, List, String, [], Err, IfErr, IfSome, OnErr, OnOk};
ghost use Rattle.std.specs.Io.KnownBytes.{Appends};
ghost use Rattle.std.specs.declared.alloc.Global.{Global};
ghost use Rattle.address_lists.specs.declared.addresses.Addresses.{Addresses};
ghost use Rattle.address_lists.specs.declared.read.ListError.TheVariants.{Unread};
ghost use Rattle.line_program.specs.Listing.{Writes};
ghost use Rattle.cidr.specs.Commands.{AreKnown, IsList, IsStop};
ghost use Rattle.cidr.specs.Relations.{IsCompared, IsRelation, relation_text};
ghost use Rattle.cidr.specs.declared.serve.Stop.TheVariants.{Bad, Unwritable};

use crate::serve::{Reading, Source, Stop, read_source};
use address_lists::{Addresses, write_counts};
use line_program::read::LineRead;
use std::alloc::Global;
use std::io::{self, Write};

/// How the addresses of a list lie to those of another.
#[derive(Clone, Copy)]
pub enum Relation {
    /// They are the same.
    Equal,
    /// The other list has them all, and more.
    Subset,
    /// They are all of the other list, and more.
    Superset,
    /// Some are in both lists, and each list has others.
    Overlapping,
    /// None is in both lists.
    Apart,
}

fn relation_of(first: &Addresses, second: &Addresses) -> Relation
    ensures { IsRelation first.now second.now result }
{
    match (first.is_subset(second), second.is_subset(first)) {
        (true, true) => Relation::Equal,
        (true, false) => Relation::Subset,
        (false, true) => Relation::Superset,
        (false, false) if first.is_disjoint(second) => Relation::Apart,
        (false, false) => Relation::Overlapping,
    }
}

fn write_relation<W: Write>(relation: Relation, out: &mut W) -> io::Result<()>
    ensures { OnOk result (Appends (W.contents out.old) (W.contents out.new)
        (relation_text relation)) }
{
    match relation {
        Relation::Equal => out.write_all(b"equal\n"),
        Relation::Subset => out.write_all(b"subset\n"),
        Relation::Superset => out.write_all(b"superset\n"),
        Relation::Overlapping => out.write_all(b"overlapping\n"),
        Relation::Apart => out.write_all(b"apart\n"),
    }
}

fn write_compared<W: Write>(first: &Addresses, second: &Addresses, out: &mut W) -> io::Result<()>
    ensures { OnOk result (Writes (W.contents out.old) (W.contents out.new)
        (IsCompared first.now second.now)) }
{
    write_relation(relation_of(first, second), out)?;
    write_counts("first ", first, out)?;
    write_counts("second ", second, out)
}

fn print<W: Write>(first: &Addresses, second: &Addresses, out: &mut W) -> Result<(), Stop>
    ensures printed { OnOk result (Writes (W.contents out.old) (W.contents out.new)
        (IsCompared first.now second.now)) }
    ensures failed { IfErr result (λ stop. stop ≡ Unwritable) }
{
    match write_compared(first, second, out) {
        Ok(()) => {}
        Err(_) => return Err(Stop::Unwritable),
    }
    match out.flush() {
        Ok(()) => Ok(()),
        Err(_) => Err(Stop::Unwritable),
    }
}

/// Reads two lists, and prints how the addresses of the first lie to those of the second.
///
/// It is a word, `equal`, `subset`, `superset`, `overlapping` or `apart`, and then how many
/// addresses of each family each list has, such as `first IPv4 256`, a line each. `out` is
/// flushed. Nothing is printed where a list cannot be read or an allocation fails. Adds to
/// `left_out` how many bad lines are left out of each list.
pub fn compare<R: LineRead + Drop, W: Write>(
    alloc: Global,
    first: Source<R>,
    second: Source<R>,
    reading: Reading,
    left_out: &mut Vec<u64>,
    out: &mut W,
) -> Result<(), Stop>
    ensures printed { OnOk result (IfSome (R.remaining first.reader)
        (λ one. IfSome (R.remaining second.reader) (λ other. (list : Addresses × ℕ)
        × (other_list : Addresses × ℕ) × IsList reading one list × IsList reading other other_list
        × (left_out.new.items ≡ left_out.old.items ++ list.1 ∷ other_list.1 ∷ [])
        × Writes (W.contents out.old) (W.contents out.new)
        (IsCompared list.0 other_list.0)))) }
    ensures silent { result ≢ Err Unwritable → OnErr result (out.new ≡ out.old) }
    ensures bad { IfErr result (λ stop. (files : List (List ℕ))
        → AreKnown (R.remaining first.reader ∷ R.remaining second.reader ∷ []) files
        → IsStop reading (first.name ∷ second.name ∷ []) files stop) }
    ensures unread { IfErr result (λ stop. (name : String Global)
        → stop ≡ Bad name Unread → R.fails) }
{
    let first = read_source(alloc, first, reading, left_out)?;
    let second = read_source(alloc, second, reading, left_out)?;
    print(&first, &second, out)
}
