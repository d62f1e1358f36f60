//! The commands, over any readers and writer.

ghost use Rattle.std.specs.Prelude.{◌≡◌, ◌≢◌, ◌⊎◌, ◌++◌, ◌∷◌, ℕ, List, String, [], Err, length, map, IfErr, IfOk, IfSome, OnErr, OnOk};
ghost use Rattle.std.specs.declared.alloc.Global.{Global};
ghost use Rattle.std.specs.Vec.Iter.{into_iter_items, into_iter_len};
ghost use Rattle.std.specs.Io.KnownBytes.{Appends};
ghost use Rattle.address_lists.specs.Files.{Content, IsSaidIn};
ghost use Rattle.address_lists.specs.Lists.{AreAdded, Has, HasJust};
ghost use Rattle.address_lists.specs.Waiting.{HasSoFar};
ghost use Rattle.address_lists.specs.declared.addresses.Addresses.{Addresses};
ghost use Rattle.address_lists.specs.declared.read.ListError.TheVariants.{Unread};
ghost use Rattle.address_text.specs.declared.family.Family.TheVariants.{V4, V6};
ghost use Rattle.line_program.specs.Listing.{Writes};
ghost use Rattle.cidr.specs.Commands.{AreKnown, AreLists, Asked, Combined, IsAnswer, IsList, IsReadAnd, IsSaidInOne, IsStop, Put, left_out_of};
ghost use Rattle.cidr.specs.Firewalls.{IsFirewallFile, IsSetText};
ghost use Rattle.cidr.specs.Limits.{IsShownWithin};
ghost use Rattle.cidr.specs.Shown.{AreShown, IsShown, Kept};
ghost use Rattle.cidr.specs.declared.firewall.Firewall.{Firewall};
ghost use Rattle.cidr.specs.declared.serve.Stop.TheVariants.{Bad, Memory, Unwritable};

use crate::firewall::{Firewall, SetText, set_text, write_sets};
use crate::limit::{Added, Limited, limit_list};
use address_lists::{
    Addresses, BadLines, ListError, Waiting, empty_set, gather_addresses, list_to_text,
    read_addresses, write_counts, write_prefixes_around, write_ranges, write_singles,
    write_split_prefixes,
};
use address_text::Family;
use address_text::write::Around;
use btree_range_map::MapError;
use cidr_arguments::{Command, Form, Lines, Output};
use line_program::read::LineRead;
use std::alloc::Global;
use std::io::{self, Write};
use std::vec::IntoIter;

/// How lists are read.
#[derive(Clone, Copy)]
pub struct Reading {
    /// A prefix whose address has bits of 1 after its length is bad.
    pub strict: bool,
    pub bad_lines: BadLines,
}

/// A list that is to be read, with its name.
#[derive(Drop)]
pub struct Source<R> {
    pub name: String,
    pub reader: R,
}

/// Why nothing more is printed.
#[derive(Drop)]
pub enum Stop {
    /// The list of this name cannot be read.
    Bad(String, ListError),
    /// An allocation failed.
    Memory,
    /// The answer cannot be written.
    Unwritable,
}

/// Adds how many bad lines are left out of a list.
fn count(others: u64, left_out: &mut Vec<u64>) -> Result<(), Stop>
    ensures counted { OnOk result (left_out.new.items ≡ left_out.old.items ++ others ∷ []) }
    ensures memory { IfErr result (λ stop. stop ≡ Memory) }
{
    match left_out.push(others) {
        Ok(()) => Ok(()),
        Err(_) => Err(Stop::Memory),
    }
}

/// The addresses of a list. Adds how many bad lines are left out of it.
pub fn read_source<R: LineRead + Drop>(
    alloc: Global,
    source: Source<R>,
    reading: Reading,
    left_out: &mut Vec<u64>,
) -> Result<Addresses, Stop>
    ensures read { IfOk result (λ new. IfSome (R.remaining source.reader)
        (λ bytes. (others : ℕ) × IsList reading bytes (new, others)
        × (left_out.new.items ≡ left_out.old.items ++ others ∷ []))) }
    ensures bad { IfErr result (λ stop. IfSome (R.remaining source.reader)
        (λ bytes. IsStop reading (source.name ∷ []) (bytes ∷ []) stop)) }
    ensures unread { IfErr result (λ stop. (name : String Global)
        → stop ≡ Bad name Unread → R.fails) }
{
    let Source { name, mut reader } = source;
    let Reading { strict, bad_lines } = reading;
    match read_addresses(alloc, &mut reader, strict, bad_lines) {
        Ok((list, others)) => {
            count(others, left_out)?;
            Ok(list)
        }
        Err(error) => Err(Stop::Bad(name, error)),
    }
}

/// Gathers the addresses of a list. Adds how many bad lines are left out of it.
fn gather<R: LineRead + Drop>(
    alloc: Global,
    waiting: &mut Waiting,
    list: &mut Addresses,
    source: Source<R>,
    reading: Reading,
    left_out: &mut Vec<u64>,
) -> Result<(), Stop>
    ensures read { OnOk result (IsReadAnd reading (R.remaining source.reader) left_out.old.items
        left_out.new.items (λ one. AreAdded (HasSoFar list.old waiting.old)
        (HasSoFar list.new waiting.new) (IsSaidIn one.0))) }
    ensures bad { IfErr result (λ stop. IfSome (R.remaining source.reader)
        (λ bytes. IsStop reading (source.name ∷ []) (bytes ∷ []) stop)) }
    ensures unread { IfErr result (λ stop. (name : String Global)
        → stop ≡ Bad name Unread → R.fails) }
{
    let Source { name, mut reader } = source;
    let Reading { strict, bad_lines } = reading;
    match gather_addresses(alloc, waiting, list, &mut reader, strict, bad_lines) {
        Ok(others) => count(others, left_out),
        Err(error) => Err(Stop::Bad(name, error)),
    }
}

/// The addresses of all sources together.
fn merged<R: LineRead + Drop>(
    alloc: Global,
    mut sources: IntoIter<Source<R>>,
    reading: Reading,
    left_out: &mut Vec<u64>,
) -> Result<Addresses, Stop>
    requires { into_iter_len sources ≡ length (into_iter_items sources) }
    ensures made { IfOk result (λ new. (files : List (List ℕ))
        → AreKnown (map (λ s. R.remaining s.reader) (into_iter_items sources)) files
        → (lists : List (Content × ℕ)) × AreLists reading files lists
        × (left_out.new.items ≡ left_out.old.items ++ left_out_of lists)
        × HasJust new (IsSaidInOne lists)) }
    ensures bad { IfErr result (λ stop. (files : List (List ℕ))
        → AreKnown (map (λ s. R.remaining s.reader) (into_iter_items sources)) files
        → IsStop reading (map (λ s. s.name) (into_iter_items sources)) files stop) }
    ensures unread { IfErr result (λ stop. (name : String Global)
        → stop ≡ Bad name Unread → R.fails) }
{
    let mut list = Addresses::new(alloc);
    let mut waiting = Waiting::new(alloc);
    while let Some(source) = sources.next() {
        gather(alloc, &mut waiting, &mut list, source, reading, left_out)?;
    }
    match waiting.add_all(&mut list) {
        Ok(()) => Ok(list),
        Err(_) => Err(Stop::Memory),
    }
}

/// Puts some addresses together with those of one list more, as the command says.
fn combine(command: Command, list: &mut Addresses, other: &Addresses) -> Result<(), MapError>
    ensures { OnOk result
        (HasJust list.new (Combined command (Has list.old) (Has other.now))) }
{
    match command {
        Command::Merge | Command::Invert => list.join(other),
        Command::Common => list.keep_common(other),
        Command::Except => list.take_out(other),
        Command::Diff => {
            *list = list.symmetric_difference(other)?;
            Ok(())
        }
    }
}

/// Puts some addresses together with those of one source more, as the command says.
fn add_source<R: LineRead + Drop>(
    alloc: Global,
    command: Command,
    list: &mut Addresses,
    source: Source<R>,
    reading: Reading,
    left_out: &mut Vec<u64>,
) -> Result<(), Stop>
    ensures put { OnOk result (IsReadAnd reading (R.remaining source.reader) left_out.old.items
        left_out.new.items (λ one. HasJust list.new
        (Combined command (Has list.old) (IsSaidIn one.0)))) }
    ensures bad { IfErr result (λ stop. IfSome (R.remaining source.reader)
        (λ bytes. IsStop reading (source.name ∷ []) (bytes ∷ []) stop)) }
    ensures unread { IfErr result (λ stop. (name : String Global)
        → stop ≡ Bad name Unread → R.fails) }
{
    let other = read_source(alloc, source, reading, left_out)?;
    match combine(command, list, &other) {
        Ok(()) => Ok(()),
        Err(_) => Err(Stop::Memory),
    }
}

/// What the command makes of some addresses and those of the sources.
fn gathered<R: LineRead + Drop>(
    alloc: Global,
    command: Command,
    mut list: Addresses,
    mut sources: IntoIter<Source<R>>,
    reading: Reading,
    left_out: &mut Vec<u64>,
) -> Result<Addresses, Stop>
    requires { into_iter_len sources ≡ length (into_iter_items sources) }
    ensures made { IfOk result (λ new. (files : List (List ℕ))
        → AreKnown (map (λ s. R.remaining s.reader) (into_iter_items sources)) files
        → (lists : List (Content × ℕ)) × AreLists reading files lists
        × (left_out.new.items ≡ left_out.old.items ++ left_out_of lists)
        × HasJust new (Put command (Has list) lists)) }
    ensures bad { IfErr result (λ stop. (files : List (List ℕ))
        → AreKnown (map (λ s. R.remaining s.reader) (into_iter_items sources)) files
        → IsStop reading (map (λ s. s.name) (into_iter_items sources)) files stop) }
    ensures unread { IfErr result (λ stop. (name : String Global)
        → stop ≡ Bad name Unread → R.fails) }
{
    while let Some(source) = sources.next() {
        add_source(alloc, command, &mut list, source, reading, left_out)?;
    }
    Ok(list)
}

/// What the command makes of the addresses of the sources, each read apart.
fn put_together<R: LineRead + Drop>(
    alloc: Global,
    command: Command,
    mut sources: IntoIter<Source<R>>,
    reading: Reading,
    left_out: &mut Vec<u64>,
) -> Result<Addresses, Stop>
    requires { into_iter_len sources ≡ length (into_iter_items sources) }
    ensures made { IfOk result (λ new. (files : List (List ℕ))
        → AreKnown (map (λ s. R.remaining s.reader) (into_iter_items sources)) files
        → (lists : List (Content × ℕ)) × AreLists reading files lists
        × (left_out.new.items ≡ left_out.old.items ++ left_out_of lists)
        × HasJust new (Asked command lists)) }
    ensures bad { IfErr result (λ stop. (files : List (List ℕ))
        → AreKnown (map (λ s. R.remaining s.reader) (into_iter_items sources)) files
        → IsStop reading (map (λ s. s.name) (into_iter_items sources)) files stop) }
    ensures unread { IfErr result (λ stop. (name : String Global)
        → stop ≡ Bad name Unread → R.fails) }
{
    match sources.next() {
        Some(source) => {
            let first = read_source(alloc, source, reading, left_out)?;
            gathered(alloc, command, first, sources, reading, left_out)
        }
        None => Ok(Addresses::new(alloc)),
    }
}

/// What the command makes of the addresses of the sources, before `invert` turns it round.
fn asked<R: LineRead + Drop>(
    alloc: Global,
    command: Command,
    sources: IntoIter<Source<R>>,
    reading: Reading,
    left_out: &mut Vec<u64>,
) -> Result<Addresses, Stop>
    requires { into_iter_len sources ≡ length (into_iter_items sources) }
    ensures made { IfOk result (λ new. (files : List (List ℕ))
        → AreKnown (map (λ s. R.remaining s.reader) (into_iter_items sources)) files
        → (lists : List (Content × ℕ)) × AreLists reading files lists
        × (left_out.new.items ≡ left_out.old.items ++ left_out_of lists)
        × HasJust new (Asked command lists)) }
    ensures bad { IfErr result (λ stop. (files : List (List ℕ))
        → AreKnown (map (λ s. R.remaining s.reader) (into_iter_items sources)) files
        → IsStop reading (map (λ s. s.name) (into_iter_items sources)) files stop) }
    ensures unread { IfErr result (λ stop. (name : String Global)
        → stop ≡ Bad name Unread → R.fails) }
{
    match command {
        Command::Merge | Command::Invert => merged(alloc, sources, reading, left_out),
        _ => put_together(alloc, command, sources, reading, left_out),
    }
}

/// What the command says of the addresses of the sources.
fn answered<R: LineRead + Drop>(
    alloc: Global,
    command: Command,
    sources: IntoIter<Source<R>>,
    reading: Reading,
    left_out: &mut Vec<u64>,
) -> Result<Addresses, Stop>
    requires { into_iter_len sources ≡ length (into_iter_items sources) }
    ensures made { IfOk result (λ new. (files : List (List ℕ))
        → AreKnown (map (λ s. R.remaining s.reader) (into_iter_items sources)) files
        → (lists : List (Content × ℕ)) × AreLists reading files lists
        × (left_out.new.items ≡ left_out.old.items ++ left_out_of lists)
        × HasJust new (IsAnswer command lists)) }
    ensures bad { IfErr result (λ stop. (files : List (List ℕ))
        → AreKnown (map (λ s. R.remaining s.reader) (into_iter_items sources)) files
        → IsStop reading (map (λ s. s.name) (into_iter_items sources)) files stop) }
    ensures unread { IfErr result (λ stop. (name : String Global)
        → stop ≡ Bad name Unread → R.fails) }
{
    let list = asked(alloc, command, sources, reading, left_out)?;
    match command {
        Command::Invert => match list.inverse() {
            Ok(others) => Ok(others),
            Err(_) => Err(Stop::Memory),
        },
        _ => Ok(list),
    }
}

/// The addresses of one family alone, or of both.
fn kept(alloc: Global, list: Addresses, only: Option<Family>) -> Addresses
    ensures { HasJust result (Kept only (Has list)) }
{
    let Addresses { v4, v6 } = list;
    match only {
        None => Addresses { v4, v6 },
        Some(Family::V4) => Addresses {
            v4,
            v6: empty_set(alloc),
        },
        Some(Family::V6) => Addresses {
            v4: empty_set(alloc),
            v6,
        },
    }
}

fn write_lines<W: Write>(
    lines: &Lines,
    around: Around<'_>,
    list: &Addresses,
    out: &mut W,
) -> io::Result<()>
    ensures { OnOk result (Writes (W.contents out.old) (W.contents out.new)
        (AreShown around.entry.before.now around.entry.after.now lines.now list.now)) }
{
    match lines {
        Lines::Prefixes => write_prefixes_around(list, around, out),
        Lines::Ranges => write_ranges(list, around, out),
        Lines::Singles => write_singles(list, around, out),
        Lines::Count => write_counts("", list, out),
        Lines::Split(lengths) => write_split_prefixes(list, lengths.as_slice(), around, out),
    }
}

fn print_lines<W: Write>(
    lines: &Lines,
    around: Around<'_>,
    list: &Addresses,
    out: &mut W,
) -> Result<(), Stop>
    ensures printed { OnOk result (Writes (W.contents out.old) (W.contents out.new)
        (AreShown around.entry.before.now around.entry.after.now lines.now list.now)) }
    ensures failed { IfErr result (λ stop. stop ≡ Unwritable) }
{
    match write_lines(lines, around, list, out) {
        Ok(()) => {}
        Err(_) => return Err(Stop::Unwritable),
    }
    match out.flush() {
        Ok(()) => Ok(()),
        Err(_) => Err(Stop::Unwritable),
    }
}

fn print_text<W: Write>(text: &str, out: &mut W) -> Result<(), Stop>
    ensures printed { OnOk result (Appends (W.contents out.old) (W.contents out.new)
        (text.now ++ 10 ∷ [])) }
    ensures failed { IfErr result (λ stop. stop ≡ Unwritable) }
{
    match writeln!(out, "{text}") {
        Ok(()) => {}
        Err(_) => return Err(Stop::Unwritable),
    }
    match out.flush() {
        Ok(()) => Ok(()),
        Err(_) => Err(Stop::Unwritable),
    }
}

fn print_sets<W: Write>(
    v4: &SetText,
    v6: &SetText,
    only: Option<Family>,
    list: &Addresses,
    out: &mut W,
) -> Result<(), Stop>
    ensures printed { (firewall : Firewall) → IsSetText firewall V4 v4.now
        → IsSetText firewall V6 v6.now
        → OnOk result (Writes (W.contents out.old) (W.contents out.new)
        (IsFirewallFile firewall only list.now)) }
    ensures failed { IfErr result (λ stop. stop ≡ Unwritable) }
{
    match write_sets(v4, v6, only, list, out) {
        Ok(()) => {}
        Err(_) => return Err(Stop::Unwritable),
    }
    match out.flush() {
        Ok(()) => Ok(()),
        Err(_) => Err(Stop::Unwritable),
    }
}

/// Prints a file of a firewall.
fn print_firewall<W: Write>(
    alloc: Global,
    firewall: Firewall<'_>,
    only: Option<Family>,
    list: &Addresses,
    out: &mut W,
) -> Result<(), Stop>
    ensures printed { OnOk result (Writes (W.contents out.old) (W.contents out.new)
        (IsFirewallFile firewall.entry only list.now)) }
    ensures failed { IfErr result (λ stop. (stop ≡ Memory) ⊎ (stop ≡ Unwritable)) }
    ensures silent { result ≢ Err Unwritable → OnErr result (out.new ≡ out.old) }
{
    match (
        set_text(alloc, firewall, Family::V4),
        set_text(alloc, firewall, Family::V6),
    ) {
        (Ok(v4), Ok(v6)) => print_sets(&v4, &v6, only, list, out),
        _ => Err(Stop::Memory),
    }
}

/// Prints a list in a form; `out` is flushed.
pub fn print<W: Write>(
    alloc: Global,
    output: &Output<'_>,
    list: &Addresses,
    out: &mut W,
) -> Result<(), Stop>
    ensures printed { OnOk result (Writes (W.contents out.old) (W.contents out.new)
        (IsShown output.now.form output.now.only list.now)) }
    ensures failed { IfErr result (λ stop. (stop ≡ Memory) ⊎ (stop ≡ Unwritable)) }
    ensures silent { result ≢ Err Unwritable → OnErr result (out.new ≡ out.old) }
{
    match &output.form {
        Form::Lines(lines, around) => print_lines(lines, *around, list, out),
        Form::Json => match list_to_text(alloc, list) {
            Ok(text) => print_text(text.as_str(), out),
            Err(_) => Err(Stop::Memory),
        },
        Form::Ipset(name) => {
            print_firewall(alloc, Firewall::Ipset(name), output.only, list, out)
        }
        Form::Nft(table, name) => {
            print_firewall(alloc, Firewall::Nft(table, name), output.only, list, out)
        }
    }
}

/// Prints a list in a form, or one in its place that has more addresses, where at most so many
/// prefixes are printed. Returns how many more; `out` is flushed.
fn print_within<W: Write>(
    alloc: Global,
    output: &Output<'_>,
    list: Addresses,
    out: &mut W,
) -> Result<Added, Stop>
    ensures printed { IfOk result (λ added. Writes (W.contents out.old) (W.contents out.new)
        (IsShownWithin output.now list added)) }
    ensures failed { IfErr result (λ stop. (stop ≡ Memory) ⊎ (stop ≡ Unwritable)) }
    ensures silent { result ≢ Err Unwritable → OnErr result (out.new ≡ out.old) }
{
    match limit_list(alloc, list, output.most) {
        Ok(Limited { list, added }) => {
            print(alloc, output, &list, out)?;
            Ok(added)
        }
        Err(_) => Err(Stop::Memory),
    }
}

/// Reads the sources, and prints what the command says of their addresses, of one family or both.
///
/// Where at most so many prefixes are printed, returns how many addresses were added for that.
/// Prefixes are as few as can be, ascending, those of IPv4 first, each on a line; `out` is
/// flushed. Nothing is printed where a source cannot be read or an allocation fails. `merge` and
/// `invert` gather all sources in one set; else one list is held beside the answer. Adds to
/// `left_out` how many bad lines are left out of each source.
pub fn serve<R: LineRead + Drop, W: Write>(
    alloc: Global,
    command: Command,
    sources: Vec<Source<R>>,
    reading: Reading,
    output: &Output<'_>,
    left_out: &mut Vec<u64>,
    out: &mut W,
) -> Result<Added, Stop>
    ensures printed { IfOk result (λ added. (files : List (List ℕ))
        → AreKnown (map (λ s. R.remaining s.reader) sources.items) files
        → (lists : List (Content × ℕ)) × (list : Addresses) × AreLists reading files lists
        × (left_out.new.items ≡ left_out.old.items ++ left_out_of lists)
        × HasJust list (Kept output.now.only (IsAnswer command lists))
        × Writes (W.contents out.old) (W.contents out.new)
        (IsShownWithin output.now list added)) }
    ensures silent { result ≢ Err Unwritable → OnErr result (out.new ≡ out.old) }
    ensures bad { IfErr result (λ stop. (files : List (List ℕ))
        → AreKnown (map (λ s. R.remaining s.reader) sources.items) files
        → IsStop reading (map (λ s. s.name) sources.items) files stop) }
    ensures unread { IfErr result (λ stop. (name : String Global)
        → stop ≡ Bad name Unread → R.fails) }
{
    let list = answered(alloc, command, sources.into_iter(), reading, left_out)?;
    print_within(alloc, output, kept(alloc, list, output.only), out)
}
