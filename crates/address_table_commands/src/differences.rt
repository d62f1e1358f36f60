//! Where two tables differ.

ghost use Rattle.std.specs.Prelude.{◌≡◌, ◌&&◌, IfOk, OnOk, Ok, get_or, if◌then◌else◌};
ghost use Rattle.std.specs.Io.KnownBytes.{Appends};
ghost use Rattle.std.specs.Option.{option_copied};
ghost use Rattle.address_prefixes.specs.Runs.{IsSpan};
ghost use Rattle.btree_range_map.specs.Holding.{box_items};
ghost use Rattle.btree_range_map.specs.Range.{ClonesAreEqual};
ghost use Rattle.line_program.specs.Listing.{SpellsEach, Writes};
ghost use Rattle.address_table_commands.specs.Differences.{AreChanges, AreTableChanges, IsChangeLines, IsListed, are_alike, change_lines, change_of, first_lines, has_no_change, is_none, side_line, told_value};

use crate::table::Named;
use address_keys::{Address, Ipv4, Ipv6};
use address_lists::print::FamilyAddress;
use address_prefixes::span::span_of;
use address_rows::forms::Form;
use address_rows::write::{Block, write_line};
use address_table_lists::Texts;
use address_tables::AddressTable;
use btree_range_map::{MapError, UpdateError};
use std::convert::Infallible;
use std::io::{self, Write};

/// The numbers of two different values of the same addresses, each among those of its table.
#[derive(Clone, Copy, PartialEq, Eq, Debug)]
pub struct Change {
    pub before: Option<u32>,
    pub after: Option<u32>,
}

/// Where two tables differ, and the values there.
#[derive(Drop)]
pub struct Changes {
    pub v4: AddressTable<Ipv4, Change>,
    pub v6: AddressTable<Ipv6, Change>,
}

/// How much is printed of where two tables differ.
#[derive(Clone, Copy, PartialEq, Eq, Debug)]
pub enum Extent {
    /// The first address.
    First,
    /// All ranges.
    All,
}

/// Whether two values have the same text, or there is none in either table.
fn are_alike(texts: &Texts, others: &Texts, before: Option<u32>, after: Option<u32>) -> bool
    ensures { result ≡ are_alike texts.now others.now before after }
{
    match (before, after) {
        (None, None) => true,
        (Some(before), Some(after)) => {
            texts.text(before as usize) == others.text(after as usize)
        }
        _ => false,
    }
}

/// What becomes of a value, if it changes.
fn change_of(
    texts: &Texts,
    others: &Texts,
    before: Option<u32>,
    after: Option<u32>,
) -> Option<Change>
    ensures { result ≡ change_of texts.now others.now before after }
{
    if are_alike(texts, others, before, after) {
        None
    } else {
        Some(Change { before, after })
    }
}

/// Where two tables of one family differ.
fn family_changes<A: Address>(
    texts: &Texts,
    others: &Texts,
    before: &AddressTable<A, u32>,
    after: &AddressTable<A, u32>,
) -> Result<AddressTable<A, Change>, MapError>
    requires { ClonesAreEqual A.is_clone A.eq }
    ensures { IfOk result (λ changes. AreChanges A.order texts.now others.now
        (box_items before.now) (box_items after.now) (box_items changes)) }
{
    let change = |one: Option<&u32>, other: Option<&u32>| -> Result<Option<Change>, Infallible>
        ensures { result ≡ Ok (change_of texts.entry.now others.entry.now (option_copied one.entry)
            (option_copied other.entry)) }
    { Ok(change_of(texts, others, one.copied(), other.copied())) };
    match before.combine(after, change) {
        Ok(changes) => Ok(changes),
        Err(UpdateError::Memory) => Err(MapError::Memory),
        Err(UpdateError::Closure(never)) => match never {},
    }
}

/// Where two tables differ. Fails where an allocation does. Goes once over both.
pub(crate) fn changes_of(before: &Named, after: &Named) -> Result<Changes, MapError>
    ensures { IfOk result (AreTableChanges before.now.texts before.now.table after.now.texts
        after.now.table) }
{
    let (texts, others) = (&before.texts, &after.texts);
    let v4 = family_changes(texts, others, &before.table.v4, &after.table.v4)?;
    let v6 = family_changes(texts, others, &before.table.v6, &after.table.v6)?;
    Ok(Changes { v4, v6 })
}

impl Changes {
    /// Whether the tables are alike.
    pub fn is_empty(&self) -> bool
        ensures { result ≡ has_no_change self.now }
    {
        self.v4.is_empty() && self.v6.is_empty()
    }
}

/// The text of a value, or `-` where there is none.
fn told_value(texts: &Texts, value: Option<u32>) -> &str
    ensures { result.now ≡ told_value texts.now value }
{
    match value {
        Some(number) => texts.text(number as usize),
        None => "-",
    }
}

/// Writes the line of a value behind a sign.
fn write_side<A: FamilyAddress, W: Write>(
    sign: &str,
    texts: &Texts,
    ends: (u128, u128),
    value: Option<u32>,
    out: &mut W,
) -> io::Result<()>
    requires { IsSpan A.WIDTH ends }
    ensures { OnOk result (Appends (W.contents out.old) (W.contents out.new)
        (side_line A.its_family sign.now texts.now ends value)) }
{
    out.write_all(sign.as_bytes())?;
    write_line(
        Form::Lines,
        A::family(),
        Block::Range(ends.0, ends.1),
        told_value(texts, value).as_bytes(),
        out,
    )
}

/// Writes what the values of addresses were and are, a line each.
fn write_change<A: FamilyAddress, W: Write>(
    texts: &Texts,
    others: &Texts,
    ends: (u128, u128),
    change: Change,
    out: &mut W,
) -> io::Result<()>
    requires { IsSpan A.WIDTH ends }
    ensures { OnOk result (Appends (W.contents out.old) (W.contents out.new)
        (change_lines texts.now others.now A.its_family ends change)) }
{
    write_side::<A, W>("- ", texts, ends, change.before, out)?;
    write_side::<A, W>("+ ", others, ends, change.after, out)
}

fn write_family<A: FamilyAddress, W: Write>(
    texts: &Texts,
    others: &Texts,
    changes: &AddressTable<A, Change>,
    out: &mut W,
) -> io::Result<()>
    ensures { OnOk result (Writes (W.contents out.old) (W.contents out.new)
        (SpellsEach (IsChangeLines texts.now others.now A.its_family A.number A.WIDTH)
        (box_items changes.now))) }
{
    let mut items = changes.iter();
    while let Some((range, change)) = items.next() {
        write_change::<A, W>(texts, others, span_of(range), *change, out)?;
    }
    Ok(())
}

/// Writes the first address where two tables of one family differ, if there is one.
fn write_first<A: FamilyAddress, W: Write>(
    texts: &Texts,
    others: &Texts,
    changes: &AddressTable<A, Change>,
    out: &mut W,
) -> io::Result<()>
    ensures { OnOk result (Appends (W.contents out.old) (W.contents out.new)
        (first_lines texts.now others.now A.its_family A.number A.WIDTH
        (box_items changes.now))) }
{
    let mut items = changes.iter();
    match items.next() {
        Some((range, change)) => {
            let (first, _) = span_of(range);
            write_change::<A, W>(texts, others, (first, first), *change, out)
        }
        None => Ok(()),
    }
}

/// Writes where two tables differ, those of IPv4 first, ascending.
///
/// For each range, as wide as it goes, there is a line `- 10.0.0.0-10.0.0.5 US` with its value in
/// the one table, and a line `+ 10.0.0.0-10.0.0.5 DE` with that in the other, and `-` for none. Of
/// the first address alone there are the same lines. Allocates nothing.
pub(crate) fn write_changes<W: Write>(
    extent: Extent,
    texts: &Texts,
    others: &Texts,
    changes: &Changes,
    out: &mut W,
) -> io::Result<()>
    ensures { OnOk result (Writes (W.contents out.old) (W.contents out.new)
        (IsListed extent texts.now others.now changes.now)) }
{
    match extent {
        Extent::First if changes.v4.is_empty() => write_first(texts, others, &changes.v6, out),
        Extent::First => write_first(texts, others, &changes.v4, out),
        Extent::All => {
            write_family(texts, others, &changes.v4, out)?;
            write_family(texts, others, &changes.v6, out)
        }
    }
}
