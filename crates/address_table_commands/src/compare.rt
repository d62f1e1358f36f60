//! Two tables compared.

ghost use Rattle.std.specs.Prelude.{◌≡◌, ◌≢◌, ◌⊎◌, ◌++◌, ℕ, List, Err, IfErr, IfOk, OnErr, OnOk, map};
ghost use Rattle.address_rows.specs.Rows.{Row};
ghost use Rattle.line_program.specs.Listing.{Writes};
ghost use Rattle.address_table_commands.specs.Differences.{AreCompared, AreTableChanges, IsListed, IsPairStop, has_no_change};
ghost use Rattle.address_table_commands.specs.Files.{AreKnown, AreTables, IsReadFailure, left_out_of, rows_of};
ghost use Rattle.address_table_commands.specs.declared.differences.Changes.{Changes};
ghost use Rattle.address_table_commands.specs.declared.source.Stop.TheVariants.{Memory, Unwritable};

use crate::differences::{Changes, Extent, changes_of, write_changes};
use crate::source::{Source, Stop};
use crate::table::{Asked, Named, read_named};
use address_table_lists::Texts;
use line_program::read::LineRead;
use std::alloc::Global;
use std::io::{self, Write};

/// Writes where two tables differ, and flushes it.
fn write_flushed<W: Write>(
    extent: Extent,
    texts: &Texts,
    others: &Texts,
    changes: &Changes,
    out: &mut W,
) -> io::Result<()>
    ensures { OnOk result (Writes (W.contents out.old) (W.contents out.new)
        (IsListed extent texts.now others.now changes.now)) }
{
    write_changes(extent, texts, others, changes, out)?;
    out.flush()
}

/// Prints where two tables differ, and returns whether they are alike. Where an allocation fails,
/// nothing is written.
fn print_changes<W: Write>(
    before: &Named,
    after: &Named,
    extent: Extent,
    out: &mut W,
) -> Result<bool, Stop>
    ensures printed { IfOk result (λ alike. (changes : Changes)
        × AreTableChanges before.now.texts before.now.table after.now.texts after.now.table changes
        × (alike ≡ has_no_change changes)
        × Writes (W.contents out.old) (W.contents out.new)
        (IsListed extent before.now.texts after.now.texts changes)) }
    ensures silent { result ≢ Err Unwritable → OnErr result (out.new ≡ out.old) }
    ensures failed { IfErr result (λ stop. (stop ≡ Memory) ⊎ (stop ≡ Unwritable)) }
{
    let Ok(changes) = changes_of(before, after) else {
        return Err(Stop::Memory);
    };
    match write_flushed(extent, &before.texts, &after.texts, &changes, out) {
        Ok(()) => Ok(changes.is_empty()),
        Err(_) => Err(Stop::Unwritable),
    }
}

/// Reads two tables, prints where they differ, and returns whether they are alike.
///
/// They are alike where each address has the same value in both, or none in either. For each range
/// on which they differ, as wide as it goes, there is a line `- 10.0.0.0-10.0.0.5 US` with its
/// value in the one, and a line `+ 10.0.0.0-10.0.0.5 -` with that in the other, which is none here.
/// The ranges of IPv4 come first, ascending. Of the first address alone there are the same two
/// lines; `out` is flushed. Each table may be in several files, as by
/// [`print_tables`](crate::print_tables). Nothing is printed where one cannot be read or an
/// allocation fails. Adds to `left_out` how many bad lines are left out of each file.
pub fn print_differences<R: LineRead + Drop, W: Write>(
    alloc: Global,
    before: Vec<Source<R>>,
    after: Vec<Source<R>>,
    extent: Extent,
    asked: Asked<'_>,
    left_out: &mut Vec<u64>,
    out: &mut W,
) -> Result<bool, Stop>
    ensures printed { IfOk result (λ alike. (files : List (List ℕ)) → (others : List (List ℕ))
        → AreKnown (map (λ s. R.remaining s.reader) before.items) files
        → AreKnown (map (λ s. R.remaining s.reader) after.items) others
        → (said : List (List Row × ℕ)) × (other_said : List (List Row × ℕ))
        × AreTables asked.entry.reading asked.entry.header.now files said
        × AreTables asked.entry.reading asked.entry.header.now others other_said
        × (left_out.new.items ≡ left_out.old.items ++ left_out_of said ++ left_out_of other_said)
        × Writes (W.contents out.old) (W.contents out.new)
        (AreCompared asked.entry extent (rows_of said) (rows_of other_said) alike)) }
    ensures silent { result ≢ Err Unwritable → OnErr result (out.new ≡ out.old) }
    ensures bad { IfErr result (λ stop. (files : List (List ℕ)) → (others : List (List ℕ))
        → AreKnown (map (λ s. R.remaining s.reader) before.items) files
        → AreKnown (map (λ s. R.remaining s.reader) after.items) others
        → IsPairStop asked.entry.reading asked.entry.header.now (map (λ s. s.name) before.items)
        files (map (λ s. s.name) after.items) others stop) }
    ensures unread { IfErr result (λ stop. IsReadFailure stop → R.fails) }
{
    let first = read_named(alloc, before, asked, left_out)?;
    let second = read_named(alloc, after, asked, left_out)?;
    print_changes(&first, &second, extent, out)
}
