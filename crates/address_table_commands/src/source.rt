//! What the files of tables say.

ghost use Rattle.std.specs.Prelude.{◌≡◌, ◌++◌, ◌∷◌, ℕ, List, [], IfErr, IfOk, IfSome, OnOk, length, map};
ghost use Rattle.std.specs.Vec.Iter.{into_iter_items, into_iter_len};
ghost use Rattle.address_lists.specs.Files.{IsFile};
ghost use Rattle.address_rows.specs.Rows.{Row};
ghost use Rattle.address_table_lists.specs.Rows.{Hold, HoldMore};
ghost use Rattle.address_table_commands.specs.Files.{AreKnown, AreTables, IsListReason, IsReadFailure, IsStop, IsTable, left_out_of, rows_of};
ghost use Rattle.address_table_commands.specs.declared.source.Stop.TheVariants.{Memory};

use address_lists::{Addresses, ListError, read_addresses};
use address_table_lists::read::Reading;
use address_table_lists::{Rows, TableError, read_rows};
use line_program::read::LineRead;
use std::alloc::Global;
use std::vec::IntoIter;

/// A table or a list that is to be read, with its name.
#[derive(Drop)]
pub struct Source<R> {
    pub name: String,
    pub reader: R,
}

/// Why nothing more is printed.
#[derive(Drop)]
pub enum Stop {
    /// The table of this name cannot be read.
    BadTable(String, TableError),
    /// The list of this name cannot be read.
    BadList(String, ListError),
    /// An allocation failed.
    Memory,
    /// The answer cannot be written.
    Unwritable,
}

/// Adds how many bad lines are left out of a file.
fn count(others: u64, left_out: &mut Vec<u64>) -> Result<(), Stop>
    ensures counted { OnOk result (left_out.new.items ≡ left_out.old.items ++ others ∷ []) }
    ensures memory { IfErr result (λ stop. stop ≡ Memory) }
{
    match left_out.push(others) {
        Ok(()) => Ok(()),
        Err(_) => Err(Stop::Memory),
    }
}

/// Adds what one table says, and how many bad lines are left out of it.
fn read_table<R: LineRead + Drop>(
    alloc: Global,
    rows: &mut Rows,
    source: Source<R>,
    reading: Reading,
    header: &str,
    left_out: &mut Vec<u64>,
) -> Result<(), Stop>
    ensures read { OnOk result (IfSome (R.remaining source.reader)
        (λ bytes. (table : List Row × ℕ) × IsTable reading header.now bytes table
        × HoldMore rows.old rows.new table.0
        × (left_out.new.items ≡ left_out.old.items ++ table.1 ∷ []))) }
    ensures bad { IfErr result (λ stop. IfSome (R.remaining source.reader)
        (λ bytes. IsStop reading header.now (source.name ∷ []) (bytes ∷ []) stop)) }
    ensures unread { IfErr result (λ stop. IsReadFailure stop → R.fails) }
{
    let Source { name, mut reader } = source;
    match read_rows(alloc, rows, &mut reader, reading, header) {
        Ok(others) => count(others, left_out),
        Err(error) => Err(Stop::BadTable(name, error)),
    }
}

/// What all tables say, one after the other. Adds how many bad lines are left out of each.
pub(crate) fn read_tables<R: LineRead + Drop>(
    alloc: Global,
    mut sources: IntoIter<Source<R>>,
    reading: Reading,
    header: &str,
    left_out: &mut Vec<u64>,
) -> Result<Rows, Stop>
    requires { into_iter_len sources ≡ length (into_iter_items sources) }
    ensures read { IfOk result (λ rows. (files : List (List ℕ))
        → AreKnown (map (λ s. R.remaining s.reader) (into_iter_items sources)) files
        → (tables : List (List Row × ℕ)) × AreTables reading header.now files tables
        × (left_out.new.items ≡ left_out.old.items ++ left_out_of tables)
        × Hold rows (rows_of tables)) }
    ensures bad { IfErr result (λ stop. (files : List (List ℕ))
        → AreKnown (map (λ s. R.remaining s.reader) (into_iter_items sources)) files
        → IsStop reading header.now (map (λ s. s.name) (into_iter_items sources)) files stop) }
    ensures unread { IfErr result (λ stop. IsReadFailure stop → R.fails) }
{
    let mut rows = Rows::new(alloc);
    while let Some(source) = sources.next() {
        read_table(alloc, &mut rows, source, reading, header, left_out)?;
    }
    Ok(rows)
}

/// The addresses of a list. Adds how many bad lines are left out of it.
pub(crate) fn read_list<R: LineRead + Drop>(
    alloc: Global,
    source: Source<R>,
    reading: Reading,
    left_out: &mut Vec<u64>,
) -> Result<Addresses, Stop>
    ensures read { IfOk result (λ list. IfSome (R.remaining source.reader)
        (λ bytes. (others : ℕ) × IsFile reading.strict reading.bad_lines bytes list others
        × (left_out.new.items ≡ left_out.old.items ++ others ∷ []))) }
    ensures bad { IfErr result (λ stop. IfSome (R.remaining source.reader)
        (λ bytes. IsListReason reading source.name bytes stop)) }
    ensures unread { IfErr result (λ stop. IsReadFailure stop → R.fails) }
{
    let Source { name, mut reader } = source;
    match read_addresses(alloc, &mut reader, reading.strict, reading.bad_lines) {
        Ok((list, others)) => {
            count(others, left_out)?;
            Ok(list)
        }
        Err(error) => Err(Stop::BadList(name, error)),
    }
}
