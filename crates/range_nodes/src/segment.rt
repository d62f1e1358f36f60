//! Some rows of items, in one block of memory.
ghost use Rattle.std.specs.Prelude.{◌≡◌, ◌+◌, ◌*◌, ◌<◌, ◌≤◌, [], length, replicate, slice_index_or, slice_set, insert, remove, IfOk, None};
ghost use Rattle.std.specs.Borrow.{Lends, sem};
ghost use Rattle.range_nodes.specs.Rows.{row_of};
ghost use Rattle.range_nodes.specs.Segments.{IsSegment};

use crate::nodes::CAPACITY;
use item_cells::{Block, CELLS};
use std::alloc::{AllocError, Global};
use std::marker::Model;

/// How many rows lie in one block.
pub const ROWS: usize = CELLS / CAPACITY;

/// `ROWS` rows of up to `CAPACITY` items.
pub struct Segment<T> {
    // Of the cells of a row, the first have its items.
    cells: Block<T>,
    // How many items each row has, which is at hand before the row's memory is read.
    lens: [u8; ROWS],
}

impl<T> Model for Segment<T> {
    ghost use Rattle.std.specs.Prelude.{List};
    ghost use Rattle.std.specs.Coded.{coded_list};

    ghost Value = { List (List T) };

    ghost coded = { coded_list (coded_list T.code) };

    ghost use Rattle.range_nodes.specs.declared.segment.TheConstants.{ROWS};
    ghost use Rattle.range_nodes.specs.Segments.{rows_in, IsSegment};

    ghost view = { λ s. rows_in ROWS s.cells };

    ghost invariant = { λ s. IsSegment s.lens s.cells };
}

/// Drops each item once.
impl<T: Drop> Drop for Segment<T> {
    fn drop(self) {
        let Segment { mut cells, lens } = self;
        drop_rows(&mut cells, lens.as_slice());
        cells.release();
    }
}

// Drops the items of rows with so many items each.
fn drop_rows<T: Drop>(cells: &mut Block<T>, lens: &[u8])
    requires { IsSegment lens.now cells.old }
    ensures { cells.new ≡ replicate CELLS None }
{
    for row in 0..ROWS {
        let start = CAPACITY * row;
        cells.drop_items(start, start + usize::from(lens[row]));
    }
}

impl<T: Drop> Segment<T> {
    ghost use Rattle.range_nodes.specs.contracts.segment.Segment.{the_row};

    /// Rows without an item. Fails where there is no memory for them.
    pub fn new(alloc: Global) -> Result<Self, AllocError>
        ensures { IfOk result (λ segment. segment ≡ replicate ROWS []) }
    {
        let cells = Block::new(alloc)?;
        Ok(Segment {
            cells,
            lens: [0; ROWS],
        })
    }

    /// How many items a row has.
    #[inline(always)]
    pub fn row_len(&self, row: usize) -> usize
        requires { row < ROWS }
        ensures len { result ≡ length (row_of self.now row) }
        ensures fits { result ≤ CAPACITY }
    {
        usize::from(self.lens[row])
    }

    /// The items of a row.
    #[inline(always)]
    pub fn items(&self, row: usize) -> &[T]
        requires { row < ROWS }
        ensures items { result.now ≡ row_of self.now row }
        ensures fits { length result.now ≤ CAPACITY }
    {
        self.cells.items(CAPACITY * row, self.row_len(row))
    }

    /// The item of a row at an index.
    #[inline(always)]
    pub fn item_at(&self, row: usize, index: usize) -> &T
        requires row { row < ROWS }
        requires within { index < length (row_of self.now row) }
        ensures { result.now ≡ slice_index_or (row_of self.now row) index result.now }
    {
        self.cells.get(CAPACITY * row + index)
    }

    /// The item of a row at an index, to be changed where it stands.
    #[inline(always)]
    pub fn item_mut(&mut self, row: usize, index: usize) -> &mut T
        requires row { row < ROWS }
        requires within { index < length (row_of self.old row) }
        ensures* writes_back { sem 𝓛 (Lends (the_row T.row) T.row self.entry result
            (λ item. slice_set self.old row (slice_set (row_of self.old row) index item))) }
        ensures value { result.now ≡ slice_index_or (row_of self.old row) index result.now }
    {
        self.cells.get_mut(CAPACITY * row + index)
    }

    /// Puts an item before the one at an index of a row that is not full.
    pub fn put(&mut self, row: usize, index: usize, item: T)
        requires row { row < ROWS }
        requires within { index ≤ length (row_of self.old row) }
        requires room { length (row_of self.old row) < CAPACITY }
        ensures { self.new ≡ slice_set self.old row (insert (row_of self.old row) index item) }
    {
        let len = self.row_len(row);
        let start = CAPACITY * row;
        self.cells.shift_up(start + index, start + len);
        self.cells.put(start + index, item);
        self.lens[row] = (len + 1) as u8;
    }

    /// Takes the item at an index out of a row.
    pub fn take(&mut self, row: usize, index: usize) -> T
        requires row { row < ROWS }
        requires within { index < length (row_of self.old row) }
        ensures item { result ≡ slice_index_or (row_of self.old row) index result }
        ensures rest { self.new ≡ slice_set self.old row (remove (row_of self.old row) index) }
    {
        let last = self.row_len(row) - 1;
        let start = CAPACITY * row;
        let item = self.cells.take(start + index);
        self.cells.shift_down(start + index, start + last);
        self.lens[row] = last as u8;
        item
    }
}
