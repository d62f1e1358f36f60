//! The memory of a block, and the right to free it. All that goes through a pointer is here.
ghost use Rattle.std.specs.Prelude.{◌≡◌, ◌+◌, ◌<◌, ◌≤◌, List, Option, Some, None, map, length, take, drop, replicate, slice_set};
ghost use Rattle.std.specs.Borrow.{Lends, sem};
ghost use Rattle.circular_buffer.specs.Ownership.{cells_own, cells_lent};
ghost use Rattle.item_cells.specs.Cells.{cell, IsFilled, IsRun};

use std::alloc::Allocator;
use std::marker::{Model, Send, Sync};
use std::slice;
use std_alloc::room::Vacant;

/// How many cells a block has: so many that most blocks take several pages.
pub const CELLS: usize = 352;

/// Cells side by side, each empty or with an item.
pub struct Memory<T> {
    start: *mut T,
    ghost cells: { List (Option T) },
}

impl<T> Model for Memory<T> {
    ghost also_owns = { λ m. cells_own T.row m.start m.cells };

    ghost also_shares = { λ m _ κ. cells_lent T.row m.start m.cells κ };
}

unsafe impl<T: Send> Send for Memory<T> {}

unsafe impl<T: Sync> Sync for Memory<T> {}

/// The right to free the memory that starts there.
pub struct Permit<T, A: Allocator> {
    start: *mut T,
    alloc: A,
}

impl<T, A: Allocator> Model for Permit<T, A> {
    ghost use Rattle.item_cells.specs.Permits.{may_free};
    ghost use Rattle.item_cells.specs.declared.memory.TheConstants.{CELLS};

    ghost also_owns = { λ p. may_free T.row CELLS (A.dealloc_token p.alloc) p.start };
}

unsafe impl<T, A: Allocator + Send> Send for Permit<T, A> {}

unsafe impl<T, A: Allocator + Send> Sync for Permit<T, A> {}

impl<T> Memory<T> {
    ghost use Rattle.item_cells.specs.Lends.{with_cell};
    ghost use Rattle.item_cells.specs.contracts.memory.Memory.{the_row};

    /// Empty cells, where there is room for them.
    pub(crate) fn open<A: Allocator>(room: Vacant<[T; CELLS], A>) -> (Memory<T>, Permit<T, A>)
        ensures empty { result.0.cells ≡ replicate CELLS None }
        ensures there { result.1.start ≡ result.0.start }
    {
        let Vacant { ptr, alloc } = room;
        let start = ptr as *mut T;
        (Memory { start }, Permit { start, alloc })
    }

    /// The room again, once all cells are empty.
    pub(crate) fn close<A: Allocator>(self, permit: Permit<T, A>) -> Vacant<[T; CELLS], A>
        requires empty { self.cells ≡ replicate CELLS None }
        requires there { permit.start ≡ self.start }
    {
        let Memory { start } = self;
        let Permit { start: _, alloc } = permit;
        let ptr = start as *mut [T; CELLS];
        Vacant { ptr, alloc }
    }

    /// Writes an item into an empty cell.
    pub(crate) fn put(&mut self, index: usize, item: T)
        requires { (index < length self.old.cells) × (cell self.old.cells index ≡ None) }
        ensures cells { self.new.cells ≡ slice_set self.old.cells index (Some item) }
        ensures there { self.new.start ≡ self.old.start }
    {
        unsafe { self.start.add(index).write(item) }
    }

    /// Reads the item of a cell, which is empty then.
    pub(crate) fn take(&mut self, index: usize) -> T
        requires { IsFilled self.old.cells index }
        ensures item { cell self.old.cells index ≡ Some result }
        ensures cells { self.new.cells ≡ slice_set self.old.cells index None }
        ensures there { self.new.start ≡ self.old.start }
    {
        unsafe { self.start.add(index).read() }
    }

    /// Lends the item of a cell.
    pub(crate) fn item_mut(&mut self, index: usize) -> &mut T
        requires { IsFilled self.old.cells index }
        ensures* writes_back { sem 𝓛 (Lends (the_row T.row) T.row self.entry result (with_cell self.old index)) }
        ensures item { cell self.old.cells index ≡ Some result.now }
    {
        unsafe { &mut *self.start.add(index) }
    }

    /// Lends the items of a run of cells.
    pub(crate) fn items(&self, start: usize, len: usize) -> &[T]
        requires { IsRun self.now.cells start len }
        ensures { take len (drop start self.now.cells) ≡ map Some result.now }
    {
        unsafe { slice::from_raw_parts(self.start.add(start), len) }
    }
}
