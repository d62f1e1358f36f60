//! A tree built of items in order, from its leaves up, with nodes as full as may be.
ghost use Rattle.std.specs.Prelude.{◌≡◌, suc, ◌+◌, ◌*◌, ◌/◌, ◌^◌, ◌<◌, ◌≤◌, ◌∷◌, ◌++◌, length};
ghost use Rattle.std.specs.Vec.Iter.{into_iter_items};
ghost use Rattle.range_tree.specs.Building.{IsBuilt, HasRoomToBuild};
ghost use Rattle.range_tree.specs.Nodes.{items_below};

use range_nodes::nodes::{CAPACITY, Nodes};
use range_nodes::rows::next_item;
use std::vec::IntoIter;

// The levels below the root of a tree, and one more than the most items below a child of its root.
#[derive(Clone, Copy)]
pub struct Layout {
    pub below: usize,
    pub width: usize,
}

// The layout of the lowest tree that holds so many items.
pub fn layout_of(count: usize) -> Layout
    requires { 0 < count }
    ensures width { result.width ≡ (CAPACITY + 1) ^ result.below }
    ensures least { result.width ≤ count }
    ensures most { count < (CAPACITY + 1) * result.width }
    ensures deep { result.below < result.width }
{
    let mut below = 0;
    let mut width = 1;
    'up: while count / width > CAPACITY {
        width *= CAPACITY + 1;
        below += 1;
    }
    Layout { below, width }
}

// Makes a node of the next items, below each of whose children there are fewer than `width`.
pub fn build<T: Drop>(
    nodes: &mut Nodes<T>,
    below: usize,
    width: usize,
    count: usize,
    items: &mut IntoIter<T>,
) -> usize
    requires width { width ≡ (CAPACITY + 1) ^ below }
    requires least { width ≤ count }
    requires most { count < (CAPACITY + 1) * width }
    requires enough { count ≤ length (into_iter_items items.old) }
    requires room { HasRoomToBuild nodes.old count (count / width) }
    ensures built { IsBuilt nodes.old nodes.new below result (count / width) }
    ensures list { into_iter_items items.old
        ≡ items_below nodes.new (suc below) result ++ into_iter_items items.new }
    ensures size { length (items_below nodes.new (suc below) result) ≡ count }
{
    if below == 0 {
        return nodes.store_items(count, items);
    }
    let inner = width / (CAPACITY + 1);
    let many = count / width;
    let share = (count - many) / (many + 1);
    let first = build(nodes, below - 1, inner, share, items);
    let number = nodes.store_above(first);
    let mut rest = count - many - share;
    for index in 0..many {
        let share = rest / (many - index);
        let item = next_item(items);
        let child = build(nodes, below - 1, inner, share, items);
        nodes.put(number, index, item, index + 1, Some(child));
        rest -= share;
    }
    number
}
