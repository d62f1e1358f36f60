//! The removal of an item below a node, with the rebalancing of nodes that it leaves short.
ghost use Rattle.std.specs.Prelude.{◌≡◌, ◌⊎◌, ℕ, suc, ◌+◌, ◌-◌, ◌*◌, ◌<◌, ◌≤◌, ◌^◌, length, slice_index_or, remove};
ghost use Rattle.range_nodes.specs.Heap.{node_items, node_child};
ghost use Rattle.range_tree.specs.Nodes.{items_below, ShapedBut, Owned, Shrinks, MayBeRebalanced, IsLevelled, KeepsList, IsTree, IsLooseTree, IsLender, child_size};
ghost use Rattle.range_tree.specs.Edges.{IsEdge, offset, seat_of, offset_through};

use crate::btree::path::{Edge, MAX_LEVELS, edge_at, first_turn, seat, seen_above, seen_inside};
use range_nodes::nodes::{CAPACITY, MIN_LEN, Nodes};

// An item that was taken out, and where the edge after it then lies.
#[derive(Drop)]
pub struct Taken<T> {
    pub item: T,
    pub edge: Edge,
}

// Moves an item from the child at `index` to the one after it. Tells where an edge below that one
// comes to lie.
pub fn borrow_from_left<T: Drop>(
    nodes: &mut Nodes<T>,
    low: usize,
    number: usize,
    index: usize,
    edge: Edge,
) -> Edge
    requires levelled { IsLevelled nodes.old low number index }
    requires spare { MIN_LEN < child_size nodes.old number index }
    requires room { child_size nodes.old number (index + 1) < CAPACITY }
    requires deep { low + 1 < MAX_LEVELS }
    requires edge { IsEdge nodes.old low (node_child nodes.old number (index + 1)) edge }
    ensures shrinks { KeepsList nodes.old nodes.new (suc low) number }
    ensures kept { length (node_items nodes.new number) ≡ length (node_items nodes.old number) }
    ensures edge { IsEdge nodes.new (suc low) number result }
    ensures offset { offset nodes.new (suc low) number result
        ≡ offset_through nodes.old low number (index + 1) edge }
{
    let right = nodes.child_at(number, index + 1);
    nodes.rotate_right(number, index);
    let inner = edge_at(low, right, seat(low, edge) + 1, seen_inside(edge));
    seen_above(inner, index + 1)
}

// Moves an item from the child after `index` to the one there. Tells where an edge below that one
// comes to lie.
pub fn borrow_from_right<T: Drop>(
    nodes: &mut Nodes<T>,
    low: usize,
    number: usize,
    index: usize,
    edge: Edge,
) -> Edge
    requires levelled { IsLevelled nodes.old low number index }
    requires spare { MIN_LEN < child_size nodes.old number (index + 1) }
    requires room { child_size nodes.old number index < CAPACITY }
    requires deep { low + 1 < MAX_LEVELS }
    requires edge { IsEdge nodes.old low (node_child nodes.old number index) edge }
    ensures shrinks { KeepsList nodes.old nodes.new (suc low) number }
    ensures kept { length (node_items nodes.new number) ≡ length (node_items nodes.old number) }
    ensures edge { IsEdge nodes.new (suc low) number result }
    ensures offset { offset nodes.new (suc low) number result
        ≡ offset_through nodes.old low number index edge }
{
    nodes.rotate_left(number, index);
    seen_above(edge, index)
}

// The seat of an edge in a node that was made of two, the first of `many` items, with an item
// between them. The edge was in the first where `side` is 0, else in the second.
fn joined_seat(low: usize, many: usize, side: usize, edge: Edge) -> usize
    requires many { many ≤ CAPACITY }
    requires small { seat_of low edge ≤ CAPACITY }
    ensures first { side ≡ 0 → result ≡ seat_of low edge }
    ensures second { 0 < side → result ≡ many + 1 + seat_of low edge }
{
    if side == 0 {
        return seat(low, edge);
    }
    many + 1 + seat(low, edge)
}

// Makes one node of the child at `index` and the one after it. Tells where an edge below one of
// them, the child at `turn`, comes to lie.
pub fn join<T: Drop>(
    nodes: &mut Nodes<T>,
    low: usize,
    number: usize,
    index: usize,
    turn: usize,
    edge: Edge,
) -> Edge
    requires levelled { IsLevelled nodes.old low number index }
    requires few { child_size nodes.old number index + 1 + child_size nodes.old number (index + 1)
        ≤ CAPACITY }
    requires deep { low + 1 < MAX_LEVELS }
    requires near { (turn ≡ index) ⊎ (turn ≡ index + 1) }
    requires edge { IsEdge nodes.old low (node_child nodes.old number turn) edge }
    ensures shrinks { KeepsList nodes.old nodes.new (suc low) number }
    ensures edge { IsEdge nodes.new (suc low) number result }
    ensures offset { offset nodes.new (suc low) number result
        ≡ offset_through nodes.old low number turn edge }
{
    let left = nodes.child_at(number, index);
    let many = nodes.item_count(left);
    nodes.merge(number, index);
    let seat = joined_seat(low, many, turn - index, edge);
    let inner = edge_at(low, left, seat, seen_inside(edge));
    seen_above(inner, index)
}

// Gives the child at `index` an item if it is short: from a neighbour that has one to spare, the
// one before it first, else by joining the two. Tells where an edge below that child comes to lie.
pub fn rebalance<T: Drop>(
    nodes: &mut Nodes<T>,
    low: usize,
    number: usize,
    index: usize,
    edge: Edge,
) -> Edge
    requires short { MayBeRebalanced nodes.old low number index }
    requires deep { low + 1 < MAX_LEVELS }
    requires edge { IsEdge nodes.old low (node_child nodes.old number index) edge }
    ensures shrinks { KeepsList nodes.old nodes.new (suc low) number }
    ensures lent { (k : ℕ) → IsLender nodes.old number index k
        → length (node_items nodes.new number) ≡ length (node_items nodes.old number) }
    ensures edge { IsEdge nodes.new (suc low) number result }
    ensures offset { offset nodes.new (suc low) number result
        ≡ offset_through nodes.old low number index edge }
{
    let child = nodes.child_at(number, index);
    if nodes.item_count(child) >= MIN_LEN {
        return seen_above(edge, index);
    }
    if index > 0 {
        let before = nodes.child_at(number, index - 1);
        if nodes.item_count(before) > MIN_LEN {
            return borrow_from_left(nodes, low, number, index - 1, edge);
        }
    }
    if index < nodes.item_count(number) {
        let behind = nodes.child_at(number, index + 1);
        if nodes.item_count(behind) > MIN_LEN {
            return borrow_from_right(nodes, low, number, index, edge);
        }
    }
    join(nodes, low, number, index.saturating_sub(1), index, edge)
}

// Takes the item before an edge out of the subtree of a node, which may be short then. The item
// stands in a leaf. Tells where the edge then lies.
pub fn remove_below<T: Drop>(
    nodes: &mut Nodes<T>,
    below: usize,
    number: usize,
    edge: Edge,
) -> Taken<T>
    requires shaped { ShapedBut 1 CAPACITY nodes.old below number }
    requires owned { Owned nodes.old (suc below) number }
    requires deep { below < MAX_LEVELS }
    requires edge { IsEdge nodes.old below number edge }
    requires in_leaf { 0 < edge.index }
    ensures item { result.item ≡ slice_index_or (node_items nodes.old edge.leaf)
        (edge.index - 1) result.item }
    ensures shrinks { Shrinks nodes.old nodes.new below number
        (remove (items_below nodes.old (suc below) number)
        (offset nodes.old below number edge - 1)) }
    ensures edge { IsEdge nodes.new below number result.edge }
    ensures offset { offset nodes.new below number result.edge + 1
        ≡ offset nodes.old below number edge }
{
    if below == 0 {
        let (item, _) = nodes.take_beside(number, edge.index - 1, 0);
        let edge = Edge {
            leaf: number,
            path: 0,
            index: edge.index - 1,
        };
        return Taken { item, edge };
    }
    let index = first_turn(edge);
    let child = nodes.child_at(number, index);
    let taken = remove_below(nodes, below - 1, child, seen_inside(edge));
    let edge = rebalance(nodes, below - 1, number, index, taken.edge);
    Taken {
        item: taken.item,
        edge,
    }
}

// A tree after a removal: its topmost node, how many levels it has, and where an edge then lies, if
// it has one.
#[derive(Clone, Copy)]
pub struct Shrunk {
    pub root: usize,
    pub levels: usize,
    pub edge: Edge,
}

// The tree after a removal: a root with no item goes, and its only child takes its place, if it has
// one.
pub fn shrink_root<T: Drop>(nodes: &mut Nodes<T>, levels: usize, root: usize, edge: Edge) -> Shrunk
    requires tree { IsLooseTree nodes.old levels root }
    requires edge { IsEdge nodes.old (levels - 1) root edge }
    ensures tree { IsTree nodes.new result.levels result.root }
    ensures items { items_below nodes.new result.levels result.root
        ≡ items_below nodes.old levels root }
    ensures capacity { nodes.new.capacity ≡ nodes.old.capacity }
    ensures edge { 0 < result.levels
        → IsEdge nodes.new (result.levels - 1) result.root result.edge }
    ensures offset { 0 < result.levels
        → offset nodes.new (result.levels - 1) result.root result.edge
        ≡ offset nodes.old (levels - 1) root edge }
{
    if nodes.item_count(root) > 0 {
        return Shrunk { root, levels, edge };
    }
    if levels == 1 {
        nodes.remove_node(root);
        return Shrunk {
            root: 0,
            levels: 0,
            edge,
        };
    }
    let child = nodes.child_at(root, 0);
    nodes.remove_node(root);
    Shrunk {
        root: child,
        levels: levels - 1,
        edge: seen_inside(edge),
    }
}
