//! The insertion of an item at an edge below a node, with the cuts that it causes.
ghost use Rattle.std.specs.Prelude.{◌≡◌, ℕ, suc, ◌+◌, ◌-◌, ◌*◌, ◌<◌, ◌≤◌, ◌^◌, length, insert, None, Some};
ghost use Rattle.range_nodes.specs.Heap.{FitsChild, HasNode, HasRoomFor, with_child, node_items, node_children};
ghost use Rattle.range_tree.specs.Nodes.{items_below, tops, separators, ShapedBut, Replaces, Owned, HasTreeRoom};
ghost use Rattle.range_tree.specs.Edges.{IsEdge, offset, IsSeat, seat_offset};
ghost use Rattle.range_tree.specs.Contents.{IsContent, Settles};

use crate::btree::path::{Edge, MAX_LEVELS, edge_at, first_turn, seen_above, seen_inside};
use range_nodes::nodes::{CAPACITY, HALF, Nodes, Split};

// What became of a node: it stands alone, or is the first of two; and an edge below it (`side` is
// 0) or below the second (1).
#[derive(Drop)]
pub struct Insertion<T> {
    pub split: Option<Split<T>>,
    pub side: usize,
    pub edge: Edge,
}

// Puts an item before the one at `index` of a node, and the child that comes with it after the one
// at `index`. Cuts the node in two if it was full. Returns where the edge at a seat comes to lie.
pub fn put_or_cut<T: Drop>(
    nodes: &mut Nodes<T>,
    below: usize,
    number: usize,
    index: usize,
    item: T,
    child: Option<usize>,
    seat: usize,
    inner: Edge,
) -> Insertion<T>
    requires present { HasNode nodes.old number }
    requires within { index ≤ length (node_items nodes.old number) }
    requires fits { length (node_items nodes.old number) ≤ CAPACITY }
    requires child { FitsChild child (node_items nodes.old number)
        (node_children nodes.old number) }
    requires content { IsContent nodes.old below number
        (insert (node_items nodes.old number) index item)
        (with_child (node_children nodes.old number) (index + 1) child) }
    requires room { CAPACITY ≤ length (node_items nodes.old number) → HasRoomFor nodes.old 1 }
    requires deep { below < MAX_LEVELS }
    requires seat { IsSeat nodes.old below (insert (node_items nodes.old number) index item)
        (with_child (node_children nodes.old number) (index + 1) child) seat inner }
    ensures settles { Settles nodes.old nodes.new below number
        (insert (node_items nodes.old number) index item)
        (with_child (node_children nodes.old number) (index + 1) child) result.split }
    ensures left_whole { length (node_items nodes.old number) < CAPACITY → result.split ≡ None }
    ensures edge { IsSeat nodes.new (suc below) (separators result.split) (tops number result.split)
        result.side result.edge }
    ensures offset { seat_offset nodes.new (suc below) (separators result.split)
        (tops number result.split) result.side result.edge
        ≡ seat_offset nodes.old below (insert (node_items nodes.old number) index item)
        (with_child (node_children nodes.old number) (index + 1) child) seat inner }
{
    if nodes.item_count(number) < CAPACITY {
        nodes.put(number, index, item, index + 1, child);
        return Insertion {
            split: None,
            side: 0,
            edge: edge_at(below, number, seat, inner),
        };
    }
    let split = nodes.split(number, index, item, child);
    if seat <= HALF {
        return Insertion {
            split: Some(split),
            side: 0,
            edge: edge_at(below, number, seat, inner),
        };
    }
    let edge = edge_at(below, split.right, seat - HALF - 1, inner);
    Insertion {
        split: Some(split),
        side: 1,
        edge,
    }
}

// Puts an item at an edge below a node.
pub fn insert_below<T: Drop>(
    nodes: &mut Nodes<T>,
    below: usize,
    number: usize,
    edge: Edge,
    item: T,
) -> Insertion<T>
    requires shaped { ShapedBut 1 CAPACITY nodes.old below number }
    requires owned { Owned nodes.old (suc below) number }
    requires edge { IsEdge nodes.old below number edge }
    requires deep { below < MAX_LEVELS }
    requires room { HasTreeRoom nodes.old (suc below) number 1 }
    ensures replaces { Replaces nodes.old nodes.new below number result.split
        (insert (items_below nodes.old (suc below) number) (offset nodes.old below number edge)
        item) }
    ensures left_whole { length (node_items nodes.old number) < CAPACITY → result.split ≡ None }
    ensures edge { IsSeat nodes.new (suc below) (separators result.split) (tops number result.split)
        result.side result.edge }
    ensures offset { seat_offset nodes.new (suc below) (separators result.split)
        (tops number result.split) result.side result.edge ≡ offset nodes.old below number edge + 1 }
{
    if below == 0 {
        let at = edge.index;
        return put_or_cut(nodes, below, number, at, item, None, at + 1, edge);
    }
    let index = first_turn(edge);
    let child = nodes.child_at(number, index);
    let inserted = insert_below(nodes, below - 1, child, seen_inside(edge), item);
    let Insertion { split, side, edge } = inserted;
    match split {
        None => Insertion {
            split: None,
            side: 0,
            edge: seen_above(edge, index),
        },
        Some(cut) => {
            let seat = index + side;
            let right = Some(cut.right);
            put_or_cut(nodes, below, number, index, cut.middle, right, seat, edge)
        }
    }
}
