//! Edges between the items of the tree, each with the path to it, and the steps from one to the
//! next.
ghost use Rattle.std.specs.Prelude.{◌≡◌, ℕ, suc, ◌+◌, ◌-◌, ◌*◌, ◌%◌, ◌/◌, ◌^◌, ◌<◌, ◌≤◌, length, MatchOption};
ghost use Rattle.range_nodes.specs.Heap.{node_items};
ghost use Rattle.range_tree.specs.Nodes.{items_below, ShapedBut};
ghost use Rattle.range_tree.specs.Edges.{turn, inside, seat_of, is_start, IsEdge, offset, home_of};
ghost use Rattle.range_tree.specs.Behind.{IsBehindLeaf, IsParent};
ghost use Rattle.range_tree.specs.EndLeaves.{AreEndLeaves};

use range_nodes::nodes::{CAPACITY, Nodes};

// A path has a digit for each level: the child through which it goes, from the lowest digit on.
pub const PATH_BASE: u64 = 16;

// How many digits a path has. No tree has more levels, since it has at most `MAX_LEN` items.
pub const MAX_LEVELS: usize = 16;

/// A place between two items of a `BoxStorage`: an index in a leaf, and the path to that. It stands
/// for the item before it.
#[derive(Clone, Copy)]
pub struct Edge {
    pub(crate) path: u64,
    pub(crate) leaf: usize,
    pub(crate) index: usize,
}

// Where an item stands: its node, and its index there.
#[derive(Clone, Copy)]
pub struct Home {
    pub node: usize,
    pub index: usize,
}

// A node over so many levels, with the path to its first edge.
#[derive(Clone, Copy)]
struct Subtree {
    node: usize,
    below: usize,
    path: u64,
}

// The child through which the path goes first.
pub fn first_turn(edge: Edge) -> usize
    ensures { result ≡ turn edge }
{
    (edge.path % PATH_BASE) as usize
}

// The edge as that child sees it.
pub fn seen_inside(edge: Edge) -> Edge
    ensures { result ≡ inside edge }
{
    Edge {
        leaf: edge.leaf,
        path: edge.path / PATH_BASE,
        index: edge.index,
    }
}

// The edge as the node above sees it, of which it is below the child at `index`.
pub fn seen_above(edge: Edge, index: usize) -> Edge
    requires index { index ≤ CAPACITY }
    requires path { edge.path < 2 ^ 60 }
    ensures turn { turn result ≡ index }
    ensures inside { inside result ≡ edge }
{
    Edge {
        leaf: edge.leaf,
        path: edge.path * PATH_BASE + index as u64,
        index: edge.index,
    }
}

// The edge at a seat of a node: between the items of a leaf, or below the child at that index.
pub fn edge_at(below: usize, number: usize, seat: usize, inner: Edge) -> Edge
    requires seat { seat ≤ CAPACITY }
    requires path { 0 < below → inner.path < 2 ^ 60 }
    ensures leaf { below ≡ 0 → result ≡ record { leaf = number; path = 0; index = seat } }
    ensures turn { 0 < below → turn result ≡ seat }
    ensures inside { 0 < below → inside result ≡ inner }
{
    if below == 0 {
        return Edge {
            leaf: number,
            path: 0,
            index: seat,
        };
    }
    seen_above(inner, seat)
}

// The seat of an edge in the node that it is seen from.
pub fn seat(below: usize, edge: Edge) -> usize
    ensures { result ≡ seat_of below edge }
{
    if below == 0 {
        edge.index
    } else {
        first_turn(edge)
    }
}

// Whether the edge stands before all items below the node that it is seen from.
pub fn stands_first(edge: Edge) -> bool
    ensures { result ≡ is_start edge }
{
    edge.path == 0 && edge.index == 0
}

// The edge before all items below a node.
pub fn first_edge<T: Drop>(nodes: &Nodes<T>, below: usize, number: usize) -> Edge
    requires shaped { ShapedBut 1 CAPACITY nodes.now below number }
    requires deep { below < MAX_LEVELS }
    ensures edge { IsEdge nodes.now below number result }
    ensures offset { offset nodes.now below number result ≡ 0 }
{
    let mut leaf = number;
    let mut left = below;
    'down: while left > 0 {
        leaf = nodes.child_at(leaf, 0);
        left -= 1;
    }
    Edge {
        leaf,
        path: 0,
        index: 0,
    }
}

// The edge after all items below a node.
pub fn end_edge<T: Drop>(nodes: &Nodes<T>, below: usize, number: usize) -> Edge
    requires shaped { ShapedBut 1 CAPACITY nodes.now below number }
    requires deep { below < MAX_LEVELS }
    ensures edge { IsEdge nodes.now below number result }
    ensures offset { offset nodes.now below number result
        ≡ length (items_below nodes.now (suc below) number) }
{
    let mut leaf = number;
    let mut left = below;
    let mut path: u64 = 0;
    let mut weight: u64 = 1;
    'down: while left > 0 {
        let last = nodes.item_count(leaf);
        path += weight * (last as u64);
        weight *= PATH_BASE;
        leaf = nodes.child_at(leaf, last);
        left -= 1;
    }
    Edge {
        leaf,
        path,
        index: nodes.item_count(leaf),
    }
}

// The first leaf below a node, and the edge before the items of the last one.
#[derive(Clone, Copy)]
pub struct EndLeaves {
    pub first: usize,
    pub last: Edge,
}

// The leaves at both ends below a node. Out of line, since it is rarely called.
#[inline(never)]
pub fn end_leaves<T: Drop>(nodes: &Nodes<T>, below: usize, number: usize) -> EndLeaves
    requires shaped { ShapedBut 1 CAPACITY nodes.now below number }
    requires deep { below < MAX_LEVELS }
    ensures { AreEndLeaves nodes.now below number result }
{
    let first = first_edge(nodes, below, number);
    let end = end_edge(nodes, below, number);
    EndLeaves {
        first: first.leaf,
        last: Edge { index: 0, ..end },
    }
}

// The home before an index of a node: the item there, or another home where it has none.
#[inline(always)]
fn home_before(node: usize, index: usize, otherwise: Home) -> Home
    ensures none { index ≡ 0 → result ≡ otherwise }
    ensures some { 0 < index → result ≡ record { node = node; index = index - 1 } }
{
    if index == 0 {
        return otherwise;
    }
    let index = index - 1;
    Home { node, index }
}

// The node over a leaf, the index of the leaf in it, and the difference between the path to the leaf
// and that to the next one below the same node.
#[derive(Clone, Copy)]
struct Parent {
    node: usize,
    index: usize,
    weight: u64,
}

// The node over the leaf of an edge.
#[inline(always)]
fn parent_of<T: Drop>(nodes: &Nodes<T>, below: usize, number: usize, edge: Edge) -> Parent
    requires shaped { ShapedBut 1 CAPACITY nodes.now below number }
    requires above { 0 < below }
    requires deep { below < MAX_LEVELS }
    requires edge { IsEdge nodes.now below number edge }
    requires some { 0 < offset nodes.now below number edge }
    ensures { IsParent nodes.now below number edge result }
{
    let mut node = number;
    let mut left = below;
    let mut inner = edge;
    let mut weight: u64 = 1;
    'down: while left > 1 {
        node = nodes.child_at(node, first_turn(inner));
        inner = seen_inside(inner);
        weight *= PATH_BASE;
        left -= 1;
    }
    Parent {
        node,
        index: first_turn(inner),
        weight,
    }
}

// Where the item before an edge stands, and the edge after the item behind its leaf. That edge is
// found from the node over the leaf, unless the leaf is its last child. Out of line, so that a step
// within a leaf is no call.
#[inline(never)]
pub fn around_leaf<T: Drop>(
    nodes: &Nodes<T>,
    below: usize,
    number: usize,
    edge: Edge,
) -> (Home, Option<Edge>)
    requires shaped { ShapedBut 1 CAPACITY nodes.now below number }
    requires deep { below < MAX_LEVELS }
    requires edge { IsEdge nodes.now below number edge }
    requires some { 0 < offset nodes.now below number edge }
    ensures home { result.0 ≡ home_of nodes.now below number edge }
    ensures behind { IsBehindLeaf nodes.now below number edge result.1 }
{
    if below > 0 {
        let Parent {
            node,
            index,
            weight,
        } = parent_of(nodes, below, number, edge);
        if index < nodes.item_count(node) {
            let next = Edge {
                path: edge.path + weight,
                leaf: nodes.child_at(node, index + 1),
                index: 0,
            };
            if edge.index == 0 && index == 0 {
                return (find_home(nodes, below, number, edge), Some(next));
            }
            let above = home_before(node, index, Home { node, index });
            return (home_before(edge.leaf, edge.index, above), Some(next));
        }
    }
    around_any_leaf(nodes, below, number, edge)
}

// The same for each leaf, by one walk that remembers the lowest node with a child after the one on
// the path: the edge is the first one below that child. It stands in its caller, so that what is
// found there need not go through memory.
#[inline(always)]
fn around_any_leaf<T: Drop>(
    nodes: &Nodes<T>,
    below: usize,
    number: usize,
    edge: Edge,
) -> (Home, Option<Edge>)
    requires shaped { ShapedBut 1 CAPACITY nodes.now below number }
    requires deep { below < MAX_LEVELS }
    requires edge { IsEdge nodes.now below number edge }
    requires some { 0 < offset nodes.now below number edge }
    ensures home { result.0 ≡ home_of nodes.now below number edge }
    ensures behind { IsBehindLeaf nodes.now below number edge result.1 }
{
    let mut at = number;
    let mut left = below;
    let mut inner = edge;
    let mut path: u64 = 0;
    let mut weight: u64 = 1;
    let mut home = Home {
        node: number,
        index: 0,
    };
    let mut behind = None;
    'down: while left > 0 {
        let node = at;
        let index = first_turn(inner);
        at = nodes.child_at(node, index);
        left -= 1;
        inner = seen_inside(inner);
        home = home_before(node, index, home);
        path += weight * (index as u64);
        let later = path + weight;
        weight *= PATH_BASE;
        if index < nodes.item_count(node) {
            behind = Some(Subtree {
                node: nodes.child_at(node, index + 1),
                below: left,
                path: later,
            });
        }
    }
    let found = home_before(at, inner.index, home);
    match behind {
        None => (found, None),
        Some(subtree) => {
            let first = first_edge(nodes, subtree.below, subtree.node);
            let edge = Edge {
                path: subtree.path,
                ..first
            };
            (found, Some(edge))
        }
    }
}

// The edge before the item before an edge below a node.
pub fn preceding<T: Drop>(nodes: &Nodes<T>, below: usize, number: usize, edge: Edge) -> Option<Edge>
    requires shaped { ShapedBut 1 CAPACITY nodes.now below number }
    requires deep { below < MAX_LEVELS }
    requires edge { IsEdge nodes.now below number edge }
    ensures { MatchOption result (offset nodes.now below number edge ≡ 0)
        (λ h. IsEdge nodes.now below number h
        × (offset nodes.now below number h + 1 ≡ offset nodes.now below number edge)) }
{
    if below == 0 {
        if edge.index == 0 {
            return None;
        }
        return Some(Edge {
            leaf: number,
            path: 0,
            index: edge.index - 1,
        });
    }
    let index = first_turn(edge);
    let child = nodes.child_at(number, index);
    if let Some(earlier) = preceding(nodes, below - 1, child, seen_inside(edge)) {
        return Some(seen_above(earlier, index));
    }
    if index == 0 {
        return None;
    }
    let last = nodes.child_at(number, index - 1);
    Some(seen_above(end_edge(nodes, below - 1, last), index - 1))
}

// Where the item before an edge stands, of which there is one below the node.
pub fn find_home<T: Drop>(nodes: &Nodes<T>, below: usize, number: usize, edge: Edge) -> Home
    requires shaped { ShapedBut 1 CAPACITY nodes.now below number }
    requires edge { IsEdge nodes.now below number edge }
    requires some { 0 < offset nodes.now below number edge }
    ensures { result ≡ home_of nodes.now below number edge }
{
    let mut at = number;
    let mut left = below;
    let mut inner = edge;
    let mut home = Home {
        node: number,
        index: 0,
    };
    'down: while left > 0 {
        let index = first_turn(inner);
        home = home_before(at, index, home);
        at = nodes.child_at(at, index);
        inner = seen_inside(inner);
        left -= 1;
    }
    home_before(at, inner.index, home)
}
