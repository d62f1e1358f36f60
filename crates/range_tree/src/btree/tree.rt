//! The calls of a `BoxStorage` by the edges of its tree.
ghost use Rattle.std.specs.Prelude.{◌≡◌, ℕ, ◌+◌, ◌-◌, ◌*◌, ◌<◌, ◌≤◌, ◌^◌, [], ◌∷◌, ◌++◌, length, slice_index_or, insert, remove, MatchOption, count_by};
ghost use Rattle.range_store.specs.Counting.{AddsSteps};
ghost use Rattle.range_tree.specs.Edges.{home_of};
ghost use Rattle.range_tree.specs.Falling.{Falls};
ghost use Rattle.range_tree.specs.Holding.{box_items, box_room, IsBoxEdge, box_offset, box_home, edge_or_end, IsNextEdge};

use crate::btree::BoxStorage;
use crate::btree::building::{Layout, build, layout_of};
use crate::btree::filling::fill_beside;
use crate::btree::insertion::{Insertion, insert_below};
use crate::btree::path::{
    Edge, Home, around_leaf, end_leaves, find_home, preceding, seen_above, stands_first,
};
use crate::btree::removal::{remove_below, shrink_root};
use crate::btree::searching::{MAX_ASKS, search_below};
use range_nodes::nodes::{CAPACITY, MIN_LEN};
use range_store::storage::Probe;

impl<T: Drop> BoxStorage<T> {
    // The edge after all items, if there are any.
    pub fn end(&self) -> Option<Edge>
        ensures { MatchOption result (box_items self.now ≡ [])
            (λ g. IsBoxEdge self.now g × (box_offset self.now g ≡ length (box_items self.now))) }
    {
        if self.levels == 0 {
            return None;
        }
        let last = self.ends.last;
        Some(Edge {
            index: self.nodes.item_count(last.leaf),
            ..last
        })
    }

    // The edge after the item after an edge.
    pub fn following(&self, edge: Edge) -> Option<Edge>
        requires { IsBoxEdge self.now edge }
        ensures { IsNextEdge self.now result (box_offset self.now edge) }
    {
        if edge.index < self.nodes.item_count(edge.leaf) {
            return Some(Edge {
                index: edge.index + 1,
                ..edge
            });
        }
        around_leaf(&self.nodes, self.levels - 1, self.root, edge).1
    }

    // The edge before the item before an edge.
    pub fn edge_before(&self, edge: Edge) -> Option<Edge>
        requires { IsBoxEdge self.now edge }
        ensures { MatchOption result (box_offset self.now edge ≡ 0)
            (λ h. IsBoxEdge self.now h × (box_offset self.now h + 1 ≡ box_offset self.now edge)) }
    {
        if edge.index > 0 {
            return Some(Edge {
                index: edge.index - 1,
                ..edge
            });
        }
        preceding(&self.nodes, self.levels - 1, self.root, edge)
    }

    // Where the item before an edge stands.
    pub fn home(&self, edge: Edge) -> Home
        requires edge { IsBoxEdge self.now edge }
        requires some { 0 < box_offset self.now edge }
        ensures { result ≡ box_home self.now edge }
    {
        if edge.index > 0 {
            return Home {
                node: edge.leaf,
                index: edge.index - 1,
            };
        }
        find_home(&self.nodes, self.levels - 1, self.root, edge)
    }

    // The edge after the last item that passes the probe's test, which holds on a front of them
    // alone.
    #[inline(always)]
    pub fn edge_after_passing<P: Probe<T>>(&self, probe: &mut P) -> Option<Edge>
        requires { Falls (P.test probe.old) (box_items self.now) }
        ensures found { MatchOption result (count_by (P.test probe.old) (box_items self.now) ≡ 0)
            (λ g. IsBoxEdge self.now g × (0 < box_offset self.now g)
            × (box_offset self.now g ≡ count_by (P.test probe.old) (box_items self.now))) }
        ensures kept { P.test probe.new ≡ P.test probe.old }
        ensures asked { AddsSteps (P.steps_taken probe.old) (P.steps_taken probe.new)
            self.now.levels (MAX_ASKS * self.now.levels) }
    {
        if self.levels == 0 {
            return None;
        }
        let edge = search_below(&self.nodes, self.levels - 1, self.root, probe);
        if stands_first(edge) {
            return None;
        }
        Some(edge)
    }

    // Puts an item at an edge, or into an empty tree, and returns the edge after it.
    pub fn insert(&mut self, edge: Option<Edge>, item: T) -> Edge
        requires edge { MatchOption edge (box_items self.old ≡ []) (IsBoxEdge self.old) }
        requires room { 1 ≤ box_room self.old }
        ensures list { box_items self.new
            ≡ insert (box_items self.old) (edge_or_end self.old edge) item }
        ensures room { box_room self.new + 1 ≡ box_room self.old }
        ensures edge { IsBoxEdge self.new result }
        ensures offset { box_offset self.new result ≡ edge_or_end self.old edge + 1 }
    {
        match edge {
            Some(edge) => {
                let edge = self.make_room(edge);
                self.insert_between(edge, item)
            }
            None => {
                self.root = self.nodes.store_leaf(item);
                self.levels = 1;
                self.ends = end_leaves(&self.nodes, 0, self.root);
                self.len = 1;
                Edge {
                    leaf: self.root,
                    path: 0,
                    index: 1,
                }
            }
        }
    }

    // Makes room in a full leaf where the list begins or ends, if its neighbour has some. So items that
    // come in order fill their leaves. Tells where the edge then lies.
    fn make_room(&mut self, edge: Edge) -> Edge
        requires edge { IsBoxEdge self.old edge }
        ensures list { box_items self.new ≡ box_items self.old }
        ensures room { box_room self.new ≡ box_room self.old }
        ensures edge { IsBoxEdge self.new result }
        ensures offset { box_offset self.new result ≡ box_offset self.old edge }
    {
        let comes_last = edge.index == CAPACITY && edge.leaf == self.ends.last.leaf;
        let comes_first = edge.index == 0
            && edge.leaf == self.ends.first
            && self.nodes.item_count(edge.leaf) == CAPACITY;
        if !comes_last && !comes_first {
            return edge;
        }
        fill_beside(&mut self.nodes, self.levels - 1, self.root, edge)
    }

    // Puts an item at an edge, and returns the edge after it.
    fn insert_between(&mut self, edge: Edge, item: T) -> Edge
        requires edge { IsBoxEdge self.old edge }
        requires room { 1 ≤ box_room self.old }
        ensures list { box_items self.new
            ≡ insert (box_items self.old) (box_offset self.old edge) item }
        ensures room { box_room self.new + 1 ≡ box_room self.old }
        ensures edge { IsBoxEdge self.new result }
        ensures offset { box_offset self.new result ≡ box_offset self.old edge + 1 }
    {
        self.len += 1;
        if self.nodes.item_count(edge.leaf) < CAPACITY {
            self.nodes.put(edge.leaf, edge.index, item, 0, None);
            return Edge {
                index: edge.index + 1,
                ..edge
            };
        }
        let inserted = insert_below(&mut self.nodes, self.levels - 1, self.root, edge, item);
        let Insertion { split, side, edge } = inserted;
        match split {
            None => {
                self.ends = end_leaves(&self.nodes, self.levels - 1, self.root);
                edge
            }
            Some(split) => {
                self.root = self
                    .nodes
                    .store_branch(self.root, split.middle, split.right);
                self.levels += 1;
                self.ends = end_leaves(&self.nodes, self.levels - 1, self.root);
                seen_above(edge, side)
            }
        }
    }

    // Builds an empty tree of items, in their order.
    pub fn build(&mut self, added: Vec<T>)
        requires empty { box_items self.old ≡ [] }
        requires some { 0 < length added.items }
        requires room { length added.items ≤ box_room self.old }
        ensures list { box_items self.new ≡ added.items }
        ensures room { box_room self.old ≡ box_room self.new + length added.items }
    {
        let count = added.len();
        let Layout { below, width } = layout_of(count);
        let mut items = added.into_iter();
        self.root = build(&mut self.nodes, below, width, count, &mut items);
        self.levels = below + 1;
        self.ends = end_leaves(&self.nodes, below, self.root);
        self.len = count;
    }

    // Takes the item before an edge out of its leaf. Tells where the edge then lies, if there are
    // items left.
    pub fn take_in_leaf(&mut self, edge: Edge) -> (T, Option<Edge>)
        requires edge { IsBoxEdge self.old edge }
        requires in_leaf { 0 < edge.index }
        ensures removed { result.0
            ≡ slice_index_or (box_items self.old) (box_offset self.old edge - 1) result.0 }
        ensures list { box_items self.new
            ≡ remove (box_items self.old) (box_offset self.old edge - 1) }
        ensures capacity { self.new.nodes.capacity ≡ self.old.nodes.capacity }
        ensures edge { MatchOption result.1 (box_items self.new ≡ [])
            (λ g. IsBoxEdge self.new g × (box_offset self.new g + 1 ≡ box_offset self.old edge)) }
    {
        self.len -= 1;
        if self.nodes.item_count(edge.leaf) > MIN_LEN {
            let (item, _) = self.nodes.take_beside(edge.leaf, edge.index - 1, 0);
            let before = Edge {
                index: edge.index - 1,
                ..edge
            };
            return (item, Some(before));
        }
        let taken = remove_below(&mut self.nodes, self.levels - 1, self.root, edge);
        let shrunk = shrink_root(&mut self.nodes, self.levels, self.root, taken.edge);
        self.root = shrunk.root;
        self.levels = shrunk.levels;
        if self.levels == 0 {
            return (taken.item, None);
        }
        self.ends = end_leaves(&self.nodes, self.levels - 1, self.root);
        (taken.item, Some(shrunk.edge))
    }

    // Takes the item before an edge out, and returns the edge after the one that followed it.
    pub fn take(&mut self, edge: Edge) -> (T, Option<Edge>)
        requires edge { IsBoxEdge self.old edge }
        requires some { 0 < box_offset self.old edge }
        ensures removed { result.0
            ≡ slice_index_or (box_items self.old) (box_offset self.old edge - 1) result.0 }
        ensures list { box_items self.new
            ≡ remove (box_items self.old) (box_offset self.old edge - 1) }
        ensures space { box_room self.old + 1 ≤ box_room self.new }
        ensures following { IsNextEdge self.new result.1 (box_offset self.old edge - 1) }
    {
        if edge.index > 0 {
            let (item, left) = self.take_in_leaf(edge);
            return match left {
                None => (item, None),
                Some(left) => (item, self.following(left)),
            };
        }
        // The item stands above the leaves: the one after it takes its place.
        let behind = Edge { index: 1, ..edge };
        let (next, left) = self.take_in_leaf(behind);
        let Some(left) = left else { unreachable!() };
        let home = self.home(left);
        let item = self.nodes.replace_item(home.node, home.index, next);
        (item, Some(left))
    }
}
