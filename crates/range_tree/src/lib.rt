//! A B-tree, whose nodes hold the items of a list.
//!
//! Where to find what:
//!
//! - the container: `src/btree.rt`; the tree as its container sees it: `src/btree/tree.rt`,
//!   `specs/Holding.antt`
//! - the nodes by their numbers: the crate `range_nodes`
//! - the shape of a tree of nodes, and the list that it is: `specs/Nodes.antt`
//! - an edge between two items, as std's B-tree calls it, with the path to it, the steps along
//!   the list, and where the item before it stands: `src/btree/path.rt`, `specs/Edges.antt`
//! - the edge behind a leaf, from the node over that or by a walk: `specs/Behind.antt`,
//!   `proofs/{Parents,Behind}.antt`
//! - the leaves at both ends, which the tree keeps: `specs/EndLeaves.antt`, `proofs/EndLeaves.antt`
//! - the items after a position that lie together, in a leaf: `proofs/LeafItems.antt`
//! - how a search goes down: `src/btree/searching.rt`, `proofs/Descending.antt`
//! - how a node is written or cut: `src/btree/insertion.rt`, `specs/Contents.antt`
//! - what a full leaf at an end of the list gives to its neighbour: `src/btree/filling.rt`,
//!   `proofs/Filling.antt`
//! - how an empty tree is built of a list, from its leaves up, and how many items each child
//!   gets: `src/btree/building.rt`, `specs/Building.antt`, `proofs/{Building,Shares}.antt`
//! - how a short node gets an item: `src/btree/removal.rt`, `proofs/{Rotating,ShortNodes}.antt`
//! - a tree in which one item was written: `specs/Written.antt`
//! - how many levels so many items may have: `specs/Depth.antt`, the greatest such number in
//!   `range_edit/specs/Costs.antt`
#![tactic(auto)]

pub mod btree;
