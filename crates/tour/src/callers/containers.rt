//! Callers of the containers.

ghost use Rattle.std.specs.Prelude.{◌≡◌, true, length};
ghost use Rattle.btree_range_map.specs.Holding.{box_items, level_count};

use btree_range_map::btree::BoxStorage;
use btree_range_map::storage::{Item, Probe, Steps, Storage, VecStorage};
use std::alloc::{AllocError, Global};

type Tree = BoxStorage<u64>;

type List = VecStorage<u64>;

/// Gives `true` to each item.
#[derive(Drop)]
struct Every {
    steps: Steps,
}

impl Probe<u64> for Every {
    ghost test = { λ p x. true };

    ghost steps_taken = { λ p. p.steps };

    fn ask(&mut self, _item: &u64) -> bool {
        self.steps.tick();
        true
    }

    fn steps(&self) -> &Steps {
        &self.steps
    }
}

fn found(list: &List) -> (Option<u64>, u64) {
    let mut probe = Every {
        steps: Steps::new(),
    };
    let item = list.search(&mut probe).map(|p| *list.get(p));
    (item, probe.steps().count())
}

fn new_list(alloc: Global) -> List {
    <List as Storage<u64>>::new(alloc)
}

fn put_last(tree: &mut Tree, item: u64) -> Result<(), AllocError> {
    tree.reserve(1)?;
    let _position = tree.insert_at(None, item);
    Ok(())
}

fn second(list: &List) -> Option<u64> {
    let p = list.next(list.first()?)?;
    Some(*list.get(p))
}

fn last_but_one(list: &List) -> Option<u64> {
    let p = list.prev(list.last()?)?;
    Some(*list.get(p))
}

fn replaced(tree: &mut Tree, item: u64) -> Option<u64> {
    let p = tree.first()?;
    Some(tree.replace(p, item))
}

fn taken_out(tree: &mut Tree) -> Option<u64> {
    let p = tree.last()?;
    Some(tree.remove_at(p).0)
}

fn popped(list: &mut List) -> (Option<u64>, Option<u64>) {
    (list.pop_first(), list.pop_last())
}

fn sizes(tree: &Tree) -> (usize, usize)
    ensures items { result.0 ≡ length (box_items tree.now) }
    ensures levels { result.1 ≡ level_count tree.now }
{
    (tree.len(), tree.levels())
}

fn copied(tree: &Tree) -> Result<Tree, AllocError> {
    <Tree as Storage<u64>>::clone(tree)
}

fn pair(key: u8, value: i64) -> (u8, i64) {
    Item::new(key, value).into_pair()
}

fn shown(item: &Item<u8, i64>) -> (u8, i64) {
    let (key, value) = item.as_pair();
    (*key, *value)
}
