//! The labels of blocks, each noted after those of its halves.

ghost use Rattle.std.specs.Prelude.{◌≡◌, ◌++◌, ◌∷◌, [], nat_eq, length, OnOk};
ghost use Rattle.shortest_tables.specs.Entries.{own};
ghost use Rattle.shortest_tables.specs.Labels.{choose, entry};
ghost use Rattle.shortest_tables.specs.Numbers.{as_labels};
ghost use Rattle.shortest_tables.specs.Trees.{IsPopped};

use crate::labels::{choose_label, own_value};
use std::alloc::AllocError;

/// A block.
#[derive(Clone, Copy)]
pub(crate) struct Node {
    /// Whether its halves are noted before it.
    pub is_divided: bool,
    /// How many labels it has.
    pub labels: u32,
}

/// What is noted of some blocks.
#[derive(Drop)]
pub(crate) struct Marks {
    pub nodes: Vec<Node>,
    /// The labels of all nodes.
    pub labels: Vec<u32>,
    /// Whether a value is met in a list, where two are compared.
    pub seen: Vec<bool>,
}

/// What a block takes below a label from above.
#[derive(Clone, Copy)]
pub(crate) struct Taken {
    /// Whether its halves are noted before it.
    pub is_divided: bool,
    /// The value of its own entry.
    pub own: Option<u32>,
    /// Its label.
    pub label: Option<u32>,
}

impl Marks {
    /// Notes a block. Fails, too, where its labels are 2^32 or more.
    pub(crate) fn push(&mut self, is_divided: bool, best: &[u32]) -> Result<(), AllocError>
        ensures nodes { OnOk result (self.new.nodes.items ≡ self.old.nodes.items
            ++ record { is_divided = is_divided; labels = length best.now } ∷ []) }
        ensures labels { OnOk result (self.new.labels.items ≡ self.old.labels.items ++ best.now) }
        ensures seen { self.new.seen ≡ self.old.seen }
    {
        let Ok(labels) = u32::try_from(best.len()) else {
            return Err(AllocError);
        };
        self.labels.extend_from_slice(best)?;
        self.nodes.push(Node { is_divided, labels })?;
        Ok(())
    }

    /// Takes the last block out, below a label from above.
    pub(crate) fn pop(&mut self, above: Option<u32>) -> Taken
        ensures { IsPopped above self.old self.new result }
    {
        let Some(node) = self.nodes.pop() else {
            return Taken {
                is_divided: false,
                own: None,
                label: None,
            };
        };
        let start = self.labels.len().saturating_sub(node.labels as usize);
        let taken = taken_of(node.is_divided, &self.labels[start..], above);
        self.labels.truncate(start);
        taken
    }
}

fn taken_of(is_divided: bool, best: &[u32], above: Option<u32>) -> Taken
    ensures divided { result.is_divided ≡ is_divided }
    ensures own { own result.own ≡ entry nat_eq (as_labels best.now) above }
    ensures label { result.label ≡ choose nat_eq (as_labels best.now) above }
{
    Taken {
        is_divided,
        own: own_value(best, above),
        label: choose_label(best, above),
    }
}
