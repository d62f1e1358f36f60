//! Which label a port is allowed with.

ghost use Rattle.std.specs.Prelude.{◌≡◌, List, [], ◌∷◌, ◌↔◌, IfOk, OnOk, OnErr, Some, None};
ghost use Rattle.std.specs.Option.{option_copied};
ghost use Rattle.std.specs.String.{string_eq};
ghost use Rattle.btree_range_map.specs.Bindings.{IsBoundAfter, IsUnboundAfter};
ghost use Rattle.btree_range_map.specs.Holding.{box_items};
ghost use Rattle.btree_range_map.specs.KeySets.{HoldsKey};
ghost use Rattle.tour.specs.Ports.{port_order};
ghost use Rattle.tour.specs.Rules.{Rule, Says, IsOfLatest, IsDecidedBy};

use crate::access::port::Port;
use btree_range_map::{AsRange, IntoRange, MapError, RangeMap, RangeSet};
use std::alloc::Global;
use std::marker::Model;

/// The ranges of ports that are allowed, with their labels.
///
/// The last rule on a port decides. A contract sees the table as the list of the allowed ranges.
#[derive(Drop)]
pub struct AccessTable {
    allowed: RangeMap<Port, String>,
    alloc: Global,
}

impl Model for AccessTable {
    ghost use Rattle.btree_range_map.specs.Holding.{box_items};
    ghost use Rattle.tour.specs.Rules.{Table};

    ghost Value = { Table };

    ghost view = { λ t. box_items t.allowed };
}

impl AccessTable {
    /// A table without a rule. Allocates nothing.
    pub fn new(alloc: Global) -> AccessTable
        ensures empty { result ≡ [] }
        ensures decided { IsDecidedBy result [] }
    {
        AccessTable {
            allowed: RangeMap::new(alloc),
            alloc,
        }
    }

    /// Allows the ports of the range, each with this label.
    ///
    /// Fails where an allocation is refused, and then the table is as it was.
    pub fn allow<R: IntoRange<Item = Port>>(
        &mut self,
        range: R,
        label: String,
    ) -> Result<(), MapError>
        ensures allowed { OnOk result
            (IsBoundAfter port_order string_eq self.old self.new (R.range range) label) }
        ensures decided { (rules : List Rule) → IsDecidedBy self.old rules → OnOk result
            (IsDecidedBy self.new (record { range = R.range range; label = Some label } ∷ rules)) }
        ensures refused { OnErr result (self.new ≡ self.old) }
    {
        self.allowed.insert(range, label)
    }

    /// Denies the ports of the range.
    ///
    /// Fails where an allocation is refused, and then the table is as it was.
    pub fn deny<R: AsRange<Item = Port>>(&mut self, range: R) -> Result<(), MapError>
        ensures denied { OnOk result
            (IsUnboundAfter port_order string_eq self.old self.new (R.range range)) }
        ensures decided { (rules : List Rule) → IsDecidedBy self.old rules → OnOk result
            (IsDecidedBy self.new (record { range = R.range range; label = None } ∷ rules)) }
        ensures refused { OnErr result (self.new ≡ self.old) }
    {
        self.allowed.remove(range)
    }

    /// The label that the port is allowed with, `None` where it is not. Allocates nothing.
    pub fn rule(&self, port: Port) -> Option<&String>
        ensures says { Says self.now port (option_copied result) }
        ensures decided { (rules : List Rule) → IsDecidedBy self.now rules
            → IsOfLatest rules port (option_copied result) }
    {
        self.allowed.get(port)
    }

    /// The ports that no rule allows.
    ///
    /// Fails where an allocation is refused.
    pub fn open(&self) -> Result<RangeSet<Port>, MapError>
        ensures held { IfOk result (λ set. (port : Port) → port_order.is_key port
            → HoldsKey port_order (box_items set) port ↔ Says self.now port None) }
    {
        RangeSet::keys_of(self.alloc, &self.allowed)?.complement()
    }
}
