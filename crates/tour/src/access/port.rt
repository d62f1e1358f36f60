//! Ports, a key type by their numbers.

ghost use Rattle.std.specs.Prelude.{◌-◌, refl};
ghost use Rattle.std.proofs.Common.{lit<};
ghost use Rattle.std.specs.declared.ops.Bound.TheVariants.{Included};
ghost use Rattle.btree_range_map.specs.Counted.{counted_lawful, counted_complete, counted_measure, measure_counts_keys};
ghost use Rattle.tour.specs.Ports.{port_order, ports_counted};

use btree_range_map::range::traits::{
    Bounded, Complete, Counted, MaybeBounded, Measure, PartialEnum,
};
use btree_range_map::{AnyRange, AsRange, IntoRange};
use std::ops::Bound;

/// A port of a host.
#[derive(Clone, Copy, PartialEq, Eq, PartialOrd, Ord, Hash, Debug)]
pub struct Port(pub u16);

impl MaybeBounded for Port {
    ghost order = { port_order };

    fn min() -> Option<Port> {
        Some(Port(0))
    }

    fn max() -> Option<Port> {
        Some(Port(u16::MAX))
    }

    fn known(&self) {
        let _number = self.0;
    }

    ghost order_is_cmp = { λ a b. refl };
}

impl PartialEnum for Port {
    fn succ(&self) -> Option<Port> {
        self.0.checked_add(1).map(Port)
    }

    fn pred(&self) -> Option<Port> {
        self.0.checked_sub(1).map(Port)
    }

    ghost lawful = { counted_lawful ports_counted };
}

impl Bounded for Port {
    ghost smallest = { record { 0 = 0 } };

    ghost largest = { record { 0 = 65535 } };

    fn min() -> Port {
        Port(0)
    }

    fn max() -> Port {
        Port(u16::MAX)
    }

    ghost known_least = { refl };

    ghost known_greatest = { refl };
}

impl Measure for Port {
    ghost len = { λ _. 1 };

    ghost distance = { λ a b. b.0 - a.0 };

    fn len(&self) -> u128 {
        1
    }

    fn distance(&self, other: &Port) -> u128 {
        (other.0 - self.0) as u128
    }

    ghost measured = { counted_measure ports_counted (lit< tt) };
}

impl Complete for Port {
    ghost complete = { counted_complete ports_counted };
}

impl Counted for Port {
    ghost counts_keys = { measure_counts_keys ports_counted (lit< tt) };
}

impl AsRange for Port {
    type Item = Port;

    ghost range = { λ port. record { start = Included port; end = Included port } };

    fn start(&self) -> Bound<&Port> {
        Bound::Included(self)
    }

    fn end(&self) -> Bound<&Port> {
        Bound::Included(self)
    }
}

impl IntoRange for Port {
    fn into_range(self) -> AnyRange<Port> {
        AnyRange::new(Bound::Included(self), Bound::Included(self))
    }
}
