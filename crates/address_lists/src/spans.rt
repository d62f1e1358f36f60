//! Spans of addresses that wait.

ghost use Rattle.address_text.specs.Lines.{AreAddresses};
ghost use Rattle.address_lists.specs.Fitting.{AreAddresses-prop};

use address_sets::{Ipv4, Ipv6};
use address_text::Line;

/// The first and the last of some addresses of one family.
#[derive(Clone, Copy, PartialEq, Eq, PartialOrd, Ord)]
pub(crate) struct Span<A>(pub(crate) A, pub(crate) A);

/// What lists say that is read and not added yet: the last line, and spans of those before it.
///
/// Spans are sorted before they are added, so that lists in no order cost few searches. They wait
/// up to 8 MiB of either family.
#[derive(Drop)]
pub struct Waiting {
    pub(crate) last: Line,
    pub(crate) v4: Vec<Span<Ipv4>>,
    pub(crate) v6: Vec<Span<Ipv6>>,
    ghost fits: { AreAddresses last } by { AreAddresses-prop last },
}
