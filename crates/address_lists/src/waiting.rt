//! Addresses that are read and not added yet.

ghost use Rattle.std.specs.Prelude.{◌≡◌, ◌⊎◌, ◌≤◌, ◌<◌, ◌^◌, ◌↔◌, ℕ, map, [], ◌∷◌, IfErr, IfOk, IfSome, OnOk};
ghost use Rattle.address_text.specs.Lines.{AreAddresses, SaysAddress};
ghost use Rattle.address_text.specs.Texts.{width};
ghost use Rattle.address_text.specs.declared.family.Family.{Family};
ghost use Rattle.address_text.specs.declared.line.Line.{Line};
ghost use Rattle.address_lists.specs.Lists.{Has, HasJust};
ghost use Rattle.address_lists.specs.Waiting.{HasOrSays, HasSoFar, IsTogether, Spans, line_of};
ghost use Rattle.address_lists.specs.declared.read.ListError.TheVariants.{Memory};

use crate::addresses::Addresses;
use crate::print::FamilyAddress;
use crate::read::ListError;
use crate::spans::{Span, Waiting};
use address_sets::{Ipv4, Ipv6};
use address_text::{Family, Line};
use std::alloc::Global;

impl<A: FamilyAddress> Span<A> {
    fn line(self) -> Line
        ensures line { result ≡ line_of A.its_family A.number self }
        ensures fits { AreAddresses result }
    {
        self.0.known();
        self.1.known();
        Line::Addresses(A::family(), self.0.number(), self.1.number())
    }
}

/// So many spans of a family wait at most.
fn most(family: Family) -> usize {
    match family {
        Family::V4 => 1 << 20,
        Family::V6 => 1 << 18,
    }
}

/// The numbers of two spans as one, where the second starts in the first or just after it.
fn joined(start: u128, end: u128, from: u128, to: u128) -> Option<(u128, u128)>
    ensures { IfSome result (λ span. Spans start end from to span.0 span.1) }
{
    if from < start || end.saturating_add(1) < from {
        return None;
    }
    if end < to {
        Some((start, to))
    } else {
        Some((start, end))
    }
}

/// What two lines say, as one line, where the second goes on where the first ends.
fn together(first: Line, second: Line) -> Option<Line>
    requires first { AreAddresses first }
    requires second { AreAddresses second }
    ensures says { IfSome result (IsTogether first second) }
    ensures fits { IfSome result AreAddresses }
{
    match (first, second) {
        (Line::Nothing, line) => Some(line),
        (line, Line::Nothing) => Some(line),
        (Line::Addresses(family, start, end), Line::Addresses(other, from, to)) => {
            if family != other {
                return None;
            }
            let (start, end) = joined(start, end, from, to)?;
            Some(Line::Addresses(family, start, end))
        }
    }
}

/// Adds the addresses that a line says.
fn add(list: &mut Addresses, line: Line) -> Result<(), ListError>
    requires { AreAddresses line }
    ensures added { OnOk result (HasJust list.new
        (λ family n. Has list.old family n ⊎ SaysAddress family n line)) }
    ensures memory { IfErr result (λ error. error ≡ Memory) }
{
    match list.add(line) {
        Ok(()) => Ok(()),
        Err(_) => Err(ListError::Memory),
    }
}

/// The line that waits after the last one and the next: both as one, or the next, and then the
/// addresses of the last one are added.
fn follow(list: &mut Addresses, last: Line, next: Line) -> Result<Line, ListError>
    requires last { AreAddresses last }
    requires next { AreAddresses next }
    ensures said { IfOk result (λ line. (family : Family) (n : ℕ) → n < 2 ^ width family
        → (Has list.new family n ⊎ SaysAddress family n line)
        ↔ ((Has list.old family n ⊎ SaysAddress family n last) ⊎ SaysAddress family n next)) }
    ensures fits { IfOk result AreAddresses }
    ensures memory { IfErr result (λ error. error ≡ Memory) }
{
    if let Some(both) = together(last, next) {
        return Ok(both);
    }
    add(list, last)?;
    Ok(next)
}

/// Adds the addresses of spans, one after the other.
fn add_each<A: FamilyAddress>(list: &mut Addresses, spans: &[Span<A>]) -> Result<(), ListError>
    ensures added { OnOk result
        (HasJust list.new (HasOrSays list.old (map (line_of A.its_family A.number) spans.now))) }
    ensures memory { IfErr result (λ error. error ≡ Memory) }
{
    let mut last = Line::Nothing;
    for span in spans {
        last = follow(list, last, span.line())?;
    }
    add(list, last)
}

/// Adds the addresses of the spans, which then wait no more.
fn add_sorted<A: FamilyAddress>(
    list: &mut Addresses,
    spans: &mut Vec<Span<A>>,
) -> Result<(), ListError>
    ensures added { OnOk result (HasJust list.new
        (HasOrSays list.old (map (line_of A.its_family A.number) spans.old.items))) }
    ensures none { OnOk result (spans.new.items ≡ []) }
    ensures memory { IfErr result (λ error. error ≡ Memory) }
{
    spans.sort_unstable();
    add_each(list, spans.as_slice())?;
    spans.clear();
    Ok(())
}

/// Lets a span wait, and adds the addresses of those before it where these are too many.
fn put<A: FamilyAddress>(
    list: &mut Addresses,
    spans: &mut Vec<Span<A>>,
    span: Span<A>,
) -> Result<(), ListError>
    ensures put { OnOk result ((family : Family) (n : ℕ) → n < 2 ^ width family
        → HasOrSays list.new (map (line_of A.its_family A.number) spans.new.items) family n
        ↔ (HasOrSays list.old (map (line_of A.its_family A.number) spans.old.items) family n
        ⊎ SaysAddress family n (line_of A.its_family A.number span))) }
    ensures memory { IfErr result (λ error. error ≡ Memory) }
{
    if spans.len() >= most(A::family()) {
        add_sorted(list, spans)?;
    }
    match spans.push(span) {
        Ok(()) => Ok(()),
        Err(_) => Err(ListError::Memory),
    }
}

impl Waiting {
    /// Nothing. Allocates nothing.
    pub fn new(alloc: Global) -> Waiting
        ensures { (list : Addresses) (family : Family) (n : ℕ)
            → HasSoFar list result family n ↔ Has list family n }
    {
        Waiting {
            last: Line::Nothing,
            v4: Vec::new(alloc),
            v6: Vec::new(alloc),
        }
    }

    /// Takes in a line.
    pub(crate) fn take(&mut self, list: &mut Addresses, line: Line) -> Result<(), ListError>
        requires { AreAddresses line }
        ensures taken { OnOk result ((family : Family) (n : ℕ) → n < 2 ^ width family
            → HasSoFar list.new self.new family n
            ↔ (HasSoFar list.old self.old family n ⊎ SaysAddress family n line)) }
        ensures memory { IfErr result (λ error. error ≡ Memory) }
    {
        if let Some(both) = together(self.last, line) {
            self.last = both;
            return Ok(());
        }
        match self.last {
            Line::Nothing => {}
            Line::Addresses(Family::V4, first, last) => {
                put(
                    list,
                    &mut self.v4,
                    Span(Ipv4(first as u32), Ipv4(last as u32)),
                )?
            }
            Line::Addresses(Family::V6, first, last) => {
                put(list, &mut self.v6, Span(Ipv6(first), Ipv6(last)))?
            }
        }
        self.last = line;
        Ok(())
    }

    /// Adds all addresses that wait. Fails where an allocation fails, and may then have added some.
    pub fn add_all(mut self, list: &mut Addresses) -> Result<(), ListError>
        ensures added { OnOk result (HasJust list.new (HasSoFar list.old self)) }
        ensures memory { IfErr result (λ error. error ≡ Memory) }
    {
        add_sorted(list, &mut self.v4)?;
        add_sorted(list, &mut self.v6)?;
        add(list, self.last)
    }
}
