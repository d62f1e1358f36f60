//! Maps of addresses as spans, each with a value.

ghost use Rattle.std.specs.Prelude.{◌≡◌, ◌+◌, ◌≤◌, ◌<◌, ◌^◌, ℕ, IfSome, IfNone};
ghost use Rattle.shortest_tables.specs.Numbers.{AreLeft, IsUniform, value_at};

/// The addresses from the first to the last, and their value.
#[derive(Clone, Copy, PartialEq, Eq, Debug)]
pub struct Span<V> {
    /// The first address.
    pub first: u128,
    /// The last address.
    pub last: u128,
    /// The value of each.
    pub value: V,
}

/// The greatest number of so many bits.
pub(crate) fn greatest_of(bits: u8) -> u128
    requires { bits ≤ 128 }
    ensures { result + 1 ≡ 2 ^ bits }
{
    match 1u128.checked_shl(bits as u32) {
        Some(size) => size - 1,
        None => u128::MAX,
    }
}

/// A block whose addresses are all alike.
#[derive(Clone, Copy)]
pub(crate) struct Alike<'a> {
    /// What each of them has.
    pub label: Option<u32>,
    /// The spans that end after the block.
    pub left: &'a [Span<u32>],
}

/// What all addresses of a block have, or `None` where they are not alike.
///
/// The spans are those that end in the block or after it.
pub(crate) fn uniform(
    left: &[Span<u32>],
    otherwise: Option<u32>,
    network: u128,
    free: u8,
) -> Option<Alike<'_>>
    requires left { (count : ℕ) × AreLeft count network left.now }
    requires small { free ≤ 128 }
    requires fits { network + 2 ^ free ≤ 2 ^ 128 }
    ensures alike { IfSome result (λ all. IsUniform otherwise left.now free network all.label) }
    ensures left { IfSome result (λ all. (count : ℕ) → AreLeft count network left.now
        → AreLeft count (network + 2 ^ free) all.left.now) }
    ensures same { IfSome result (λ all. (n : ℕ) → network + 2 ^ free ≤ n
        → value_at otherwise all.left.now n ≡ value_at otherwise left.now n) }
    ensures wide { IfNone result (0 < free) }
{
    let last = network + greatest_of(free);
    let [span, rest @ ..] = left else {
        return Some(Alike {
            label: otherwise,
            left,
        });
    };
    if last < span.first {
        return Some(Alike {
            label: otherwise,
            left,
        });
    }
    if network < span.first || span.last < last {
        return None;
    }
    Some(Alike {
        label: Some(span.value),
        left: if span.last == last { rest } else { left },
    })
}
