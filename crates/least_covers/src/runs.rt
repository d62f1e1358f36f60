//! Runs of numbers, and the blocks of which they have all or none.

ghost use Rattle.std.specs.Prelude.{◌≡◌, ◌+◌, ◌≤◌, ◌<◌, ◌^◌, ℕ, IfSome, IfNone};
ghost use Rattle.least_covers.specs.Runs.{AreLeft, IsUniform, has};

/// The greatest number of so many bits.
pub(crate) fn greatest_of(bits: u8) -> u128
    requires { bits ≤ 128 }
    ensures { result + 1 ≡ 2 ^ bits }
{
    match 1u128.checked_shl(bits as u32) {
        Some(size) => size - 1,
        None => u128::MAX,
    }
}

/// A block of which the runs have all numbers, or none.
#[derive(Clone, Copy)]
pub(crate) struct Alike<'a> {
    /// Whether they have all.
    pub is_held: bool,
    /// The runs that end after the block.
    pub left: &'a [(u128, u128)],
}

/// Whether all numbers of a block are in the runs, or `None` where some are and some are not.
///
/// The runs are those that end in the block or after it.
pub(crate) fn uniform(left: &[(u128, u128)], network: u128, free: u8) -> Option<Alike<'_>>
    requires left { AreLeft network left.now }
    requires small { free ≤ 128 }
    requires fits { network + 2 ^ free ≤ 2 ^ 128 }
    ensures alike { IfSome result (λ all. IsUniform left.now free network all.is_held) }
    ensures left { IfSome result (λ all. AreLeft (network + 2 ^ free) all.left.now) }
    ensures same { IfSome result (λ all. (n : ℕ) → network + 2 ^ free ≤ n
        → has all.left.now n ≡ has left.now n) }
    ensures wide { IfNone result (0 < free) }
{
    let last = network + greatest_of(free);
    let [run, rest @ ..] = left else {
        return Some(Alike {
            is_held: false,
            left,
        });
    };
    if last < run.0 {
        return Some(Alike {
            is_held: false,
            left,
        });
    }
    if network < run.0 || run.1 < last {
        return None;
    }
    Some(Alike {
        is_held: true,
        left: if run.1 == last { rest } else { left },
    })
}
