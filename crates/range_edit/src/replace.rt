//! Letting a list of items stand for all that a range held.
ghost use Rattle.std.specs.Prelude.{◌≡◌, length, option_copied, IfSome, IsOk, OnOk, OnErr};
ghost use Rattle.range_runs.specs.Pieces.{LiesIn};
ghost use Rattle.range_edit.specs.Reach.{AreEndsOf};
ghost use Rattle.range_edit.specs.Replaced.{AreWithin, IsReplaced};
ghost use Rattle.range_edit.specs.Seams.{IsJoiningFirst, IsJoiningLast};
ghost use Rattle.range_runs.specs.Spelling.{KeepsSpelling};
ghost use Rattle.range_runs.specs.Stored.{IsStored};

use crate::borders::{Joins, Sides, joins_after, joins_before, run_length, seam};
use crate::cut::{ends_after, starts_before};
use crate::reach::{Ends, run_start};
use crate::splice::change_to;
use range_algebra::any::AnyRange;
use range_algebra::inner;
use range_keys::traits::Measure;
use range_runs::bounds::flip_bound;
use range_store::inner::cursor::Cursor;
use range_store::storage::{Item, Steps, Storage};
use std::alloc::AllocError;

/// The stored item that becomes one with the first item to stand in a range, where there is one.
fn joined_left<K: Measure, V: Eq + Drop, C: Storage<Item<AnyRange<K>, V>>>(
    stored: &C,
    ends: &Ends<C::Position>,
    range: &AnyRange<K>,
    next: Option<&Item<AnyRange<K>, V>>,
) -> Option<C::Position>
    requires ends { AreEndsOf K.order V.eq C.is_good C.rank C.items stored.now range.now
        ends.now }
    requires within { IfSome next (λ i. LiesIn K.order i.now.key range.now) }
    ensures { IsJoiningFirst K.order V.eq C.is_good C.rank C.items stored.now range.now ends.now
        (option_copied next.entry) result }
{
    let Some(item) = next else {
        return None;
    };
    if starts_before(range, &item.key) {
        return None;
    }
    let mut steps = Steps::new();
    joins_before::<K, V, C>(stored, ends, range, &item.value, &mut steps)
}

/// The stored item that becomes one with the last item to stand in a range, where there is one.
fn joined_right<K: Measure, V: Eq + Drop, C: Storage<Item<AnyRange<K>, V>>>(
    stored: &C,
    ends: &Ends<C::Position>,
    range: &AnyRange<K>,
    previous: Option<&Item<AnyRange<K>, V>>,
) -> Option<C::Position>
    requires ends { AreEndsOf K.order V.eq C.is_good C.rank C.items stored.now range.now
        ends.now }
    requires within { IfSome previous (λ i. LiesIn K.order i.now.key range.now) }
    ensures { IsJoiningLast K.order V.eq C.is_good C.rank C.items stored.now range.now ends.now
        (option_copied previous.entry) result }
{
    let Some(item) = previous else {
        return None;
    };
    inner::known(&item.key);
    if ends_after(range, &item.key) {
        return None;
    }
    let mut steps = Steps::new();
    joins_after::<K, V, C>(stored, ends, range, &item.value, &mut steps)
}

/// Lets the items of a list stand for all that a nonempty range held, where no stored range
/// surrounds it.
///
/// Clones nothing, and allocates only where more items come than are replaced.
pub fn replace<K: Measure, V: Eq + Drop, C: Storage<Item<AnyRange<K>, V>>>(
    stored: &mut C,
    ends: &Ends<C::Position>,
    range: AnyRange<K>,
    middle: Vec<Item<AnyRange<K>, V>>,
) -> Result<(), AllocError>
    requires ends { AreEndsOf K.order V.eq C.is_good C.rank C.items stored.old range ends.now }
    requires middle { IsStored K.order V.eq middle.items }
    requires within { AreWithin K.order middle.items range }
    ensures ok { OnOk result
        (IsReplaced K.order V.eq (C.items stored.old) (C.items stored.new) middle.items range) }
    ensures spelled { KeepsSpelling K.order (C.items stored.old) middle.items
        → OnOk result (KeepsSpelling K.order (C.items stored.old) (C.items stored.new)) }
    ensures refused { OnErr result (C.items stored.new ≡ C.items stored.old) }
    ensures none_put { length middle.items ≡ 0 → IsOk result }
{
    let before = joined_left::<K, V, C>(stored, ends, &range, middle.first());
    let after = joined_right::<K, V, C>(stored, ends, &range, middle.last());
    let run = Cursor {
        at: run_start::<K, V, C>(stored, ends, before),
        left: run_length(ends, &Joins { before, after }),
    };
    stored.reserve(middle.len().saturating_sub(run.left))?;
    let (start, end) = range.into_bounds();
    let left = seam(before, ends.first, flip_bound(start));
    let right = seam(after, ends.last, flip_bound(end));
    change_to::<K, V, C>(stored, Sides { left, right, run }, middle);
    Ok(())
}
