//! Where directed bounds lie, and which of them have nothing between.

ghost use Rattle.std.specs.Prelude.{◌≡◌};
ghost use Rattle.range_keys.specs.Position.{position_map, key_value};
ghost use Rattle.range_keys.specs.Directed.{directed_map, directed_position, are_adjacent};
ghost use Rattle.range_keys.specs.Touching.{FlagsTellGaps};

use crate::bound::{AsBound, Directed};
use crate::inner::position::{
    KeyRef, Position, Side, compare_keys, position_of_end, position_of_start,
};
use crate::traits::PartialEnum;
use std::cmp::Ordering;

/// The position of a directed bound.
pub(crate) fn position_of<B: AsBound>(directed: &Directed<B>) -> Position<KeyRef<'_, B::Item>>
where
    B::Item: PartialEnum,
    ensures { position_map key_value result
        ≡ directed_position B.Item.order (directed_map B.bound directed.now) }
{
    match directed {
        Directed::Start(start) => position_of_start(start.bound()),
        Directed::End(end) => position_of_end(end.bound()),
    }
}

/// Whether no bound of the type can lie between the first position and the second, which is
/// greater.
pub(crate) fn touches<T: PartialEnum>(
    low: &Position<KeyRef<'_, T>>,
    high: &Position<KeyRef<'_, T>>,
) -> bool
    ensures { result
        ≡ are_adjacent T.order (position_map key_value low.now) (position_map key_value high.now) }
{
    match (low, high) {
        (Position::Beside(a, Side::Before), Position::Beside(b, Side::At)) => {
            compare_keys(a.get(), b.get()) == Ordering::Equal
        }
        (Position::Beside(a, Side::At), Position::Beside(b, Side::After)) => {
            compare_keys(a.get(), b.get()) == Ordering::Equal
        }
        (Position::Beside(a, Side::At), Position::Beside(b, Side::At)) => match a.get().succ() {
            Some(next) => compare_keys(&next, b.get()) == Ordering::Equal,
            None => false,
        },
        _ => false,
    }
}

/// Does nothing, and promises what the flag of a comparison means: it is true exactly where no
/// bound over keys has its position between the two.
pub fn flags_tell_gaps<K: PartialEnum>()
    ensures { FlagsTellGaps K.order }
{}
