//! Keys that are counted by their measure.

ghost use Rattle.range_keys.specs.Counted.{IsCountedMeasure};

use crate::traits::{Complete, Measure};

/// A complete key type of which each key has length 1, and whose distances count keys.
///
/// All shipped keys are such. It has laws alone, so that a generic caller can cite them.
pub trait Counted: Measure + Complete {
    ghost counts_keys: { IsCountedMeasure Self.order Self.len Self.distance };
}

/// Does nothing, and promises that the measure of these keys counts them.
pub fn measure_counts_keys<K: Counted>()
    ensures { IsCountedMeasure K.order K.len K.distance }
{}
