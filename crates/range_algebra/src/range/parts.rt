//! The parts of ranges that are cut by one another.

ghost use Rattle.std.specs.Prelude.{MatchResult};
ghost use Rattle.range_algebra.specs.PartClones.{IsPartClone, IsPartInfallible, IsOptionClone, IsOptionInfallible, IsProductClone, IsProductInfallible};
ghost use Rattle.std.specs.Option.{option_map};
ghost use Rattle.range_algebra.specs.References.{part_of, product_of};

use crate::any::AnyRange;
use std::alloc::AllocError;

/// Where something lies to a range.
#[derive(Clone, Copy, PartialEq, Eq, Debug)]
pub enum RelativePosition {
    Before,
    After,
}

/// What is left of a range without another.
#[derive(Drop, Debug)]
pub enum Difference<T> {
    /// The part before the other range. The flag says whether the two ranges intersect.
    Before(AnyRange<T>, bool),
    /// The part after the other range. The flag says whether the two ranges intersect.
    After(AnyRange<T>, bool),
    /// The parts on both sides of the other range.
    Split(AnyRange<T>, AnyRange<T>),
    /// Nothing.
    Empty,
}

/// A part of one of two ranges.
#[derive(Drop, Debug)]
pub enum ProductArg<T> {
    /// A part of the first range.
    Subject(AnyRange<T>),
    /// A part of the second range.
    Object(AnyRange<T>),
}

/// The parts of two ranges, in order.
#[derive(Drop, Debug)]
pub struct Product<T> {
    /// What one of the ranges holds before the other.
    pub before: Option<ProductArg<T>>,
    /// What both ranges hold.
    pub intersection: Option<AnyRange<T>>,
    /// What one of the ranges holds after the other.
    pub after: Option<ProductArg<T>>,
}

impl<'a, T: Clone> ProductArg<&'a T> {
    /// The same part over clones of the keys.
    ///
    /// Allocates what clones of the keys do, and fails only where one of them fails.
    pub fn cloned(&self) -> Result<ProductArg<T>, AllocError>
        ensures { MatchResult result (IsPartClone T.is_clone (part_of self.now))
            (λ _. ¬ IsPartInfallible T.is_infallible (part_of self.now)) }
    {
        match self {
            ProductArg::Subject(range) => Ok(ProductArg::Subject((*range).cloned()?)),
            ProductArg::Object(range) => Ok(ProductArg::Object((*range).cloned()?)),
        }
    }
}

impl<'a, T: Clone> Product<&'a T> {
    /// The same parts over clones of the keys.
    ///
    /// Allocates what clones of the keys do, and fails only where one of them fails.
    pub fn cloned(&self) -> Result<Product<T>, AllocError>
        ensures { MatchResult result (IsProductClone T.is_clone (product_of self.now))
            (λ _. ¬ IsProductInfallible T.is_infallible (product_of self.now)) }
    {
        let before = part_cloned(&self.before)?;
        let intersection = match &self.intersection {
            Some(range) => Some((*range).cloned()?),
            None => None,
        };
        let after = part_cloned(&self.after)?;
        Ok(Product {
            before,
            intersection,
            after,
        })
    }
}

/// The same part, if there is one, over clones of the keys.
fn part_cloned<'a, T: Clone>(
    part: &Option<ProductArg<&'a T>>,
) -> Result<Option<ProductArg<T>>, AllocError>
    ensures { MatchResult result
        (IsOptionClone (IsPartClone T.is_clone) (option_map part_of part.now))
        (λ _. ¬ IsOptionInfallible (IsPartInfallible T.is_infallible)
        (option_map part_of part.now)) }
{
    match part {
        Some(part) => Ok(Some(part.cloned()?)),
        None => Ok(None),
    }
}
