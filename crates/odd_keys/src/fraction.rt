//! Fractions of which several are equal.

ghost use Rattle.std.specs.Prelude.{◌≡◌, ◌<◌};

mod keys;

/// A fraction of two numbers.
#[derive(Clone, Copy, Debug)]
pub struct Fraction {
    numerator: u32,
    denominator: u32,
    ghost positive: { 0 < denominator },
}

impl Fraction {
    pub fn new(numerator: u32, denominator: u32) -> Fraction
        requires { 0 < denominator }
        ensures numerator { result.numerator ≡ numerator }
        ensures denominator { result.denominator ≡ denominator }
    {
        Fraction {
            numerator,
            denominator,
        }
    }
}
