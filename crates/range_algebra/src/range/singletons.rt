//! Keys as the ranges that hold them alone.

ghost use Rattle.std.specs.declared.ops.Bound.TheVariants.{Included};

use crate::any::AnyRange;
use crate::range::{AsRange, IntoRange};
use std::ops::Bound;

impl AsRange for u8 {
    type Item = u8;

    ghost range = { λ key. record { start = Included key; end = Included key } };

    fn start(&self) -> Bound<&u8> {
        Bound::Included(self)
    }

    fn end(&self) -> Bound<&u8> {
        Bound::Included(self)
    }
}

impl IntoRange for u8 {
    fn into_range(self) -> AnyRange<u8> {
        AnyRange::new(Bound::Included(self), Bound::Included(self))
    }
}

impl AsRange for u16 {
    type Item = u16;

    ghost range = { λ key. record { start = Included key; end = Included key } };

    fn start(&self) -> Bound<&u16> {
        Bound::Included(self)
    }

    fn end(&self) -> Bound<&u16> {
        Bound::Included(self)
    }
}

impl IntoRange for u16 {
    fn into_range(self) -> AnyRange<u16> {
        AnyRange::new(Bound::Included(self), Bound::Included(self))
    }
}

impl AsRange for u32 {
    type Item = u32;

    ghost range = { λ key. record { start = Included key; end = Included key } };

    fn start(&self) -> Bound<&u32> {
        Bound::Included(self)
    }

    fn end(&self) -> Bound<&u32> {
        Bound::Included(self)
    }
}

impl IntoRange for u32 {
    fn into_range(self) -> AnyRange<u32> {
        AnyRange::new(Bound::Included(self), Bound::Included(self))
    }
}

impl AsRange for u64 {
    type Item = u64;

    ghost range = { λ key. record { start = Included key; end = Included key } };

    fn start(&self) -> Bound<&u64> {
        Bound::Included(self)
    }

    fn end(&self) -> Bound<&u64> {
        Bound::Included(self)
    }
}

impl IntoRange for u64 {
    fn into_range(self) -> AnyRange<u64> {
        AnyRange::new(Bound::Included(self), Bound::Included(self))
    }
}

impl AsRange for usize {
    type Item = usize;

    ghost range = { λ key. record { start = Included key; end = Included key } };

    fn start(&self) -> Bound<&usize> {
        Bound::Included(self)
    }

    fn end(&self) -> Bound<&usize> {
        Bound::Included(self)
    }
}

impl IntoRange for usize {
    fn into_range(self) -> AnyRange<usize> {
        AnyRange::new(Bound::Included(self), Bound::Included(self))
    }
}

impl AsRange for i8 {
    type Item = i8;

    ghost range = { λ key. record { start = Included key; end = Included key } };

    fn start(&self) -> Bound<&i8> {
        Bound::Included(self)
    }

    fn end(&self) -> Bound<&i8> {
        Bound::Included(self)
    }
}

impl IntoRange for i8 {
    fn into_range(self) -> AnyRange<i8> {
        AnyRange::new(Bound::Included(self), Bound::Included(self))
    }
}

impl AsRange for i16 {
    type Item = i16;

    ghost range = { λ key. record { start = Included key; end = Included key } };

    fn start(&self) -> Bound<&i16> {
        Bound::Included(self)
    }

    fn end(&self) -> Bound<&i16> {
        Bound::Included(self)
    }
}

impl IntoRange for i16 {
    fn into_range(self) -> AnyRange<i16> {
        AnyRange::new(Bound::Included(self), Bound::Included(self))
    }
}

impl AsRange for i32 {
    type Item = i32;

    ghost range = { λ key. record { start = Included key; end = Included key } };

    fn start(&self) -> Bound<&i32> {
        Bound::Included(self)
    }

    fn end(&self) -> Bound<&i32> {
        Bound::Included(self)
    }
}

impl IntoRange for i32 {
    fn into_range(self) -> AnyRange<i32> {
        AnyRange::new(Bound::Included(self), Bound::Included(self))
    }
}

impl AsRange for i64 {
    type Item = i64;

    ghost range = { λ key. record { start = Included key; end = Included key } };

    fn start(&self) -> Bound<&i64> {
        Bound::Included(self)
    }

    fn end(&self) -> Bound<&i64> {
        Bound::Included(self)
    }
}

impl IntoRange for i64 {
    fn into_range(self) -> AnyRange<i64> {
        AnyRange::new(Bound::Included(self), Bound::Included(self))
    }
}

impl AsRange for char {
    type Item = char;

    ghost range = { λ key. record { start = Included key; end = Included key } };

    fn start(&self) -> Bound<&char> {
        Bound::Included(self)
    }

    fn end(&self) -> Bound<&char> {
        Bound::Included(self)
    }
}

impl IntoRange for char {
    fn into_range(self) -> AnyRange<char> {
        AnyRange::new(Bound::Included(self), Bound::Included(self))
    }
}
