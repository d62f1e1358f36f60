//! Ranges whose length is known from outside, each proved and run.

ghost use Rattle.std.specs.Prelude.{◌≡◌, Some, None};

use super::page::Page;
use crate::expecting::expect_length;
use range_algebra::any::AnyRange;
use std::ops::Bound;

fn bytes_from_ten() -> u128
    ensures { result ≡ 246 }
{
    AnyRange::new(Bound::Included(10u8), Bound::Unbounded).len()
}

fn all_bytes() -> u128
    ensures { result ≡ 256 }
{
    AnyRange::<u8>::new(Bound::Unbounded, Bound::Unbounded).len()
}

fn last_byte() -> u128
    ensures { result ≡ 1 }
{
    AnyRange::new(Bound::Included(255u8), Bound::Unbounded).len()
}

fn numbers_above_zero() -> u128
    ensures { result ≡ 4294967295 }
{
    AnyRange::new(Bound::Excluded(0u32), Bound::Unbounded).len()
}

fn above_the_greatest() -> u128
    ensures { result ≡ 0 }
{
    AnyRange::new(Bound::Excluded(2147483647i32), Bound::Unbounded).len()
}

fn reversed() -> u128
    ensures { result ≡ 0 }
{
    AnyRange::new(Bound::Included(8i32), Bound::Excluded(3)).len()
}

fn between_itself() -> u128
    ensures { result ≡ 0 }
{
    AnyRange::new(Bound::Excluded(0i32), Bound::Excluded(0)).len()
}

fn all_characters() -> u128
    ensures { result ≡ 1112064 }
{
    AnyRange::<char>::new(Bound::Unbounded, Bound::Unbounded).len()
}

fn all_numbers() -> u128
    ensures { result ≡ 18446744073709551616 }
{
    AnyRange::<u64>::new(Bound::Unbounded, Bound::Unbounded).len()
}

fn pages_from_three() -> Option<u128>
    ensures { result ≡ None }
{
    AnyRange::new(Bound::Included(Page(3)), Bound::Unbounded).bounded_len()
}

fn pages_above_three_to_five() -> Option<u128>
    ensures { result ≡ Some 8192 }
{
    AnyRange::new(Bound::Excluded(Page(3)), Bound::Included(Page(5))).bounded_len()
}

fn pages_reversed() -> Option<u128>
    ensures { result ≡ Some 0 }
{
    AnyRange::new(Bound::Excluded(Page(3)), Bound::Excluded(Page(3))).bounded_len()
}

fn beside_surrogates() -> u128
    ensures { result ≡ 2 }
{
    AnyRange::new(Bound::Included('\u{D7FF}'), Bound::Included('\u{E000}')).len()
}

#[test]
fn lengths_are_known(rt: HostRuntime) {
    expect_length(&rt, "bytes from ten", bytes_from_ten(), 246);
    expect_length(&rt, "all bytes", all_bytes(), 256);
    expect_length(&rt, "last byte", last_byte(), 1);
    expect_length(&rt, "above zero", numbers_above_zero(), 4_294_967_295);
    expect_length(&rt, "above the greatest", above_the_greatest(), 0);
    expect_length(&rt, "reversed", reversed(), 0);
    expect_length(&rt, "between itself", between_itself(), 0);
    expect_length(&rt, "all characters", all_characters(), 1_112_064);
    expect_length(&rt, "beside surrogates", beside_surrogates(), 2);
    expect_length(
        &rt,
        "all numbers",
        all_numbers(),
        18_446_744_073_709_551_616,
    );
    assert!(rt; pages_from_three() == None);
    assert!(rt; pages_above_three_to_five() == Some(8192));
    assert!(rt; pages_reversed() == Some(0));
}
