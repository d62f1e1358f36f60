//! Blocks of numbers.

/// The numbers that begin with the first `length` bits of `network`.
#[derive(Clone, Copy, PartialEq, Eq, Debug)]
pub struct Block {
    /// The first number of the block.
    pub network: u128,
    /// How many bits are the same in all its numbers.
    pub length: u8,
}
