//! What a call on a lexer answers, beside the statuses of `range_ffi`.

/// A rule is not taken, and nothing was made. A fault tells which, and why.
pub const BAD_RULE: u32 = 12;

/// The lexer would have more states than its budget, and nothing was made.
pub const TOO_LARGE: u32 = 13;

/// The bytes are no UTF-8, and nothing was written.
pub const NOT_TEXT: u32 = 14;
