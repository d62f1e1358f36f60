//! The calls for C. Each takes a handle that may be closed, and says so.

mod any;
mod lexer;
mod map_algebra;
mod set_algebra;
mod signed_map;
mod signed_set;
mod unsigned_map;
mod unsigned_set;
mod wide_map;
mod wide_set;
