//! A map from ranges of keys to values, with the lists of commands that can be given to it.

pub use range_commands::command::{Command, Reply, answer, run, run_counted};
pub use range_map::map::{
    Gaps, GapsWithin, IntoIter, Iter, MapError, NotAppended, NotFree, NotInserted, NotSorted,
    Overlapping, Pieces, RangeMap, UpdateError, binary_search, coarse_lists_are_shortest,
    coarse_lists_are_unique, one_level_is_greatest, stored_lists_are_coarse,
    stored_lists_bind_once,
};
