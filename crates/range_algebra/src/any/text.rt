//! How a range is shown.
ghost use Rattle.std.specs.Fmt.{DisplaysOnOk};
ghost use Rattle.range_algebra.specs.Texts.{start_text, end_text, range_text};

use crate::any::AnyRange;
use std::fmt::{self, Debug, Formatter, Write};
use std::ops::Bound;

/// Writes a start, with a dot if it is excluded. An unbounded start is a dot.
fn write_start<T: Debug, W: Write>(start: &Bound<T>, f: &mut Formatter<W>) -> fmt::Result
    ensures { DisplaysOnOk W.write_str_gives f.old result (start_text T.debug_output start.now)
        f.new }
{
    match start {
        Bound::Included(key) => write!(f, "{key:?}"),
        Bound::Excluded(key) => write!(f, "{key:?}."),
        Bound::Unbounded => write!(f, "."),
    }
}

/// Writes an end as Rust would.
fn write_end<T: Debug, W: Write>(end: &Bound<T>, f: &mut Formatter<W>) -> fmt::Result
    ensures { DisplaysOnOk W.write_str_gives f.old result (end_text T.debug_output end.now) f.new }
{
    match end {
        Bound::Included(key) => write!(f, "..={key:?}"),
        Bound::Excluded(key) => write!(f, "..{key:?}"),
        Bound::Unbounded => write!(f, ".."),
    }
}

/// Shows the start, with a dot if it is excluded, and then the end as Rust would: `0..5`, and
/// `0...5` for an excluded start. An unbounded start is a dot, so that the full range is `...`.
impl<T: Debug> Debug for AnyRange<T> {
    ghost debug_output = { range_text T.debug_output };

    fn fmt<W: Write>(&self, f: &mut Formatter<W>) -> fmt::Result {
        write_start(&self.start, f)?;
        write_end(&self.end, f)
    }
}
