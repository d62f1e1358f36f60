//! What an update does to each piece of its range.

ghost use Rattle.std.specs.Prelude.{◌≡◌};
ghost use Rattle.std.specs.Option.{option_copied};
ghost use Rattle.rangerun.specs.Tags.{answer_of};

/// What an update is to do.
#[derive(Clone, Copy)]
pub enum Tag {
    /// Binds every piece to the value.
    Set(i64),
    /// Binds the pieces that are free to the value.
    Fill(i64),
    /// Unbinds every piece.
    Clear,
    /// Fails at a piece that is bound to the first value, with the second.
    Fail(i64, i64),
}

/// What a piece comes to be bound to, or how the update fails at it: the closure of all updates.
pub fn tag_answer(tag: &Tag, old: Option<&i64>) -> Result<Option<i64>, i64>
    ensures { result ≡ answer_of tag.now (option_copied old.entry) }
{
    match tag {
        Tag::Set(value) => Ok(Some(*value)),
        Tag::Fill(value) => match old {
            Some(old) => Ok(Some(*old)),
            None => Ok(Some(*value)),
        },
        Tag::Clear => Ok(None),
        Tag::Fail(value, error) => match old {
            Some(old) if *old == *value => Err(*error),
            Some(old) => Ok(Some(*old)),
            None => Ok(None),
        },
    }
}
