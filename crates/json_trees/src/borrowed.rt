//! What is looked up in a value whose texts are borrowed.
ghost use Rattle.std.specs.Prelude.{◌≡◌, map, option_map, Some, None, MatchOption};
ghost use Rattle.json.specs.Value.{members_view, value_view};
ghost use Rattle.json_trees.specs.Borrowed.{borrowed_data, members_data};
ghost use Rattle.json_trees.specs.LookUps.{alone, are_named};
ghost use Rattle.serde_json.specs.Data.{Data, no_members};

use crate::number;
use crate::tree::JsonTree;
use json::Value;

type Member<'a> = (&'a str, Value<'a>);

/// The name of the members, where all have one.
fn only_name<'v>(members: &'v [Member<'_>]) -> Option<&'v str>
    ensures { MatchOption result
        (alone (members_data (members_view members.now) no_members) ≡ None)
        (λ name. (d : Data)
        × (alone (members_data (members_view members.now) no_members) ≡ Some (name.now, d))) }
{
    let first = members.first()?;
    for member in members {
        if member.0 != first.0 {
            return None;
        }
    }
    Some(first.0)
}

fn has_names_among(members: &[Member<'_>], first: &str, second: &str) -> bool
    ensures { result ≡ are_named first.now second.now
        (members_data (members_view members.now) no_members) }
{
    for member in members {
        if member.0 != first && member.0 != second {
            return false;
        }
    }
    true
}

impl<'a> JsonTree for Value<'a> {
    ghost content = { borrowed_data };

    fn as_bool(&self) -> Option<bool> {
        Value::as_bool(self)
    }

    fn as_u64(&self) -> Option<u64> {
        number::to_u64(self.as_number()?)
    }

    fn as_i64(&self) -> Option<i64> {
        number::to_i64(self.as_number()?)
    }

    fn as_str(&self) -> Option<&str> {
        Value::as_str(self)
    }

    fn as_array(&self) -> Option<&[Value<'a>]> {
        match self {
            Value::Array(elements) => Some(elements.as_slice()),
            _ => None,
        }
    }

    fn get(&self, name: &str) -> Option<&Value<'a>> {
        Value::get(self, name)
    }

    fn only_member(&self) -> Option<(&str, &Value<'a>)> {
        match self {
            Value::Object(members) => {
                let name = only_name(members.as_slice())?;
                Some((name, Value::get(self, name)?))
            }
            _ => None,
        }
    }

    fn has_members_among(&self, first: &str, second: &str) -> Option<bool> {
        match self {
            Value::Object(members) => Some(has_names_among(members.as_slice(), first, second)),
            _ => None,
        }
    }
}
