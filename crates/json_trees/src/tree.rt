//! What is looked up in a JSON value.
ghost use Rattle.std.specs.Prelude.{◌≡◌, Bool, List, Option, map, option_map, option_and_then, is_some};
ghost use Rattle.serde_json.specs.Data.{Data};
ghost use Rattle.serde_json.specs.Find.{as_array, as_bool, as_i64, as_number, as_object, as_str, as_u64, get};
ghost use Rattle.serde_json.specs.View.{view, items_of, members_view};
ghost use Rattle.json_trees.specs.LookUps.{are_named, only_member_of};

use serde_json::{Map, Value};

/// A JSON value that is looked into. Each look-up is a function of the data that the value stands
/// for, and allocates nothing.
pub trait JsonTree: Sized {
    // What the value stands for.
    ghost content: { Self → Data };

    /// The boolean, where this is one.
    fn as_bool(&self) -> Option<bool>
        ensures { result ≡ as_bool (content self.now) };

    /// The natural number, where this is one of 64 bits.
    fn as_u64(&self) -> Option<u64>
        ensures { result ≡ option_and_then as_u64 (as_number (content self.now)) };

    /// The integer, where this is one of 64 bits.
    fn as_i64(&self) -> Option<i64>
        ensures { result ≡ option_and_then as_i64 (as_number (content self.now)) };

    /// The text, where this is a string.
    fn as_str(&self) -> Option<&str>
        ensures { option_map (λ s. s.now) result ≡ as_str (content self.now) };

    /// The elements, where this is an array.
    fn as_array(&self) -> Option<&[Self]>
        ensures { option_map (λ vs. items_of (map content vs.now)) result
            ≡ as_array (content self.now) };

    /// The value of the member of that name, where this is an object that has it. Costs a search
    /// for the name.
    fn get(&self, name: &str) -> Option<&Self>
        ensures { option_map (λ v. content v.now) result ≡ get name.now (content self.now) };

    /// The one member, where this is an object that has no other.
    fn only_member(&self) -> Option<(&str, &Self)>
        ensures { option_map (λ m. (m.0.now, content m.1.now)) result
            ≡ only_member_of (content self.now) };

    /// Whether each member has one of the two names, where this is an object.
    fn has_members_among(&self, first: &str, second: &str) -> Option<bool>
        ensures { result
            ≡ option_map (are_named first.now second.now) (as_object (content self.now)) };
}

fn has_names_among(members: &Map<String, Value>, first: &str, second: &str) -> bool
    ensures { result ≡ are_named first.now second.now (members_view members.now.entries) }
{
    let mut entries = members.iter();
    while let Some((name, _member)) = entries.next() {
        if name.as_str() != first && name.as_str() != second {
            return false;
        }
    }
    true
}

impl JsonTree for Value {
    ghost content = { view };

    fn as_bool(&self) -> Option<bool> {
        Value::as_bool(self)
    }

    fn as_u64(&self) -> Option<u64> {
        Value::as_u64(self)
    }

    fn as_i64(&self) -> Option<i64> {
        Value::as_i64(self)
    }

    fn as_str(&self) -> Option<&str> {
        Value::as_str(self)
    }

    fn as_array(&self) -> Option<&[Value]> {
        match Value::as_array(self) {
            Some(elements) => Some(elements.as_slice()),
            None => None,
        }
    }

    fn get(&self, name: &str) -> Option<&Value> {
        Value::get(self, name)
    }

    fn only_member(&self) -> Option<(&str, &Value)> {
        let members = Value::as_object(self)?;
        let mut entries = members.iter();
        match (entries.next(), entries.next()) {
            (Some((name, member)), None) => Some((name.as_str(), member)),
            _ => None,
        }
    }

    fn has_members_among(&self, first: &str, second: &str) -> Option<bool> {
        match Value::as_object(self) {
            Some(members) => Some(has_names_among(members, first, second)),
            None => None,
        }
    }
}
