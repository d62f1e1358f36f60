//! The values of tables, by numbers.

ghost use Rattle.std.specs.Prelude.{◌≡◌, ◌<◌, ◌++◌, ℕ, List, [], IfOk, OnOk, get_or, length};
ghost use Rattle.address_rows.specs.Rows.{IsAt};
ghost use Rattle.address_rows.specs.Texts.{AreDifferent};

use indexmap::IndexSet;
use std::alloc::{AllocError, Global};
use std::marker::Model;

/// Different texts, numbered from 0 in the order in which they came. A contract sees their list.
#[derive(Drop)]
pub struct Texts {
    alloc: Global,
    set: IndexSet<String>,
}

impl Model for Texts {
    ghost use Rattle.std.specs.Prelude.{ℕ, List, map, string_bytes};

    ghost Value = { List (List ℕ) };

    ghost view = { λ t. map string_bytes t.set.keys };
}

impl Texts {
    /// No texts. Allocates nothing.
    pub fn new(alloc: Global) -> Texts
        ensures { result ≡ [] }
    {
        Texts {
            alloc,
            set: IndexSet::new(alloc),
        }
    }

    /// The number of a text, which is added where it is not there.
    ///
    /// Allocates a copy of it. After an error no text is added.
    pub fn number_of(&mut self, text: &str) -> Result<u32, AllocError>
        ensures found { IfOk result (λ number. IsAt self.new number text.now) }
        ensures kept { OnOk result
            ((more : List (List ℕ)) × (self.new ≡ self.old ++ more)) }
        ensures different { OnOk result (AreDifferent self.new) }
    {
        let text = String::from_str(self.alloc, text)?;
        let (number, _) = self.set.insert_full(text)?;
        if number > u32::MAX as usize {
            return Err(AllocError);
        }
        Ok(number as u32)
    }

    /// How many texts there are.
    pub fn count(&self) -> usize
        ensures { result ≡ length self.now }
    {
        self.set.len()
    }

    /// The text of a number; of one that none has, the empty text.
    pub fn text(&self, number: usize) -> &str
        ensures { result.now ≡ get_or self.now number [] }
    {
        match self.set.get_index(number) {
            Some(text) => text.as_str(),
            None => "",
        }
    }
}
