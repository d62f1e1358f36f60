//! The longest beginning of a text that is accepted.
ghost use Rattle.std.specs.Prelude.{IfOk};
ghost use Rattle.charmoves.specs.Automata.{rules_of, Accepts};
ghost use Rattle.state_sets.specs.Beginnings.{IsLongest};

use crate::moves::Moves;
use btree_range_map::generic::map::MapError;

impl Moves {
    /// The length in bytes of the longest beginning of the text that is accepted, or none where no
    /// beginning is accepted, not even the empty one.
    ///
    /// Makes one step a character, up to the first at which no state is reached. Allocates.
    ///
    /// ```
    /// // of the automaton of a sign and digits
    /// assert!(rt; moves.longest("-12+7")? == Some(3));
    /// assert!(rt; moves.longest("-")? == None);
    /// ```
    pub fn longest(&self, text: &str) -> Result<Option<usize>, MapError>
        ensures longest { IfOk result (IsLongest (Accepts (rules_of self.now)) text.now) }
    {
        let mut states = self.starts()?;
        let mut len = 0;
        let mut longest = if self.is_accepting(&states) {
            Some(0)
        } else {
            None
        };
        for c in text.chars() {
            states = self.step(&states, c)?;
            if states.is_empty() {
                return Ok(longest);
            }
            len += c.len_utf8();
            if self.is_accepting(&states) {
                longest = Some(len);
            }
        }
        Ok(longest)
    }
}
