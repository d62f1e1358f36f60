//! Machines as tables, for programs that write them down.
ghost use Rattle.std.specs.Prelude.{◌≡◌, false, IfOk, IsTrue, ◌↔◌};
ghost use Rattle.lexing.specs.declared.lexer.Lexer.{Lexer};
ghost use Rattle.lexing.specs.MachineSteps.{lexer_of};
ghost use Rattle.lexing.specs.Tables.{AreLeadsOf, HasNoToken, IsTableOf, LeadsToRule, LeadsToRuleFrom, rule_at};

use crate::machine::Machine;
use btree_range_map::RangeMap;
use btree_range_map::range::traits::MaybeBounded;
use std::alloc::{AllocError, Global};

/// Characters that lead to a state: from the first up to and with the last.
#[derive(Clone, Copy, Debug, PartialEq, Eq, Drop)]
pub struct Lead {
    pub first: char,
    pub last: char,
    pub next: u32,
}

/// A state of a table.
#[derive(Debug, Drop)]
pub struct TableState {
    /// Where characters lead from here, in ascending order. Others lead nowhere.
    pub leads: Vec<Lead>,
    /// The first rule of which a token may end here.
    pub rule: Option<u32>,
}

/// The states of a machine, in the first of which each text starts.
#[derive(Debug, Drop)]
pub struct Table {
    pub states: Vec<TableState>,
}

impl Table {
    /// Whether characters lead to a state of the rule. If not, no token is of the rule: earlier
    /// rules accept all that it does, but for the empty text. Looks at each range of characters
    /// once. Allocates nothing.
    pub fn has_token_of(&self, rule: u32) -> bool
        ensures exact { IsTrue result ↔ LeadsToRule self.now.states.items rule }
        ensures none { (lexer : Lexer) → IsTableOf lexer self.now.states.items → result ≡ false
            → HasNoToken lexer rule }
    {
        for at in 0..self.states.len() {
            if self.leads_to_rule(&self.states[at], rule) {
                return true;
            }
        }
        false
    }

    /// Whether some characters lead from the state to one of the rule.
    fn leads_to_rule(&self, from: &TableState, rule: u32) -> bool
        ensures { IsTrue result
            ↔ LeadsToRuleFrom self.now.states.items rule from.now.leads.items }
    {
        for at in 0..from.leads.len() {
            if self.is_of_rule(from.leads[at].next, rule) {
                return true;
            }
        }
        false
    }

    /// Whether the state of this number is one of the rule.
    fn is_of_rule(&self, state: u32, rule: u32) -> bool
        ensures { IsTrue result ↔ (rule_at self.now.states.items (Some state) ≡ Some rule) }
    {
        match self.states.get(state as usize) {
            Some(state) => state.rule == Some(rule),
            None => false,
        }
    }
}

impl Machine {
    /// The machine as a table. Allocates.
    ///
    /// ```
    /// // of a lexer of words and numbers
    /// let table = machine.table(alloc)?;
    /// assert!(rt; table.states[0].rule == None); // no token is empty
    /// ```
    pub fn table(&self, alloc: Global) -> Result<Table, AllocError>
        ensures { IfOk result (λ table. IsTableOf (lexer_of self.now) table.states.items) }
    {
        let mut states = Vec::new(alloc);
        for at in 0..self.states.rows.len() {
            let leads = leads_of(alloc, &self.states.rows[at])?;
            let rule = self.states.first_rules[at];
            states.push(TableState { leads, rule })?;
        }
        Ok(Table { states })
    }
}

/// Where the characters of the row lead.
fn leads_of(alloc: Global, row: &RangeMap<char, u32>) -> Result<Vec<Lead>, AllocError>
    ensures { IfOk result (λ leads. AreLeadsOf row.now leads.items) }
{
    let mut leads = Vec::new(alloc);
    let mut entries = row.iter();
    while let Some((range, next)) = entries.next() {
        // A stored range holds characters, so that it has both ends.
        let Some((first, last)) = range.first_and_last()? else {
            return Err(AllocError);
        };
        first.known();
        last.known();
        let next = *next;
        leads.push(Lead { first, last, next })?;
    }
    Ok(leads)
}
