//! The states of a machine.
ghost use Rattle.std.specs.Prelude.{◌≡◌, [], ◌∷◌, ◌++◌, IfSome, OnOk};
ghost use Rattle.lexing.specs.Building.{AddsSteps};
ghost use Rattle.lexing.specs.Machines.{IsStepOf};

use crate::step::{STEPS, Step};
use btree_range_map::RangeMap;
use std::alloc::{AllocError, Global};

/// Where each state leads, and the first rule of which a token may end in it.
pub(crate) struct States {
    pub(crate) rows: Vec<RangeMap<char, u32>>,
    // Where the rows lead by each byte: 256 steps for each, none by a byte beyond ASCII.
    pub(crate) steps: Vec<Step>,
    pub(crate) first_rules: Vec<Option<u32>>,
}

// Written out: the borrow checker makes no proof for the drop of a map inside a `Vec`.
impl Drop for States {
    fn drop(self) {
        let States {
            mut rows,
            steps: _steps,
            first_rules: _first_rules,
        } = self;
        while let Some(_row) = rows.pop() {}
        rows.destroy_empty();
    }
}

impl States {
    /// No state. Allocates nothing.
    pub(crate) fn new(alloc: Global) -> States
        ensures rows { result.rows.items ≡ [] }
        ensures steps { result.steps.items ≡ [] }
        ensures rules { result.first_rules.items ≡ [] }
    {
        States {
            rows: Vec::new(alloc),
            steps: Vec::new(alloc),
            first_rules: Vec::new(alloc),
        }
    }

    /// Adds a state.
    pub(crate) fn add(
        &mut self,
        row: RangeMap<char, u32>,
        first_rule: Option<u32>,
    ) -> Result<(), AllocError>
        ensures rows { OnOk result (self.new.rows.items ≡ self.old.rows.items ++ row ∷ []) }
        ensures steps { OnOk result
            (AddsSteps row 256 self.old.steps.items self.new.steps.items) }
        ensures rules { OnOk result
            (self.new.first_rules.items ≡ self.old.first_rules.items ++ first_rule ∷ []) }
    {
        add_steps(&mut self.steps, &row)?;
        self.first_rules.push(first_rule)?;
        self.rows.push(row)?;
        Ok(())
    }
}

/// Adds where the row leads by each byte. Fails too where a state's number is too large.
fn add_steps(steps: &mut Vec<Step>, row: &RangeMap<char, u32>) -> Result<(), AllocError>
    ensures { OnOk result (AddsSteps row.now 256 steps.old.items steps.new.items) }
{
    for byte in 0..STEPS {
        let Some(step) = step_by(row, byte as u8) else {
            return Err(AllocError);
        };
        steps.push(step)?;
    }
    Ok(())
}

/// Where the row leads by the byte, unless the state's number is too large for a step.
fn step_by(row: &RangeMap<char, u32>, byte: u8) -> Option<Step>
    ensures { IfSome result (λ step. IsStepOf row.now byte step) }
{
    if byte >= 128 {
        return Some(Step::nowhere());
    }
    match row.get(char::from(byte)).copied() {
        Some(next) => Step::to(next),
        None => Some(Step::nowhere()),
    }
}
