//! States, and parts put together within a budget.
ghost use Rattle.std.specs.Prelude.{ℕ, ◌≤◌, ◌+◌, ◌*◌, ◌≡◌, [], Bool, length, IfOk, IfErr, OnOk, vec_len};
ghost use Rattle.regex_hir.specs.Re.{Re, cat, alt, plus, empty, byte_in, char_in};
ghost use Rattle.regex_hir.specs.Meaning.{optional};
ghost use Rattle.lexing_patterns.specs.Built.{IsBuilt};
ghost use Rattle.lexing_patterns.specs.Faults.{IsFaultIn, IsTooMuch};
ghost use Rattle.lexing_patterns.specs.Sizes.{step_count};
ghost use Rattle.lexing_patterns.specs.declared.error.PatternError.TheVariants.{Memory};

use crate::error::PatternError;
use crate::part::{self, Part};
use regex_class::{Class, ClassRange};
use std::alloc::Global;

const LAST_ASCII: u32 = 0x7F;

/// Makes the states of parts, and puts parts together.
#[derive(Drop)]
pub(crate) struct Builder {
    pub(crate) alloc: Global,
    /// The number of the next state.
    pub(crate) next: u32,
    /// How many steps may still be made: a state, a range and an edge are one each.
    pub(crate) budget: usize,
}

impl Builder {
    pub(crate) fn spend(&mut self, steps: usize) -> Result<(), PatternError>
        ensures kept { self.new.next ≡ self.old.next }
        ensures spent { OnOk result (self.old.budget ≡ self.new.budget + steps) }
        ensures refused { IfErr result (IsTooMuch self.old.budget steps) }
    {
        if self.budget < steps {
            return Err(PatternError::TooLarge);
        }
        self.budget -= steps;
        Ok(())
    }

    /// Spends a step for each edge from the ends to the leads.
    fn spend_edges(&mut self, ends: usize, leads: usize) -> Result<(), PatternError>
        ensures kept { self.new.next ≡ self.old.next }
        ensures spent { OnOk result (self.old.budget ≡ self.new.budget + ends * leads) }
        ensures refused { IfErr result (IsTooMuch self.old.budget (ends * leads)) }
    {
        let _left = self.budget;
        match ends.checked_mul(leads) {
            Some(edges) => self.spend(edges),
            None => Err(PatternError::TooLarge),
        }
    }

    /// A new state, for one step. Where there are no more numbers, memory would have run out before.
    pub(crate) fn state(&mut self) -> Result<u32, PatternError>
        ensures new { IfOk result (λ q. (q ≡ self.old.next) × (self.new.next ≡ self.old.next + 1)) }
        ensures grows { self.old.next ≤ self.new.next }
        ensures spent { OnOk result (self.old.budget ≡ self.new.budget + 1) }
        ensures refused { IfErr result (IsTooMuch self.old.budget 1) }
    {
        self.spend(1)?;
        let state = self.next;
        let Some(next) = state.checked_add(1) else {
            return Err(PatternError::Memory);
        };
        self.next = next;
        Ok(state)
    }

    /// Matches the empty text.
    pub(crate) fn empty(&mut self) -> Result<Part, PatternError>
        ensures built { IfOk result (λ r. (at : ℕ) → IsBuilt empty r at at) }
        ensures kept { self.new.next ≡ self.old.next }
        ensures spent { OnOk result (self.old.budget ≡ self.new.budget + step_count empty) }
        ensures refused { IfErr result (IsTooMuch self.old.budget (step_count empty)) }
    {
        self.spend(1)?;
        Ok(part::or_empty(part::nothing(self.alloc)))
    }

    /// Matches nothing.
    pub(crate) fn nothing(&mut self) -> Result<Part, PatternError>
        ensures built { IfOk result (λ r. (at : ℕ) → IsBuilt (byte_in []) r at at) }
        ensures kept { self.new.next ≡ self.old.next }
        ensures spent { OnOk result (self.old.budget ≡ self.new.budget + step_count (byte_in [])) }
        ensures refused { IfErr result (IsTooMuch self.old.budget (step_count (byte_in []))) }
    {
        self.spend(1)?;
        Ok(part::nothing(self.alloc))
    }

    /// Matches one character of the ranges.
    pub(crate) fn character(&mut self, ranges: &[ClassRange]) -> Result<Part, PatternError>
        ensures built { IfOk result (λ r. IsBuilt (char_in ranges.now) r self.old.next self.new.next) }
        ensures grows { self.old.next ≤ self.new.next }
        ensures spent { OnOk result
            (self.old.budget ≡ self.new.budget + step_count (char_in ranges.now)) }
        ensures refused { IfErr result (IsTooMuch self.old.budget (step_count (char_in ranges.now))) }
    {
        if ranges.is_empty() {
            return self.nothing();
        }
        self.spend(ranges.len())?;
        let state = self.state()?;
        Ok(part::one_of(self.alloc, ranges, state)?)
    }

    /// Matches one byte of the class, if all its bytes are ASCII.
    pub(crate) fn byte(&mut self, class: &Class) -> Result<Part, PatternError>
        ensures built { IfOk result
            (λ r. IsBuilt (byte_in class.now.ranges.items) r self.old.next self.new.next) }
        ensures grows { self.old.next ≤ self.new.next }
        ensures spent { OnOk result
            (self.old.budget ≡ self.new.budget + step_count (byte_in class.now.ranges.items)) }
        ensures refused { IfErr result
            (IsFaultIn self.old.budget (byte_in class.now.ranges.items)) }
    {
        if !class.is_within(LAST_ASCII) {
            return Err(PatternError::NotText);
        }
        self.character(&class.ranges)
    }

    /// Matches what the front does, and then what the back does.
    pub(crate) fn in_turn(&mut self, front: Part, back: Part) -> Result<Part, PatternError>
        ensures built { IfOk result (λ r. (a b : Re) (low middle high : ℕ) → low ≤ middle
            → middle ≤ high → IsBuilt a front middle high → IsBuilt b back low middle
            → IsBuilt (cat a b) r low high) }
        ensures kept { self.new.next ≡ self.old.next }
        ensures spent { OnOk result
            (self.old.budget ≡ self.new.budget + vec_len front.ends * vec_len back.leads) }
        ensures refused { IfErr result
            (IsTooMuch self.old.budget (vec_len front.ends * vec_len back.leads)) }
    {
        self.spend_edges(front.ends.len(), back.leads.len())?;
        Ok(part::in_turn(front, back)?)
    }

    /// Matches what either does.
    pub(crate) fn either(&self, one: Part, other: Part) -> Result<Part, PatternError>
        ensures built { IfOk result (λ r. (a b : Re) (low middle high : ℕ) → low ≤ middle
            → middle ≤ high → IsBuilt a one middle high → IsBuilt b other low middle
            → IsBuilt (alt a b) r low high) }
        ensures memory { IfErr result (λ error. error ≡ Memory) }
    {
        Ok(part::either(one, other)?)
    }

    /// Matches what the part does, once or several times.
    pub(crate) fn repeated(&mut self, once: Part) -> Result<Part, PatternError>
        ensures built { IfOk result (λ r. (greedy : Bool) (a : Re) (low high : ℕ)
            → IsBuilt a once low high → IsBuilt (plus greedy a) r low high) }
        ensures kept { self.new.next ≡ self.old.next }
        ensures spent { OnOk result
            (self.old.budget ≡ self.new.budget + vec_len once.ends * vec_len once.leads) }
        ensures refused { IfErr result
            (IsTooMuch self.old.budget (vec_len once.ends * vec_len once.leads)) }
    {
        self.spend_edges(once.ends.len(), once.leads.len())?;
        Ok(part::repeated(once)?)
    }

    /// Matches what the part does, or the empty text.
    pub(crate) fn optional(&mut self, once: Part) -> Result<Part, PatternError>
        ensures built { IfOk result (λ r. (greedy : Bool) (a : Re) (low high : ℕ)
            → IsBuilt a once low high → IsBuilt (optional greedy a) r low high) }
        ensures kept { self.new.next ≡ self.old.next }
        ensures spent { OnOk result (self.old.budget ≡ self.new.budget + step_count empty) }
        ensures refused { IfErr result (IsTooMuch self.old.budget (step_count empty)) }
    {
        self.spend(1)?;
        Ok(part::or_empty(once))
    }
}
