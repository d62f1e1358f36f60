//! The parts of patterns, from their trees.
ghost use Rattle.std.specs.Prelude.{ℕ, ◌≤◌, ◌+◌, ◌≡◌, Bool, map, IfErr, IfOk, OnOk};
ghost use Rattle.std.specs.Str.{chars};
ghost use Rattle.regex_hir.specs.Re.{Re, literal};
ghost use Rattle.regex_hir.specs.Meaning.{meaning, repeat, copies, up_to, cat_all, alt_all};
ghost use Rattle.lexing_patterns.specs.Built.{IsBuilt};
ghost use Rattle.lexing_patterns.specs.Faults.{IsFaultIn};
ghost use Rattle.lexing_patterns.specs.Sizes.{step_count};

use crate::builder::Builder;
use crate::error::PatternError;
use crate::part::Part;
use regex_hir::Hir;
use std::alloc::{AllocError, Global};

impl Builder {
    /// Matches what the pattern does.
    #[cycle(part)]
    pub(crate) fn part(&mut self, hir: &Hir) -> Result<Part, PatternError>
        ensures built { IfOk result (λ r. IsBuilt (meaning hir.now) r self.old.next self.new.next) }
        ensures grows { self.old.next ≤ self.new.next }
        ensures spent { OnOk result
            (self.old.budget ≡ self.new.budget + step_count (meaning hir.now)) }
        ensures refused { IfErr result (IsFaultIn self.old.budget (meaning hir.now)) }
    {
        match hir {
            Hir::Empty => self.empty(),
            Hir::Literal(bytes) => self.literal(bytes),
            Hir::Bytes(class) => self.byte(class),
            Hir::Chars(class) => self.character(&class.ranges),
            Hir::Look(_) => Err(PatternError::Assertion),
            Hir::Repetition { min, max, sub, .. } => self.repetition(*min, *max, sub),
            Hir::Capture { sub, .. } => self.part(sub),
            Hir::Concat(subs) => self.all_of(subs),
            Hir::Alternation(subs) => self.any_of(subs),
        }
    }

    // Both loops go from the last part back, as `cat_all` and `alt_all` are built.
    #[cycle(part)]
    fn all_of(&mut self, subs: &[Hir]) -> Result<Part, PatternError>
        ensures built { IfOk result
            (λ r. IsBuilt (cat_all (map meaning subs.now)) r self.old.next self.new.next) }
        ensures grows { self.old.next ≤ self.new.next }
        ensures spent { OnOk result
            (self.old.budget ≡ self.new.budget + step_count (cat_all (map meaning subs.now))) }
        ensures refused { IfErr result
            (IsFaultIn self.old.budget (cat_all (map meaning subs.now))) }
    {
        let mut all = self.empty()?;
        for i in (0..subs.len()).rev() {
            let front = self.part(&subs[i])?;
            all = self.in_turn(front, all)?;
        }
        Ok(all)
    }

    #[cycle(part)]
    fn any_of(&mut self, subs: &[Hir]) -> Result<Part, PatternError>
        ensures built { IfOk result
            (λ r. IsBuilt (alt_all (map meaning subs.now)) r self.old.next self.new.next) }
        ensures grows { self.old.next ≤ self.new.next }
        ensures spent { OnOk result
            (self.old.budget ≡ self.new.budget + step_count (alt_all (map meaning subs.now))) }
        ensures refused { IfErr result
            (IsFaultIn self.old.budget (alt_all (map meaning subs.now))) }
    {
        let mut any = self.nothing()?;
        for i in (0..subs.len()).rev() {
            let one = self.part(&subs[i])?;
            any = self.either(one, any)?;
        }
        Ok(any)
    }

    #[cycle(part)]
    fn repetition(&mut self, min: u32, max: Option<u32>, sub: &Hir) -> Result<Part, PatternError>
        ensures built { IfOk result (λ r. (greedy : Bool)
            → IsBuilt (repeat min max greedy (meaning sub.now)) r self.old.next self.new.next) }
        ensures grows { self.old.next ≤ self.new.next }
        ensures spent { OnOk result ((greedy : Bool) → self.old.budget
            ≡ self.new.budget + step_count (repeat min max greedy (meaning sub.now))) }
        ensures refused { IfErr result (λ error. (greedy : Bool)
            → IsFaultIn self.old.budget (repeat min max greedy (meaning sub.now)) error) }
    {
        match max {
            Some(max) => {
                let rest = self.up_to(max.saturating_sub(min), sub)?;
                self.copies(min, sub, rest)
            }
            None => {
                let once = self.part(sub)?;
                let rest = self.repeated(once)?;
                if min == 0 {
                    return self.optional(rest);
                }
                self.copies(min - 1, sub, rest)
            }
        }
    }

    /// Copies of the pattern, and then the rest.
    #[cycle(part)]
    fn copies(&mut self, count: u32, sub: &Hir, rest: Part) -> Result<Part, PatternError>
        ensures built { IfOk result (λ r. (re : Re) (low : ℕ) → low ≤ self.old.next
            → IsBuilt re rest low self.old.next
            → IsBuilt (copies count (meaning sub.now) re) r low self.new.next) }
        ensures grows { self.old.next ≤ self.new.next }
        ensures spent { OnOk result ((re : Re) (low : ℕ) → low ≤ self.old.next
            → IsBuilt re rest low self.old.next → self.old.budget + step_count re
            ≡ self.new.budget + step_count (copies count (meaning sub.now) re)) }
        ensures refused { IfErr result (λ error. (re : Re) (low : ℕ) → low ≤ self.old.next
            → IsBuilt re rest low self.old.next → IsFaultIn (self.old.budget + step_count re)
            (copies count (meaning sub.now) re) error) }
    {
        let mut all = rest;
        for done in 0..count {
            let front = self.part(sub)?;
            all = self.in_turn(front, all)?;
        }
        Ok(all)
    }

    /// The pattern at most so many times.
    #[cycle(part)]
    fn up_to(&mut self, most: u32, sub: &Hir) -> Result<Part, PatternError>
        ensures built { IfOk result (λ r. (greedy : Bool)
            → IsBuilt (up_to greedy most (meaning sub.now)) r self.old.next self.new.next) }
        ensures grows { self.old.next ≤ self.new.next }
        ensures spent { OnOk result ((greedy : Bool) → self.old.budget
            ≡ self.new.budget + step_count (up_to greedy most (meaning sub.now))) }
        ensures refused { IfErr result (λ error. (greedy : Bool)
            → IsFaultIn self.old.budget (up_to greedy most (meaning sub.now)) error) }
    {
        let mut all = self.empty()?;
        for done in 0..most {
            let front = self.part(sub)?;
            let some = self.in_turn(front, all)?;
            all = self.optional(some)?;
        }
        Ok(all)
    }

    /// Matches this text alone.
    fn literal(&mut self, bytes: &[u8]) -> Result<Part, PatternError>
        ensures built { IfOk result (λ r. IsBuilt (literal bytes.now) r self.old.next self.new.next) }
        ensures grows { self.old.next ≤ self.new.next }
        ensures spent { OnOk result
            (self.old.budget ≡ self.new.budget + step_count (literal bytes.now)) }
        ensures refused { IfErr result (IsFaultIn self.old.budget (literal bytes.now)) }
    {
        let Ok(text) = std::str::from_utf8(bytes) else {
            return Err(PatternError::NotText);
        };
        let characters = characters(self.alloc, text)?;
        let mut all = self.empty()?;
        for i in (0..characters.len()).rev() {
            let c = characters[i] as u32;
            let front = self.character(&[(c, c)])?;
            all = self.in_turn(front, all)?;
        }
        Ok(all)
    }
}

fn characters(alloc: Global, text: &str) -> Result<Vec<char>, AllocError>
    ensures { IfOk result (λ all. all.items ≡ chars text.now) }
{
    text.chars().collect(alloc)
}
