//! Modes from rules.
ghost use Rattle.std.specs.Prelude.{◌≡◌, ◌<◌, ◌≤◌, ℕ, IfErr, IfOk, OnOk};
ghost use Rattle.lexing_modes.specs.Modes.{KeepsScanners, change_after, mode_count};
ghost use Rattle.lexing_mode_patterns.specs.Refusals.{IsRefusalOf};
ghost use Rattle.lexing_mode_patterns.specs.Rules.{HasChangesIn, HasChangesOf, HasScannersOf, IsMachineOf, patterns_in, patterns_of, rules_in};
ghost use Rattle.lexing_mode_patterns.specs.declared.error.ModeRuleError.TheVariants.{Memory};

use crate::checks::{check_modes, fault_in};
use crate::error::ModeRuleError;
use crate::rules::{ModeRule, patterns_of, rules_in};
use lexing::{BuildError, Machine};
use lexing_modes::Modes;
use lexing_patterns::lexer;
use std::alloc::Global;

/// So many modes, with the rules that hold in each.
///
/// In a mode each token is the longest piece of the text from its place on that a pattern of the
/// mode matches, by the first such pattern. The rules of a mode are numbered from 0, as they stand;
/// the lexer of its machine has their names. The machine of a mode has at most as many states as the
/// budget. The patterns of a mode may take a million steps, as those of `lexing_patterns::lexer`.
///
/// Where a pattern is not taken, the error names the first such rule, whatever its modes are. Costs
/// for each mode its machine. Allocates.
pub fn modes(
    alloc: Global,
    count: u32,
    rules: &[ModeRule],
    budget: u32,
) -> Result<Modes<Machine>, ModeRuleError>
    ensures count { IfOk result (λ modes. mode_count modes ≡ count) }
    ensures scanners { IfOk result (HasScannersOf rules.now count) }
    ensures changes { IfOk result (HasChangesOf rules.now count) }
    ensures refused { IfErr result (IsRefusalOf rules.now count budget) }
{
    check_modes(rules, count)?;
    if count == 0 {
        return Err(ModeRuleError::NoMode);
    }
    let mut modes = machines_of(alloc, count, rules, budget)?;
    set_changes(alloc, &mut modes, rules, count)?;
    Ok(modes)
}

/// The machine of the rules that hold in the mode.
fn machine_of(
    alloc: Global,
    rules: &[ModeRule],
    mode: u32,
    budget: u32,
) -> Result<Machine, ModeRuleError>
    ensures machine { IfOk result (IsMachineOf (patterns_in rules.now mode)) }
    ensures refused { (count : ℕ) → mode < count
        → IfErr result (IsRefusalOf rules.now count budget) }
{
    let held = rules_in(alloc, rules, mode)?;
    let patterns = patterns_of(alloc, &held)?;
    let Ok(lexer) = lexer(alloc, &patterns) else {
        return Err(fault_in(alloc, rules));
    };
    match Machine::build(alloc, lexer, budget) {
        Ok(machine) => Ok(machine),
        Err(BuildError::TooLarge) => Err(ModeRuleError::TooManyStates(mode)),
        Err(BuildError::Memory) => Err(ModeRuleError::Memory),
    }
}

/// So many modes, whose rules change nothing yet.
fn machines_of(
    alloc: Global,
    count: u32,
    rules: &[ModeRule],
    budget: u32,
) -> Result<Modes<Machine>, ModeRuleError>
    requires { 0 < count }
    ensures count { IfOk result (λ modes. mode_count modes ≡ count) }
    ensures scanners { IfOk result (HasScannersOf rules.now count) }
    ensures refused { IfErr result (IsRefusalOf rules.now count budget) }
{
    let mut modes = Modes::new(alloc, machine_of(alloc, rules, 0, budget)?)?;
    for mode in 1..count {
        modes.add_mode(machine_of(alloc, rules, mode, budget)?)?;
    }
    Ok(modes)
}

/// Sets in each mode what the rules do that hold in it.
fn set_changes(
    alloc: Global,
    modes: &mut Modes<Machine>,
    rules: &[ModeRule],
    count: u32,
) -> Result<(), ModeRuleError>
    ensures set { OnOk result (HasChangesOf rules.now count modes.new) }
    ensures count { mode_count modes.new ≡ mode_count modes.old }
    ensures scanners { KeepsScanners modes.old modes.new }
    ensures memory { IfErr result (λ e. e ≡ Memory) }
{
    for mode in 0..count {
        let held = rules_in(alloc, rules, mode)?;
        set_changes_in(modes, &held, mode)?;
    }
    Ok(())
}

/// Sets what each rule of the mode does, which are these.
fn set_changes_in(
    modes: &mut Modes<Machine>,
    held: &[ModeRule],
    mode: u32,
) -> Result<(), ModeRuleError>
    ensures set { OnOk result (HasChangesIn held.now mode modes.new) }
    ensures others { (m r : ℕ) → ¬ (m ≡ mode)
        → change_after modes.new m r ≡ change_after modes.old m r }
    ensures count { mode_count modes.new ≡ mode_count modes.old }
    ensures scanners { KeepsScanners modes.old modes.new }
    ensures memory { IfErr result (λ e. e ≡ Memory) }
{
    for at in 0..held.len() {
        let Ok(number) = u32::try_from(at) else {
            return Err(ModeRuleError::Memory);
        };
        modes.set_change(mode, number, held[at].change)?;
    }
    Ok(())
}
