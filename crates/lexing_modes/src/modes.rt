//! Modes: for each a scanner, and what its rules do to the mode.
ghost use Rattle.std.specs.Prelude.{◌≡◌, ◌<◌, ℕ, length};
ghost use Rattle.lexing_modes.specs.Changes.{Names, change_in};

use crate::change::ModeChange;
use crate::error::SetupError;
use std::alloc::Global;
use std::collections::BTreeMap;

/// A mode: the scanner of its rules, and what these do to the mode if it does not stay.
#[derive(Drop)]
pub(crate) struct Mode<S> {
    pub(crate) scanner: S,
    pub(crate) changes: BTreeMap<u32, ModeChange>,
}

/// Modes, numbered from 0 on. Each has a scanner of the rules that hold in it.
///
/// A text begins in mode 0. Behind the token of a rule the mode stays, unless a change is set for
/// the rule in that mode.
#[derive(Drop)]
pub struct Modes<S> {
    pub(crate) modes: Vec<Mode<S>>,
    pub(crate) alloc: Global,
    ghost some: { 0 < length modes.items },
    ghost known: { (mode rule next : ℕ) → Names (change_in modes.items mode rule) next
        → next < length modes.items },
}

impl<S: Drop> Modes<S> {
    ghost use Rattle.std.specs.Prelude.{◌≡◌, ◌+◌, ℕ, IfOk, IfErr, OnOk, OnErr};
    ghost use Rattle.lexing_modes.specs.declared.change.ModeChange.TheVariants.{Stay};
    ghost use Rattle.lexing_modes.specs.declared.error.SetupError.TheVariants.{Memory};
    ghost use Rattle.lexing_modes.specs.Modes.{IsScannerOf, KeepsChanges, KeepsScanners, change_after, mode_count};

    /// One mode, whose rules change nothing yet. Allocates.
    pub fn new(alloc: Global, scanner: S) -> Result<Modes<S>, SetupError>
        ensures one { IfOk result (λ modes. mode_count modes ≡ 1) }
        ensures scanner { IfOk result (λ modes. IsScannerOf modes 0 scanner) }
        ensures stays { IfOk result (λ modes. (m r : ℕ) → change_after modes m r ≡ Stay) }
        ensures memory { IfErr result (λ e. e ≡ Memory) }
    {
        let mut modes = Vec::new(alloc);
        modes.push(Mode {
            scanner,
            changes: BTreeMap::new(alloc),
        })?;
        Ok(Modes { modes, alloc })
    }

    /// Adds a mode, whose rules change nothing yet, and returns its number. Allocates. After an
    /// error the modes are as they were.
    pub fn add_mode(&mut self, scanner: S) -> Result<u32, SetupError>
        ensures number { IfOk result (λ n. n ≡ mode_count self.old) }
        ensures count { OnOk result (mode_count self.new ≡ mode_count self.old + 1) }
        ensures scanner { IfOk result (λ n. IsScannerOf self.new n scanner) }
        ensures scanners { KeepsScanners self.old self.new }
        ensures changes { KeepsChanges self.old self.new }
        ensures refused { OnErr result (mode_count self.new ≡ mode_count self.old) }
        ensures memory { IfErr result (λ e. e ≡ Memory) }
    {
        let Ok(number) = u32::try_from(self.modes.len()) else {
            return Err(SetupError::Memory);
        };
        self.modes.push(Mode {
            scanner,
            changes: BTreeMap::new(self.alloc),
        })?;
        Ok(number)
    }
}

impl<S> Modes<S> {
    ghost use Rattle.lexing_modes.specs.declared.error.SetupError.TheVariants.{UnknownMode};
    ghost use Rattle.std.specs.Prelude.{◌≡◌, ◌<◌, ◌≤◌, ℕ, IfErr, OnOk, OnErr, MatchOption};
    ghost use Rattle.lexing_modes.specs.Changes.{Names};
    ghost use Rattle.lexing_modes.specs.Modes.{ChangesOnly, IsRefusal, IsScannerOf, KeepsChanges, KeepsScanners, change_after, mode_count};

    /// Sets what the rule does behind its tokens in the mode. Of several calls for a rule in a mode
    /// the last counts.
    ///
    /// `UnknownMode` names what is no mode: the one given, or the one that the change leads to.
    /// Allocates. After an error nothing is changed.
    pub fn set_change(&mut self, mode: u32, rule: u32, change: ModeChange) -> Result<(), SetupError>
        ensures set { OnOk result (ChangesOnly self.old self.new mode rule change) }
        ensures count { mode_count self.new ≡ mode_count self.old }
        ensures scanners { KeepsScanners self.old self.new }
        ensures kept { OnErr result (KeepsChanges self.old self.new) }
        ensures refused { IfErr result (IsRefusal self.old mode change) }
    {
        self.check(mode)?;
        self.check_target(change)?;
        self.modes[mode as usize].changes.insert(rule, change)?;
        Ok(())
    }

    /// Whether there is such a mode.
    fn check(&self, mode: u32) -> Result<(), SetupError>
        ensures known { OnOk result (mode < mode_count self.now) }
        ensures unknown { IfErr result (λ e. (e ≡ UnknownMode mode) × (mode_count self.now ≤ mode)) }
    {
        if (mode as usize) < self.modes.len() {
            Ok(())
        } else {
            Err(SetupError::UnknownMode(mode))
        }
    }

    /// Whether there is the mode that the change leads to, if it names one.
    fn check_target(&self, change: ModeChange) -> Result<(), SetupError>
        ensures known { OnOk result
            ((mode : ℕ) → Names change mode → mode < mode_count self.now) }
        ensures unknown { IfErr result (λ e. (mode : ℕ) × (e ≡ UnknownMode mode)
            × Names change mode × (mode_count self.now ≤ mode)) }
    {
        match change.mode() {
            Some(mode) => self.check(mode),
            None => Ok(()),
        }
    }

    /// How many modes there are. Allocates nothing.
    pub fn mode_count(&self) -> usize
        ensures { result ≡ mode_count self.now }
    {
        self.modes.len()
    }

    /// The scanner of the mode, if there is one of this number. Allocates nothing.
    pub fn scanner(&self, mode: u32) -> Option<&S>
        ensures { MatchOption result (mode_count self.now ≤ mode)
            (λ scanner. IsScannerOf self.now mode scanner.now) }
    {
        match self.modes.get(mode as usize) {
            Some(mode) => Some(&mode.scanner),
            None => None,
        }
    }

    /// What the rule does behind its tokens in the mode. Allocates nothing.
    pub fn change_after(&self, mode: u32, rule: u32) -> ModeChange
        ensures { result ≡ change_after self.now mode rule }
    {
        match self.modes.get(mode as usize) {
            Some(mode) => mode.changes.get(&rule).copied().unwrap_or(ModeChange::Stay),
            None => ModeChange::Stay,
        }
    }
}
