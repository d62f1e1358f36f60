//! Where the cutting of a text stands.
ghost use Rattle.std.specs.Prelude.{◌≡◌, IfErr, OnOk, OnErr};
ghost use Rattle.lexing_modes.specs.States.{HasSameModes, IsRefused, LeadsTo, first_state, state_of};

use crate::change::ModeChange;
use std::alloc::Global;

/// The place in bytes, the mode, and the modes below it, the last of which was pushed away last.
#[derive(Drop)]
pub(crate) struct Cursor {
    pub(crate) place: usize,
    pub(crate) mode: u32,
    pub(crate) below: Vec<u32>,
}

/// Why a mode is not changed.
#[derive(Clone, Copy, Drop)]
pub(crate) enum Unchanged {
    NothingPushed,
    Memory,
}

impl Cursor {
    /// At the start of a text. Allocates nothing.
    pub(crate) fn new(alloc: Global) -> Cursor
        ensures { state_of result ≡ first_state }
    {
        Cursor {
            place: 0,
            mode: 0,
            below: Vec::new(alloc),
        }
    }

    /// Changes the mode.
    pub(crate) fn change(&mut self, change: ModeChange) -> Result<(), Unchanged>
        ensures changed { OnOk result (LeadsTo change (state_of self.old) (state_of self.new)) }
        ensures place { self.new.place ≡ self.old.place }
        ensures same { OnErr result (HasSameModes (state_of self.old) (state_of self.new)) }
        ensures refused { IfErr result (IsRefused change (state_of self.old)) }
    {
        match change {
            ModeChange::Stay => {}
            ModeChange::Enter(mode) => self.mode = mode,
            ModeChange::Push(mode) => {
                if self.below.push(self.mode).is_err() {
                    return Err(Unchanged::Memory);
                }
                self.mode = mode;
            }
            ModeChange::Pop => {
                let Some(mode) = self.below.pop() else {
                    return Err(Unchanged::NothingPushed);
                };
                self.mode = mode;
            }
        }
        Ok(())
    }
}
