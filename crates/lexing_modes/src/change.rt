//! What a rule does to the mode.
ghost use Rattle.std.specs.Prelude.{ℕ, MatchOption};
ghost use Rattle.lexing_modes.specs.Changes.{Names};

/// What a rule does to the mode, behind its token. Modes are named by their numbers.
#[derive(Clone, Copy, Debug, PartialEq, Eq, Drop)]
pub enum ModeChange {
    /// The mode stays.
    Stay,
    /// The mode becomes this one; those below it stay. In flex `BEGIN`.
    Enter(u32),
    /// The mode becomes this one, over the mode of the token. In flex `yy_push_state`.
    Push(u32),
    /// The mode becomes the one below it. In flex `yy_pop_state`.
    Pop,
}

impl ModeChange {
    /// The mode that it leads to, unless that depends on the modes before. Allocates nothing.
    pub fn mode(self) -> Option<u32>
        ensures { MatchOption result ((mode : ℕ) → ¬ Names self mode) (Names self) }
    {
        match self {
            ModeChange::Enter(mode) | ModeChange::Push(mode) => Some(mode),
            ModeChange::Stay | ModeChange::Pop => None,
        }
    }
}
