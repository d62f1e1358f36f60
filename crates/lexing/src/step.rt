//! Where a byte leads from a state of a machine.
ghost use Rattle.std.specs.Prelude.{◌≡◌, ◌<◌, ◌%◌};

/// How many steps each state has: one for each byte.
pub(crate) const STEPS: usize = 256;

/// The code of the step that leads nowhere: no state's first step has this index.
const NOWHERE: u32 = 1;

/// How many states a step can tell apart.
const MAX_STATES: u32 = 1 << 24;

/// A step to a state, or nowhere.
///
/// It is the index of the first step of that state among those of all states. So a table of steps
/// is small, and a byte costs one sum and one look-up.
#[derive(Clone, Copy)]
pub(crate) struct Step {
    code: u32,
    ghost first: { 1 < code → code % 256 ≡ 0 },
}

impl Step {
    ghost use Rattle.std.specs.Prelude.{◌/◌, None, Some, IfSome, MatchOption, Option, ℕ};
    ghost use Rattle.lexing.specs.Machines.{target};

    /// The step that leads nowhere.
    pub(crate) fn nowhere() -> Step
        ensures { target result ≡ None }
    {
        Step { code: NOWHERE }
    }

    /// The step to the state; none where its number is too large.
    pub(crate) fn to(state: u32) -> Option<Step>
        ensures { IfSome result (λ step. target step ≡ Some state) }
    {
        if state < MAX_STATES {
            Some(Step { code: 256 * state })
        } else {
            None
        }
    }

    /// The index of the first step of the state that it leads to.
    #[inline(always)]
    pub(crate) fn first(self) -> Option<usize>
        ensures { MatchOption result (target self ≡ None)
            (λ first. (target self ≡ Some (first / 256)) × (first % 256 ≡ 0)) }
    {
        if self.code == NOWHERE {
            None
        } else {
            Some(self.code as usize)
        }
    }
}
