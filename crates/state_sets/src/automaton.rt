//! Automata, and the states that a text leads to.
ghost use Rattle.std.specs.Prelude.{ℕ, IfOk};
ghost use Rattle.std.specs.Str.{chars};
ghost use Rattle.state_sets.specs.Steps.{AreAfter, AreReached, AreStarts};

use std::collections::BTreeSet;

/// An automaton over characters, which makes its steps from sets of states.
pub trait Automaton {
    /// Why a step was not made.
    type Error;

    /// A rule leads from one state by a character to another.
    ghost has_step: { Self → ℕ → ℕ → ℕ → Type 0 };

    /// A text may start in the state.
    ghost is_start: { Self → ℕ → Type 0 };

    /// The states in which a text starts.
    fn starts(&self) -> Result<BTreeSet<u32>, Self::Error>
        ensures starts { IfOk result (AreStarts (is_start self.now)) };

    /// The states that some rule leads to from one of the given by the character.
    fn step(&self, states: &BTreeSet<u32>, c: char) -> Result<BTreeSet<u32>, Self::Error>
        ensures reached { IfOk result (AreReached (has_step self.now) states.now c) };
}

/// The states to which the whole text leads from those in which a text starts.
///
/// Makes one step a character.
pub fn follow<A: Automaton>(automaton: &A, text: &str) -> Result<BTreeSet<u32>, A::Error>
    ensures after { IfOk result
        (AreAfter (A.has_step automaton.now) (A.is_start automaton.now) (chars text.now)) }
{
    let mut states = automaton.starts()?;
    for c in text.chars() {
        states = automaton.step(&states, c)?;
    }
    Ok(states)
}
