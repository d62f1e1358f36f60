//! The calls on lexers.
ghost use Rattle.std.specs.Prelude.{◌≡◌, ◌≢◌, ◌⊎◌, ◌↔◌, ◌≤◌, Some, IsUtf8, drop, true, false, ◌∷◌, []};
ghost use Rattle.lexing.specs.declared.machine.Machine.{Machine};
ghost use Rattle.lexing.specs.MachineSteps.{lexer_of, state_count};
ghost use Rattle.lexer_handles.specs.Rules.{IsLexerOf};
ghost use Rattle.lexer_handles.specs.Faults.{IsFaultOf};
ghost use Rattle.lexer_handles.specs.Refusals.{IsTooLarge};
ghost use Rattle.lexer_handles.specs.Tokens.{AreWritten};
ghost use Rattle.range_handles.specs.Held.{HoldsLexer};
ghost use Rattle.range_handles.specs.declared.collection.Collection.TheVariants.{Lexer};
ghost use Rattle.btree_range_map_c.specs.Statuses.{IsAnswer};

use lexer_handles::fault::{Fault, tell};
use lexer_handles::lexer::machine_of;
use lexer_handles::refusal::Refusal;
use lexer_handles::rules::Rule;
use lexer_handles::status::{BAD_RULE, NOT_TEXT, TOO_LARGE};
use lexer_handles::tokens::{TokenParts, tokens_of};
use range_ffi::status::{CLOSED, DONE, NO_MEMORY, OPEN, OTHER_KIND};
use range_handles::collection::Collection;
use range_handles::handle::Handle;
use std::alloc::Global;

/// Opens a closed handle on the lexer of the rules, which has at most so many states.
///
/// A token is the longest piece of the text from its place on that the pattern of a rule matches, by
/// the first such rule. The first rule that is not taken is told by its number and the reason, and
/// what is wrong is written to the front of the text, as much as that takes.
///
/// Costs time and memory for each state. Allocates.
#[unsafe(no_mangle)]
pub extern "C" fn brm_lexer_create(
    alloc: Global,
    handle: &mut Handle,
    rules: &[Rule],
    budget: u32,
    fault: &mut Fault,
    text: &mut [u8],
) -> u32
    ensures created { result ≡ DONE → (machine : Machine)
        × (handle.new.seal.held ≡ Some (Lexer machine)) × IsLexerOf rules.now (lexer_of machine)
        × (state_count machine ≤ budget) }
    ensures refused { result ≢ DONE → handle.new.seal.held ≡ handle.old.seal.held }
    ensures bad_rule { result ≡ BAD_RULE → IsFaultOf rules.now fault.new }
    ensures too_large { result ≡ TOO_LARGE → IsTooLarge rules.now budget }
    ensures untold { result ≢ BAD_RULE → (fault.new ≡ fault.old) × (text.new ≡ text.old) }
    ensures behind { result ≡ BAD_RULE
        → drop fault.new.text_size text.new ≡ drop fault.new.text_size text.old }
    ensures open { handle.old.is_open ≡ true → result ≡ OPEN }
    ensures answer { handle.old.is_open ≡ false → (result ≡ DONE)
        ⊎ ((result ≡ NO_MEMORY) ⊎ ((result ≡ BAD_RULE) ⊎ (result ≡ TOO_LARGE))) }
{
    if handle.is_open {
        return OPEN;
    }
    match machine_of(alloc, rules, budget) {
        Ok(machine) => handle.fill(alloc, Collection::Lexer(machine)),
        Err(Refusal::Rule(bad)) => {
            tell(bad, fault, text);
            BAD_RULE
        }
        Err(Refusal::TooLarge) => TOO_LARGE,
        Err(Refusal::Memory) => NO_MEMORY,
    }
}

/// Writes the tokens of the text in their order, as many as the array takes, and how many there are
/// in all.
///
/// What is skipped is left out. Where no token begins, this is written in place of one, and the text
/// goes on behind the character there. What lies behind the tokens in the array stays as it was.
/// Allocates nothing. Looks at a character once, but for those behind a token that a longer one
/// might have held.
#[unsafe(no_mangle)]
pub extern "C" fn brm_lexer_tokens(
    handle: &mut Handle,
    text: &[u8],
    tokens: &mut [TokenParts],
    count: &mut usize,
) -> u32
    ensures unchanged { handle.new.seal.held ≡ handle.old.seal.held }
    ensures tokens { (machine : Machine) → handle.old.seal.held ≡ Some (Lexer machine)
        → result ≡ DONE → AreWritten (lexer_of machine) text.now tokens.new count.new }
    ensures behind { drop count.new tokens.new ≡ drop count.new tokens.old }
    ensures no_text { HoldsLexer handle.old.seal.held → (result ≡ NOT_TEXT ↔ ¬ IsUtf8 text.now) }
    ensures unwritten { result ≢ DONE → (tokens.new ≡ tokens.old) × (count.new ≡ count.old) }
    ensures answer { IsAnswer HoldsLexer handle.old result (DONE ∷ NOT_TEXT ∷ []) }
{
    if !handle.is_open {
        return CLOSED;
    }
    match handle.seal.as_mut() {
        Collection::Lexer(machine) => tokens_of(machine, text, tokens, count),
        _ => OTHER_KIND,
    }
}
