//! What finds the tokens of a lexer.
ghost use Rattle.std.specs.Prelude.{◌≡◌, ◌↔◌, List, None, Result, IsTrue, IfOk, OnErr, MatchOption, map};
ghost use Rattle.std.specs.Iterator.{YieldsThen};
ghost use Rattle.lexing.specs.declared.lexer.Lexer.{Lexer};
ghost use Rattle.lexing.specs.declared.placed.Placed.{Placed};
ghost use Rattle.lexing.specs.declared.token.Token.{Token};
ghost use Rattle.lexing.specs.declared.token.LexError.{LexError};
ghost use Rattle.lexing.specs.Given.{AreGiven, GivesNext};
ghost use Rattle.lexing.specs.Left.{Left};
ghost use Rattle.lexing.specs.Lexers.{IsSkipped};
ghost use Rattle.lexing.specs.Places.{GivesPlaced};
ghost use Rattle.lexing.specs.Tokens.{IsToken, BeginsWithNone};

use crate::placed::PlacedTokens;
use crate::tokens::Tokens;
use btree_range_map::MapError;
use state_sets::Match;

/// Finds the tokens of a lexer.
pub trait Scanner {
    /// The lexer whose tokens are found.
    ghost lexer: { Self → Lexer };

    /// Holds of a scanner that allocates, so that it may fail.
    ghost may_refuse: { Self → Type 0 };

    /// The token that the text begins with: the longest beginning that some rule accepts, by the
    /// first such rule; none where each beginning that a rule accepts is empty.
    fn longest_match(&self, text: &str) -> Result<Option<Match>, MapError>
        ensures longest { IfOk result
            (λ found. MatchOption found (BeginsWithNone (lexer self.now) text.now)
            (λ m. IsToken (lexer self.now) text.now m.rule m.len)) }
        ensures refused { OnErr result (may_refuse self.now) };

    /// Whether tokens of the rule are skipped. Allocates nothing.
    fn is_skipped(&self, rule: u32) -> bool
        ensures { IsTrue result ↔ IsSkipped (lexer self.now) rule };

    /// The tokens of the text, but for those that are skipped. Allocates as `longest_match`.
    ///
    /// With what is skipped, and with the characters where no token begins, they are the whole text,
    /// unless an allocation fails.
    ///
    /// Each token is the longest piece of the text from its place on that some rule accepts, by the
    /// first such rule. A text of `n` characters costs at most `n * n` steps, where a long piece is
    /// looked at for each short token. It costs about `n` where no rule looks far beyond its
    /// tokens.
    final fn tokens<'a>(&'a self, text: &'a str) -> Tokens<'a, Self>
    where
        Self: Sized,
        ensures scanner { result.scanner ≡ self.now }
        ensures text { result.text ≡ text.now }
        ensures start { result.place ≡ 0 }
        ensures whole { (items : List (Result Token LexError)) (last : Left Self)
            → YieldsThen (GivesNext lexer may_refuse) result items None last
            → AreGiven (lexer self.now) text.now (may_refuse self.now) 0 items }
    {
        Tokens::new(self, text)
    }

    /// What `tokens` gives, each with the line and the column where it begins.
    ///
    /// ```
    /// // of a lexer of words and numbers
    /// for placed in machine.placed_tokens(text) {
    ///     let Place { line, column } = placed.place;
    ///     println!(rt; "{line}:{column} {:?}", placed.token)?;
    /// }
    /// ```
    final fn placed_tokens<'a>(&'a self, text: &'a str) -> PlacedTokens<'a, Self>
    where
        Self: Sized,
        ensures scanner { result.scanner ≡ self.now }
        ensures text { result.text ≡ text.now }
        ensures start { result.place ≡ 0 }
        ensures whole { (items : List Placed) (last : Left Self)
            → YieldsThen (GivesPlaced lexer may_refuse) result items None last
            → AreGiven (lexer self.now) text.now (may_refuse self.now) 0
            (map (λ placed. placed.token) items) }
    {
        PlacedTokens::new(self, text)
    }
}
