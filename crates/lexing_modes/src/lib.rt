//! Texts cut into tokens by rules that hold in modes, as start conditions of flex do.
//!
//! Each mode has a scanner of its own, a `Lexer` or a `Machine` of the crate `lexing`. In a mode a
//! token is the longest piece that a rule of the mode accepts, by the first such rule. A rule may
//! change the mode behind its token: another is entered, pushed onto the current one, or the current
//! one is popped. So strings with escapes and nested comments can be cut.
//!
//! ```
//! // of a scanner for a program's text, and one for comments
//! let mut modes = Modes::new(alloc, program)?;
//! let comment = modes.add_mode(comments)?;
//! modes.set_change(0, OPEN, ModeChange::Push(comment))?; // OPEN is the program's rule for `/*`
//! modes.set_change(comment, NESTED, ModeChange::Push(comment))?; // that of comments for `/*`
//! modes.set_change(comment, CLOSE, ModeChange::Pop)?; // that for `*/`
//! for found in modes.tokens("a /* b /* c */ d */ e") {
//!     let found = found?; // the mode, and the token in it
//! }
//! ```
//!
//! Where to find what:
//!
//! - modes, and what their rules do: `src/{modes,change,error}.rt`, `specs/{Changes,Modes}.antt`,
//!   `proofs/ModeSteps.antt`
//! - one token, and the mode behind it: `src/{cursor,step}.rt`, `specs/{States,Runs}.antt`,
//!   `proofs/StateSteps.antt`
//! - the tokens of a text, one after the other: `src/{tokens,cutting}.rt`,
//!   `specs/{Given,Left}.antt`, `proofs/{TokenLists,Giving}.antt`
//! - those of a text that comes in pieces: `src/cutter.rt`, `specs/Cutting.antt`,
//!   `proofs/Pieces.antt`
#![tactic(auto)]

mod change;
mod cursor;
mod cutter;
mod cutting;
mod error;
mod modes;
mod step;
mod token;
mod tokens;

pub use change::ModeChange;
pub use cutter::{Cutter, Taken};
pub use error::{SetupError, TokenError};
pub use modes::Modes;
pub use token::ModeToken;
pub use tokens::ModeTokens;
