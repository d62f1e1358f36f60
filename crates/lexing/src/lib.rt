//! Texts cut into tokens by the rules of a lexer.
//!
//! A [`Lexer`] is an automaton over characters whose accepting states belong to rules.
//! [`Scanner::tokens`] goes over the tokens of a text: each is the longest piece that some rule
//! accepts from its place on, by the first such rule. A [`Machine`] made from the lexer finds the
//! same tokens faster, and allocates nothing.
//!
//! ```
//! let mut rules = Rules::new(alloc);
//! rules.start(0)?;
//! rules.add(0, '0'..='9', 1)?; // digits
//! rules.add(1, '0'..='9', 1)?;
//! rules.add(0, ' ', 2)?; // a space
//! let mut lexer = Lexer::new(alloc, Moves::build(rules));
//! let number = lexer.add_rule("number", false)?;
//! let space = lexer.add_rule("space", true)?; // whose tokens are skipped
//! lexer.accept(1, number)?;
//! lexer.accept(2, space)?;
//! let mut tokens = lexer.tokens("12 345");
//! assert!(rt; tokens.next() == Some(Ok(Token { rule: number, start: 0, end: 2 })));
//! assert!(rt; tokens.next() == Some(Ok(Token { rule: number, start: 3, end: 6 })));
//! assert!(rt; tokens.next() == None);
//! ```
//!
//! Where to find what:
//!
//! - what the rules of a lexer accept, the token that a text begins with:
//!   `src/{lexer,scanner}.rt`, `specs/{Lexers,Tokens}.antt`, over `Tokens` of the crate `state_sets`
//! - the tokens of a text, one after the other: `src/{tokens,cutting}.rt`,
//!   `specs/{Runs,Given}.antt`, `proofs/{TokenLists,Giving}.antt`
//! - the machine of a lexer, which finds the same tokens: `src/{machine,step}.rt`,
//!   `specs/{Machines,MachineSteps}.antt`, `proofs/{Running,Furthest}.antt`
//! - the same token whatever follows a text: `specs/Settled.antt`, `proofs/Settled.antt`
//! - how it is built, within a budget of states: `src/{build,states,error}.rt`,
//!   `specs/{Building,Budgets}.antt`, `proofs/{Rows,Growing,Meeting}.antt`
//! - lines and columns: `src/{place,placed}.rt`, `specs/Places.antt`, `proofs/Places.antt`
//! - a machine as a table: `src/table.rt`, `specs/Tables.antt`, `proofs/{Tables,Leads}.antt`
#![tactic(auto)]

mod build;
mod cutting;
mod error;
mod lexer;
mod machine;
mod place;
mod placed;
mod scanner;
mod states;
mod step;
mod table;
mod token;
mod tokens;

pub use cutting::cut;
pub use error::BuildError;
pub use lexer::Lexer;
pub use machine::Machine;
pub use place::Place;
pub use placed::{Placed, PlacedTokens};
pub use scanner::Scanner;
pub use state_sets::Match;
pub use table::{Lead, Table, TableState};
pub use token::{LexError, Token};
pub use tokens::Tokens;
