//! The tokens of ActionScript: a text is cut into the longest matches, one behind another, or the
//! place is named where none begins.
#![tactic(auto)]

mod keyword;
mod mark;
mod reading;
mod scanning;
#[cfg(test)]
mod tests;
mod token;

pub use keyword::Keyword;
pub use mark::Mark;
pub use reading::{LexRefusal, laws_of_tokens, tokens};
pub use token::{Token, TokenKind, TokenList};
