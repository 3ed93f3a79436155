// What a token is.

use crate::keyword::Keyword;
use crate::mark::Mark;
use flex_base::Sequence;

/// What kind of token it is.
#[derive(Clone, Copy, Debug, PartialEq, Eq)]
pub enum TokenKind {
    /// A character that Unicode lets begin an identifier, `$` or `_`, and then such as continue
    /// one, or `$`; and no keyword.
    Identifier,
    /// A reserved word.
    Keyword(Keyword),
    /// Decimal digits, or `0x` and hexadecimal digits.
    Number,
    /// A text in quotation marks or apostrophes.
    Text,
    /// A mark of punctuation or an operator.
    Mark(Mark),
}

/// A token of a text, whose own text is that from `start` to `end`.
#[derive(Clone, Copy, Debug, PartialEq, Eq)]
pub struct Token {
    /// The place of its first byte, counted in bytes from the beginning of the text.
    pub start: usize,
    /// The place behind its last byte.
    pub end: usize,
    /// What kind of token it is.
    pub kind: TokenKind,
}

/// The tokens of a text, in order.
pub type TokenList = Sequence<Token>;
