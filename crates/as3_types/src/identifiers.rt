// Texts that are identifiers.

ghost use Rattle.std.specs.Prelude.{◌≡◌};
ghost use Rattle.std.specs.List.{list_all, list_any};
ghost use Rattle.std.specs.Str.{bytes_eq, chars};
ghost use Rattle.as3_lexer.specs.Forms.{continues_word, starts_word};
ghost use Rattle.as3_lexer.specs.Spelling.{keyword_spelling, keywords};
ghost use Rattle.as3_types.specs.Identifiers.{are_word, is_identifier};

use as3_lexer::Keyword;
use unicode_ident::{is_xid_continue, is_xid_start};

/// The reserved words, in the order of the alphabet.
const KEYWORDS: [Keyword; 46] = [
    Keyword::As,
    Keyword::Break,
    Keyword::Case,
    Keyword::Catch,
    Keyword::Class,
    Keyword::Const,
    Keyword::Continue,
    Keyword::Default,
    Keyword::Delete,
    Keyword::Do,
    Keyword::Else,
    Keyword::Extends,
    Keyword::False,
    Keyword::Finally,
    Keyword::For,
    Keyword::Function,
    Keyword::If,
    Keyword::Implements,
    Keyword::Import,
    Keyword::In,
    Keyword::InstanceOf,
    Keyword::Interface,
    Keyword::Internal,
    Keyword::Is,
    Keyword::Native,
    Keyword::New,
    Keyword::Null,
    Keyword::Override,
    Keyword::Package,
    Keyword::Private,
    Keyword::Protected,
    Keyword::Public,
    Keyword::Return,
    Keyword::Super,
    Keyword::Switch,
    Keyword::This,
    Keyword::Throw,
    Keyword::To,
    Keyword::True,
    Keyword::Try,
    Keyword::TypeOf,
    Keyword::Use,
    Keyword::Var,
    Keyword::Void,
    Keyword::While,
    Keyword::With,
];

/// Whether a text is one identifier, and no keyword.
pub fn is_identifier(text: &str) -> bool
    ensures { result ≡ is_identifier text.now }
{
    is_word(text) && !is_keyword(text)
}

fn is_word(text: &str) -> bool
    ensures { result ≡ are_word (chars text.now) }
{
    let mut characters = text.chars();
    let Some(first) = characters.next() else {
        return false;
    };
    starts_word(first) && are_continued(characters.as_str())
}

fn are_continued(text: &str) -> bool
    ensures { result ≡ list_all continues_word (chars text.now) }
{
    text.chars().all(continues_word)
}

fn starts_word(character: char) -> bool
    ensures { result ≡ starts_word character }
{
    is_xid_start(character) || character == '$' || character == '_'
}

fn continues_word(character: char) -> bool
    ensures { result ≡ continues_word character }
{
    is_xid_continue(character) || character == '$'
}

fn is_keyword(text: &str) -> bool
    ensures { result ≡ list_any (λ k. bytes_eq (keyword_spelling k) text.now) keywords }
{
    KEYWORDS.iter().any(|keyword| keyword.spelling() == text)
}
