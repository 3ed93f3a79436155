// The keywords.

ghost use Rattle.std.specs.Prelude.{◌≡◌};
ghost use Rattle.as3_lexer.specs.Spelling.{keyword_of, keyword_spelling};

/// A word that is reserved. The reserved words of ActionScript 3 (ActionScript 3.0 Language
/// Specification, "Lexical"); that `override` is one of them is this project's own choice.
#[derive(Clone, Copy, Debug, PartialEq, Eq)]
pub enum Keyword {
    As,
    Break,
    Case,
    Catch,
    Class,
    Const,
    Continue,
    Default,
    Delete,
    Do,
    Else,
    Extends,
    False,
    Finally,
    For,
    Function,
    If,
    Implements,
    Import,
    In,
    InstanceOf,
    Interface,
    Internal,
    Is,
    Native,
    New,
    Null,
    Override,
    Package,
    Private,
    Protected,
    Public,
    Return,
    Super,
    Switch,
    This,
    Throw,
    To,
    True,
    Try,
    TypeOf,
    Use,
    Var,
    Void,
    While,
    With,
}

// The keywords, in the order of the alphabet.
const KEYWORDS: [Keyword; 46] = [
    Keyword::As,
    Keyword::Break,
    Keyword::Case,
    Keyword::Catch,
    Keyword::Class,
    Keyword::Const,
    Keyword::Continue,
    Keyword::Default,
    Keyword::Delete,
    Keyword::Do,
    Keyword::Else,
    Keyword::Extends,
    Keyword::False,
    Keyword::Finally,
    Keyword::For,
    Keyword::Function,
    Keyword::If,
    Keyword::Implements,
    Keyword::Import,
    Keyword::In,
    Keyword::InstanceOf,
    Keyword::Interface,
    Keyword::Internal,
    Keyword::Is,
    Keyword::Native,
    Keyword::New,
    Keyword::Null,
    Keyword::Override,
    Keyword::Package,
    Keyword::Private,
    Keyword::Protected,
    Keyword::Public,
    Keyword::Return,
    Keyword::Super,
    Keyword::Switch,
    Keyword::This,
    Keyword::Throw,
    Keyword::To,
    Keyword::True,
    Keyword::Try,
    Keyword::TypeOf,
    Keyword::Use,
    Keyword::Var,
    Keyword::Void,
    Keyword::While,
    Keyword::With,
];

impl Keyword {
    /// How the keyword is written.
    pub fn spelling(self) -> &'static str
        ensures { result.now ≡ keyword_spelling self }
    {
        match self {
            Keyword::As => "as",
            Keyword::Break => "break",
            Keyword::Case => "case",
            Keyword::Catch => "catch",
            Keyword::Class => "class",
            Keyword::Const => "const",
            Keyword::Continue => "continue",
            Keyword::Default => "default",
            Keyword::Delete => "delete",
            Keyword::Do => "do",
            Keyword::Else => "else",
            Keyword::Extends => "extends",
            Keyword::False => "false",
            Keyword::Finally => "finally",
            Keyword::For => "for",
            Keyword::Function => "function",
            Keyword::If => "if",
            Keyword::Implements => "implements",
            Keyword::Import => "import",
            Keyword::In => "in",
            Keyword::InstanceOf => "instanceof",
            Keyword::Interface => "interface",
            Keyword::Internal => "internal",
            Keyword::Is => "is",
            Keyword::Native => "native",
            Keyword::New => "new",
            Keyword::Null => "null",
            Keyword::Override => "override",
            Keyword::Package => "package",
            Keyword::Private => "private",
            Keyword::Protected => "protected",
            Keyword::Public => "public",
            Keyword::Return => "return",
            Keyword::Super => "super",
            Keyword::Switch => "switch",
            Keyword::This => "this",
            Keyword::Throw => "throw",
            Keyword::To => "to",
            Keyword::True => "true",
            Keyword::Try => "try",
            Keyword::TypeOf => "typeof",
            Keyword::Use => "use",
            Keyword::Var => "var",
            Keyword::Void => "void",
            Keyword::While => "while",
            Keyword::With => "with",
        }
    }
}

// The keyword that is written so.
pub fn keyword_of(word: &[u8]) -> Option<Keyword>
    ensures { result ≡ keyword_of word.now }
{
    KEYWORDS
        .iter()
        .copied()
        .find(|keyword| keyword.spelling().as_bytes() == word)
}
