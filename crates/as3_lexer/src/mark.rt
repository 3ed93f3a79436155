// The marks.

ghost use Rattle.std.specs.Prelude.{◌≡◌, nat_eq};
ghost use Rattle.std.specs.List.{starts_with};
ghost use Rattle.as3_lexer.specs.Spelling.{mark_of, mark_spelling};

/// A mark of punctuation or an operator, named after what it mostly stands for.
#[derive(Clone, Copy, Debug, PartialEq, Eq)]
pub enum Mark {
    /// `{`
    LeftBrace,
    /// `}`
    RightBrace,
    /// `(`
    LeftParenthesis,
    /// `)`
    RightParenthesis,
    /// `[`
    LeftBracket,
    /// `]`
    RightBracket,
    /// `;`
    Semicolon,
    /// `,`
    Comma,
    /// `.`
    Dot,
    /// `:`
    Colon,
    /// `?`
    Question,
    /// `=`
    Assign,
    /// `==`
    Equal,
    /// `===`
    StrictEqual,
    /// `!=`
    NotEqual,
    /// `!==`
    StrictNotEqual,
    /// `<`
    Less,
    /// `<=`
    LessOrEqual,
    /// `>`
    Greater,
    /// `>=`
    GreaterOrEqual,
    /// `+`
    Plus,
    /// `-`
    Minus,
    /// `*`
    Star,
    /// `/`
    Slash,
    /// `%`
    Percent,
    /// `!`
    Not,
    /// `&&`
    And,
    /// `||`
    Or,
    /// `+=`
    PlusAssign,
    /// `-=`
    MinusAssign,
    /// `*=`
    StarAssign,
    /// `++`
    Increment,
    /// `--`
    Decrement,
}

// The marks, longer ones first.
const MARKS: [Mark; 33] = [
    Mark::StrictEqual,
    Mark::StrictNotEqual,
    Mark::Equal,
    Mark::NotEqual,
    Mark::LessOrEqual,
    Mark::GreaterOrEqual,
    Mark::And,
    Mark::Or,
    Mark::PlusAssign,
    Mark::MinusAssign,
    Mark::StarAssign,
    Mark::Increment,
    Mark::Decrement,
    Mark::LeftBrace,
    Mark::RightBrace,
    Mark::LeftParenthesis,
    Mark::RightParenthesis,
    Mark::LeftBracket,
    Mark::RightBracket,
    Mark::Semicolon,
    Mark::Comma,
    Mark::Dot,
    Mark::Colon,
    Mark::Question,
    Mark::Assign,
    Mark::Less,
    Mark::Greater,
    Mark::Plus,
    Mark::Minus,
    Mark::Star,
    Mark::Slash,
    Mark::Percent,
    Mark::Not,
];

impl Mark {
    /// How the mark is written.
    pub fn spelling(self) -> &'static str
        ensures { result.now ≡ mark_spelling self }
    {
        match self {
            Mark::LeftBrace => "{",
            Mark::RightBrace => "}",
            Mark::LeftParenthesis => "(",
            Mark::RightParenthesis => ")",
            Mark::LeftBracket => "[",
            Mark::RightBracket => "]",
            Mark::Semicolon => ";",
            Mark::Comma => ",",
            Mark::Dot => ".",
            Mark::Colon => ":",
            Mark::Question => "?",
            Mark::Assign => "=",
            Mark::Equal => "==",
            Mark::StrictEqual => "===",
            Mark::NotEqual => "!=",
            Mark::StrictNotEqual => "!==",
            Mark::Less => "<",
            Mark::LessOrEqual => "<=",
            Mark::Greater => ">",
            Mark::GreaterOrEqual => ">=",
            Mark::Plus => "+",
            Mark::Minus => "-",
            Mark::Star => "*",
            Mark::Slash => "/",
            Mark::Percent => "%",
            Mark::Not => "!",
            Mark::And => "&&",
            Mark::Or => "||",
            Mark::PlusAssign => "+=",
            Mark::MinusAssign => "-=",
            Mark::StarAssign => "*=",
            Mark::Increment => "++",
            Mark::Decrement => "--",
        }
    }
}

// The longest mark that begins a text.
pub fn mark_of(text: &str) -> Option<Mark>
    ensures { result ≡ mark_of text.now }
{
    MARKS
        .iter()
        .copied()
        .find(|mark| begins_with(text, mark.spelling()))
}

// Whether a text begins so.
fn begins_with(text: &str, front: &str) -> bool
    ensures { result ≡ starts_with nat_eq text.now front.now }
{
    text.starts_with(front)
}
