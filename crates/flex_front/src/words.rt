// The ids and the texts of a source.

ghost use Rattle.std.specs.Prelude.{◌≡◌, ◌↔◌, IsTrue};
ghost use Rattle.flex_front.specs.Source.{IsId, IsPlain, IsText, is_among, is_letter, is_name, is_short, keywords};
ghost use Rattle.std.specs.List.{list_all};

/// The greatest number of letters of a name.
const MOST_LETTERS: usize = 32;

/// The greatest number of bytes of a text.
const MOST_TEXT: usize = 200;

/// The keywords of ActionScript.
const KEYWORDS: [&str; 46] = [
    "as",
    "break",
    "case",
    "catch",
    "class",
    "const",
    "continue",
    "default",
    "delete",
    "do",
    "else",
    "extends",
    "false",
    "finally",
    "for",
    "function",
    "if",
    "implements",
    "import",
    "in",
    "instanceof",
    "interface",
    "internal",
    "is",
    "native",
    "new",
    "null",
    "override",
    "package",
    "private",
    "protected",
    "public",
    "return",
    "super",
    "switch",
    "this",
    "throw",
    "to",
    "true",
    "try",
    "typeof",
    "use",
    "var",
    "void",
    "while",
    "with",
];

/// Properties of an Application.
const PROPERTIES: [&str; 7] = ["visible", "enabled", "x", "y", "width", "height", "parent"];

/// Whether a word may be a name: 1 to 32 lower-case letters, and no keyword of ActionScript.
pub fn is_name(word: &str) -> bool
    ensures { result ≡ is_name word.now }
{
    is_short(word) && are_letters(word) && !is_keyword(word)
}

// Whether a word has 1 to 32 bytes.
fn is_short(word: &str) -> bool
    ensures { result ≡ is_short word.now }
{
    0 < word.len() && word.len() <= MOST_LETTERS
}

// Whether a word has lower-case letters alone.
fn are_letters(word: &str) -> bool
    ensures { result ≡ list_all is_letter word.now }
{
    word.as_bytes().iter().all(|byte| is_letter(*byte))
}

fn is_keyword(word: &str) -> bool
    ensures { result ≡ is_among keywords word.now }
{
    KEYWORDS.contains(&word)
}

// Whether a word may be an id.
pub fn is_id(word: &str) -> bool
    ensures { IsTrue result ↔ IsId word.now }
{
    is_name(word) && !PROPERTIES.contains(&word)
}

// Whether a byte is a lower-case letter.
fn is_letter(byte: u8) -> bool
    ensures { result ≡ is_letter byte }
{
    b'a' <= byte && byte <= b'z'
}

// Whether a text may be an attribute's value.
pub fn is_text(text: &str) -> bool
    ensures { IsTrue result ↔ IsText text.now }
{
    text.len() <= MOST_TEXT && text.as_bytes().iter().all(|byte| is_plain(*byte))
}

// Whether a byte of a text stands for itself.
fn is_plain(byte: u8) -> bool
    ensures { IsTrue result ↔ IsPlain byte }
{
    0x20 <= byte && byte <= 0x7E && !b"\"'<&{}@\\".contains(&byte)
}
