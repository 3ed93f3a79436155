// Texts in quotation marks.

ghost use Rattle.std.specs.Prelude.{◌≡◌, ◌≤◌, ◌<◌, ◌+◌, ◌∷◌, true, [], IfSome, length};
ghost use Rattle.std.specs.Char.{digit_value, is_ascii_hexdigit};
ghost use Rattle.as3_lexer.specs.Forms.{code_of, is_plain, is_surrogate};
ghost use Rattle.as3_lexer.specs.Scanning.{are_four_digits, are_two_digits, escape_len, is_quote, letter_len, letters_len, text_len};

// The length of the text in quotation marks that begins here.
pub fn text_len(text: &[u8]) -> Option<usize>
    ensures { result ≡ text_len text.now }
{
    let (quote, inner) = text.split_first()?;
    if !is_quote(*quote) {
        return None;
    }
    let len = letters_len(*quote, inner);
    let closing = inner.get(len)?;
    (*closing == *quote).then_some(len + 2)
}

// Whether a byte is a quotation mark or an apostrophe.
fn is_quote(byte: u8) -> bool
    ensures { result ≡ is_quote byte }
{
    byte == b'"' || byte == b'\''
}

// How many bytes the letters at the front of a text have, between such quotation marks.
fn letters_len(quote: u8, text: &[u8]) -> usize
    ensures value { result ≡ letters_len quote 0 text.now }
    ensures within { result ≤ length text.now }
{
    let mut len = 0;
    while let Some(letter) = letter_len(quote, &text[len..]) {
        len += letter;
    }
    len
}

// The length of the letter that begins here, between such quotation marks.
fn letter_len(quote: u8, text: &[u8]) -> Option<usize>
    ensures value { result ≡ letter_len quote text.now }
    ensures some { IfSome result (λ len. 1 ≤ len) }
    ensures within { IfSome result (λ len. len ≤ length text.now) }
{
    let (byte, behind) = text.split_first()?;
    if *byte == b'\\' {
        return escape_len(behind);
    }
    is_plain(quote, *byte).then_some(1)
}

// Whether a byte stands for itself between such quotation marks.
fn is_plain(quote: u8, byte: u8) -> bool
    ensures { result ≡ is_plain quote byte }
{
    byte != quote && byte != b'\n' && byte != b'\\'
}

// The length of the escape whose `\` stands before this.
fn escape_len(behind: &[u8]) -> Option<usize>
    ensures value { result ≡ escape_len behind.now }
    ensures some { IfSome result (λ len. 1 ≤ len) }
    ensures within { IfSome result (λ len. len ≤ length behind.now + 1) }
{
    let (byte, digits) = behind.split_first()?;
    match *byte {
        b'x' => are_two_digits(digits).then_some(4),
        b'u' => are_four_digits(digits).then_some(6),
        b'\n' => None,
        _ => Some(2),
    }
}

// Whether a text begins with two hexadecimal digits.
fn are_two_digits(text: &[u8]) -> bool
    ensures { result ≡ are_two_digits text.now }
{
    match text {
        [a, b, ..] => a.is_ascii_hexdigit() && b.is_ascii_hexdigit(),
        _ => false,
    }
}

// Whether a text begins with four hexadecimal digits that name no surrogate.
fn are_four_digits(text: &[u8]) -> bool
    ensures { result ≡ are_four_digits text.now }
{
    match text {
        [a, b, c, d, ..] => is_code(*a, *b, *c, *d),
        _ => false,
    }
}

// Whether these are hexadecimal digits that name no surrogate.
fn is_code(a: u8, b: u8, c: u8, d: u8) -> bool
    ensures { result ≡ are_four_digits (a ∷ b ∷ c ∷ d ∷ []) }
{
    a.is_ascii_hexdigit()
        && b.is_ascii_hexdigit()
        && c.is_ascii_hexdigit()
        && d.is_ascii_hexdigit()
        && !is_surrogate(a, b, c, d)
}

// Whether four hexadecimal digits name a surrogate.
fn is_surrogate(a: u8, b: u8, c: u8, d: u8) -> bool
    requires a { is_ascii_hexdigit a ≡ true }
    requires b { is_ascii_hexdigit b ≡ true }
    requires c { is_ascii_hexdigit c ≡ true }
    requires d { is_ascii_hexdigit d ≡ true }
    ensures { result ≡ is_surrogate (code_of a b c d) }
{
    let code = ((value(a) * 16 + value(b)) * 16 + value(c)) * 16 + value(d);
    0xD800 <= code && code <= 0xDFFF
}

// The value of a hexadecimal digit.
fn value(digit: u8) -> u32
    requires { is_ascii_hexdigit digit ≡ true }
    ensures value { result ≡ digit_value digit }
    ensures small { result < 16 }
{
    match digit {
        b'0'..=b'9' => u32::from(digit - b'0'),
        b'A'..=b'F' => u32::from(digit - b'A') + 10,
        b'a'..=b'f' => u32::from(digit - b'a') + 10,
        _ => unreachable!(),
    }
}
