// Numbers.

ghost use Rattle.std.specs.Prelude.{◌≡◌, ◌≤◌, codes, length};
ghost use Rattle.std.specs.List.{prefix_len};
ghost use Rattle.std.specs.Char.{is_ascii_digit, is_ascii_hexdigit};
ghost use Rattle.as3_lexer.specs.Scanning.{behind, hexadecimal_len, number_len};

use super::gaps::behind;

// The length of the number that begins a text.
pub fn number_len(text: &str) -> Option<usize>
    ensures { result ≡ number_len text.now }
{
    if let Some(len) = hexadecimal_len(text) {
        return Some(len);
    }
    let len = digits_len(text.as_bytes());
    (len > 0).then_some(len)
}

// The length of `0x` and hexadecimal digits.
fn hexadecimal_len(text: &str) -> Option<usize>
    ensures { result ≡ hexadecimal_len (behind (codes "0x") text.now) }
{
    let digits = behind(text, "0x")?;
    let len = hexadecimal_digits_len(digits.as_bytes());
    (len > 0).then_some(len + 2)
}

// How many bytes at the front of a text are decimal digits.
fn digits_len(text: &[u8]) -> usize
    ensures { result ≡ prefix_len is_ascii_digit text.now }
{
    text.iter().take_while(|byte| byte.is_ascii_digit()).count()
}

// How many bytes at the front of a text are hexadecimal digits.
fn hexadecimal_digits_len(text: &[u8]) -> usize
    ensures value { result ≡ prefix_len is_ascii_hexdigit text.now }
    ensures within { result ≤ length text.now }
{
    text.iter()
        .take_while(|byte| byte.is_ascii_hexdigit())
        .count()
}
