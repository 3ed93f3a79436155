// What a text or the value of an attribute is written with: bytes and references.

ghost use Rattle.std.specs.Prelude.{◌≡◌, ◌≤◌, ◌<◌, MatchOption};
ghost use Rattle.std.specs.Char.{is_ascii_digit, is_ascii_hexdigit, digit_value};
ghost use Rattle.mxml_items.specs.Pieces.{BeginsWithDigits, BeginsWithNamed, BeginsWithReference, HasNoDigits, HasNoNamed, HasNoReference, IsPlain, IsWritten, NamesCharacter, NamesNothing, may_be_named, may_be_written};

use crate::bytes::{ByteKind, behind, run};

// All pieces at the front of a text, between such quotes or outside, and what stands behind them.
pub fn pieces(quote: Option<u8>, text: &[u8]) -> (&[u8], &[u8])
    ensures { IsWritten (may_be_written quote) text.now result.0.now result.1.now }
{
    let mut rest = plain(quote, text);
    while let Some((_, unread)) = reference(rest) {
        rest = plain(quote, unread);
    }
    text.split_at(text.len() - rest.len())
}

// What stands behind the bytes that are written as they are.
fn plain(quote: Option<u8>, text: &[u8]) -> &[u8]
    ensures { IsPlain (may_be_written quote) text.now result.now }
{
    match quote {
        None => run(ByteKind::Plain, text).1,
        Some(quote) => run(ByteKind::PlainExcept(quote), text).1,
    }
}

/// The character that the reference at the front of a text names, and what stands behind it:
/// `&lt;`, `&gt;`, `&amp;`, `&quot;`, `&apos;`, or a character other than 0 by its number, decimal or
/// hexadecimal. XML 1.0, 4.1 and 4.6.
pub fn reference(text: &[u8]) -> Option<(u32, &[u8])>
    ensures { MatchOption result (HasNoReference text.now) (λ r. BeginsWithReference text.now r.0 r.1.now) }
{
    let Some(body) = behind(text, b"&#") else {
        return named(text);
    };
    match behind(body, b"x") {
        Some(digits) => hexadecimal(digits),
        None => decimal(body),
    }
}

// The character that a reference by name at the front of a text names.
fn named(text: &[u8]) -> Option<(u32, &[u8])>
    ensures { MatchOption result (HasNoNamed text.now) (λ r. BeginsWithNamed text.now r.0 r.1.now) }
{
    if let Some(rest) = behind(text, b"&lt;") {
        return Some((60, rest));
    }
    if let Some(rest) = behind(text, b"&gt;") {
        return Some((62, rest));
    }
    if let Some(rest) = behind(text, b"&amp;") {
        return Some((38, rest));
    }
    if let Some(rest) = behind(text, b"&quot;") {
        return Some((34, rest));
    }
    let rest = behind(text, b"&apos;")?;
    Some((39, rest))
}

// The character that decimal digits and `;` at the front of a text name.
fn decimal(text: &[u8]) -> Option<(u32, &[u8])>
    ensures { MatchOption result (HasNoDigits is_ascii_digit 10 text.now) (λ r. BeginsWithDigits is_ascii_digit 10 text.now r.0 r.1.now) }
{
    let (digits, rest) = run(ByteKind::Decimal, text);
    let rest = behind(rest, b";")?;
    let c = character(10, digits)?;
    Some((c, rest))
}

// The character that hexadecimal digits and `;` at the front of a text name.
fn hexadecimal(text: &[u8]) -> Option<(u32, &[u8])>
    ensures { MatchOption result (HasNoDigits is_ascii_hexdigit 16 text.now) (λ r. BeginsWithDigits is_ascii_hexdigit 16 text.now r.0 r.1.now) }
{
    let (digits, rest) = run(ByteKind::Hexadecimal, text);
    let rest = behind(rest, b";")?;
    let c = character(16, digits)?;
    Some((c, rest))
}

// The character that digits of a base name.
fn character(base: u32, digits: &[u8]) -> Option<u32>
    requires low { 1 ≤ base }
    requires high { base ≤ 16 }
    ensures { MatchOption result (NamesNothing base digits.now) (λ c. NamesCharacter base c digits.now) }
{
    if digits.is_empty() {
        return None;
    }
    let mut number = 0;
    for digit in digits {
        number = number * base + digit_value(*digit);
        if number > 0x10_FFFF {
            return None;
        }
    }
    if may_be_named(number) {
        Some(number)
    } else {
        None
    }
}

// What a digit stands for; 36 where a byte is neither a digit nor a letter.
fn digit_value(digit: u8) -> u32
    ensures is { result ≡ digit_value digit }
    ensures small { result ≤ 36 }
{
    match digit {
        b'0'..=b'9' => u32::from(digit - b'0'),
        b'A'..=b'Z' => u32::from(digit - b'A') + 10,
        b'a'..=b'z' => u32::from(digit - b'a') + 10,
        _ => 36,
    }
}

// Whether a reference may name the character with a number: there is one, and it isn't 0.
fn may_be_named(number: u32) -> bool
    ensures { result ≡ may_be_named number }
{
    (number < 0xD800 || (0xE000 <= number && number <= 0x10_FFFF)) && number != 0
}
