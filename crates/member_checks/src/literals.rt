// What texts of code stand for.

ghost use Rattle.std.specs.Prelude.{◌+◌, ◌%◌, ◌≡◌, ◌++◌, ◌<◌, ◌≤◌, ℕ, List, IfOk, OnOk, drop, encode_utf8};
ghost use Rattle.std.specs.Char.{digit_value};
ghost use Rattle.source_sites.specs.Literals as literals;
ghost use Rattle.source_sites.specs.Literals.{escaped, letters_text, quoted_text};
ghost use Rattle.source_sites.specs.Texts.{cut_end};
ghost use Rattle.member_checks.specs.Letters.{Reads, stand_of};

use crate::stands::{Digits, Stand};
use flex_base::{Bytes, NoMemory};
use std::alloc::Global;

/// What a text of code stands for, as it is written with its marks: its bytes, which are UTF-8
/// where it is a token. ActionScript 3.
pub fn quoted_text(alloc: Global, written: &str) -> Result<Bytes, NoMemory>
    ensures { IfOk result (λ text. text ≡ quoted_text written.now) }
{
    let letters = letters_between(written.as_bytes());
    let mut text = Bytes::new(alloc);
    let mut stand = Stand::Itself;
    for byte in letters {
        stand = read_letter(&mut text, stand, *byte)?;
    }
    Ok(text)
}

// What stands between the marks of a text.
fn letters_between(written: &[u8]) -> &[u8]
    ensures { result.now ≡ cut_end 1 (drop 1 written.now) }
{
    let Some((_, behind)) = written.split_first() else {
        return written;
    };
    match behind.split_last() {
        Some((_, letters)) => letters,
        None => behind,
    }
}

// Adds what a byte stands for, and tells where the next one stands.
fn read_letter(text: &mut Bytes, stand: Stand, byte: u8) -> Result<Stand, NoMemory>
    ensures { IfOk result (Reads text.old text.new stand byte) }
{
    match stand {
        Stand::Itself if byte == b'\\' => Ok(Stand::BehindBackslash),
        Stand::Itself => {
            text.push(byte)?;
            Ok(Stand::Itself)
        }
        Stand::BehindBackslash => read_escape(text, byte),
        Stand::Digit(digits) => read_digit(text, digits, byte),
    }
}

fn read_escape(text: &mut Bytes, byte: u8) -> Result<Stand, NoMemory>
    ensures { IfOk result (Reads text.old text.new Stand.BehindBackslash byte) }
{
    match byte {
        b'x' => Ok(digit_before(1)),
        b'u' => Ok(digit_before(3)),
        _ => {
            text.push(escaped(byte))?;
            Ok(Stand::Itself)
        }
    }
}

// The first digit, before so many others.
fn digit_before(others: u8) -> Stand
    requires { others ≤ 3 }
    ensures { stand_of result ≡ literals.Stand.Digit others 0 }
{
    Stand::Digit(Digits { others, number: 0 })
}

fn escaped(byte: u8) -> u8
    ensures { result ≡ escaped byte }
{
    match byte {
        b'b' => 8,
        b't' => 9,
        b'n' => 10,
        b'f' => 12,
        b'r' => 13,
        _ => byte,
    }
}

fn read_digit(text: &mut Bytes, digits: Digits, byte: u8) -> Result<Stand, NoMemory>
    ensures { IfOk result (Reads text.old text.new (Stand.Digit digits) byte) }
{
    let number = digits.number * 16 + digit_value(byte);
    if digits.others == 0 {
        push_character(text, number)?;
        return Ok(Stand::Itself);
    }
    Ok(Stand::Digit(Digits {
        others: digits.others - 1,
        number,
    }))
}

// The value of a digit or a letter, and 36 of any other byte.
fn digit_value(byte: u8) -> u32
    ensures value { result ≡ digit_value byte }
    ensures bound { result ≤ 36 }
{
    match char::from(byte).to_digit(36) {
        Some(value) => value,
        None => 36,
    }
}

// Adds the UTF-8 of a character's number. The number of no token is that of a surrogate, or past
// four digits; that of another text may be, and is spelled in the same way.
fn push_character(text: &mut Bytes, number: u32) -> Result<(), NoMemory>
    requires { number < 1114112 }
    ensures { OnOk result (text.new ≡ text.old ++ encode_utf8 number) }
{
    if number < 0x80 {
        return text.push(number as u8);
    }
    let last = continuing(number);
    if number < 0x800 {
        return text.extend(&[(0xC0 + number / 64) as u8, last]);
    }
    let third = continuing(number / 64);
    if number < 0x1_0000 {
        return text.extend(&[(0xE0 + number / 4096) as u8, third, last]);
    }
    let second = continuing(number / 4096);
    text.extend(&[(0xF0 + number / 262144) as u8, second, third, last])
}

// A byte of UTF-8 behind the first one.
fn continuing(bits: u32) -> u8
    ensures { result ≡ 128 + bits % 64 }
{
    (0x80 + bits % 64) as u8
}
