// What texts, CDATA and values of attributes stand for.

ghost use Rattle.std.specs.Prelude.{◌≡◌, ◌≢◌, ◌++◌, [], ◌∷◌, All, List, IfNone, IfOk, IfSome, IsUtf8, OnOk, drop, encode_utf8, if◌then◌else◌, length, map, take};
ghost use Rattle.std.specs.Char.{IsScalar};
ghost use Rattle.mxml_items.specs.Pieces.{BeginsWithReference, Piece, Written};
ghost use Rattle.mxml_tree.specs.Readable.{IsReadable};
ghost use Rattle.mxml_tree.specs.Values.{ArePiecesOf, IsMeant, IsText, StandsFor, cdata_text, text_of, value_of};

use flex_base::{Bytes, NoMemory, Text};
use mxml_items::reference;
use std::alloc::Global;

// What a text stands for: references, and an LF for each line end.
pub fn text_of(alloc: Global, written: &[u8]) -> Result<Text, NoMemory>
    requires { IsReadable written.now }
    ensures { IfOk result (IsText written.now) }
{
    meaning(alloc, written, false)
}

// What the value of an attribute stands for: references, and a space for each line end and TAB.
pub fn value_of(alloc: Global, written: &[u8]) -> Result<Text, NoMemory>
    requires { IsReadable written.now }
    ensures { IfOk result (IsMeant written.now) }
{
    meaning(alloc, written, true)
}

// What the content of CDATA stands for: it has no references, and an LF for each line end.
pub fn cdata_text(alloc: Global, content: &[u8]) -> Result<Text, NoMemory>
    requires { IsUtf8 content.now }
    ensures { IfOk result (λ text. text ≡ cdata_text content.now) }
{
    let mut bytes = Bytes::new(alloc);
    put_plain(&mut bytes, content, false)?;
    text_with(alloc, bytes.as_slice())
}

// What bytes stand for: with `spaces` as the value of an attribute, else as a text.
fn meaning(alloc: Global, written: &[u8], spaces: bool) -> Result<Text, NoMemory>
    requires { IsReadable written.now }
    ensures { IfOk result (StandsFor (if spaces then value_of else text_of) written.now) }
{
    let mut bytes = Bytes::new(alloc);
    let mut rest = written;
    while let Some((plain, c, unread)) = first_reference(rest) {
        put_plain(&mut bytes, plain, spaces)?;
        put_character(&mut bytes, c)?;
        rest = unread;
    }
    put_plain(&mut bytes, rest, spaces)?;
    text_with(alloc, bytes.as_slice())
}

// The character that the first reference in a text names, between what stands before and behind it.
fn first_reference(text: &[u8]) -> Option<(&[u8], u32, &[u8])>
    requires { (pieces : List Piece) × ArePiecesOf pieces text.now }
    ensures none { IfNone result (All (λ b. b ≢ 38) text.now) }
    ensures plain { IfSome result (λ r. All (λ b. b ≢ 38) r.0.now) }
    ensures front { IfSome result (λ r. r.0.now ≡ take (length r.0.now) text.now) }
    ensures reference { IfSome result (λ r. let from = drop (length r.0.now) text.now in
        BeginsWithReference from r.1 r.2.now) }
{
    for i in 0..text.len() {
        if text[i] == b'&' {
            let (plain, from) = text.split_at(i);
            let (c, rest) = reference(from)?;
            return Some((plain, c, rest));
        }
    }
    None
}

// Adds what bytes without references stand for.
fn put_plain(bytes: &mut Bytes, plain: &[u8], spaces: bool) -> Result<(), NoMemory>
    ensures { let read = if spaces then value_of else text_of in
        OnOk result (bytes.new ≡ bytes.old ++ read (map Written plain.now)) }
{
    let mut behind_return = false;
    for byte in plain {
        if !behind_return || *byte != b'\n' {
            bytes.push(plain_byte(*byte, spaces))?;
        }
        behind_return = *byte == b'\r';
    }
    Ok(())
}

// What one byte stands for by itself.
fn plain_byte(byte: u8, spaces: bool) -> u8
    ensures { (if spaces then value_of else text_of) (Written byte ∷ []) ≡ result ∷ [] }
{
    match byte {
        b'\r' | b'\n' | b'\t' if spaces => b' ',
        b'\r' => b'\n',
        _ => byte,
    }
}

// Adds the character with a number.
fn put_character(bytes: &mut Bytes, number: u32) -> Result<(), NoMemory>
    requires { IsScalar number }
    ensures { OnOk result (bytes.new ≡ bytes.old ++ encode_utf8 number) }
{
    match char::from_u32(number) {
        Some(c) => bytes.extend(c.encode_utf8(&mut [0; 4]).as_bytes()),
        None => unreachable!(),
    }
}

// The text with these bytes.
fn text_with(alloc: Global, bytes: &[u8]) -> Result<Text, NoMemory>
    requires { IsUtf8 bytes.now }
    ensures { IfOk result (λ text. text ≡ bytes.now) }
{
    match str::from_utf8(bytes) {
        Ok(text) => Text::make(alloc, text),
        Err(_) => unreachable!(),
    }
}
