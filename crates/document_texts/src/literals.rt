// What texts without parts convert to.

ghost use Rattle.std.specs.Prelude.{◌≡◌, IfOk, option_map};
ghost use Rattle.document_sites.specs.BindingTexts as texts;
ghost use Rattle.document_sites.specs.BindingTexts.{truth_value};
ghost use Rattle.as3_types.specs.Types.{type_of};
ghost use Rattle.source_sites.specs.Types as sites;
ghost use Rattle.document_texts.specs.Scanning.{Reads};
ghost use Rattle.document_texts.specs.Values.{literal_as};

use crate::numbers::whole_number;
use crate::scanning::{Stand, is_written, next_stand};
use as3_types::ValueType;
use flex_base::{Bytes, NoMemory};
use std::alloc::Global;

/// A value that a text of a document converts to.
#[derive(Drop)]
pub enum Literal {
    Truth(bool),
    Whole(i32),
    /// Its bytes, which are UTF-8.
    Quoted(Bytes),
}

/// What a text without parts stands for: its bytes without the backslashes that escape braces.
#[tactic(auto, using(crate::proofs::Pieces::all_written, crate::proofs::Pieces::goes_on_writing))]
pub fn literal_text(alloc: Global, text: &str) -> Result<Bytes, NoMemory>
    ensures { IfOk result (λ bytes. bytes ≡ texts.literal_text text.now) }
{
    let mut written = Bytes::new(alloc);
    let mut stand = Stand::Outside;
    let mut rest = text.as_bytes();
    while let Some((byte, others)) = rest.split_first() {
        stand = read_byte(&mut written, stand, *byte, others)?;
        rest = others;
    }
    Ok(written)
}

// Adds what a byte stands for, and tells where the next one stands.
#[tactic(auto, using(crate::proofs::Pieces::byte_written, crate::proofs::Pieces::byte_skipped))]
fn read_byte(written: &mut Bytes, stand: Stand, byte: u8, others: &[u8]) -> Result<Stand, NoMemory>
    ensures { IfOk result (Reads written.old written.new stand byte others.now) }
{
    let next = next_stand(stand, byte, others);
    if is_written(stand, next) {
        written.push(byte)?;
    }
    Ok(next)
}

/// What a text becomes as a value of a type; `None` exactly where it doesn't convert.
pub fn literal_value(kind: ValueType, text: Bytes) -> Option<Literal>
    ensures { option_map literal_as result ≡ texts.literal_value (type_of kind) text }
{
    match kind {
        ValueType::String => Some(Literal::Quoted(text)),
        ValueType::Int => whole_literal(text.as_slice()),
        ValueType::Boolean => truth_value(text.as_slice()),
        _ => None,
    }
}

fn whole_literal(text: &[u8]) -> Option<Literal>
    ensures { option_map literal_as result ≡ texts.literal_value sites.ValueType.Int text.now }
{
    match whole_number(text) {
        Some(number) => Some(Literal::Whole(number)),
        None => None,
    }
}

fn truth_value(text: &[u8]) -> Option<Literal>
    ensures { option_map literal_as result ≡ truth_value text.now }
{
    if text == b"true".as_slice() {
        Some(Literal::Truth(true))
    } else if text == b"false".as_slice() {
        Some(Literal::Truth(false))
    } else {
        None
    }
}
