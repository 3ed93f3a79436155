// The writing of a SWF file.

ghost use Rattle.std.specs.Prelude.{◌≡◌, ◌+◌, ◌≤◌, ◌<◌, ◌^◌, ◌++◌, ◌∷◌, [], length, All, ◌≢◌, IfOk, OnOk, if◌then◌else◌, nat_lt};
ghost use Rattle.byteorder.specs.Endian.{little_bytes};
ghost use Rattle.swf_tags.specs.File.{IsSwf, written_tags};
ghost use Rattle.swf_tags.specs.Spelling.{swf_bytes, content, tag, header, long_header, zero_ended, abc_body, symbol_body, do_abc_tag, frame_header, tags};

use crate::format::{
    CODE_UNIT, DO_ABC, END, FILE_ATTRIBUTES, FIXED_SIZE, LONG_FORM, LONG_HEADER_SIZE,
    SET_BACKGROUND_COLOR, SHORT_HEADER_SIZE, SHOW_FRAME, SYMBOL_CLASS,
};
use byteorder::{ByteOrder, LittleEndian};
use flex_base::{Bytes, NoMemory, Text};
use std::alloc::Global;

/// The version of the written files.
const VERSION: u8 = 10;

/// The rectangle of 10,000 by 7,500 twips in 15 bits a side, 24 frames a second, and one frame.
const FRAME_HEADER: [u8; 13] = [
    0x78, 0x00, 0x04, 0xE2, 0x00, 0x00, 0x0E, 0xA6, 0x00, 0x00, 0x18, 0x01, 0x00,
];

// ActionScript 3 and nothing else.
const ATTRIBUTES: [u8; 4] = [0x08, 0x00, 0x00, 0x00];

const WHITE: [u8; 3] = [0xFF, 0xFF, 0xFF];

// The flags of a DoABC and its name `flexc`, with its end.
const PROGRAM_START_SIZE: usize = 10;

// The number of pairs, the number of the one pair, and the end of its name.
const UNNAMED_PAIR_SIZE: usize = 5;

/// The uncompressed SWF file whose main class has the dotted name `main`, and whose one program is
/// `abc`. SWF File Format Specification, version 19: the header, FileAttributes,
/// SetBackgroundColor, DoABC, SymbolClass, ShowFrame and End.
pub fn write_swf(alloc: Global, main: &Text, abc: &[u8]) -> Result<Bytes, NoMemory>
    requires no_zero { All (λ byte. byte ≢ 0) main.now }
    requires fits { length main.now + length abc.now ≤ 2000000000 }
    ensures spelled { IfOk result (λ bytes. bytes ≡ swf_bytes main.now abc.now) }
    ensures related { IfOk result (λ bytes. IsSwf 10 (written_tags main.now abc.now) abc.now main.now bytes) }
{
    let mut bytes = Bytes::new(alloc);
    bytes.extend(b"FWS")?;
    bytes.push(VERSION)?;
    put_u32(&mut bytes, file_length(main.as_str(), abc))?;
    bytes.extend(&FRAME_HEADER)?;
    put_tag(&mut bytes, FILE_ATTRIBUTES, &ATTRIBUTES)?;
    put_tag(&mut bytes, SET_BACKGROUND_COLOR, &WHITE)?;
    put_do_abc(&mut bytes, abc)?;
    put_symbol_class(&mut bytes, main.as_str())?;
    put_tag(&mut bytes, SHOW_FRAME, &[])?;
    put_tag(&mut bytes, END, &[])?;
    Ok(bytes)
}

// The length of the whole file.
fn file_length(main: &str, abc: &[u8]) -> u32
    requires { length main.now + length abc.now ≤ 2000000000 }
    ensures { result ≡ 8 + length (content main.now abc.now) }
{
    let length = FIXED_SIZE
        + FRAME_HEADER.len()
        + tag_size(ATTRIBUTES.len())
        + tag_size(WHITE.len())
        + LONG_HEADER_SIZE
        + PROGRAM_START_SIZE
        + abc.len()
        + tag_size(UNNAMED_PAIR_SIZE + main.len())
        + tag_size(0)
        + tag_size(0);
    length as u32
}

// The bytes of a tag whose body has so many.
fn tag_size(body: usize) -> usize
    requires { body ≤ 2000000005 }
    ensures { result ≡ (if nat_lt body 63 then 2 else 6) + body }
{
    if body < usize::from(LONG_FORM) {
        SHORT_HEADER_SIZE + body
    } else {
        LONG_HEADER_SIZE + body
    }
}

// A tag's header.
fn put_header(bytes: &mut Bytes, code: u16, length: u32) -> Result<(), NoMemory>
    requires { code < 1024 }
    ensures { OnOk result (bytes.new ≡ bytes.old ++ header code length) }
{
    if length < u32::from(LONG_FORM) {
        put_u16(bytes, CODE_UNIT * code + length as u16)
    } else {
        put_long_header(bytes, code, length)
    }
}

// A tag's header with the length behind it.
fn put_long_header(bytes: &mut Bytes, code: u16, length: u32) -> Result<(), NoMemory>
    requires { code < 1024 }
    ensures { OnOk result (bytes.new ≡ bytes.old ++ long_header code length) }
{
    put_u16(bytes, CODE_UNIT * code + LONG_FORM)?;
    put_u32(bytes, length)?;
    Ok(())
}

// A tag: its header, and its body.
fn put_tag(bytes: &mut Bytes, code: u16, body: &[u8]) -> Result<(), NoMemory>
    requires code { code < 1024 }
    requires body { length body.now < 2 ^ 32 }
    ensures { OnOk result (bytes.new ≡ bytes.old ++ tag code body.now) }
{
    put_header(bytes, code, body.len() as u32)?;
    bytes.extend(body)?;
    Ok(())
}

// The program: its flags, its name, and the ABC.
fn put_do_abc(bytes: &mut Bytes, abc: &[u8]) -> Result<(), NoMemory>
    requires { length abc.now ≤ 2000000000 }
    ensures { OnOk result (bytes.new ≡ bytes.old ++ do_abc_tag abc.now) }
{
    put_long_header(bytes, DO_ABC, (PROGRAM_START_SIZE + abc.len()) as u32)?;
    put_u32(bytes, 0)?;
    bytes.extend(b"flexc\0")?;
    bytes.extend(abc)?;
    Ok(())
}

// The name of the main class.
fn put_symbol_class(bytes: &mut Bytes, main: &str) -> Result<(), NoMemory>
    requires { length main.now ≤ 2000000000 }
    ensures { OnOk result (bytes.new ≡ bytes.old ++ tag 76 (symbol_body main.now)) }
{
    put_header(bytes, SYMBOL_CLASS, (UNNAMED_PAIR_SIZE + main.len()) as u32)?;
    put_u16(bytes, 1)?;
    put_u16(bytes, 0)?;
    bytes.extend(main.as_bytes())?;
    bytes.push(0)?;
    Ok(())
}

fn put_u16(bytes: &mut Bytes, number: u16) -> Result<(), NoMemory>
    ensures { OnOk result (bytes.new ≡ bytes.old ++ little_bytes 2 number) }
{
    let mut field = [0; 2];
    LittleEndian::write_u16(&mut field, number);
    bytes.extend(&field)?;
    Ok(())
}

fn put_u32(bytes: &mut Bytes, number: u32) -> Result<(), NoMemory>
    ensures { OnOk result (bytes.new ≡ bytes.old ++ little_bytes 4 number) }
{
    let mut field = [0; 4];
    LittleEndian::write_u32(&mut field, number);
    bytes.extend(&field)?;
    Ok(())
}
