// The parts of a SWF file at the start of bytes, each with what follows it: what stands before the
// tags, and a tag's header; and what the bodies of tags say.

ghost use Rattle.std.specs.Prelude.{◌≡◌, ◌+◌, length, MatchOption, IfSome, Some, None};
ghost use Rattle.std.specs.Option.{option_copied};
ghost use Rattle.swf_tags.specs.Fields.{Finds, Gives};
ghost use Rattle.swf_tags.specs.File.{header_size, main_of, rectangle_size};
ghost use Rattle.swf_tags.specs.Reading.{behind_signature, next_header, next_pair, read_program, read_symbols};
ghost use Rattle.swf_tags.specs.Views.{head_view, pair_view, symbols_view};

use crate::fields::{name, number_of_four, number_of_two};
use crate::format::{CODE_UNIT, FIXED_SIZE, FRAMES_SIZE, LONG_FORM};
use crate::types::Header;

// What stands before the tags.
#[derive(Clone, Copy)]
pub struct Head<'a> {
    pub version: u8,
    // The length that the file says it has.
    pub length: u32,
    // The place of the first tag.
    pub start: usize,
    pub rest: &'a [u8],
}

// The version, the length of the file, the rectangle, the frame rate and the number of frames.
#[tactic(auto, unfolding(crate::specs::Reading::behind_signature, crate::specs::Fields::split))]
pub fn behind_signature(bytes: &[u8]) -> Option<Head<'_>>
    ensures value { Finds (behind_signature bytes.now) head_view result }
    ensures start { IfSome result (λ head. head.start + length head.rest.now ≡ 3 + length bytes.now) }
{
    let (version, rest) = bytes.split_first()?;
    let (length, rest) = number_of_four(rest)?;
    let first = rest.first()?;
    let size = rectangle_size(*first);
    let (_frame, rest) = rest.split_at_checked(size + FRAMES_SIZE)?;
    Some(Head {
        version: *version,
        length,
        start: FIXED_SIZE + size + FRAMES_SIZE,
        rest,
    })
}

// The bytes of a rectangle, by its first byte: the upper five bits say how many bits each of the
// four sides takes.
fn rectangle_size(first: u8) -> usize
    ensures { result ≡ rectangle_size first }
{
    (5 + 4 * (usize::from(first) / 8)).div_ceil(8)
}

// A tag's header, and what follows it.
#[tactic(auto, unfolding(crate::specs::Reading::next_header))]
pub fn next_header(bytes: &[u8]) -> Option<(Header, &[u8])>
    ensures value { MatchOption result (next_header bytes.now ≡ None) (λ r. Gives (next_header bytes.now) r.0 r.1.now) }
    ensures size { IfSome result (λ r. header_size r.0.long + length r.1.now ≡ length bytes.now) }
{
    let (field, rest) = number_of_two(bytes)?;
    let code = field / CODE_UNIT;
    let short = field % CODE_UNIT;
    if short == LONG_FORM {
        let (length, rest) = number_of_four(rest)?;
        let header = Header {
            code,
            long: true,
            length,
        };
        Some((header, rest))
    } else {
        let header = Header {
            code,
            long: false,
            length: u32::from(short),
        };
        Some((header, rest))
    }
}

// The ABC of a DoABC: what follows the flags and the name.
#[tactic(auto, unfolding(crate::specs::Reading::read_program))]
pub fn read_program(body: &[u8]) -> Option<&[u8]>
    ensures { MatchOption result (read_program body.now ≡ None) (λ abc. read_program body.now ≡ Some abc.now) }
{
    let (_flags, rest) = number_of_four(body)?;
    let (_name, abc) = name(rest)?;
    Some(abc)
}

// What a SymbolClass is read for: the name of the main class, if it has one.
#[derive(Clone, Copy)]
pub struct Symbols<'a> {
    pub main: Option<&'a str>,
}

#[tactic(auto, unfolding(crate::specs::Reading::read_symbols))]
pub fn read_symbols(body: &[u8]) -> Option<Symbols<'_>>
    ensures { Finds (read_symbols body.now) symbols_view result }
{
    let (count, mut rest) = number_of_two(body)?;
    let mut main = None;
    for _pair in 0..count {
        let pair = next_pair(rest)?;
        main = main.or(pair.main());
        rest = pair.rest;
    }
    if rest.is_empty() {
        Some(Symbols { main })
    } else {
        None
    }
}

// A pair of a SymbolClass, and what follows it.
#[derive(Clone, Copy)]
struct Pair<'a> {
    id: u16,
    name: &'a str,
    rest: &'a [u8],
}

impl<'a> Pair<'a> {
    // The name of the main class, if it is this one.
    fn main(&self) -> Option<&'a str>
        ensures { option_copied result ≡ main_of (pair_view self.now).it }
    {
        if self.id == 0 { Some(self.name) } else { None }
    }
}

#[tactic(auto, unfolding(crate::specs::Reading::next_pair))]
fn next_pair(bytes: &[u8]) -> Option<Pair<'_>>
    ensures { Finds (next_pair bytes.now) pair_view result }
{
    let (id, rest) = number_of_two(bytes)?;
    let (name, rest) = name(rest)?;
    Some(Pair { id, name, rest })
}
