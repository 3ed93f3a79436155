// How far a file is read, and what more bytes do to that.

ghost use Rattle.std.specs.Option.{option_copied};
ghost use Rattle.std.specs.Prelude.{◌≡◌, ◌+◌, ◌-◌, ◌<◌, ◌≤◌, ◌++◌, length, IfOk};
ghost use Rattle.swf_tags.specs.Feeding.{AwaitsByte, Reaches, Steps, at_end, behind_body, early_fault, fed, in_body, in_head, in_header, in_signature, kept_with, start};
ghost use Rattle.swf_tags.specs.File.{first_of};
ghost use Rattle.swf_tags.specs.Reading.{Answers, Tells, behind_signature, ended, next_header, read_program, read_symbols, with_body, with_program, with_symbols};

use crate::format::{DO_ABC, END, LENGTH_PLACE, SIGNATURE_SIZE, SYMBOL_CLASS};
use crate::parts::{behind_signature, next_header, read_program, read_symbols};
use crate::types::{Fault, Header, Seen, Swf, SwfReason, SwfRefusal, Tag, Tags};
use flex_base::{Bytes, NoMemory, Text};
use std::alloc::Global;

/// What stands before the tag that is being read.
#[derive(Drop)]
pub struct Before {
    /// The version of the format.
    pub version: u8,
    /// The length that the file says it has.
    pub said: u32,
    /// The place of the tag.
    pub place: usize,
    /// The tags before it.
    pub tags: Tags,
    /// What these gave.
    pub seen: Seen,
}

/// What of a file is being read, with its bytes so far, and what was read before.
#[derive(Drop)]
pub enum Stage {
    /// The first three bytes.
    Signature(Bytes),
    /// What stands between these and the tags.
    Head(Bytes),
    /// The header of a tag.
    Header(Before, Bytes),
    /// The body of a tag with this header, of which so many bytes are still to come. The bytes so
    /// far are kept of a DoABC and of a SymbolClass, and other bodies are passed over.
    Body(Before, Header, Bytes, u32),
    /// The bytes behind the End of a file that says it has this length.
    Ended(u32, Swf),
    /// Whatever follows the first fault.
    Failed(Fault),
}

impl Stage {
    /// Before the first byte. It takes no memory.
    pub fn start(alloc: Global) -> Stage
        ensures { result ≡ start.stage }
    {
        Stage::Signature(Bytes::new(alloc))
    }
}

/// The stage after these bytes, behind which `end` bytes of the file were taken, or the first fault
/// where it is early.
pub fn feed_stage(
    alloc: Global,
    end: usize,
    stage: Stage,
    piece: &[u8],
) -> Result<Stage, SwfRefusal>
    requires awaits { AwaitsByte stage }
    requires fine { early_fault stage ≡ None }
    requires within { length piece.now ≤ end }
    ensures { Reaches
        (fed (record { taken = end - length piece.now; stage = stage }) piece.now).stage
        result }
{
    let mut stage = stage;
    let mut rest = piece;
    while !rest.is_empty() {
        let (next, count) = next_stage(alloc, end, stage, rest)?;
        stage = next;
        rest = &rest[count..];
    }
    Ok(stage)
}

// The stage after the first of these bytes, or after as many of them as are read at once, and how
// many these are.
fn next_stage(
    alloc: Global,
    end: usize,
    stage: Stage,
    rest: &[u8],
) -> Result<(Stage, usize), SwfRefusal>
    requires awaits { AwaitsByte stage }
    requires some { 0 < length rest.now }
    requires within { length rest.now ≤ end }
    ensures { Steps (record { taken = end - length rest.now; stage = stage }) rest.now result }
{
    match stage {
        Stage::Signature(bytes) => {
            let bytes = extended(bytes, &rest[..1])?;
            Ok((in_signature(alloc, bytes)?, 1))
        }
        Stage::Head(bytes) => {
            let bytes = extended(bytes, &rest[..1])?;
            Ok((in_head(alloc, bytes), 1))
        }
        Stage::Header(before, bytes) => next_tag(alloc, end, before, bytes, rest),
        Stage::Body(before, header, kept, left) => {
            let count = rest.len().min(left as usize);
            let kept = kept_with(header.code, kept, &rest[..count])?;
            let place = end - rest.len() + count;
            let left = left - count as u32;
            Ok((in_body(alloc, place, before, header, kept, left)?, count))
        }
        Stage::Ended(said, swf) => Ok((Stage::Ended(said, swf), rest.len())),
        Stage::Failed(fault) => Err(SwfRefusal::from(fault)),
    }
}

// From the header of a tag on: the stage behind the tag, where all of it stands in these bytes, or
// else behind the first of them, and how many were read. A tag that stands there isn't copied.
fn next_tag(
    alloc: Global,
    end: usize,
    before: Before,
    bytes: Bytes,
    rest: &[u8],
) -> Result<(Stage, usize), SwfRefusal>
    requires some { 0 < length rest.now }
    requires within { length rest.now ≤ end }
    ensures { Steps
        (record { taken = end - length rest.now; stage = Stage.Header before bytes })
        rest.now
        result }
{
    if bytes.is_empty()
        && let Some((header, after)) = next_header(rest)
        && let Some((body, behind)) = after.split_at_checked(header.length as usize)
    {
        let place = end - behind.len();
        let stage = behind_body(alloc, place, before, header, body)?;
        return Ok((stage, rest.len() - behind.len()));
    }
    let bytes = extended(bytes, &rest[..1])?;
    let place = end - rest.len() + 1;
    Ok((in_header(alloc, place, before, bytes)?, 1))
}

// The bytes, and behind them those of a piece.
fn extended(bytes: Bytes, piece: &[u8]) -> Result<Bytes, NoMemory>
    ensures { IfOk result (λ more. more ≡ bytes ++ piece.now) }
{
    let mut bytes = bytes;
    bytes.extend(piece)?;
    Ok(bytes)
}

// The bytes of a body that are kept, with those of a piece.
fn kept_with(code: u16, kept: Bytes, piece: &[u8]) -> Result<Bytes, NoMemory>
    ensures { IfOk result (λ more. more ≡ kept_with code kept piece.now) }
{
    match code {
        DO_ABC | SYMBOL_CLASS => extended(kept, piece),
        _ => Ok(kept),
    }
}

// In the signature, or behind it.
fn in_signature(alloc: Global, bytes: Bytes) -> Result<Stage, SwfRefusal>
    ensures { Reaches (in_signature bytes) result }
{
    match bytes.as_slice() {
        [b'F', b'W', b'S'] => Ok(Stage::Head(Bytes::new(alloc))),
        [b'C' | b'Z', b'W', b'S'] => Err(SwfRefusal::BadSwf(0, SwfReason::Compressed)),
        [_, _, _] => Err(SwfRefusal::BadSwf(0, SwfReason::NotFws)),
        _ => Ok(Stage::Signature(bytes)),
    }
}

// In what stands before the tags, or behind it.
fn in_head(alloc: Global, bytes: Bytes) -> Stage
    ensures is { result ≡ in_head bytes (behind_signature bytes) }
    ensures fine { early_fault result ≡ None }
{
    match behind_signature(bytes.as_slice()) {
        None => Stage::Head(bytes),
        Some(head) => {
            let before = Before {
                version: head.version,
                said: head.length,
                place: head.start,
                tags: Tags::new(alloc),
                seen: Seen {
                    abc: None,
                    main: None,
                },
            };
            Stage::Header(before, Bytes::new(alloc))
        }
    }
}

// In the header of a tag, or behind it.
fn in_header(alloc: Global, place: usize, before: Before, bytes: Bytes) -> Result<Stage, SwfRefusal>
    ensures { Reaches (in_header place before bytes (next_header bytes)) result }
{
    match next_header(bytes.as_slice()) {
        None => Ok(Stage::Header(before, bytes)),
        Some((header, _rest)) => {
            let kept = Bytes::new(alloc);
            in_body(alloc, place, before, header, kept, header.length)
        }
    }
}

// In the body of a tag, or behind it.
fn in_body(
    alloc: Global,
    place: usize,
    before: Before,
    header: Header,
    kept: Bytes,
    left: u32,
) -> Result<Stage, SwfRefusal>
    ensures { Reaches (in_body place before header kept left) result }
{
    if left == 0 {
        behind_body(alloc, place, before, header, kept.as_slice())
    } else {
        Ok(Stage::Body(before, header, kept, left))
    }
}

// Behind a tag whose body is whole.
#[tactic(auto, unfolding(crate::specs::Feeding::behind_body))]
fn behind_body(
    alloc: Global,
    place: usize,
    before: Before,
    header: Header,
    body: &[u8],
) -> Result<Stage, SwfRefusal>
    ensures { Reaches (behind_body place before header body.now) result }
{
    let Before {
        version,
        said,
        place: start,
        mut tags,
        seen,
    } = before;
    tags.push(Tag {
        place: start,
        code: header.code,
        length: header.length,
    })?;
    if header.code == END {
        let swf = ended(version, tags, start, seen)?;
        return Ok(Stage::Ended(said, swf));
    }
    let seen = seen.with_body(alloc, start, header.code, body)?;
    let next = Before {
        version,
        said,
        place,
        tags,
        seen,
    };
    Ok(Stage::Header(next, Bytes::new(alloc)))
}

// What a file says whose End stands at this place.
fn ended(version: u8, tags: Tags, place: usize, seen: Seen) -> Result<Swf, Fault>
    ensures { Tells (ended version tags place seen.abc seen.main) (λ swf. swf) result }
{
    let Seen { abc, main } = seen;
    let Some(abc) = abc else {
        return Err(Fault {
            place,
            reason: SwfReason::NoAbc,
        });
    };
    let Some(main) = main else {
        return Err(Fault {
            place,
            reason: SwfReason::NoMain,
        });
    };
    Ok(Swf {
        version,
        tags,
        abc,
        main,
    })
}

impl Seen {
    // After one more tag, which begins at this place.
    #[tactic(auto, unfolding(crate::specs::Reading::with_body))]
    fn with_body(
        self,
        alloc: Global,
        place: usize,
        code: u16,
        body: &[u8],
    ) -> Result<Seen, SwfRefusal>
        ensures { Answers (with_body place self code body.now) result }
    {
        match code {
            DO_ABC => self.with_program(alloc, place, body),
            SYMBOL_CLASS => self.with_symbols(alloc, place, body),
            _ => Ok(self),
        }
    }

    fn with_program(self, alloc: Global, place: usize, body: &[u8]) -> Result<Seen, SwfRefusal>
        ensures { Answers (with_program place self (read_program body.now)) result }
    {
        let Some(program) = read_program(body) else {
            return Err(SwfRefusal::BadSwf(place, SwfReason::TagBody));
        };
        let Seen { abc: None, main } = self else {
            return Err(SwfRefusal::BadSwf(place, SwfReason::TwoAbc));
        };
        let abc = extended(Bytes::new(alloc), program)?;
        Ok(Seen {
            abc: Some(abc),
            main,
        })
    }

    fn with_symbols(self, alloc: Global, place: usize, body: &[u8]) -> Result<Seen, SwfRefusal>
        ensures { Answers (with_symbols place self (read_symbols body.now)) result }
    {
        let Some(symbols) = read_symbols(body) else {
            return Err(SwfRefusal::BadSwf(place, SwfReason::TagBody));
        };
        let Seen { abc, main } = self;
        let main = first_of(alloc, main, symbols.main)?;
        Ok(Seen { abc, main })
    }
}

// The name, or the other one where there is none.
fn first_of(
    alloc: Global,
    name: Option<Text>,
    other: Option<&str>,
) -> Result<Option<Text>, NoMemory>
    ensures { IfOk result (λ first. first ≡ first_of name (option_copied other.entry)) }
{
    match (name, other) {
        (None, Some(other)) => Ok(Some(Text::make(alloc, other)?)),
        (name, _) => Ok(name),
    }
}

/// What a file of this size says that ends at this stage.
pub fn at_end(size: usize, stage: Stage) -> Result<Swf, Fault>
    ensures { Tells (at_end size stage) (λ swf. swf) result }
{
    let (place, reason) = match stage {
        Stage::Signature(_bytes) => (0, SwfReason::NotFws),
        Stage::Head(_bytes) => (SIGNATURE_SIZE, SwfReason::Rect),
        Stage::Header(before, bytes) if bytes.is_empty() => (before.place, SwfReason::NoEnd),
        Stage::Header(before, _bytes) => (before.place, SwfReason::TagHeader),
        Stage::Body(before, _header, _kept, _left) => (before.place, SwfReason::TagBody),
        Stage::Ended(said, swf) if said as usize == size => return Ok(swf),
        Stage::Ended(_said, _swf) => (LENGTH_PLACE, SwfReason::Length),
        Stage::Failed(fault) => return Err(fault),
    };
    Err(Fault { place, reason })
}
