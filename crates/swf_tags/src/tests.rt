// Files that the format's rules give byte for byte.

ghost use Rattle.std.specs.Prelude.{◌<◌};

use super::{Swf, SwfPush, SwfReason, SwfRefusal, Tag, read_swf, write_swf};
use flex_base::Text;
use std::alloc::Global;
use std::process::Abort;
use std::test::Fail;

// What stands before the length, and from there to the length of DoABC.
const MAGIC: &str = "FWS\n";

const START: [u8; 26] = [
    0x78, 0x00, 0x04, 0xE2, 0x00, 0x00, 0x0E, 0xA6, 0x00, 0x00, 0x18, 0x01, 0x00, 0x44, 0x11, 0x08,
    0x00, 0x00, 0x00, 0x43, 0x02, 0xFF, 0xFF, 0xFF, 0xBF, 0x14,
];

const NAME_OF_ABC: &str = "\0\0\0\0flexc\0";

const LONG_57: &str = "aaaaaaaaaabbbbbbbbbbccccccccccddddddddddeeeeeeeeeefffffff";

const LONG_58: &str = "aaaaaaaaaabbbbbbbbbbccccccccccddddddddddeeeeeeeeeeffffffff";

#[test]
fn files_have_their_layout(rt: HostRuntime) -> Result<(), Fail> {
    let cases: [(&str, &[u8], &[u8], u8); 4] = [
        ("Main", &[], &[0x09, 0x13], 63),
        ("Main", &[1, 2, 3], &[0x09, 0x13], 66),
        (LONG_57, &[7], &[0x3E, 0x13], 117),
        (LONG_58, &[7], &[0x3F, 0x13, 0x3F, 0, 0, 0], 122),
    ];
    for (main, abc, symbol_header, length) in cases {
        let name = Text::make(rt.alloc(), main).map_err(|_| "no memory")?;
        assert!(rt; name.as_str().len() + abc.len() < 1000);
        assert!(rt; name.as_str().as_bytes().iter().all(|byte| *byte != 0));
        let mut wanted = Vec::from_slice(rt.alloc(), MAGIC.as_bytes())?;
        wanted.extend_from_slice(&[length, 0, 0, 0])?;
        wanted.extend_from_slice(&START)?;
        assert!(rt; abc.len() < 100);
        wanted.extend_from_slice(&[abc.len() as u8 + 10, 0, 0, 0])?;
        wanted.extend_from_slice(NAME_OF_ABC.as_bytes())?;
        wanted.extend_from_slice(abc)?;
        wanted.extend_from_slice(symbol_header)?;
        wanted.extend_from_slice(&[1, 0, 0, 0])?;
        wanted.extend_from_slice(main.as_bytes())?;
        wanted.extend_from_slice(&[0, 0x40, 0, 0, 0])?;
        let written = write_swf(rt.alloc(), &name, abc).map_err(|_| "no memory")?;
        assert_eq!(rt; written.as_slice(), wanted.as_slice(), "at {main}");
        assert_eq!(rt; written.len(), length as usize, "at {main}");
    }
    Ok(())
}

// A file that can't be read, the place and the reason.
struct Bad {
    bytes: &'static [u8],
    place: usize,
    reason: SwfReason,
}

// The tags of these files begin at 13, behind a rectangle of one byte.
const BAD: &[Bad] = &[
    Bad {
        bytes: b"CWS",
        place: 0,
        reason: SwfReason::Compressed,
    },
    Bad {
        bytes: b"ZWS\x0d",
        place: 0,
        reason: SwfReason::Compressed,
    },
    Bad {
        bytes: b"FW",
        place: 0,
        reason: SwfReason::NotFws,
    },
    Bad {
        bytes: b"FWs\x0a\x0f\0\0\0\0\0\x18\x01\0\0\0",
        place: 0,
        reason: SwfReason::NotFws,
    },
    Bad {
        bytes: b"FWS",
        place: 3,
        reason: SwfReason::Rect,
    },
    Bad {
        bytes: b"FWS\x0a\x0c\0\0\0\0\0\x18\x01",
        place: 3,
        reason: SwfReason::Rect,
    },
    Bad {
        bytes: b"FWS\x0a\x0d\0\0\0\0\0\x18\x01\0",
        place: 13,
        reason: SwfReason::NoEnd,
    },
    Bad {
        bytes: b"FWS\x0a\x0f\0\0\0\0\0\x18\x01\0\x40\0",
        place: 15,
        reason: SwfReason::NoEnd,
    },
    Bad {
        bytes: b"FWS\x0a\x0f\0\0\0\0\0\x18\x01\0\x40",
        place: 13,
        reason: SwfReason::TagHeader,
    },
    Bad {
        bytes: b"FWS\x0a\x0f\0\0\0\0\0\x18\x01\0\x7f\x13\0\0\0",
        place: 13,
        reason: SwfReason::TagHeader,
    },
    Bad {
        bytes: b"FWS\x0a\x0f\0\0\0\0\0\x18\x01\0\x7f\x13\xff\xff\xff\xff",
        place: 13,
        reason: SwfReason::TagBody,
    },
    Bad {
        bytes: b"FWS\x0a\x0f\0\0\0\0\0\x18\x01\0\x44\x11\x08\0\0",
        place: 13,
        reason: SwfReason::TagBody,
    },
    Bad {
        bytes: b"FWS\x0a\x0f\0\0\0\0\0\x18\x01\0\x85\x14\0\0\0\0M\0\0",
        place: 13,
        reason: SwfReason::TagBody,
    },
    Bad {
        bytes: b"FWS\x0a\x0f\0\0\0\0\0\x18\x01\0\x86\x14\0\0\0\0\xff\0\0\0",
        place: 13,
        reason: SwfReason::TagBody,
    },
    Bad {
        bytes: b"FWS\x0a\x0f\0\0\0\0\0\x18\x01\0\x07\x13\x01\0\0\0M\0M\0\0",
        place: 13,
        reason: SwfReason::TagBody,
    },
    Bad {
        bytes: b"FWS\x0a\x0f\0\0\0\0\0\x18\x01\0\x85\x14\0\0\0\0\0\x85\x14\0\0\0\0\0\0\0",
        place: 20,
        reason: SwfReason::TwoAbc,
    },
    Bad {
        bytes: b"FWS\x0a\x0f\0\0\0\0\0\x18\x01\0\x85\x14\0\0\0\0\0\x84\x14\0\0\0\0\0\0",
        place: 20,
        reason: SwfReason::TagBody,
    },
    Bad {
        bytes: b"FWS\x0a\0\0\0\0\0\0\x18\x01\0\0\0",
        place: 13,
        reason: SwfReason::NoAbc,
    },
    Bad {
        bytes: b"FWS\x0a\0\0\0\0\0\0\x18\x01\0\x85\x14\0\0\0\0\0\x06\x13\x01\0\x01\0M\0\0\0",
        place: 28,
        reason: SwfReason::NoMain,
    },
    Bad {
        bytes: b"FWS\x0a\x1d\0\0\0\0\0\x18\x01\0\x85\x14\0\0\0\0\0\x06\x13\x01\0\0\0M\0\0\0",
        place: 4,
        reason: SwfReason::Length,
    },
];

#[test]
fn bad_files_have_their_first_fault(rt: HostRuntime) -> Result<(), Fail> {
    for bad in BAD {
        let refusal = read_swf(rt.alloc(), bad.bytes).err().ok_or("a file")?;
        assert_eq!(rt; refusal, SwfRefusal::BadSwf(bad.place, bad.reason));
    }
    Ok(())
}

// Version 6, the main class named by the second pair of the second SymbolClass, before the program;
// long headers where short ones serve, an End with a body, and bytes behind it.
const OTHER_FORMS: &[u8] =
    b"FWS\x06\x3c\0\0\0\0\0\x0c\x01\0\x02\x13\0\0\x7f\x13\x05\0\0\0\0\0\0\0\0\x0c\x13\x02\0\x01\0a.B\0\0\0C\0\xbf\x14\x07\0\0\0\x01\0\0\0n\0\x2e\x01\0\xff\x40\0";

const TAGS_OF_OTHER_FORMS: &[Tag] = &[
    Tag {
        place: 13,
        code: 76,
        length: 2,
    },
    Tag {
        place: 17,
        code: 77,
        length: 5,
    },
    Tag {
        place: 28,
        code: 76,
        length: 12,
    },
    Tag {
        place: 42,
        code: 82,
        length: 7,
    },
    Tag {
        place: 55,
        code: 0,
        length: 1,
    },
];

#[test]
fn files_of_other_forms_are_read(rt: HostRuntime) -> Result<(), Fail> {
    let swf = read_swf(rt.alloc(), OTHER_FORMS).map_err(|_| "no file")?;
    assert_eq!(rt; swf.version, 6);
    assert_eq!(rt; swf.tags.as_slice(), TAGS_OF_OTHER_FORMS);
    assert_eq!(rt; swf.abc.as_slice(), [0x2E].as_slice());
    assert_eq!(rt; swf.main.as_str(), "C");
    Ok(())
}

// The tags of the smallest file around an ABC of three bytes.
const WRITTEN_TAGS: &[Tag] = &[
    Tag {
        place: 21,
        code: 69,
        length: 4,
    },
    Tag {
        place: 27,
        code: 9,
        length: 3,
    },
    Tag {
        place: 32,
        code: 82,
        length: 13,
    },
    Tag {
        place: 51,
        code: 76,
        length: 9,
    },
    Tag {
        place: 62,
        code: 1,
        length: 0,
    },
    Tag {
        place: 64,
        code: 0,
        length: 0,
    },
];

#[test]
fn written_files_are_read_whole_and_not_cut(rt: HostRuntime) -> Result<(), Fail> {
    let name = Text::make(rt.alloc(), "Main").map_err(|_| "no memory")?;
    assert!(rt; name.as_str().len() < 1000);
    assert!(rt; name.as_str().as_bytes().iter().all(|byte| *byte != 0));
    let written = write_swf(rt.alloc(), &name, &[1, 2, 3]).map_err(|_| "no memory")?;
    let swf = read_swf(rt.alloc(), written.as_slice()).map_err(|_| "no file")?;
    assert_eq!(rt; swf.version, 10);
    assert_eq!(rt; swf.tags.as_slice(), WRITTEN_TAGS);
    assert_eq!(rt; swf.abc.as_slice(), [1, 2, 3].as_slice());
    assert_eq!(rt; swf.main.as_str(), "Main");
    let cut = written.as_slice().get(..50).ok_or("a short file")?;
    let refusal = read_swf(rt.alloc(), cut).err().ok_or("a file")?;
    assert_eq!(rt; refusal, SwfRefusal::BadSwf(32, SwfReason::TagBody));
    Ok(())
}

// Feeds a piece.
fn feed(rt: &impl Abort, push: &mut SwfPush, piece: &[u8]) -> Result<(), SwfRefusal> {
    let room = u32::MAX - push.fed();
    assert!(rt; piece.len() <= room as usize);
    push.feed(piece)
}

#[test]
fn a_compressed_file_is_refused_at_its_third_byte(rt: HostRuntime) -> Result<(), Fail> {
    let compressed = Err(SwfRefusal::BadSwf(0, SwfReason::Compressed));
    let mut push = SwfPush::new(rt.alloc());
    assert_eq!(rt; feed(&rt, &mut push, &[0x43]), Ok(()));
    assert_eq!(rt; feed(&rt, &mut push, &[0x57]), Ok(()));
    assert_eq!(rt; feed(&rt, &mut push, &[0x53]), compressed);
    assert_eq!(rt; push.fed(), 2);
    assert_eq!(rt; feed(&rt, &mut push, &[0x53]), compressed);
    assert_eq!(rt; feed(&rt, &mut push, &[]), compressed);
    assert_eq!(rt; push.fed(), 2);
    assert_eq!(rt; push.finish().err(), compressed.err());
    Ok(())
}

// What a file says that comes in pieces of so many bytes.
fn read_in_pieces(
    rt: &impl Abort,
    alloc: Global,
    bytes: &[u8],
    size: usize,
) -> Result<Swf, SwfRefusal>
    requires { 0 < size }
{
    let mut push = SwfPush::new(alloc);
    for piece in bytes.chunks(size) {
        feed(rt, &mut push, piece)?;
    }
    push.finish()
}

#[test]
fn files_in_pieces_are_read_as_the_whole(rt: HostRuntime) -> Result<(), Fail> {
    for size in [1, 2, 7] {
        let swf = read_in_pieces(&rt, rt.alloc(), OTHER_FORMS, size).map_err(|_| "no file")?;
        assert_eq!(rt; swf.version, 6);
        assert_eq!(rt; swf.tags.as_slice(), TAGS_OF_OTHER_FORMS);
        assert_eq!(rt; swf.abc.as_slice(), [0x2E].as_slice());
        assert_eq!(rt; swf.main.as_str(), "C");
        for bad in BAD {
            let answer = read_in_pieces(&rt, rt.alloc(), bad.bytes, size);
            assert_eq!(rt;
                answer.err(),
                Some(SwfRefusal::BadSwf(bad.place, bad.reason))
            );
        }
    }
    Ok(())
}
