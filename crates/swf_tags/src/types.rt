// What a SWF file says, and why bytes are none.

ghost use Rattle.std.specs.Prelude.{◌≡◌};

use flex_base::{Bytes, NoMemory, Sequence, Text};

/// A tag of a file. SWF File Format Specification, version 19, "Tag format".
#[derive(Clone, Copy, Debug, PartialEq, Eq)]
pub struct Tag {
    /// The place of the first byte of its header in the file, from 0.
    pub place: usize,
    /// What kind of tag it is: the upper ten bits of the header's first two bytes.
    pub code: u16,
    /// The number of bytes of its body.
    pub length: u32,
}

/// Tags in the order of their file.
pub type Tags = Sequence<Tag>;

/// What a SWF file says.
#[derive(Drop)]
pub struct Swf {
    /// The version of the format.
    pub version: u8,
    /// The tags of the file in order, the End included.
    pub tags: Tags,
    /// The program: the ABC of the file's one DoABC.
    pub abc: Bytes,
    /// The dotted name of the main class: that of the first pair with the number 0 in the
    /// SymbolClass tags.
    pub main: Text,
}

/// Why bytes are no SWF file. The reasons and their places are this project's own.
#[derive(Clone, Copy, Debug, PartialEq, Eq)]
pub enum SwfReason {
    /// The file is compressed: its first three bytes are `CWS` or `ZWS`. The place is 0.
    Compressed,
    /// The first three bytes aren't `FWS`, or aren't all there. The place is 0.
    NotFws,
    /// The version, the length, the rectangle, the frame rate and the number of frames don't fit.
    /// The place is 3.
    Rect,
    /// No byte is left, and no End came. The place is the length of the file.
    NoEnd,
    /// A tag's header doesn't fit. The place is that of the tag.
    TagHeader,
    /// A tag's body doesn't fit, or a DoABC or a SymbolClass isn't of its form or has a name that
    /// isn't UTF-8. The place is that of the tag.
    TagBody,
    /// There is a second DoABC. The place is that of this tag.
    TwoAbc,
    /// There is no DoABC. The place is that of the End.
    NoAbc,
    /// No pair of a SymbolClass has the number 0. The place is that of the End.
    NoMain,
    /// The length in the header isn't the number of bytes. The place is 4.
    Length,
}

/// Why no SWF file was read.
#[derive(Clone, Copy, Debug, PartialEq, Eq)]
pub enum SwfRefusal {
    /// The bytes are no SWF file: the first bad place, from 0, and the reason.
    BadSwf(usize, SwfReason),
    /// Memory was refused.
    NoMemory,
}

impl From<NoMemory> for SwfRefusal {
    ghost use Rattle.swf_tags.specs.declared.types.SwfRefusal.{SwfRefusal};

    ghost from_gives = { λ _ refusal. refusal ≡ SwfRefusal.NoMemory };

    fn from(_error: NoMemory) -> SwfRefusal {
        SwfRefusal::NoMemory
    }
}

/// The first bad place of bytes that are no SWF file, and the reason.
#[derive(Clone, Copy, Debug, PartialEq, Eq)]
pub struct Fault {
    pub place: usize,
    pub reason: SwfReason,
}

impl From<Fault> for SwfRefusal {
    ghost use Rattle.swf_tags.specs.declared.types.SwfRefusal.{SwfRefusal};

    ghost from_gives = { λ fault refusal. refusal ≡ SwfRefusal.BadSwf fault.place fault.reason };

    fn from(fault: Fault) -> SwfRefusal {
        SwfRefusal::BadSwf(fault.place, fault.reason)
    }
}

/// A tag's header. SWF File Format Specification, version 19, "Tag format".
#[derive(Clone, Copy, Debug, PartialEq, Eq)]
pub struct Header {
    /// What kind of tag it is.
    pub code: u16,
    /// Whether the length stands behind the first two bytes.
    pub long: bool,
    /// The number of bytes of the body.
    pub length: u32,
}

/// What the tags so far gave.
#[derive(Drop)]
pub struct Seen {
    /// The program: the ABC of the DoABC, where it came.
    pub abc: Option<Bytes>,
    /// The name of the main class, where a SymbolClass had it.
    pub main: Option<Text>,
}
