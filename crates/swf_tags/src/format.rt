// The codes of the tags, and the sizes of what stands before and in them. SWF File Format
// Specification, version 19: the header, and "Tag format".

pub const END: u16 = 0;

pub const SHOW_FRAME: u16 = 1;

pub const SET_BACKGROUND_COLOR: u16 = 9;

pub const FILE_ATTRIBUTES: u16 = 69;

pub const SYMBOL_CLASS: u16 = 76;

pub const DO_ABC: u16 = 82;

// The first two bytes of a tag are its code times this, and the length of its body.
pub const CODE_UNIT: u16 = 64;

// The length in those bytes that says that the length follows.
pub const LONG_FORM: u16 = 63;

// The bytes of a header with the length in its first two bytes.
pub const SHORT_HEADER_SIZE: usize = 2;

// The bytes of a header with the length behind those.
pub const LONG_HEADER_SIZE: usize = 6;

// The bytes of the signature, behind which the version stands.
pub const SIGNATURE_SIZE: usize = 3;

// The place of the length of the file.
pub const LENGTH_PLACE: usize = 4;

// The bytes of the signature, the version and the length of the file.
pub const FIXED_SIZE: usize = 8;

// The bytes of the frame rate and the number of frames.
pub const FRAMES_SIZE: usize = 4;
