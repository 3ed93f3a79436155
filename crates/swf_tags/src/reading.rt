// The reading of a whole SWF file.

ghost use Rattle.swf_tags.specs.Reading.{Answers, read_swf};

use crate::stage::{Stage, at_end, feed_stage};
use crate::types::{Swf, SwfRefusal};
use std::alloc::Global;

/// What an uncompressed SWF file says, or the first place at which the bytes are none. SWF File
/// Format Specification, version 19: any version, rectangle and frame rate, the tags in any order
/// and with either form of header, one DoABC among them, and a SymbolClass that names the main
/// class; tags of other kinds are passed over unread, and bytes may stand after the End. The length
/// of a long header is read without a sign, which is this project's own.
pub fn read_swf(alloc: Global, bytes: &[u8]) -> Result<Swf, SwfRefusal>
    ensures { Answers (read_swf bytes.now) result }
{
    let stage = feed_stage(alloc, bytes.len(), Stage::start(alloc), bytes)?;
    let swf = at_end(bytes.len(), stage)?;
    Ok(swf)
}
