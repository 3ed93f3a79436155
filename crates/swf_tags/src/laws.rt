// What holds of the reading, the feeding and the writing of all files.

ghost use Rattle.swf_tags.specs.SwfLaws.{EarlyFaultStays, EarlyIsKnown, FedInPieces, FedIsRead, ReadIsSwf, SwfIsRead, SwfIsReadBack, SwfIsWritten, SwfOrFault};

/// The laws of reading: bytes are a SWF file that says something exactly where they are read as
/// that, and so all bytes either are a SWF file or have a first fault, and not both.
pub fn laws_of_reading()
    ensures file_is_read { SwfIsRead }
    ensures read_is_file { ReadIsSwf }
    ensures one_of_both { SwfOrFault }
{}

/// The laws of writing: what is written of a name and a program is a SWF file of version 10 with
/// its six tags, and is read back as that.
pub fn laws_of_writing()
    ensures written { SwfIsWritten }
    ensures read_back { SwfIsReadBack }
{}

/// The laws of feeding: a file that is fed byte by byte is read as the whole, pieces that are fed
/// one behind another are fed as one, and an early fault stays whatever follows.
pub fn laws_of_feeding()
    ensures fed_is_read { FedIsRead }
    ensures in_pieces { FedInPieces }
    ensures early_is_known { EarlyIsKnown }
    ensures early_stays { EarlyFaultStays }
{}
