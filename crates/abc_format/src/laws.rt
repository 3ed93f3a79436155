// What holds of the reading of all bytes.

ghost use Rattle.abc_format.specs.AbcLaws.{AbcIsRead, AbcOrFault, OneAbc, ReadIsAbc};

/// The laws of reading: bytes stand for records exactly where they are read as them, so bytes stand
/// for one ABC at most, and all bytes either are an ABC or have a first fault, and not both.
pub fn laws_of_reading()
    ensures abc_is_read { AbcIsRead }
    ensures read_is_abc { ReadIsAbc }
    ensures one { OneAbc }
    ensures one_of_both { AbcOrFault }
{}
