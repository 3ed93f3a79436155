// What holds of the writing of all ABCs, and of all pools.

ghost use Rattle.abc_writer.specs.PoolLaws.{NumbersName, NumbersStay, OnlyAppends};
ghost use Rattle.abc_writer.specs.WritingLaws.{AbcIsReadBack, AbcIsWritten};

/// The laws of writing: where some bytes stand for an ABC, what is written of it stands for it too,
/// and is read back as it.
pub fn laws_of_writing()
    ensures written { AbcIsWritten }
    ensures read_back { AbcIsReadBack }
{}

/// The laws of pools: interning only appends, the number that it gives names what it was asked for,
/// and what a number names it names in every pool that further entries were added to.
pub fn laws_of_pools()
    ensures appends { OnlyAppends }
    ensures names { NumbersName }
    ensures stay { NumbersStay }
{}
