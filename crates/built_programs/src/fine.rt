// The programs of sources are fine.

ghost use Rattle.built_programs.specs.Fine.{ProgramsAreFine, SourceProgramsAreFine, SourceProgramsAreNeverStuck};

use flex_meaning::fine_programs_are_never_stuck;

/// The program of each document whose elements have distinct ids is fine, and so that of each
/// source that is built; so in no play of it comes up what the checks of a program exclude.
pub fn source_programs_are_fine()
    ensures documents { ProgramsAreFine }
    ensures sources { SourceProgramsAreFine }
    ensures never_stuck { SourceProgramsAreNeverStuck }
{
    fine_programs_are_never_stuck();
}
