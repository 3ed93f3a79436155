// Laws of what programs mean.

ghost use Rattle.flex_meaning.specs.GoingOn.{MoreTurnsGoOn};
ghost use Rattle.flex_meaning.specs.NeverStuck.{NeverStuck};

/// More turns go on where fewer ended: what was seen is the beginning of what is seen with more
/// turns, and a play that came to another end stays as it was.
pub fn more_turns_go_on()
    ensures { MoreTurnsGoOn }
{}

/// Under each script and with any number of turns something is seen of a fine program: nothing
/// comes up in its play that its checks exclude.
pub fn fine_programs_are_never_stuck()
    ensures { NeverStuck }
{}
