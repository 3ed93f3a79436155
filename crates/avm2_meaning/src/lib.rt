//! What files mean: the records and the outcome of the play of an ABC, step by step. The functions
//! here do nothing: each is a law that its contract states.
#![tactic(auto)]

mod effect;
mod event;
mod frame;
mod heap;
mod listener;
mod operand;
mod reply;
mod stack;
mod work;

ghost use Rattle.avm2_meaning.specs.Examples.{GreetingPlays, SpentPlays};
ghost use Rattle.avm2_meaning.specs.GoingOn.{EveryPlayEnds, HasOneStory, MoreTurnsGoOn};
ghost use Rattle.avm2_meaning.specs.StopExamples.{StopsByCause};

pub use effect::{Call, Effect, Next};
pub use event::Event;
pub use frame::{Adding, Change, ChangeStep, CodeFrame, Dispatch, Frame, Native, Starting};
pub use heap::{Heap, MadeClass, ObjectPlace, Statics};
pub use listener::{Listener, Watcher};
pub use operand::Operand;
pub use reply::Reply;
pub use stack::Stack;
pub use work::Work;

/// Every play of verified code ends. A file shows one story at most under a script, with so many
/// turns; so verified code shows exactly one. More turns go on where fewer ended: what was seen is
/// the beginning of what is seen with more turns, and a play that came to another end stays as it
/// was.
pub fn laws_of_plays()
    ensures ends { EveryPlayEnds }
    ensures one { HasOneStory }
    ensures more { MoreTurnsGoOn }
{}

/// What small files come to, by computation: an application that traces a text, with turns and
/// without, and a file for each machine fault and for nine of the twelve stops.
pub fn small_files_mean()
    ensures greeting { GreetingPlays }
    ensures spent { SpentPlays }
    ensures stops { StopsByCause }
{}
