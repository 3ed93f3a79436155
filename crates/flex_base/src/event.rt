// What a user does, and where its event arrives.

ghost use Rattle.std.specs.Prelude.{◌≡◌, ◌∷◌, ◌++◌, IfOk, OnOk, string_bytes};
ghost use Rattle.std.specs.List.{flat_map};
ghost use Rattle.flex_base.specs.Events.{path_text, phase_number};

use crate::memory::NoMemory;
use crate::sequence::{Names, Sequence};
use crate::text::Text;
use crate::value::ObjId;
use std::alloc::Global;

/// A line of a script that is to be played, whose last part is the line itself. This project's own.
#[derive(Drop)]
pub enum UserEvent {
    /// A click on the component at the end of a path of names from the main object.
    Click(Names, Text),
    /// A text that is typed into the text input at the end of a path.
    Write(Names, Text, Text),
    /// A request for the state of this name.
    State(Text, Text),
}

/// What a user does, line by line.
pub type Script = Sequence<UserEvent>;

/// A phase of a dispatch. ActionScript 3, event flow.
#[derive(Clone, Copy, Debug, PartialEq, Eq)]
pub enum Phase {
    /// From the outermost ancestor to the target's parent.
    Capture,
    /// At the target.
    Target,
    /// From the target's parent outward.
    Bubble,
}

impl Phase {
    /// The number of the phase: 1, 2 or 3.
    pub fn number(self) -> u8
        ensures { result ≡ phase_number self }
    {
        match self {
            Phase::Capture => 1,
            Phase::Target => 2,
            Phase::Bubble => 3,
        }
    }
}

/// A node at which an event arrives.
#[derive(Clone, Copy, Debug, PartialEq, Eq)]
pub struct Arrival {
    pub node: ObjId,
    pub phase: Phase,
}

/// The names of a path, joined by dots.
pub fn path_text(alloc: Global, path: &Names) -> Result<Text, NoMemory>
    ensures { IfOk result (λ text. text ≡ path_text path.now) }
{
    let Some((first, others)) = path.as_slice().split_first() else {
        return Text::make(alloc, "");
    };
    let mut joined = String::new(alloc);
    joined.push_str(first.as_str())?;
    put_further(&mut joined, others)?;
    Text::make(alloc, &joined)
}

// Each name behind a dot.
fn put_further(joined: &mut String, names: &[Text]) -> Result<(), NoMemory>
    ensures { OnOk result (string_bytes joined.new ≡ string_bytes joined.old ++ flat_map (λ name. 46 ∷ name) names.now) }
{
    for name in names {
        joined.push('.')?;
        joined.push_str(name.as_str())?;
    }
    Ok(())
}
