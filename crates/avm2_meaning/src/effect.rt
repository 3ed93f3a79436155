// What a move of a frame comes to.

ghost use Rattle.std.specs.Prelude.{◌≡◌};
ghost use Rattle.avm2_meaning.specs.Effects.{recorded, silent};
ghost use Rattle.avm2_meaning.specs.declared.effect.Next.TheVariants as Next;

use crate::frame::Native;
use crate::operand::Operand;
use flex_base::{Sequence, TraceItem};

/// A body that is to run, with arguments that are converted.
#[derive(Drop)]
pub struct Call {
    /// The number of the method.
    pub method: u32,
    pub receiver: Operand,
    pub arguments: Sequence<Operand>,
    /// Its result goes onto the stack of the frame that is below then.
    pub keeps: bool,
}

/// What becomes of the frame that moved.
#[derive(Drop)]
pub enum Next {
    /// It goes on.
    On,
    /// It goes on where its instruction leads.
    Branches,
    /// It takes a turn.
    Turn,
    /// It is over, and has a result.
    Close(Option<Operand>),
    /// An activity runs above it.
    Calls(Call),
    /// The same of a listener: the record of the move is made only if it starts.
    Hears(Call),
    /// The initialiser of the class of a number runs above it, which is no activity.
    Initialises(u32, Call),
    /// Other work is done above it.
    Opens(Native),
}

/// What a move comes to.
#[derive(Drop)]
pub struct Effect {
    pub next: Next,
    /// The record of the move, if it makes one.
    pub item: Option<TraceItem>,
}

impl Effect {
    /// A move that makes no record.
    pub fn silent(next: Next) -> Effect
        ensures { result ≡ silent next }
    {
        Effect { next, item: None }
    }

    /// A move that makes a record, after which its frame goes on.
    pub fn recorded(item: TraceItem) -> Effect
        ensures { result ≡ recorded item }
    {
        Effect {
            next: Next::On,
            item: Some(item),
        }
    }

    /// A move that opens native work above its frame.
    pub fn opens(native: Native) -> Effect
        ensures { result ≡ silent (Next.Opens native) }
    {
        Effect::silent(Next::Opens(native))
    }
}
