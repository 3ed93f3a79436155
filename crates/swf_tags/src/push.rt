// The reading of a SWF file in pieces.

ghost use Rattle.std.specs.Prelude.{◌≡◌, ◌+◌, ◌<◌, ◌^◌, length};
ghost use Rattle.swf_tags.specs.Feeding.{start};
ghost use Rattle.swf_tags.specs.Push.{Feeds, finish, push_of};

use crate::stage::{Stage, at_end, feed_stage};
use crate::types::{Fault, Swf, SwfRefusal};
use std::alloc::Global;
use std::marker::Model;

/// A SWF file that is read as its bytes come: it answers what `read_swf` answers for all of them.
/// After the first fault it answers that fault, and after want of memory `NoMemory`, to each later
/// call.
#[derive(Drop)]
pub struct SwfPush {
    alloc: Global,
    taken: u32,
    // None where memory was refused.
    stage: Option<Stage>,
}

impl Model for SwfPush {
    ghost use Rattle.std.specs.Prelude.{IfSome};
    ghost use Rattle.swf_tags.specs.Feeding.{AwaitsByte};
    ghost use Rattle.swf_tags.specs.Push.{Push};

    ghost Value = { Push };

    ghost view = { λ p. record { taken = p.taken; stage = p.stage } };

    ghost invariant = { λ p. IfSome p.stage AwaitsByte };
}

impl SwfPush {
    /// A file of which no byte was taken. It takes no memory.
    pub fn new(alloc: Global) -> SwfPush
        ensures { result ≡ push_of start }
    {
        SwfPush {
            alloc,
            taken: 0,
            stage: Some(Stage::start(alloc)),
        }
    }

    /// The number of bytes that were taken.
    pub fn fed(&self) -> u32
        ensures { result ≡ self.now.taken }
    {
        self.taken
    }

    /// Takes the next bytes of the file, unless the bytes so far have a fault that no further byte
    /// takes away. A piece that is refused isn't taken.
    pub fn feed(&mut self, piece: &[u8]) -> Result<(), SwfRefusal>
        requires { self.old.taken + length piece.now < 2 ^ 32 }
        ensures { Feeds self.old piece.now result self.new }
    {
        let Some(stage) = self.stage.take() else {
            return Err(SwfRefusal::NoMemory);
        };
        if let Stage::Failed(fault) = stage {
            self.stage = Some(Stage::Failed(fault));
            return Err(SwfRefusal::from(fault));
        }
        let end = self.taken as usize + piece.len();
        match feed_stage(self.alloc, end, stage, piece) {
            Ok(stage) => {
                self.taken = end as u32;
                self.stage = Some(stage);
                Ok(())
            }
            Err(SwfRefusal::BadSwf(place, reason)) => {
                self.stage = Some(Stage::Failed(Fault { place, reason }));
                Err(SwfRefusal::BadSwf(place, reason))
            }
            Err(SwfRefusal::NoMemory) => Err(SwfRefusal::NoMemory),
        }
    }

    /// What the file says, all of whose bytes were taken, or its first fault. It takes no memory.
    pub fn finish(self) -> Result<Swf, SwfRefusal>
        ensures { result ≡ finish self }
    {
        let SwfPush {
            alloc: _,
            taken,
            stage,
        } = self;
        let Some(stage) = stage else {
            return Err(SwfRefusal::NoMemory);
        };
        let swf = at_end(taken as usize, stage)?;
        Ok(swf)
    }
}
