// Components are put into containers.

ghost use Rattle.std.specs.Prelude.{◌≡◌};
ghost use Rattle.ui_runtime.specs.Answers.{Steps};
ghost use Rattle.ui_runtime.specs.Tree.{places, spot_in};

use crate::children::Placed;
use crate::state::State;
use flex_base::{NoMemory, ObjId, RunRefusal, Stop};
use flex_objects::Spot;

impl State {
    /// Puts a component into a container, after it has left its parent: `Cycle` where it holds the
    /// container. With a rank it is a declared child, and without one it goes last.
    pub fn place(
        &mut self,
        container: ObjId,
        child: ObjId,
        rank: Option<(ObjId, u32)>,
    ) -> Result<Placed, RunRefusal>
        ensures { Steps self.old
            (places container child (spot_in container rank) self.old) result self.new }
    {
        self.place_at(container, child, spot_in(container, rank))
    }

    // Puts a component into a container, after it has left its parent: as a declared child where it
    // has a spot, or else last.
    fn place_at(
        &mut self,
        container: ObjId,
        child: ObjId,
        spot: Option<Spot>,
    ) -> Result<Placed, RunRefusal>
        ensures { Steps self.old (places container child spot self.old) result self.new }
    {
        if self.objects.holds(child, container) {
            return Err(RunRefusal::Stop(Stop::Cycle));
        }
        let from = self.objects.take_out(child);
        let first = !self.objects.was_added(child);
        let place = self.objects.place_in(container, spot.as_ref());
        let number = u32::try_from(place).map_err(|_| NoMemory)?;
        self.objects.put(container, child, spot, place)?;
        Ok(Placed {
            from,
            place: number,
            first,
        })
    }
}

// Where a child with this rank in a container stands.
fn spot_in(container: ObjId, rank: Option<(ObjId, u32)>) -> Option<Spot>
    ensures { result ≡ spot_in container rank }
{
    match rank {
        Some((document, number)) => Some(Spot {
            container,
            document,
            number,
        }),
        None => None,
    }
}
