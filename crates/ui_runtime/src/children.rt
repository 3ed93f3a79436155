// Components stand in containers.

ghost use Rattle.std.specs.Prelude.{◌≡◌, None, option_and_then, option_map};
ghost use Rattle.flex_world.specs.Objects.{parent_of};
ghost use Rattle.ui_runtime.specs.Answers.{Does, Tells, asked};
ghost use Rattle.ui_runtime.specs.Stage.{object_at};
ghost use Rattle.ui_runtime.specs.Tree.{child, child_count, path, places, spot_in, taken_out};

use crate::stage::Stage;
use crate::state::State;
use flex_base::{NoMemory, ObjId, Path, RunRefusal};
use flex_objects::Entity;
use std::alloc::Global;

/// Where a component was put.
#[derive(Clone, Copy, Debug, PartialEq, Eq)]
pub struct Placed {
    /// The parent that it left, if it had one.
    pub from: Option<ObjId>,
    /// Its place among the children of the container, from 0.
    pub place: u32,
    /// Whether it was never added to a parent before.
    pub first: bool,
}

impl Stage {
    /// The number of children of a container.
    pub fn child_count(&self, container: ObjId) -> usize
        ensures { result ≡ asked 0 (child_count container) self.now }
    {
        match self.entity(container) {
            Some(entity) => entity.children.len(),
            None => 0,
        }
    }

    /// The child of a container at a place, from 0; `None` exactly where no child stands there.
    pub fn child_at(&self, container: ObjId, place: i32) -> Option<ObjId>
        ensures { result ≡ asked None (child container place) self.now }
    {
        self.entity(container)?.children.get(place)
    }

    /// An object, its parent, that one's parent, and so on. It makes a list of these alone.
    pub fn path_of(&self, alloc: Global, target: ObjId) -> Result<Path, NoMemory>
        ensures { Tells self.now (path target) result }
    {
        match &self.state {
            Some(state) => state.objects.path_of(alloc, target),
            None => Err(NoMemory),
        }
    }

    /// Puts a component into a container, after it has left its parent: `Cycle` exactly where it is
    /// the container or one of its ancestors, and then nothing changes. With a rank it is a
    /// declared child, of this document and with this number: it goes directly behind its last
    /// forerunner there, and first where it has none. Without one it goes last, and keeps its last
    /// rank.
    pub fn place(
        &mut self,
        container: ObjId,
        child: ObjId,
        rank: Option<(ObjId, u32)>,
    ) -> Result<Placed, RunRefusal>
        ensures { Does self.old (places container child (spot_in container rank)) result self.new }
    {
        let mut state = self.state.take().ok_or(NoMemory)?;
        let placed = state.place(container, child, rank);
        self.keep(state, placed)
    }

    /// Takes a component from its parent, and gives that; `None` exactly where it has none. It
    /// takes no memory.
    pub fn take_out(&mut self, child: ObjId) -> Option<ObjId>
        ensures answer { result ≡ asked None (λ s. parent_of (object_at child s)) self.old }
        ensures after { self.new ≡ option_map (taken_out child) self.old }
    {
        let mut state = self.state.take()?;
        let parent = state.objects.take_out(child);
        self.state = Some(state);
        parent
    }
}
