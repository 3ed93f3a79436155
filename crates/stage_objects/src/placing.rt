// Components are put into containers and taken out of them.

ghost use Rattle.std.specs.Prelude.{◌≡◌, ◌≤◌, OnOk, length};
ghost use Rattle.flex_world.specs.Children.{joined_to};
ghost use Rattle.flex_world.specs.Objects.{parent_of};
ghost use Rattle.stage_objects.specs.Entities.{change_in, children_in, object_in};
ghost use Rattle.stage_objects.specs.Tree.{holding_at, joined_in, lacking, taken_out_in, without_parent};

use crate::objects::Objects;
use flex_base::{NoMemory, ObjId};
use flex_objects::{Entity, Parent, Spot};

impl Objects {
    /// Takes a component from its parent, and gives that; `None` exactly where it has none, and then
    /// nothing changes. It takes no memory.
    pub fn take_out(&mut self, child: ObjId) -> Option<ObjId>
        ensures answer { result ≡ parent_of (object_in child self.old) }
        ensures after { self.new ≡ taken_out_in child self.old }
    {
        let parent = self.parent_of(child)?;
        self.remove_child(parent, child);
        self.clear_parent(child);
        Some(parent)
    }

    /// Puts a component without a parent into a container, at a place from 0, as a declared child
    /// where it has a spot; without one it keeps its last spot.
    pub fn put(
        &mut self,
        container: ObjId,
        child: ObjId,
        spot: Option<Spot>,
        place: usize,
    ) -> Result<(), NoMemory>
        requires { place ≤ length (children_in container self.old) }
        ensures { OnOk result (self.new ≡ joined_in container child spot place self.old) }
    {
        self.insert_child(container, place, child)?;
        self.join(container, child, spot);
        Ok(())
    }
}

#[tactic(auto, using(crate::proofs::Entries::entry_changed, crate::proofs::Entries::no_entry_changed))]
impl Objects {
    // A component has no parent any more.
    fn clear_parent(&mut self, child: ObjId)
        ensures { self.new ≡ change_in child without_parent self.old }
    {
        match self.get_mut(child) {
            Some(entity) => entity.parent = Parent::none(),
            None => {}
        }
    }

    // A component isn't among the children of a container any more.
    fn remove_child(&mut self, container: ObjId, child: ObjId)
        ensures { self.new ≡ change_in container (lacking child) self.old }
    {
        match self.get_mut(container) {
            Some(entity) => entity.children.remove(child),
            None => {}
        }
    }

    // A component is among the children of a container, at a place.
    fn insert_child(&mut self, container: ObjId, place: usize, child: ObjId) -> Result<(), NoMemory>
        requires { place ≤ length (children_in container self.old) }
        ensures { OnOk result (self.new ≡ change_in container (holding_at place child) self.old) }
    {
        match self.get_mut(container) {
            Some(entity) => entity.children.insert(place, child),
            None => Ok(()),
        }
    }

    // A container is the parent of a component, which keeps its last spot where it has no new one.
    fn join(&mut self, container: ObjId, child: ObjId, spot: Option<Spot>)
        ensures { self.new ≡ change_in child (joined_to container spot) self.old }
    {
        match self.get_mut(child) {
            Some(entity) => entity.join(container, spot),
            None => {}
        }
    }
}
