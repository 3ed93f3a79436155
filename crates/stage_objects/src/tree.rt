// The tree of components.

ghost use Rattle.std.specs.Option.{option_copied};
ghost use Rattle.std.specs.Prelude.{◌≡◌, ◌≤◌, IfOk, length, option_and_then};
ghost use Rattle.flex_world.specs.Children.{behind, is_forerunner, place_for, precedes};
ghost use Rattle.flex_world.specs.Objects.{is_object_among, parent_of};
ghost use Rattle.stage_objects.specs.Entities.{children_in, object_in, objects_in};
ghost use Rattle.stage_objects.specs.Tree.{path_in, place_among, was_added};

use crate::objects::Objects;
use flex_base::{NoMemory, ObjId, Path};
use flex_objects::{Children, Entity, Spot};
use std::alloc::Global;

impl Objects {
    // The number of objects, events and arrays that were made.
    fn count(&self) -> usize
        ensures { result ≡ length (objects_in self.now) }
    {
        self.len()
    }

    /// The parent of a component; `None` exactly where it has none.
    pub fn parent_of(&self, object: ObjId) -> Option<ObjId>
        ensures { result ≡ parent_of (object_in object self.now) }
    {
        self.get(object)?.parent.object()
    }

    /// Whether a component was added to a parent at some time.
    pub fn was_added(&self, object: ObjId) -> bool
        ensures { result ≡ was_added (object_in object self.now) }
    {
        match self.get(object) {
            Some(entity) => entity.was_added,
            None => false,
        }
    }

    /// An object, its parent, that one's parent, and so on. It makes a list of these alone.
    pub fn path_of(&self, alloc: Global, target: ObjId) -> Result<Path, NoMemory>
        ensures { IfOk result (λ found. found ≡ path_in target self.now) }
    {
        let mut path = Path::new(alloc);
        path.push(target)?;
        let mut next = self.parent_of(target);
        for _ in 0..self.count() {
            let Some(parent) = next else {
                break;
            };
            path.push(parent)?;
            next = self.parent_of(parent);
        }
        Ok(path)
    }

    /// Whether an object is another one or among its ancestors. It takes no memory.
    pub fn holds(&self, holder: ObjId, object: ObjId) -> bool
        ensures { result ≡ is_object_among holder (path_in object self.now) }
    {
        if holder.0 == object.0 {
            return true;
        }
        let mut next = self.parent_of(object);
        for _ in 0..self.count() {
            let Some(parent) = next else {
                return false;
            };
            if holder.0 == parent.0 {
                return true;
            }
            next = self.parent_of(parent);
        }
        false
    }

    /// The place of a child among those that stand in a container: a declared one, which has a spot,
    /// stands directly behind its last forerunner there, and first where it has none; any other last.
    pub fn place_in(&self, container: ObjId, spot: Option<&Spot>) -> usize
        ensures place { result ≡ place_among container (option_copied spot.entry) self.now }
        ensures within { result ≤ length (children_in container self.now) }
    {
        match self.get(container) {
            Some(entity) => self.place_for(spot, &entity.children),
            None => 0,
        }
    }

    // The place of a child among these.
    fn place_for(&self, spot: Option<&Spot>, children: &Children) -> usize
        ensures place { result ≡
            place_for (objects_in self.now) (option_copied spot.entry) children.now }
        ensures within { result ≤ length children.now }
    {
        match spot {
            Some(spot) => self.behind_forerunners(*spot, children),
            None => children.len(),
        }
    }

    // The place behind the last forerunner of a declared child. It looks no further than that one.
    fn behind_forerunners(&self, spot: Spot, children: &Children) -> usize
        ensures place { result ≡ behind (objects_in self.now) spot 0 0 children.now }
        ensures within { result ≤ length children.now }
    {
        let mut place = children.len();
        while place > 0 {
            if self.is_forerunner(spot, children.at(place - 1)) {
                return place;
            }
            place -= 1;
        }
        0
    }

    // Whether a child, if there is one, is a forerunner of a declared child.
    fn is_forerunner(&self, spot: Spot, child: Option<ObjId>) -> bool
        ensures { result ≡
            is_forerunner spot (option_and_then (λ o. object_in o self.now) child) }
    {
        let Some(child) = child else {
            return false;
        };
        match self.get(child) {
            Some(entity) => precedes(spot, entity.spot),
            None => false,
        }
    }
}

// Whether a child with this spot, if it has one, stands before a declared child.
fn precedes(spot: Spot, other: Option<Spot>) -> bool
    ensures { result ≡ precedes spot other }
{
    match other {
        Some(other) => {
            other.container.0 == spot.container.0
                && other.document.0 == spot.document.0
                && other.number < spot.number
        }
        None => false,
    }
}
