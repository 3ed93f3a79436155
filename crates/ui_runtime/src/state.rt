// What a stage keeps while it has memory.

ghost use Rattle.std.specs.Prelude.{◌≡◌, ◌≤◌, ◌+◌, IfOk, Ok};
ghost use Rattle.ui_runtime.specs.Answers.{Pays, Steps};
ghost use Rattle.ui_runtime.specs.Making.{makes, makes_array, most_cells, pays, takes_number};
ghost use Rattle.ui_runtime.specs.Stage.{empty_stage};

use flex_base::{NoMemory, ObjId, RunRefusal, Stop};
use flex_objects::{ClassInfo, Entity};
use stage_objects::Objects;
use std::alloc::Global;
use std::marker::Model;
use watch_table::Watch;

// The greatest number of cells.
const MOST_CELLS: u32 = 1_000_000;

// What an object costs beside its slots.
const OBJECT_COST: u32 = 16;

/// A stage that has memory: the objects of a play, the watched chains, and the cells that were made.
/// After a call that refuses memory it promises nothing, and is used no more.
#[derive(Drop)]
pub struct State {
    /// The objects, arrays and events, by their numbers.
    pub objects: Objects,
    /// The watched chains of the bindings that are enabled.
    pub watch: Watch,
    // At most 1,000,000.
    cells: u32,
    ghost few: { cells ≤ most_cells },
}

impl Model for State {
    ghost use Rattle.flex_objects.specs.Properties.{items_of};
    ghost use Rattle.ui_runtime.specs.Stage.{Stage as Standing};

    ghost Value = { Standing };

    ghost view = { λ s. record {
      entities = s.objects;
      watched = items_of s.watch;
      cells = s.cells;
    } };
}

impl State {
    /// The state without objects. It takes no memory.
    pub fn new(alloc: Global) -> State
        ensures { result ≡ empty_stage }
    {
        State {
            objects: Objects::new(alloc),
            watch: Watch::new(alloc),
            cells: 0,
        }
    }

    /// Takes the cells of an object, and one for each of its slots; `Cells` where there would be
    /// more than 1,000,000, and then nothing changes.
    pub fn pay(&mut self, object: u32, slots: usize) -> Result<(), Stop>
        ensures { Pays self.old (pays (object + slots) self.old) result self.new }
    {
        let left = MOST_CELLS - self.cells;
        if left < object || ((left - object) as usize) < slots {
            return Err(Stop::Cells);
        }
        self.cells += object + slots as u32;
        Ok(())
    }

    /// Gives an object the next number.
    pub fn add(&mut self, entity: Entity) -> Result<ObjId, NoMemory>
        ensures { IfOk result (λ number. Ok (number, self.new) ≡ takes_number entity self.old) }
    {
        let made = u32::try_from(self.objects.len()).map_err(|_| NoMemory)?;
        let number = made.checked_add(1).ok_or(NoMemory)?;
        self.objects.push(entity)?;
        Ok(ObjId(number))
    }

    /// Makes an object of a class. It costs 16 cells and one for each slot that isn't hidden.
    pub fn make(&mut self, alloc: Global, class: &ClassInfo) -> Result<ObjId, RunRefusal>
        ensures { Steps self.old (makes class.now self.old) result self.new }
    {
        self.pay(OBJECT_COST, class.fields.slot_count())?;
        let entity = Entity::instance(alloc, class)?;
        Ok(self.add(entity)?)
    }

    /// Makes an array without elements. It costs a cell.
    pub fn make_array(&mut self, alloc: Global) -> Result<ObjId, RunRefusal>
        ensures { Steps self.old (makes_array self.old) result self.new }
    {
        self.pay(1, 0)?;
        Ok(self.add(Entity::array(alloc))?)
    }
}
