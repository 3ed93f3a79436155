// Changes of what documents keep of their bindings and states.

ghost use Rattle.std.specs.Option.{option_copied};
ghost use Rattle.std.specs.Prelude.{◌≡◌, None, OnOk};
ghost use Rattle.flex_base.specs.Lists.{changed_entry};
ghost use Rattle.flex_objects.specs.Entities.{begun, ended, with_kept, with_open, without_open};
ghost use Rattle.stage_objects.specs.Documents.{binding_in, binding_numbered, enabling, keeps_in, kept_of, starts, with_state};
ghost use Rattle.stage_objects.specs.Entities.{entity_in, with_inside};

use crate::objects::Objects;
use flex_base::{NoMemory, ObjId, Text};
use flex_objects::{EnabledBinding, Entity, Keeping, RegisteredState};

impl Objects {
    /// The binding of a number, as a document enabled it; `None` exactly where it enabled none.
    pub fn binding(&self, document: ObjId, number: u32) -> Option<&EnabledBinding>
        ensures { option_copied result ≡ binding_in document number self.now }
    {
        binding_numbered(self.get(document)?.bindings.as_slice(), number)
    }
}

// Each changes nothing where the document isn't there.
#[tactic(auto, using(crate::proofs::Entries::entry_changed, crate::proofs::Entries::no_entry_changed))]
impl Objects {
    /// A binding is enabled.
    pub fn enable(&mut self, document: ObjId, binding: EnabledBinding) -> Result<(), NoMemory>
        ensures { OnOk result (self.new ≡ changed_entry (enabling binding) self.old document.0) }
    {
        match self.get_mut(document) {
            Some(entity) => enable_in(entity, binding),
            None => Ok(()),
        }
    }

    /// A run of a binding begins.
    pub fn open(&mut self, document: ObjId, binding: u32) -> Result<(), NoMemory>
        ensures { OnOk result (self.new ≡ keeps_in (with_open binding) document self.old) }
    {
        match self.get_mut(document) {
            Some(entity) => entity.keeping.open(binding),
            None => Ok(()),
        }
    }

    /// A run of a binding is over. It takes no memory.
    pub fn close(&mut self, document: ObjId, binding: u32)
        ensures { self.new ≡ keeps_in (without_open binding) document self.old }
    {
        match self.get_mut(document) {
            Some(entity) => entity.keeping.close(binding),
            None => {}
        }
    }

    /// A state is registered behind the others.
    pub fn register(&mut self, document: ObjId, state: RegisteredState) -> Result<(), NoMemory>
        ensures { OnOk result (self.new ≡
            changed_entry (with_inside (with_state state)) self.old document.0) }
    {
        match self.get_mut(document) {
            Some(entity) => entity.states.push(state),
            None => Ok(()),
        }
    }

    /// A document begins to enter its first state.
    pub fn start(&mut self, document: ObjId)
        ensures { self.new ≡ changed_entry (with_inside starts) self.old document.0 }
    {
        match self.get_mut(document) {
            Some(entity) => entity.begun = true,
            None => {}
        }
    }

    /// The name of a state that is asked for is kept, in the place of one that was kept before.
    pub fn keep(&mut self, document: ObjId, name: Text)
        ensures { self.new ≡ keeps_in (with_kept name) document self.old }
    {
        match self.get_mut(document) {
            Some(entity) => entity.keeping.keep(name),
            None => {}
        }
    }

    /// A change of the state begins.
    pub fn begin(&mut self, document: ObjId)
        ensures { self.new ≡ keeps_in begun document self.old }
    {
        match self.get_mut(document) {
            Some(entity) => entity.keeping.begin(),
            None => {}
        }
    }

    /// A change of the state is over; it gives the name that was kept.
    pub fn end(&mut self, document: ObjId) -> Option<Text>
        ensures kept { result ≡ kept_of (entity_in document self.old) }
        ensures after { self.new ≡ keeps_in ended document self.old }
    {
        match self.get_mut(document) {
            Some(entity) => entity.keeping.end(),
            None => None,
        }
    }
}

// A binding is enabled in a document.
fn enable_in(document: &mut Entity, binding: EnabledBinding) -> Result<(), NoMemory>
    ensures { OnOk result (document.new ≡ enabling binding document.old) }
{
    document.keeping.enable(binding.number)?;
    document.bindings.push(binding)
}

// The binding of a number among some.
fn binding_numbered(bindings: &[EnabledBinding], number: u32) -> Option<&EnabledBinding>
    ensures { option_copied result ≡ binding_numbered number bindings.now }
{
    bindings.iter().find(|binding| binding.number == number)
}
