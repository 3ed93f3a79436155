// Documents and their bindings.

ghost use Rattle.std.specs.Option.{option_copied};
ghost use Rattle.std.specs.Prelude.{◌≡◌, [], ◌∷◌, None, OnOk, false, option_map};
ghost use Rattle.ui_runtime.specs.Answers.{Changes, asked};
ghost use Rattle.ui_runtime.specs.Documents.{binding_at, binds, closes, is_enabled, is_open, opens, watching};

use crate::stage::Stage;
use crate::state::State;
use flex_base::{Chain, Chains, NoMemory, ObjId};
use flex_objects::{EnabledBinding, Entity};

impl Stage {
    /// Whether a binding of a document is enabled.
    pub fn is_enabled(&self, document: ObjId, binding: u32) -> bool
        ensures { result ≡ asked false (is_enabled document binding) self.now }
    {
        match self.entity(document) {
            Some(entity) => entity.keeping.is_enabled(binding),
            None => false,
        }
    }

    /// Whether a run of a binding of a document is open.
    pub fn is_open(&self, document: ObjId, binding: u32) -> bool
        ensures { result ≡ asked false (is_open document binding) self.now }
    {
        match self.entity(document) {
            Some(entity) => entity.keeping.is_open(binding),
            None => false,
        }
    }

    /// The binding of a number, as a document enabled it; `None` exactly where it enabled none.
    pub fn binding(&self, document: ObjId, number: u32) -> Option<&EnabledBinding>
        ensures { option_copied result ≡ asked None (binding_at document number) self.now }
    {
        self.state.as_ref()?.objects.binding(document, number)
    }

    /// Enables a binding of a document, and watches its chains. After want of memory the stage
    /// holds nothing.
    pub fn bind(
        &mut self,
        document: ObjId,
        binding: EnabledBinding,
        chains: &Chains,
    ) -> Result<(), NoMemory>
        ensures { Changes self.old (binds document binding chains.now) result self.new }
    {
        let mut state = self.state.take().ok_or(NoMemory)?;
        state.watch_all(document, binding.number, chains)?;
        state.objects.enable(document, binding)?;
        self.state = Some(state);
        Ok(())
    }

    /// A run of a binding of a document begins. After want of memory the stage holds nothing.
    pub fn open(&mut self, document: ObjId, binding: u32) -> Result<(), NoMemory>
        ensures { Changes self.old (opens document binding) result self.new }
    {
        let mut state = self.state.take().ok_or(NoMemory)?;
        state.objects.open(document, binding)?;
        self.state = Some(state);
        Ok(())
    }

    /// The run of a binding of a document is over. It takes no memory.
    pub fn close(&mut self, document: ObjId, binding: u32)
        ensures { self.new ≡ option_map (closes document binding) self.old }
    {
        if let Some(state) = &mut self.state {
            state.objects.close(document, binding);
        }
    }
}

impl State {
    // Watches the chains of a binding.
    pub fn watch_all(
        &mut self,
        document: ObjId,
        binding: u32,
        chains: &Chains,
    ) -> Result<(), NoMemory>
        ensures { OnOk result (self.new ≡ watching document binding chains.now self.old) }
    {
        for chain in chains.as_slice() {
            self.watch_one(document, binding, chain)?;
        }
        Ok(())
    }

    // Watches a chain of a binding.
    fn watch_one(&mut self, document: ObjId, binding: u32, chain: &Chain) -> Result<(), NoMemory>
        ensures { OnOk result (self.new ≡ watching document binding (chain.now ∷ []) self.old) }
    {
        self.watch.add(document, binding, chain)
    }
}
