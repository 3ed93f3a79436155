// The table of watched chains.

ghost use Rattle.std.specs.Prelude.{◌≡◌, ◌+◌, ◌≤◌, [], Some, IfOk};
ghost use Rattle.watch_table.specs.Affected.{Affects, Changes, lookups, same, with_chain, without_binding};

use crate::fields::Fields;
use crate::pairs::Pairs;
use crate::steps::Steps;
use crate::walk::reaches;
use flex_base::{Chain, NoMemory, ObjId, Text};
use std::alloc::Global;
use std::marker::Model;

/// A watched chain of a binding of a document.
#[derive(Drop)]
pub struct Watched {
    /// The document, where the chain begins.
    pub document: ObjId,
    /// The number of the binding in it.
    pub binding: u32,
    /// The names of the chain.
    pub chain: Chain,
}

/// The watched chains of bindings. After want of memory it holds nothing, and answers `NoMemory`.
/// This project's own.
#[derive(Drop)]
pub struct Watch {
    alloc: Global,
    chains: Option<Vec<Watched>>,
}

impl Model for Watch {
    ghost use Rattle.std.specs.Prelude.{List, Option, option_map};
    ghost use Rattle.watch_table.specs.declared.watch.Watched.{Watched as Chain};

    ghost Value = { Option (List Chain) };

    ghost view = { λ w. option_map (λ v. v.items) w.chains };
}

impl Watch {
    /// No chain. It takes no memory.
    pub fn new(alloc: Global) -> Watch
        ensures { result ≡ Some [] }
    {
        Watch {
            alloc,
            chains: Some(Vec::new(alloc)),
        }
    }

    /// Adds a chain of a binding of a document.
    pub fn add(&mut self, document: ObjId, binding: u32, chain: &Chain) -> Result<(), NoMemory>
        ensures { Changes (with_chain document binding chain.now) self.old result self.new }
    {
        let mut chains = self.chains.take().ok_or(NoMemory)?;
        chains.push(Watched {
            document,
            binding,
            chain: copy(self.alloc, chain)?,
        })?;
        self.chains = Some(chains);
        Ok(())
    }

    /// Removes the chains of a binding of a document; where there are none, it changes nothing.
    pub fn remove(&mut self, document: ObjId, binding: u32) -> Result<(), NoMemory>
        ensures { Changes (without_binding document binding) self.old result self.new }
    {
        let mut chains = self.chains.take().ok_or(NoMemory)?;
        chains.retain(|w| !(w.document.0 == document.0 && w.binding == binding));
        self.chains = Some(chains);
        Ok(())
    }

    /// Tells that a property of an object was changed. The chains are walked anew at each
    /// `affected`, so it leaves the table as it is.
    pub fn changed<W: Fields, L>(
        &mut self,
        _object: ObjId,
        _property: &Text,
        _world: &W,
        _steps: &mut Steps<L>,
    ) -> Result<(), NoMemory>
        ensures after { Changes same self.old result self.new }
        ensures count { _steps.new ≡ _steps.old }
    {
        match &self.chains {
            Some(_) => Ok(()),
            None => Err(NoMemory),
        }
    }

    /// The bindings that a change of a property of an object affects, in a world: those one of
    /// whose chains, walked in it, reaches the object where the property is the next name.
    ///
    /// It counts a step for each chain and at most one for each of its names.
    pub fn affected<W: Fields, L>(
        &self,
        alloc: Global,
        object: ObjId,
        property: &Text,
        world: &W,
        steps: &mut Steps<L>,
    ) -> Result<Pairs, NoMemory>
        ensures value { Affects (W.held world.now) object property.now self.now result }
        ensures count { steps.new ≤ steps.old + lookups self.now }
    {
        let Some(chains) = &self.chains else {
            return Err(NoMemory);
        };
        let mut pairs = Pairs::new(alloc);
        for watched in chains {
            steps.raise();
            let chain = watched.chain.as_slice();
            if reaches(world, watched.document, chain, object, property, steps) {
                pairs.add((watched.document, watched.binding))?;
            }
        }
        Ok(pairs)
    }
}

// The same names.
fn copy(alloc: Global, chain: &Chain) -> Result<Chain, NoMemory>
    ensures { IfOk result (λ copy. copy ≡ chain.now) }
{
    let mut names = Chain::new(alloc);
    for name in chain.as_slice() {
        names.push(name.clone()?)?;
    }
    Ok(names)
}
