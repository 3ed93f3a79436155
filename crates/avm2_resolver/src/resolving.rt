// A whole file made ready.

ghost use Rattle.std.specs.Prelude.{◌≡◌, IfOk, map};
ghost use Rattle.abc_format.specs.declared.records.InstanceInfo.{InstanceInfo};
ghost use Rattle.avm2_program.specs.Naming.{naming_with, own_name_at};
ghost use Rattle.avm2_program.specs.Resolving.{program, program_of};

use crate::bases::{class_bases, type_bases};
use crate::classes::{file_classes, scripts};
use crate::methods::methods;
use abc_format::Abc;
use avm2_program::{OwnName, Program, own_name_at};
use flex_base::{NoMemory, Sequence};
use std::alloc::Global;

/// What a file says, with texts, names, types and members in place of numbers, and with an
/// instruction named by its place in the order of its body. AVM2 Overview, chapters 4 and 5.
pub fn program(alloc: Global, abc: &Abc) -> Result<Program, NoMemory>
    ensures { IfOk result (λ ready. ready ≡ program abc.now) }
{
    let classes = class_names(alloc, abc)?;
    program_of(alloc, abc, classes.as_slice())
}

// The own names of the classes of a file.
fn class_names(alloc: Global, abc: &Abc) -> Result<Sequence<Option<OwnName>>, NoMemory>
    ensures { IfOk result (λ names. names ≡
        map (λ (instance : InstanceInfo). own_name_at abc.now instance.name) abc.now.instances) }
{
    let mut names = Sequence::new(alloc);
    for instance in abc.instances.as_slice() {
        names.push(own_name_at(alloc, abc, instance.name)?)?;
    }
    Ok(names)
}

// The same of a file whose classes have these names.
fn program_of(alloc: Global, abc: &Abc, classes: &[Option<OwnName>]) -> Result<Program, NoMemory>
    ensures { IfOk result (λ ready. ready ≡ program_of (naming_with abc.now classes.now)) }
{
    let types = type_bases(alloc, abc, classes)?;
    let bases = class_bases(alloc, types.as_slice())?;
    Ok(Program {
        methods: methods(alloc, abc, classes)?,
        classes: file_classes(alloc, abc, classes, types.as_slice(), bases.as_slice())?,
        bases,
        scripts: scripts(alloc, abc, classes)?,
    })
}
