// The instructions of the machine, one private function a kind.

ghost use Rattle.std.specs.Prelude.{◌≡◌, IfOk, OnOk, None, Some, slice_get, option_copied};
ghost use Rattle.flex_base.specs.declared.outcome.MachineFault.TheVariants.{WrongKind};
ghost use Rattle.avm2_machine.specs.Machine.{moved, executes, act, pushes, pushes_found, returns_void, sets_local, construct_prop, makes_native, construct_super, calls, calls_method, class_method, places, new_class, MarksMade, sets_property, gets_property, inits_property, listens, traces};
ghost use Rattle.avm2_machine.specs.Names.{name_at, texts_of};
ghost use Rattle.avm2_machine.specs.Tables.{fetch, public_at};

use crate::catalog::NativeClass;
use crate::frame::{CodeFrame, Operand};
use crate::machine::{Machine, alone};
use crate::names::{Name, entry, is_native, name_at, native_at, string_at};
use crate::stage::{Class, Object, Registration, native_slots};
use crate::tables::{fetch, has_class_trait, method_named, public_at};
use abc_format::Abc;
use avm2_code::Instruction;
use flex_base::{MachineFault, NoMemory, Text, TraceItem, Value, same};
use std::alloc::Global;

impl Machine {
    // The next instruction of a frame that was taken off.
    pub(crate) fn execute(
        &mut self,
        alloc: Global,
        abc: &Abc,
        mut frame: CodeFrame,
    ) -> Result<Option<TraceItem>, NoMemory>
        ensures { IfOk result (λ item. moved self.new item ≡ executes abc.now (fetch abc.now frame) frame self.old) }
    {
        let Some((instruction, next)) = fetch(abc, &frame) else {
            self.fault(alloc, MachineFault::NotHere);
            return Ok(None);
        };
        frame.pc = next;
        self.act(alloc, abc, instruction, frame)
    }

    // One instruction of a frame that was taken off, and stands behind the instruction.
    fn act(
        &mut self,
        alloc: Global,
        abc: &Abc,
        instruction: Instruction,
        frame: CodeFrame,
    ) -> Result<Option<TraceItem>, NoMemory>
        ensures { IfOk result (λ item. moved self.new item ≡ act abc.now instruction frame self.old) }
    {
        match instruction {
            Instruction::PushString { string } => {
                self.push_string(alloc, abc, frame, string)?;
                Ok(None)
            }
            Instruction::PushInt { int } => {
                self.push_int(alloc, abc, frame, int)?;
                Ok(None)
            }
            Instruction::ReturnVoid => {
                self.return_void(frame);
                Ok(None)
            }
            Instruction::ConstructSuper { count } => {
                self.construct_super(alloc, frame, count)?;
                Ok(None)
            }
            Instruction::ConstructProp { name, count } => {
                self.construct_prop(alloc, abc, frame, name, count)
            }
            Instruction::CallPropVoid { name, count } => {
                self.call_prop_void(alloc, abc, frame, name, count)
            }
            Instruction::NewClass { class } => {
                self.new_class(alloc, abc, frame, class)?;
                Ok(None)
            }
            Instruction::FindPropStrict { name } => {
                self.find_prop_strict(alloc, abc, frame, name)?;
                Ok(None)
            }
            Instruction::GetLex { name } => {
                self.get_lex(alloc, abc, frame, name)?;
                Ok(None)
            }
            Instruction::SetProperty { name } => self.set_property(alloc, abc, frame, name),
            Instruction::GetProperty { name } => {
                self.get_property(alloc, abc, frame, name)?;
                Ok(None)
            }
            Instruction::InitProperty { name } => {
                self.init_property(alloc, abc, frame, name)?;
                Ok(None)
            }
            Instruction::GetLocal0 => {
                self.get_local(alloc, frame, 0)?;
                Ok(None)
            }
            Instruction::GetLocal1 => {
                self.get_local(alloc, frame, 1)?;
                Ok(None)
            }
            Instruction::SetLocal1 => {
                self.set_local(alloc, frame, 1)?;
                Ok(None)
            }
            _ => {
                self.fault(alloc, MachineFault::NotHere);
                Ok(None)
            }
        }
    }

    // The frame goes on with an operand on its stack.
    fn push(&mut self, mut frame: CodeFrame, operand: Operand) -> Result<(), NoMemory>
        ensures { OnOk result (moved self.new None ≡ pushes operand frame self.old) }
    {
        frame.stack.push(operand)?;
        self.resume(frame)
    }

    // Pushes a text of the pool.
    fn push_string(
        &mut self,
        alloc: Global,
        abc: &Abc,
        frame: CodeFrame,
        string: u32,
    ) -> Result<(), NoMemory>
        ensures { OnOk result (moved self.new None ≡ act abc.now (Instruction.PushString string) frame self.old) }
    {
        let Some(text) = string_at(abc, string) else {
            self.fault(alloc, MachineFault::WrongKind);
            return Ok(());
        };
        let text = Text::make(alloc, text)?;
        self.push(frame, Operand::Value(Value::Text(text)))
    }

    // Pushes an int of the pool.
    fn push_int(
        &mut self,
        alloc: Global,
        abc: &Abc,
        frame: CodeFrame,
        int: u32,
    ) -> Result<(), NoMemory>
        ensures { OnOk result (moved self.new None ≡ act abc.now (Instruction.PushInt int) frame self.old) }
    {
        let Some(number) = entry(abc.constant_pool.integers.as_slice(), int) else {
            self.fault(alloc, MachineFault::WrongKind);
            return Ok(());
        };
        self.push(frame, Operand::Value(Value::Int(*number)))
    }

    // The frame is over, and gives back its level if it took one.
    fn return_void(&mut self, frame: CodeFrame)
        ensures { moved self.new None ≡ returns_void frame self.old }
    {
        if frame.is_activity {
            self.level = self.level.saturating_sub(1);
        }
    }

    // Pushes a local.
    fn get_local(&mut self, alloc: Global, frame: CodeFrame, number: usize) -> Result<(), NoMemory>
        ensures { OnOk result (moved self.new None ≡ pushes_found WrongKind (slice_get frame.locals number) frame self.old) }
    {
        let Some(operand) = frame.locals.get(number) else {
            self.fault(alloc, MachineFault::WrongKind);
            return Ok(());
        };
        let operand = operand.copy()?;
        self.push(frame, operand)
    }

    // Writes a local.
    fn set_local(
        &mut self,
        alloc: Global,
        mut frame: CodeFrame,
        number: usize,
    ) -> Result<(), NoMemory>
        ensures { OnOk result (moved self.new None ≡ sets_local number frame.stack frame self.old) }
    {
        let Some(operand) = frame.stack.pop() else {
            self.fault(alloc, MachineFault::WrongKind);
            return Ok(());
        };
        let Some(local) = frame.locals.get_mut(number) else {
            self.fault(alloc, MachineFault::WrongKind);
            return Ok(());
        };
        *local = operand;
        self.resume(frame)
    }

    // Finds the holder of a name: the native script.
    fn find_prop_strict(
        &mut self,
        alloc: Global,
        abc: &Abc,
        frame: CodeFrame,
        name: u32,
    ) -> Result<(), NoMemory>
        ensures { OnOk result (moved self.new None ≡ act abc.now (Instruction.FindPropStrict name) frame self.old) }
    {
        if is_native(abc, name) {
            self.push(frame, Operand::Natives)
        } else {
            self.fault(alloc, MachineFault::NoName);
            Ok(())
        }
    }

    // Pushes a native class.
    fn get_lex(
        &mut self,
        alloc: Global,
        abc: &Abc,
        frame: CodeFrame,
        name: u32,
    ) -> Result<(), NoMemory>
        ensures { OnOk result (moved self.new None ≡ act abc.now (Instruction.GetLex name) frame self.old) }
    {
        match native_at(abc, name) {
            None => {
                self.fault(alloc, MachineFault::NoName);
                Ok(())
            }
            Some(class) => self.push(frame, Operand::Class(Class::Native(class))),
        }
    }

    // Makes an object of a native class.
    fn construct_prop(
        &mut self,
        alloc: Global,
        abc: &Abc,
        mut frame: CodeFrame,
        name: u32,
        count: u32,
    ) -> Result<Option<TraceItem>, NoMemory>
        ensures { IfOk result (λ item. moved self.new item ≡ construct_prop abc.now name count frame self.old) }
    {
        if count != 0 {
            self.fault(alloc, MachineFault::WrongCount);
            return Ok(None);
        }
        let Some(Operand::Natives) = frame.stack.pop() else {
            self.fault(alloc, MachineFault::NotHere);
            return Ok(None);
        };
        let Some(class) = native_at(abc, name) else {
            self.fault(alloc, MachineFault::NoName);
            return Ok(None);
        };
        self.make_native(alloc, frame, class)
    }

    // Pushes a new object of a native class.
    fn make_native(
        &mut self,
        alloc: Global,
        frame: CodeFrame,
        class: NativeClass,
    ) -> Result<Option<TraceItem>, NoMemory>
        ensures { IfOk result (λ item. moved self.new item ≡ makes_native (Some class) frame self.old) }
    {
        let slots = native_slots(alloc, class)?;
        let Some(object) = self.make(alloc, Class::Native(class), slots, 0)? else {
            return Ok(None);
        };
        let class = Text::make(alloc, class.name())?;
        self.push(frame, Operand::Value(Value::Ref(object)))?;
        Ok(Some(TraceItem::Made { object, class }))
    }

    // The base of every class of the file is native, and its constructor does nothing.
    fn construct_super(
        &mut self,
        alloc: Global,
        mut frame: CodeFrame,
        count: u32,
    ) -> Result<(), NoMemory>
        ensures { OnOk result (moved self.new None ≡ construct_super count frame self.old) }
    {
        if count != 0 {
            self.fault(alloc, MachineFault::WrongCount);
            return Ok(());
        }
        let Some(Operand::Value(Value::Ref(_))) = frame.stack.pop() else {
            self.fault(alloc, MachineFault::WrongKind);
            return Ok(());
        };
        self.resume(frame)
    }

    // A call of a method without arguments, or the runtime call that adds a declared child.
    fn call_prop_void(
        &mut self,
        alloc: Global,
        abc: &Abc,
        frame: CodeFrame,
        name: u32,
        count: u32,
    ) -> Result<Option<TraceItem>, NoMemory>
        ensures { IfOk result (λ item. moved self.new item ≡ calls abc.now (name_at abc.now name) count frame self.old) }
    {
        let Some(name) = name_at(abc, name) else {
            self.fault(alloc, MachineFault::NoName);
            return Ok(None);
        };
        if name.has_texts("flexc", "place") {
            if count != 3 {
                self.fault(alloc, MachineFault::WrongCount);
                return Ok(None);
            }
            return self.place(alloc, frame);
        }
        if name.has_texts("", "addEventListener") {
            if count != 2 {
                self.fault(alloc, MachineFault::WrongCount);
                return Ok(None);
            }
            self.add_event_listener(alloc, frame)?;
            return Ok(None);
        }
        if name.has_texts("", "trace") {
            if count != 1 {
                self.fault(alloc, MachineFault::WrongCount);
                return Ok(None);
            }
            return self.trace(alloc, frame);
        }
        if count != 0 {
            self.fault(alloc, MachineFault::WrongCount);
            return Ok(None);
        }
        self.call_method(alloc, abc, frame, name)
    }

    // A call of a method of the receiver's class.
    fn call_method(
        &mut self,
        alloc: Global,
        abc: &Abc,
        mut frame: CodeFrame,
        name: Name<'_>,
    ) -> Result<Option<TraceItem>, NoMemory>
        ensures { IfOk result (λ item. moved self.new item ≡ calls_method abc.now (texts_of name.entry) frame.stack frame self.old) }
    {
        let Some(Operand::Value(Value::Ref(object))) = frame.stack.pop() else {
            self.fault(alloc, MachineFault::WrongKind);
            return Ok(None);
        };
        let Some(method) = method_of(abc, self.stage.object(object), name) else {
            self.fault(alloc, MachineFault::NoName);
            return Ok(None);
        };
        self.resume(frame)?;
        let receiver = alone(alloc, Operand::Value(Value::Ref(object)))?;
        self.enter(alloc, abc, method, receiver, None)
    }

    // The call `addEventListener`: adds a listener to an object.
    fn add_event_listener(&mut self, alloc: Global, mut frame: CodeFrame) -> Result<(), NoMemory>
        ensures { OnOk result (moved self.new None ≡ listens frame.stack frame self.old) }
    {
        let Some(Operand::Value(Value::Listener(object, method))) = frame.stack.pop() else {
            self.fault(alloc, MachineFault::WrongKind);
            return Ok(());
        };
        let Some(Operand::Value(Value::Text(event))) = frame.stack.pop() else {
            self.fault(alloc, MachineFault::WrongKind);
            return Ok(());
        };
        let Some(Operand::Value(Value::Ref(node))) = frame.stack.pop() else {
            self.fault(alloc, MachineFault::WrongKind);
            return Ok(());
        };
        let listener = Registration {
            event,
            object,
            method,
        };
        self.stage.listen(node, listener)?;
        self.resume(frame)
    }

    // The call `trace`, with one argument.
    fn trace(&mut self, alloc: Global, mut frame: CodeFrame) -> Result<Option<TraceItem>, NoMemory>
        ensures { IfOk result (λ item. moved self.new item ≡ traces frame.stack frame self.old) }
    {
        let Some(Operand::Value(Value::Text(text))) = frame.stack.pop() else {
            self.fault(alloc, MachineFault::WrongKind);
            return Ok(None);
        };
        let Some(Operand::Natives) = frame.stack.pop() else {
            self.fault(alloc, MachineFault::WrongKind);
            return Ok(None);
        };
        self.resume(frame)?;
        Ok(Some(TraceItem::Traced { text }))
    }

    // The runtime call `place`: adds a child to a container.
    fn place(&mut self, alloc: Global, mut frame: CodeFrame) -> Result<Option<TraceItem>, NoMemory>
        ensures { IfOk result (λ item. moved self.new item ≡ places frame.stack frame self.old) }
    {
        let Some(Operand::Value(Value::Int(_))) = frame.stack.pop() else {
            self.fault(alloc, MachineFault::WrongKind);
            return Ok(None);
        };
        let Some(Operand::Value(Value::Ref(child))) = frame.stack.pop() else {
            self.fault(alloc, MachineFault::WrongKind);
            return Ok(None);
        };
        let Some(Operand::Value(Value::Ref(parent))) = frame.stack.pop() else {
            self.fault(alloc, MachineFault::WrongKind);
            return Ok(None);
        };
        let Some(Operand::Value(Value::Ref(_))) = frame.stack.pop() else {
            self.fault(alloc, MachineFault::WrongKind);
            return Ok(None);
        };
        let Some(place) = self.stage.place(parent, child)? else {
            self.fault(alloc, MachineFault::WrongKind);
            return Ok(None);
        };
        self.resume(frame)?;
        Ok(Some(TraceItem::Added {
            parent,
            child,
            place,
        }))
    }

    // Makes a class of the file, and begins its initialiser.
    fn new_class(
        &mut self,
        alloc: Global,
        abc: &Abc,
        mut frame: CodeFrame,
        class: u32,
    ) -> Result<(), NoMemory>
        ensures { OnOk result (moved self.new None ≡ new_class abc.now class frame.stack frame self.old) }
    {
        let Some(Operand::Class(Class::Native(_))) = frame.stack.pop() else {
            self.fault(alloc, MachineFault::WrongKind);
            return Ok(());
        };
        let Some(info) = abc.classes.get(class as usize) else {
            self.fault(alloc, MachineFault::NotHere);
            return Ok(());
        };
        if !self.mark_made(class as usize) {
            self.fault(alloc, MachineFault::NotHere);
            return Ok(());
        }
        frame.stack.push(Operand::Class(Class::File(class)))?;
        self.resume(frame)?;
        let receiver = alone(alloc, Operand::Class(Class::File(class)))?;
        self.open(alloc, abc, info.cinit.number(), receiver, false)
    }

    // Marks a class as made: false where it was made before, or isn't there.
    fn mark_made(&mut self, class: usize) -> bool
        ensures { MarksMade class self.old result self.new }
    {
        let Some(false) = self.made.get(class) else {
            return false;
        };
        if let Some(made) = self.made.get_mut(class) {
            *made = true;
        }
        true
    }

    // Writes a property of an object.
    fn set_property(
        &mut self,
        alloc: Global,
        abc: &Abc,
        mut frame: CodeFrame,
        name: u32,
    ) -> Result<Option<TraceItem>, NoMemory>
        ensures { IfOk result (λ item. moved self.new item ≡ sets_property (public_at abc.now name) frame.stack frame self.old) }
    {
        let Some(Operand::Value(value)) = frame.stack.pop() else {
            self.fault(alloc, MachineFault::WrongKind);
            return Ok(None);
        };
        let Some(Operand::Value(Value::Ref(object))) = frame.stack.pop() else {
            self.fault(alloc, MachineFault::WrongKind);
            return Ok(None);
        };
        let Some(name) = public_at(abc, name) else {
            self.fault(alloc, MachineFault::NoName);
            return Ok(None);
        };
        let Some(slot) = self.stage.property(object, name) else {
            self.fault(alloc, MachineFault::NoName);
            return Ok(None);
        };
        if !self.stage.is_of(&value, slot.kind) {
            self.fault(alloc, MachineFault::NotHere);
            return Ok(None);
        }
        let is_equal = same(&slot.value, &value);
        self.resume(frame)?;
        if is_equal {
            return Ok(None);
        }
        let written = value.clone()?;
        self.stage.write(object, name, value);
        Ok(Some(TraceItem::Written {
            object,
            property: Text::make(alloc, name)?,
            value: written,
        }))
    }

    // Pushes a method of an object as a listener.
    fn get_property(
        &mut self,
        alloc: Global,
        abc: &Abc,
        mut frame: CodeFrame,
        name: u32,
    ) -> Result<(), NoMemory>
        ensures { OnOk result (moved self.new None ≡ gets_property abc.now (name_at abc.now name) frame self.old) }
    {
        let Some(name) = name_at(abc, name) else {
            self.fault(alloc, MachineFault::NoName);
            return Ok(());
        };
        let Some(Operand::Value(Value::Ref(object))) = frame.stack.pop() else {
            self.fault(alloc, MachineFault::WrongKind);
            return Ok(());
        };
        let Some(method) = method_of(abc, self.stage.object(object), name) else {
            self.fault(alloc, MachineFault::NotHere);
            return Ok(());
        };
        self.push(frame, Operand::Value(Value::Listener(object, method)))
    }

    // Writes the class of a script's member into its slot, which no code here reads again.
    fn init_property(
        &mut self,
        alloc: Global,
        abc: &Abc,
        mut frame: CodeFrame,
        name: u32,
    ) -> Result<(), NoMemory>
        ensures { OnOk result (moved self.new None ≡ inits_property abc.now name frame.stack frame self.old) }
    {
        let Some(Operand::Class(Class::File(class))) = frame.stack.pop() else {
            self.fault(alloc, MachineFault::WrongKind);
            return Ok(());
        };
        let Some(Operand::Script(script)) = frame.stack.pop() else {
            self.fault(alloc, MachineFault::WrongKind);
            return Ok(());
        };
        if !has_class_trait(abc, script, name, class) {
            self.fault(alloc, MachineFault::NoName);
            return Ok(());
        }
        self.resume(frame)
    }
}

// The method of this name that an object of a class of the file has.
fn method_of(abc: &Abc, object: Option<&Object>, name: Name<'_>) -> Option<u32>
    ensures { result ≡ class_method abc.now (option_copied object.entry) (texts_of name.entry) }
{
    let Class::File(class) = object?.class else {
        return None;
    };
    let instance = abc.instances.get(class as usize)?;
    method_named(abc, instance.traits.as_slice(), name)
}
