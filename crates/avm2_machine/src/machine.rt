// The machine that plays an ABC, as far as the emitted code needs it.

ghost use Rattle.std.specs.Prelude.{◌≡◌, ◌<◌, ◌++◌, [], ◌∷◌, None, Some, false, IfOk, OnOk, slice_get, replicate};
ghost use Rattle.avm2_machine.specs.Machine.{start, moved, ended, making, makes, opened, opens_body, entered, with_frame, continues, idle, makes_main, main_of, inits_script, loads, step, result_of};
ghost use Rattle.avm2_machine.specs.Progress.{remaining};
ghost use Rattle.avm2_machine.specs.Tables.{declared_onto};

use crate::frame::{CodeFrame, Frame, Operand};
use crate::stack::Stack;
use crate::stage::{Class, Slot, Stage};
use crate::tables::{body_of, declared_onto, first_locals, public_at};
use abc_format::{Abc, InstanceInfo};
use flex_base::{
    MachineFault, NoMemory, ObjId, Outcome, RunRefusal, Sequence, Stop, Text, TraceItem, Value,
};
use std::alloc::Global;

/// The greatest number of activities that may be open at once.
pub const MOST_LEVELS: u32 = 256;

/// What remains of the load of a file.
#[derive(Clone, Copy, Debug, PartialEq, Eq)]
pub enum Load {
    /// The initialisers of the scripts from this number on, and all that follows.
    Scripts(usize),
    /// The making of the main object.
    Main,
    /// Nothing.
    Done,
}

/// The machine between two steps.
#[derive(Drop)]
pub struct Machine {
    /// The open frames, the innermost first.
    pub frames: Stack<Frame>,
    pub load: Load,
    /// For each class of the file, whether it was made.
    pub made: Sequence<bool>,
    /// The main object, once it was made.
    pub main: Option<ObjId>,
    pub stage: Stage,
    /// How many activities are open.
    pub level: u32,
    pub turns: u32,
    /// How the play ended, if it has.
    pub outcome: Option<Outcome>,
}

impl Machine {
    /// A machine before the load of a file with so many classes.
    pub fn load(alloc: Global, classes: usize, turns: u32) -> Result<Machine, NoMemory>
        ensures { IfOk result (λ machine. machine ≡ start classes turns) }
    {
        let mut made = Sequence::new(alloc);
        put_unmade(&mut made, classes)?;
        Ok(Machine {
            frames: Stack::new(alloc),
            load: Load::Scripts(0),
            made,
            main: None,
            stage: Stage::new(alloc),
            level: 0,
            turns,
            outcome: None,
        })
    }

    /// Whether no frame is open and nothing of the load remains.
    pub fn is_idle(&self) -> bool
        ensures { result ≡ idle self.now }
    {
        self.frames.is_empty() && self.load == Load::Done
    }

    /// How the machine came to rest, if it has: its play is over, or it is idle.
    pub fn result(&self) -> Option<Outcome>
        ensures { result ≡ result_of self.now }
    {
        match self.outcome {
            Some(outcome) => Some(outcome),
            None if self.is_idle() => Some(Outcome::Ended),
            None => None,
        }
    }

    /// The next step, and the record that it makes, if any. Where the play wasn't over, less of it
    /// remains.
    pub fn step(
        &mut self,
        alloc: Global,
        abc: &Abc,
        main: &Text,
    ) -> Result<Option<TraceItem>, NoMemory>
        ensures moved { IfOk result (λ item. moved self.new item ≡ (step abc.now main.now self.old)) }
        ensures lowers { OnOk result (result_of self.old ≡ None → remaining abc.now self.new < remaining abc.now self.old) }
    {
        match self.frames.pop() {
            None => self.load_next(alloc, abc, main),
            Some(frame) => self.go_on(alloc, abc, frame),
        }
    }

    // The next step of a frame that was taken off.
    fn go_on(
        &mut self,
        alloc: Global,
        abc: &Abc,
        frame: Frame,
    ) -> Result<Option<TraceItem>, NoMemory>
        ensures { IfOk result (λ item. moved self.new item ≡ continues abc.now frame self.old) }
    {
        match frame {
            Frame::Code(frame) => self.execute(alloc, abc, frame),
            Frame::User(line) => Ok(Some(TraceItem::User { line })),
            Frame::Miss(path) => Ok(Some(TraceItem::Missed { path })),
            Frame::UnknownState => {
                self.end(alloc, Outcome::Stopped(Stop::UnknownState));
                Ok(None)
            }
            Frame::Sending(sending) => self.send(alloc, sending),
            Frame::Dispatch(dispatch) => self.dispatch(alloc, abc, dispatch),
        }
    }

    // The play is over.
    pub(crate) fn end(&mut self, alloc: Global, outcome: Outcome)
        ensures { self.new ≡ ended outcome self.old }
    {
        self.frames = Stack::new(alloc);
        self.outcome = Some(outcome);
    }

    // The machine can't go on.
    pub(crate) fn fault(&mut self, alloc: Global, fault: MachineFault)
        ensures { self.new ≡ ended (Outcome.Fault fault) self.old }
    {
        self.end(alloc, Outcome::Fault(fault));
    }

    // The next thing of the load.
    fn load_next(
        &mut self,
        alloc: Global,
        abc: &Abc,
        main: &Text,
    ) -> Result<Option<TraceItem>, NoMemory>
        ensures { IfOk result (λ item. moved self.new item ≡ (loads abc.now main.now self.old.load self.old)) }
    {
        match self.load {
            Load::Scripts(number) => {
                self.initialise(alloc, abc, number)?;
                Ok(None)
            }
            Load::Main => {
                self.load = Load::Done;
                self.find_main(alloc, abc, main)
            }
            Load::Done => Ok(None),
        }
    }

    // Begins the initialiser of a script, or ends with the scripts.
    fn initialise(&mut self, alloc: Global, abc: &Abc, number: usize) -> Result<(), NoMemory>
        ensures { OnOk result (self.new ≡ inits_script abc.now number (slice_get abc.now.scripts number) self.old) }
    {
        let scripts = abc.scripts.as_slice();
        if number >= scripts.len() {
            self.load = Load::Main;
            return Ok(());
        }
        self.load = Load::Scripts(number + 1);
        let receiver = alone(alloc, Operand::Script(number))?;
        self.open(alloc, abc, scripts[number].init.number(), receiver, false)
    }

    // The main class is the first one of the file, if it was made and has this name.
    fn find_main(
        &mut self,
        alloc: Global,
        abc: &Abc,
        main: &Text,
    ) -> Result<Option<TraceItem>, NoMemory>
        ensures { IfOk result (λ item. moved self.new item ≡ (main_of abc.now main.now (slice_get abc.now.instances 0) (slice_get self.old.made 0) self.old)) }
    {
        let (Some(instance), Some(true)) = (abc.instances.get(0), self.made.get(0)) else {
            self.fault(alloc, MachineFault::NoName);
            return Ok(None);
        };
        match public_at(abc, instance.name.number()) {
            Some(name) if name == main.as_str() => self.make_main(alloc, abc, instance, main),
            _ => {
                self.fault(alloc, MachineFault::NoName);
                Ok(None)
            }
        }
    }

    // Makes the main object, and begins its constructor.
    fn make_main(
        &mut self,
        alloc: Global,
        abc: &Abc,
        instance: &InstanceInfo,
        main: &Text,
    ) -> Result<Option<TraceItem>, NoMemory>
        ensures { IfOk result (λ item. moved self.new item ≡ (makes_main abc.now instance.now main.now (declared_onto abc.now instance.now.traits []) self.old)) }
    {
        let none = Sequence::new(alloc);
        let Some(slots) = declared_onto(alloc, abc, instance.traits.as_slice(), none)? else {
            self.fault(alloc, MachineFault::NotHere);
            return Ok(None);
        };
        let declared = slots.len();
        let Some(object) = self.make(alloc, Class::File(0), slots, declared)? else {
            return Ok(None);
        };
        self.main = Some(object);
        let receiver = alone(alloc, Operand::Value(Value::Ref(object)))?;
        self.enter(alloc, abc, instance.iinit.number(), receiver, None)?;
        let class = main.clone()?;
        Ok(Some(TraceItem::Made { object, class }))
    }

    // Makes an object: `None` where that ended the play.
    pub(crate) fn make(
        &mut self,
        alloc: Global,
        class: Class,
        slots: Sequence<Slot>,
        declared: usize,
    ) -> Result<Option<ObjId>, NoMemory>
        ensures { IfOk result (λ object. makes class slots declared self.old ≡ making object self.new) }
    {
        if self.stage.objects.len() >= u32::MAX as usize {
            let outcome = if self.stage.is_full(declared) {
                Outcome::Stopped(Stop::Cells)
            } else {
                Outcome::Fault(MachineFault::NotHere)
            };
            self.end(alloc, outcome);
            return Ok(None);
        }
        match self.stage.make(alloc, class, slots, declared) {
            Ok(object) => Ok(Some(object)),
            Err(RunRefusal::Stop(stop)) => {
                self.end(alloc, Outcome::Stopped(stop));
                Ok(None)
            }
            Err(RunRefusal::NoMemory) => Err(NoMemory),
        }
    }

    // Begins an activity, which takes a level and a turn: the record where it has started.
    pub(crate) fn enter(
        &mut self,
        alloc: Global,
        abc: &Abc,
        method: u32,
        given: Sequence<Operand>,
        item: Option<TraceItem>,
    ) -> Result<Option<TraceItem>, NoMemory>
        ensures { IfOk result (λ made. moved self.new made ≡ entered abc.now item method given self.old) }
    {
        let Some(body) = body_of(abc, method) else {
            self.fault(alloc, MachineFault::NotHere);
            return Ok(None);
        };
        if self.level >= MOST_LEVELS {
            self.end(alloc, Outcome::Stopped(Stop::Depth));
            return Ok(None);
        }
        if self.turns == 0 {
            self.end(alloc, Outcome::TurnsSpent);
            return Ok(None);
        }
        self.level += 1;
        self.turns -= 1;
        self.open_body(alloc, abc, body, given, true)?;
        Ok(item)
    }

    // Opens the frame of a method, with the receiver and the arguments.
    pub(crate) fn open(
        &mut self,
        alloc: Global,
        abc: &Abc,
        method: u32,
        given: Sequence<Operand>,
        is_activity: bool,
    ) -> Result<(), NoMemory>
        ensures { OnOk result (self.new ≡ opened abc.now method given is_activity self.old) }
    {
        let Some(body) = body_of(abc, method) else {
            self.fault(alloc, MachineFault::NotHere);
            return Ok(());
        };
        self.open_body(alloc, abc, body, given, is_activity)
    }

    fn open_body(
        &mut self,
        alloc: Global,
        abc: &Abc,
        body: usize,
        given: Sequence<Operand>,
        is_activity: bool,
    ) -> Result<(), NoMemory>
        ensures { OnOk result (self.new ≡ opens_body abc.now (Some body) given is_activity self.old) }
    {
        let locals = first_locals(abc, body, given)?;
        self.resume(CodeFrame {
            body,
            pc: 0,
            stack: Stack::new(alloc),
            locals,
            is_activity,
        })
    }

    // A frame of code goes on.
    pub(crate) fn resume(&mut self, frame: CodeFrame) -> Result<(), NoMemory>
        ensures { OnOk result (self.new ≡ with_frame frame self.old) }
    {
        self.frames.push(Frame::Code(frame))
    }
}

// A receiver without arguments.
pub(crate) fn alone(alloc: Global, receiver: Operand) -> Result<Sequence<Operand>, NoMemory>
    ensures { IfOk result (λ given. given ≡ receiver ∷ []) }
{
    let mut given = Sequence::new(alloc);
    given.push(receiver)?;
    Ok(given)
}

// So many classes that weren't made.
fn put_unmade(made: &mut Sequence<bool>, count: usize) -> Result<(), NoMemory>
    ensures { OnOk result (made.new ≡ made.old ++ replicate count false) }
{
    for index in 0..count {
        made.push(false)?;
    }
    Ok(())
}
