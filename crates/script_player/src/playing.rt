// The playing of a SWF file.

ghost use Rattle.std.specs.Prelude.{◌≡◌, ◌≢◌, None, OnOk};
ghost use Rattle.avm2_machine.specs.Machine.{result_of, step};
ghost use Rattle.script_player.specs.Playable.{IsPlayable};
ghost use Rattle.script_player.specs.Playing.{ComesNearer};
ghost use Rattle.script_player.specs.Printed.{Plays, PlaysProgram, PrintsStep, Runs, Shows};
ghost use Rattle.flex_base.specs.Story.{record_line, with_end};
ghost use Rattle.flex_edge.specs.Whole.{Prints};

use abc_format::{Abc, AbcRefusal, read_abc};
use avm2_machine::Machine;
use flex_base::{Bytes, Outcome, Text, TraceItem, UserEvent, line_of};
use flex_edge::{Refused, Sink, print};
use std::alloc::Global;
use swf_tags::{Swf, SwfRefusal, read_swf};

/// Plays a SWF file with a script and so many turns, and prints the trace: from the load on, and
/// then through each line of the script once the machine is idle.
pub fn play<O: Sink>(
    alloc: Global,
    swf: &[u8],
    script: &[UserEvent],
    turns: u32,
    out: &mut O,
) -> Result<Outcome, Refused>
    requires { IsPlayable swf.now }
    ensures { Plays swf.now script.now turns (O.state out.old) result (O.state out.new) }
{
    let file = match read_swf(alloc, swf) {
        Ok(file) => file,
        Err(SwfRefusal::BadSwf(_, _)) => unreachable!(),
        Err(SwfRefusal::NoMemory) => return Err(Refused::NoMemory),
    };
    match read_abc(alloc, file.abc.as_slice()) {
        Ok(abc) => play_program(alloc, &abc, &file.main, script, turns, out),
        Err(AbcRefusal::BadAbc(_, _)) => unreachable!(),
        Err(AbcRefusal::NoMemory) => Err(Refused::NoMemory),
    }
}

// Plays a program whose main class has this name.
fn play_program<O: Sink>(
    alloc: Global,
    abc: &Abc,
    main: &Text,
    script: &[UserEvent],
    turns: u32,
    out: &mut O,
) -> Result<Outcome, Refused>
    ensures { PlaysProgram abc.now main.now script.now turns (O.state out.old) result (O.state out.new) }
{
    let mut machine = Machine::load(alloc, abc.classes.len(), turns)?;
    let outcome = play_script(alloc, abc, main, script, &mut machine, out)?;
    print_line(alloc, outcome.line().as_bytes(), out)?;
    Ok(outcome)
}

// Plays the lines of the script, each once the machine is idle, and prints the records.
fn play_script<O: Sink>(
    alloc: Global,
    abc: &Abc,
    main: &Text,
    script: &[UserEvent],
    machine: &mut Machine,
    out: &mut O,
) -> Result<Outcome, Refused>
    ensures { Shows abc.now main.now script.now machine.old (O.state out.old) result (O.state out.new) }
{
    for event in script {
        run(alloc, abc, main, machine, out)?;
        if let Some(outcome) = machine.outcome {
            return Ok(outcome);
        }
        machine.start(alloc, event)?;
    }
    run(alloc, abc, main, machine, out)?;
    Ok(machine.outcome.unwrap_or(Outcome::Ended))
}

// Steps until the machine has come to rest, and prints the records.
fn run<O: Sink>(
    alloc: Global,
    abc: &Abc,
    main: &Text,
    machine: &mut Machine,
    out: &mut O,
) -> Result<(), Refused>
    ensures runs { Runs abc.now main.now machine.old (O.state out.old) result machine.new (O.state out.new) }
    ensures rests { OnOk result (result_of machine.new ≢ None) }
{
    while machine.result().is_none() {
        advance(alloc, abc, main, machine, out)?;
    }
    Ok(())
}

// One step, whose record is printed, if it makes one.
fn advance<O: Sink>(
    alloc: Global,
    abc: &Abc,
    main: &Text,
    machine: &mut Machine,
    out: &mut O,
) -> Result<(), Refused>
    ensures moved { OnOk result (machine.new ≡ (step abc.now main.now machine.old).machine) }
    ensures lowers { OnOk result (ComesNearer abc.now machine.old machine.new) }
    ensures printed { PrintsStep abc.now main.now machine.old (O.state out.old) result (O.state out.new) }
{
    match machine.step(alloc, abc, main)? {
        None => Ok(()),
        Some(item) => print_record(alloc, &item, out),
    }
}

// Prints the line of a record.
fn print_record<O: Sink>(alloc: Global, item: &TraceItem, out: &mut O) -> Result<(), Refused>
    ensures { Prints (O.state out.old) (record_line item.now) result (O.state out.new) }
{
    let line = line_of(alloc, item)?;
    print_line(alloc, line.as_slice(), out)
}

// Prints a line and its end.
fn print_line<O: Sink>(alloc: Global, line: &[u8], out: &mut O) -> Result<(), Refused>
    ensures { Prints (O.state out.old) (with_end line.now) result (O.state out.new) }
{
    let mut bytes = Bytes::new(alloc);
    bytes.extend(line)?;
    bytes.push(b'\n')?;
    print(out, bytes.as_slice())
}
