// The top call.

ghost use Rattle.std.specs.Prelude.{◌≡◌, ◌≤◌, ◌++◌, [], ◌∷◌, IfOk, decimal, length};
ghost use Rattle.abc_writer.specs.Spelling.{abc_bytes};
ghost use Rattle.flex_base.specs.declared.outcome.Outcome.TheVariants.{Ended, Stopped, TurnsSpent};
ghost use Rattle.flex_base.specs.declared.outcome.Stop.TheVariants.{Cells};
ghost use Rattle.swf_tags.specs.Spelling.{swf_bytes};
ghost use Rattle.flexc.specs.Command.{Course, HasPrintedTrace, RunsWhole, RunsInPart, RefusesRightly, Says, outcome_status, place_line, status};
ghost use Rattle.flexc.specs.Emitted.{abc_of, main_text};
ghost use Rattle.flexc.specs.PlaysAs.{PlaysAs};
ghost use Rattle.flex_base.specs.Story.{with_end};
ghost use Rattle.flexc.specs.declared.command.Failure.TheVariants as failure;
ghost use Rattle.mxml_items.specs.Places.{place_of};
ghost use Rattle.flex_front.specs.Source.{AreNewIds, IsSmall};
ghost use Rattle.flexc.specs.Words.{texts};
ghost use Rattle.flex_edge.specs.Whole.{Prints};
ghost use Rattle.flexc.specs.Work.{ReadsJob, Reports, Works, read_failure};

use crate::emit::{MAIN, emit};
use crate::script::{ScriptRefusal, read_script};
use crate::words::{Run, read_words};
use abc_writer::write_abc;
use flex_base::{Bytes, NoMemory, Outcome, Script, Text};
use flex_edge::{Files, Observer, ReadRefusal, Refused, Sink, print, read_file, write_file};
use flex_front::{Document, SourceRefusal, read_source};
use itoa::Buffer;
use mxml_tree::{TreeCode, place_of};
use script_player::play;
use std::alloc::Global;
use swf_tags::write_swf;

/// The greatest number of bytes that a source or a script may have.
const MOST_BYTES: usize = 1_048_576;

/// How a command ended: the exit status of the program.
#[derive(Clone, Copy, Debug, PartialEq, Eq)]
pub struct Status(pub u8);

impl Status {
    /// The text was printed whole, and the play ended by itself.
    pub const ENDED: Status = Status(0);
    /// The play stopped.
    pub const STOPPED: Status = Status(1);
    /// The words are no command.
    pub const BAD_USAGE: Status = Status(2);
    /// The sources aren't built.
    pub const SOURCE_FAULT: Status = Status(3);
    /// The script isn't played.
    pub const SCRIPT_FAULT: Status = Status(4);
    /// The turns were spent.
    pub const TURNS_SPENT: Status = Status(6);
    /// A file couldn't be read.
    pub const READ_FAULT: Status = Status(7);
    /// A file or the printed text couldn't be written.
    pub const WRITE_FAULT: Status = Status(8);
    /// Memory was refused.
    pub const NO_MEMORY: Status = Status(9);
    /// A file is too long.
    pub const TOO_LONG: Status = Status(10);
    /// The machine couldn't go on.
    pub const MACHINE_FAULT: Status = Status(11);
}

/// Why a command printed no whole trace.
#[derive(Clone, Copy)]
enum Failure<'a> {
    BadUsage,
    CannotRead(&'a str),
    TooLong(&'a str),
    SourceFault {
        name: &'a str,
        line: u32,
        column: u32,
        code: TreeCode,
    },
    NotYetBuilt(&'a str),
    ScriptNotYetBuilt(u32),
    CannotWrite(&'a str),
    CannotPrint,
    NoMemory,
}

/// What is to be played.
#[derive(Drop)]
struct Job {
    document: Document,
    script: Script,
}

/// Does what the words say: `run --script S --out O [--turns N] MAIN` builds the main source, writes
/// the SWF file O, plays its bytes with the script and so many turns, 1,000,000 where none are said,
/// and prints the trace. This project's own.
///
/// The order of work is: the words, the main source read, the script read, the source judged, the
/// script judged, the file written, the play.
pub fn command<F: Files, O: Sink>(
    alloc: Global,
    words: &[String],
    files: &mut F,
    out: &mut O,
    observers: &mut Vec<Box<dyn Observer>>,
) -> Status
    requires { observers.old.items ≡ [] }
    ensures course { Course (texts words.now) (F.state files.old) (F.state files.new) (O.state out.old) (O.state out.new) result }
    ensures ended { result ≡ status 0 → HasPrintedTrace (texts words.now) Ended (F.state files.old) (F.state files.new) (O.state out.old) (O.state out.new) }
    ensures stopped { result ≡ status 1 → HasPrintedTrace (texts words.now) (Stopped Cells) (F.state files.old) (F.state files.new) (O.state out.old) (O.state out.new) }
    ensures spent { result ≡ status 6 → HasPrintedTrace (texts words.now) TurnsSpent (F.state files.old) (F.state files.new) (O.state out.old) (O.state out.new) }
    ensures whole { RunsWhole (texts words.now) (F.state files.old) (F.state files.new) (O.state out.old) (O.state out.new) result }
    ensures refused { RefusesRightly (texts words.now) (F.state files.old) (F.state files.new) (O.state out.old) (O.state out.new) result }
    ensures part { RunsInPart (texts words.now) (F.state files.old) (F.state files.new) (O.state out.old) (O.state out.new) }
{
    let _none = observers;
    answer(alloc, words, files, out)
}

// The status, after a line that says what failed, if something did.
fn answer<F: Files, O: Sink>(alloc: Global, words: &[String], files: &mut F, out: &mut O) -> Status
    ensures { Course (texts words.now) (F.state files.old) (F.state files.new) (O.state out.old) (O.state out.new) result }
{
    let outcome = match build_and_play(alloc, words, files, out) {
        Ok(outcome) => outcome,
        Err(failure) => return report(out, failure),
    };
    status_of(outcome)
}

// The work of `run`, in order.
fn build_and_play<'a, F: Files, O: Sink>(
    alloc: Global,
    words: &'a [String],
    files: &mut F,
    out: &mut O,
) -> Result<Outcome, Failure<'a>>
    ensures { Works (texts words.now) (F.state files.old) (O.state out.old) result (F.state files.new) (O.state out.new) }
{
    let Some(run) = read_words(words) else {
        return Err(Failure::BadUsage);
    };
    let Job { document, script } = match read_job(alloc, run, files) {
        Ok(job) => job,
        Err(failure) => return Err(failure),
    };
    let Ok(swf) = build(alloc, &document) else {
        return Err(Failure::NoMemory);
    };
    match write_file(files, run.out, swf.as_slice()) {
        Ok(()) => {}
        Err(Refused::Failed) => return Err(Failure::CannotWrite(run.out)),
        Err(Refused::NoMemory) => return Err(Failure::NoMemory),
    }
    match play(alloc, swf.as_slice(), script.as_slice(), run.turns, out) {
        Ok(outcome) => Ok(outcome),
        Err(Refused::Failed) => Err(Failure::CannotPrint),
        Err(Refused::NoMemory) => Err(Failure::NoMemory),
    }
}

// Reads the main source and then the script, and judges them in this order.
fn read_job<'a, F: Files>(alloc: Global, run: Run<'a>, files: &mut F) -> Result<Job, Failure<'a>>
    ensures read { ReadsJob run.entry.script.now run.entry.main.now (F.state files.old) result (F.state files.new) }
    ensures small { IfOk result (λ job. IsSmall job.document) }
    ensures distinct { IfOk result (λ job. AreNewIds [] job.document.elements) }
{
    let source = match read_file(alloc, files, run.main, MOST_BYTES) {
        Ok(source) => source,
        Err(refusal) => return Err(read_failure(refusal, run.main)),
    };
    let commands = match read_file(alloc, files, run.script, MOST_BYTES) {
        Ok(commands) => commands,
        Err(refusal) => return Err(read_failure(refusal, run.script)),
    };
    let document = match read_source(alloc, run.main, source.as_slice()) {
        Ok(document) => document,
        Err(SourceRefusal::Fault { code, at }) => {
            return Err(source_fault(run.main, source.as_slice(), code, at));
        }
        Err(SourceRefusal::NotYetBuilt) => return Err(Failure::NotYetBuilt(run.main)),
        Err(SourceRefusal::NoMemory) => return Err(Failure::NoMemory),
    };
    match read_script(alloc, commands.as_slice()) {
        Ok(script) => Ok(Job { document, script }),
        Err(ScriptRefusal::NotYetBuilt(line)) => Err(Failure::ScriptNotYetBuilt(line)),
        Err(ScriptRefusal::NoMemory) => Err(Failure::NoMemory),
    }
}

// The fault at a place of the source with this name.
fn source_fault<'a>(name: &'a str, source: &[u8], code: TreeCode, at: usize) -> Failure<'a>
    requires within { at ≤ length source.now }
    requires short { length source.now ≤ 1048576 }
    ensures { result ≡ failure.SourceFault name.entry (place_of source.now at).line (place_of source.now at).column code }
{
    let (line, column) = place_of(source, at);
    Failure::SourceFault {
        name,
        line,
        column,
        code,
    }
}

// Why the file with this name wasn't read.
fn read_failure<'a>(refusal: ReadRefusal, name: &'a str) -> Failure<'a>
    ensures { result ≡ read_failure refusal name.entry }
{
    match refusal {
        ReadRefusal::Failed => Failure::CannotRead(name),
        ReadRefusal::TooLong => Failure::TooLong(name),
        ReadRefusal::NoMemory => Failure::NoMemory,
    }
}

// The SWF file of a document.
fn build(alloc: Global, document: &Document) -> Result<Bytes, NoMemory>
    requires small { IsSmall document.now }
    requires distinct { AreNewIds [] document.now.elements }
    ensures is { IfOk result (λ bytes. bytes ≡ swf_bytes main_text (abc_bytes (abc_of document.now.elements))) }
    ensures plays { IfOk result (λ bytes. PlaysAs bytes document.now) }
{
    let abc = emit(alloc, document)?;
    let code = write_abc(alloc, &abc)?;
    let main = Text::make(alloc, MAIN)?;
    let swf = write_swf(alloc, &main, code.as_slice())?;
    Ok(swf)
}

// The status of a play's outcome.
fn status_of(outcome: Outcome) -> Status
    ensures { result ≡ outcome_status outcome }
{
    match outcome {
        Outcome::Ended => Status::ENDED,
        Outcome::Stopped(_) => Status::STOPPED,
        Outcome::TurnsSpent => Status::TURNS_SPENT,
        Outcome::Fault(_) => Status::MACHINE_FAULT,
    }
}

// Prints the line of a failure, and gives its status.
fn report<O: Sink>(out: &mut O, failure: Failure<'_>) -> Status
    ensures { Reports failure.entry (O.state out.old) result (O.state out.new) }
{
    match failure {
        Failure::BadUsage => print_line(out, Status::BAD_USAGE, "flexc: bad usage", "", ""),
        Failure::CannotRead(name) => print_line(out, Status::READ_FAULT, "cannot read ", name, ""),
        Failure::TooLong(name) => print_line(out, Status::TOO_LONG, "", name, ": too long"),
        Failure::SourceFault {
            name,
            line,
            column,
            code,
        } => match print_fault(out, name, line, column, code) {
            Ok(()) => Status::SOURCE_FAULT,
            Err(Refused::Failed) => Status::WRITE_FAULT,
            Err(Refused::NoMemory) => Status::NO_MEMORY,
        },
        Failure::NotYetBuilt(name) => {
            print_line(out, Status::SOURCE_FAULT, "", name, ":1:1: NotYetBuilt")
        }
        Failure::ScriptNotYetBuilt(line) => {
            let mut digits = Buffer::new();
            let number = digits.format(line);
            print_line(
                out,
                Status::SCRIPT_FAULT,
                "script:",
                number,
                ": not yet built",
            )
        }
        Failure::CannotWrite(name) => {
            print_line(out, Status::WRITE_FAULT, "cannot write ", name, "")
        }
        Failure::CannotPrint => Status::WRITE_FAULT,
        Failure::NoMemory => Status::NO_MEMORY,
    }
}

// Prints a line of three pieces, and gives the status that it explains.
fn print_line<O: Sink>(out: &mut O, status: Status, before: &str, name: &str, after: &str) -> Status
    ensures { Says status.0 (before.now ++ (name.now ++ after.now)) (O.state out.old) (O.state out.new) result }
{
    match print_pieces(out, before, name, after) {
        Ok(()) => status,
        Err(Refused::Failed) => Status::WRITE_FAULT,
        Err(Refused::NoMemory) => Status::NO_MEMORY,
    }
}

// Prints three pieces and the end of their line.
fn print_pieces<O: Sink>(out: &mut O, before: &str, name: &str, after: &str) -> Result<(), Refused>
    ensures { Prints (O.state out.old) (before.now ++ (name.now ++ (after.now ++ 10 ∷ []))) result (O.state out.new) }
{
    print(out, before.as_bytes())?;
    print(out, name.as_bytes())?;
    print(out, after.as_bytes())?;
    print(out, b"\n")
}

// Prints the line of a fault of a source.
fn print_fault<O: Sink>(
    out: &mut O,
    name: &str,
    line: u32,
    column: u32,
    code: TreeCode,
) -> Result<(), Refused>
    ensures { Prints (O.state out.old) (with_end (place_line name.now line column code)) result (O.state out.new) }
{
    print(out, name.as_bytes())?;
    print_number(out, ":", line)?;
    print_number(out, ":", column)?;
    print_pieces(out, ": ", code.name(), "")
}

// Prints a number behind a mark.
fn print_number<O: Sink>(out: &mut O, mark: &str, number: u32) -> Result<(), Refused>
    ensures { Prints (O.state out.old) (mark.now ++ decimal number) result (O.state out.new) }
{
    let mut digits = Buffer::new();
    print(out, mark.as_bytes())?;
    print(out, digits.format(number).as_bytes())
}
