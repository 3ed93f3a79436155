// The script of user events.

ghost use Rattle.std.specs.Prelude.{◌≡◌, ◌<◌, ◌≤◌, ◌==◌, [], ◌∷◌, length, Some, None, IfOk, IfSome, MatchOption};
ghost use Rattle.std.specs.List.{position};
ghost use Rattle.flex_base.specs.declared.event.UserEvent.TheVariants as event;
ghost use Rattle.flexc.specs.Lines.{Puts, Reads, behind, is_idle, line_says, lines, more, said, text_says, without_return};

use flex_base::{Names, NoMemory, Script, Sequence, Text, UserEvent};
use flex_front::is_name;
use std::alloc::Global;

/// Why a script isn't played.
#[derive(Clone, Copy, Debug, PartialEq, Eq)]
pub enum ScriptRefusal {
    /// The number of its first line, from 1, that isn't known.
    NotYetBuilt(u32),
    /// Memory was refused.
    NoMemory,
}

impl From<NoMemory> for ScriptRefusal {
    ghost use Rattle.std.specs.Prelude.{◌≡◌};
    ghost use Rattle.flexc.specs.declared.script.ScriptRefusal.{ScriptRefusal};

    ghost from_gives = { λ _ refusal. refusal ≡ ScriptRefusal.NoMemory };

    fn from(_error: NoMemory) -> ScriptRefusal {
        ScriptRefusal::NoMemory
    }
}

// What a line says.
#[derive(Drop)]
enum Line {
    // Nothing.
    Idle,
    // What a user does.
    Event(UserEvent),
    // What isn't known.
    Other,
}

/// What a user does by a script. Lines end at an LF, before which a CR is dropped; the last one may
/// lack it. Empty lines and lines that begin with `#` are skipped; `click NAME` is a click, where
/// NAME is 1 to 32 lower-case letters and no keyword of ActionScript. No other line is known, nor is
/// one that isn't UTF-8. This project's own.
pub fn read_script(alloc: Global, script: &[u8]) -> Result<Script, ScriptRefusal>
    requires { length script.now ≤ 1048576 }
    ensures { Reads script.now result }
{
    let mut events = Sequence::new(alloc);
    let mut rest = script;
    let mut number = 1u32;
    while let Some((line, others)) = first_line(rest) {
        put_line(alloc, &mut events, line, number)?;
        rest = others;
        number += 1;
    }
    put_line(alloc, &mut events, rest, number)?;
    Ok(events)
}

// Adds what a line of this number says.
fn put_line(
    alloc: Global,
    events: &mut Script,
    line: &[u8],
    number: u32,
) -> Result<(), ScriptRefusal>
    ensures { Puts (more number events.old (line_says line.now)) events.new result }
{
    match read_line(alloc, line)? {
        Line::Idle => Ok(()),
        Line::Event(event) => {
            events.push(event)?;
            Ok(())
        }
        Line::Other => Err(ScriptRefusal::NotYetBuilt(number)),
    }
}

// What a line says.
#[tactic(auto, using(crate::proofs::Lines::utf8_tests))]
fn read_line(alloc: Global, line: &[u8]) -> Result<Line, NoMemory>
    ensures { IfOk result (λ r. said r ≡ line_says line.now) }
{
    match str::from_utf8(line) {
        Ok(text) => read_text(alloc, text),
        Err(_) => Ok(Line::Other),
    }
}

// What a line says that is a text.
fn read_text(alloc: Global, line: &str) -> Result<Line, NoMemory>
    ensures { IfOk result (λ r. said r ≡ text_says line.now) }
{
    if is_idle(line) {
        return Ok(Line::Idle);
    }
    match behind(line, "click ") {
        Some(name) if is_name(name) => Ok(Line::Event(click(alloc, name, line)?)),
        _ => Ok(Line::Other),
    }
}

// Whether a line is empty, or begins with `#`.
fn is_idle(line: &str) -> bool
    ensures { result ≡ is_idle line.now }
{
    line.is_empty() || line.starts_with('#')
}

// What stands behind a text's beginning.
fn behind<'a>(text: &'a str, beginning: &str) -> Option<&'a str>
    ensures { MatchOption result (behind beginning.now text.now ≡ None) (λ rest. behind beginning.now text.now ≡ Some rest.now) }
{
    text.strip_prefix(beginning)
}

// A click on what this names, by this line.
fn click(alloc: Global, name: &str, line: &str) -> Result<UserEvent, NoMemory>
    ensures { IfOk result (λ e. e ≡ event.Click (name.now ∷ []) line.now) }
{
    let mut path = Names::new(alloc);
    path.push(Text::make(alloc, name)?)?;
    let line = Text::make(alloc, line)?;
    Ok(UserEvent::Click(path, line))
}

// The first line, where it ends at an LF, and what stands behind it.
fn first_line(text: &[u8]) -> Option<(&[u8], &[u8])>
    ensures { MatchOption result (lines text.now ≡ text.now ∷ []) (λ r. (lines text.now ≡ r.0.now ∷ lines r.1.now) × (length r.1.now < length text.now)) }
{
    let end = line_end(text)?;
    Some((without_return(&text[..end]), &text[end + 1..]))
}

// Where the first line ends, if it ends at an LF.
fn line_end(text: &[u8]) -> Option<usize>
    ensures value { result ≡ position (λ byte. byte == 10) text.now }
    ensures within { IfSome result (λ end. end < length text.now) }
{
    text.iter().position(|byte| *byte == b'\n')
}

// A line without the CR that stood before its LF.
fn without_return(line: &[u8]) -> &[u8]
    ensures { result.now ≡ without_return line.now }
{
    match line {
        [before @ .., b'\r'] => before,
        _ => line,
    }
}
