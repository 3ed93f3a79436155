// The faults of the kinds of tokens, by a prediction table: a stack holds what is still to be read.

ghost use Rattle.std.specs.Prelude.{◌≡◌, ◌+◌, IfOk};
ghost use Rattle.as3_parser.specs.Here.{Settles, Expanded, HasFaults, deepest, is_read, is_spent};
ghost use Rattle.as3_parser.specs.Syntax.{part_of};

use crate::stack::{MARK, Stack};
use crate::start::Start;
use crate::table;
use std::alloc::{AllocError, Global};

/// The first byte that stands for a part.
const PART: u8 = 128;

/// The first level that is one too many.
const LIMIT: usize = 65;

/// What is wrong with the kinds of tokens.
#[derive(Clone, Copy)]
pub struct Faults {
    /// The token where they stop to begin a sentence, or their number where they only begin one.
    pub syntax: Option<usize>,
    /// The first token that opens a level too many, of those that begin a sentence.
    pub deep: Option<usize>,
}

/// What is on top of a stack.
#[derive(Clone, Copy)]
pub enum Top {
    /// A token of this kind is to be read.
    Reads(u8),
    /// Nothing is to be read.
    Empty,
    /// Nothing that comes next can be read.
    Fails,
}

/// The faults of the kinds of tokens.
pub fn faults_of(alloc: Global, start: Start, kinds: &[u8]) -> Result<Faults, AllocError>
    ensures { IfOk result (λ f. HasFaults (part_of start) kinds.now f.syntax f.deep) }
{
    let mut stack = Stack::new(alloc);
    stack.push(first_part(start))?;
    let mut deep = None;
    for (at, kind) in kinds.iter().enumerate() {
        let top = settle(&mut stack, usize::from(*kind) + 1)?;
        let read = is_read(top, *kind);
        if !read {
            return Ok(Faults {
                syntax: Some(at),
                deep,
            });
        }
        let open_levels = stack.level();
        deep = deepest(deep, at, open_levels);
    }
    let top = settle(&mut stack, 0)?;
    let spent = is_spent(top);
    if !spent {
        return Ok(Faults {
            syntax: Some(kinds.len()),
            deep,
        });
    }
    Ok(Faults { syntax: None, deep })
}

// The byte of the part that a text is to be.
fn first_part(start: Start) -> u8
    ensures { result ≡ 128 + part_of start }
{
    match start {
        Start::ClassFile => 128,
        Start::Members => 135,
        Start::Handler => 197,
        Start::Metadata => 198,
        Start::Expression => 171,
    }
}

// Replaces the parts on top until a token is there.
fn settle(stack: &mut Stack, next: usize) -> Result<Top, AllocError>
    ensures { IfOk result (λ top. Settles next stack.old top stack.new) }
{
    while let Some(top) = stack.pop() {
        if top < PART {
            return Ok(Top::Reads(top));
        }
        if top < MARK {
            let part = top - PART;
            let ok = expand(stack, part, next)?;
            if !ok {
                return Ok(Top::Fails);
            }
        }
    }
    Ok(Top::Empty)
}

// Puts the right side of a part that may go on with what comes next, if there is one.
fn expand(stack: &mut Stack, part: u8, next: usize) -> Result<bool, AllocError>
    ensures { IfOk result (λ ok. Expanded ok part next stack.old stack.new) }
{
    let row = table::row_at(part, next);
    if row == table::NONE {
        return Ok(false);
    }
    table::push_row(stack, row)?;
    Ok(true)
}

// Whether a token of this kind was to be read.
fn is_read(top: Top, kind: u8) -> bool
    ensures { result ≡ is_read top kind }
{
    match top {
        Top::Reads(wanted) => wanted == kind,
        Top::Empty | Top::Fails => false,
    }
}

// Whether nothing was to be read.
fn is_spent(top: Top) -> bool
    ensures { result ≡ is_spent top }
{
    match top {
        Top::Empty => true,
        Top::Reads(_) | Top::Fails => false,
    }
}

// The first token that opens a level too many, where one more token was read.
fn deepest(deep: Option<usize>, at: usize, open_levels: usize) -> Option<usize>
    ensures { result ≡ deepest deep at open_levels }
{
    match deep {
        Some(first) => Some(first),
        None => { if open_levels < LIMIT { None } else { Some(at) } }
    }
}
