// The first reason of a body.

ghost use Rattle.std.specs.Prelude.{◌≡◌, ◌≤◌, ◌<◌, ◌↔◌, [], ℕ, length, IfOk, IsTrue, None, slice_get};
ghost use Rattle.avm2_code.specs.Body.{HasInstruction};
ghost use Rattle.avm2_code.specs.Reading.{instruction_at};
ghost use Rattle.avm2_verify.specs.Followed.{BodyDiffers};
ghost use Rattle.avm2_verify.specs.Reasons.{AreEnds, HasWrongLimits, IsChecked, IsReasonAt, NoneBelow, branch_reason, is_label_read, own_reason};
ghost use Rattle.avm2_verify.specs.Tables.{AreDepthsOf, AreMarks};
ghost use Rattle.verified_code.specs.Paths.{IsReadAs, falls_through, successor};
ghost use Rattle.verified_code.specs.Verified.{HasReason, HasWrongLocals, IsFirstOf, UsesFrom, effect, parameters};

use crate::follow::follow;
use crate::marks::marks_of;
use crate::operands::{effect, passed};
use crate::verified::depths_in;
use crate::ways::{branch_met, depths_behind};
use abc_format::{Abc, MethodBody};
use avm2_code::{CodeReason, Instruction, LocalUse, Successor, effect_of, instruction_at};
use flex_base::{NoMemory, Sequence};
use std::alloc::Global;
use verified_code::Depths;

// What a body may have at most of values on the stack, or of scopes.
const DEPTH_LIMIT: u32 = 2_048;

// And of locals.
const LOCAL_LIMIT: u32 = 512;

// What was found of a body.
#[derive(Drop)]
pub enum Checked {
    // No reason, and of each place the depths of the paths that come to it.
    Fine { table: Sequence<Option<Depths>> },
    // The first reason.
    Bad { place: usize, reason: CodeReason },
}

// Looks for the first reason of a body.
pub fn check(alloc: Global, abc: &Abc, body: &MethodBody) -> Result<Checked, NoMemory>
    ensures { IfOk result (IsChecked abc.now body.now) }
{
    if body.code.is_empty() {
        return Ok(Checked::Bad {
            place: 0,
            reason: reason_of_empty(abc, body),
        });
    }
    let marks = marks_of(alloc, body.code.as_slice())?;
    match follow(alloc, abc, body, &marks)? {
        None => Ok(Checked::Bad {
            place: 0,
            reason: reason_of_differing(abc, body, &marks),
        }),
        Some(table) => Ok(judge(abc, body, &marks, table)),
    }
}

// The first reason of a body without code.
fn reason_of_empty(abc: &Abc, body: &MethodBody) -> CodeReason
    requires { body.now.code ≡ [] }
    ensures { IsFirstOf abc.now body.now 0 result }
{
    if is_excepted(body, 0) {
        CodeReason::HasExceptions
    } else if has_wrong_limits(body) {
        CodeReason::StackDepth
    } else if has_wrong_locals(abc, body) {
        CodeReason::LocalNumber
    } else {
        CodeReason::FallsOff
    }
}

// The first reason of a body in which two paths differ.
fn reason_of_differing(abc: &Abc, body: &MethodBody, marks: &[bool]) -> CodeReason
    requires marks { AreMarks body.now.code marks.now }
    requires stands { HasInstruction body.now.code 0 }
    requires differ { BodyDiffers abc.now body.now }
    ensures { IsFirstOf abc.now body.now 0 result }
{
    if is_excepted(body, 0) {
        return CodeReason::HasExceptions;
    }
    match own_reason(abc, body.code.as_slice(), marks, 0) {
        Some(reason) => reason,
        None => CodeReason::StackDepth,
    }
}

// The first reason at the places of a body in which no paths differ.
fn judge(abc: &Abc, body: &MethodBody, marks: &[bool], table: Sequence<Option<Depths>>) -> Checked
    requires some { 0 < length body.now.code }
    requires marks { AreMarks body.now.code marks.now }
    requires depths { AreDepthsOf abc.now body.now table }
    ensures { IsChecked abc.now body.now result }
{
    for place in 0..marks.len() {
        if let Some(reason) = reason_at_place(abc, body, marks, table.as_slice(), place) {
            return Checked::Bad { place, reason };
        }
    }
    Checked::Fine { table }
}

// The first reason at a place, if an instruction stands there.
fn reason_at_place(
    abc: &Abc,
    body: &MethodBody,
    marks: &[bool],
    table: &[Option<Depths>],
    place: usize,
) -> Option<CodeReason>
    requires some { 0 < length body.now.code }
    requires inside { place < length marks.now }
    requires marks { AreMarks body.now.code marks.now }
    requires depths { AreDepthsOf abc.now body.now table.now }
    ensures { IsReasonAt abc.now body.now place result }
{
    if marks[place] {
        reason_at(abc, body, marks, table, place)
    } else {
        None
    }
}

// The first reason at an instruction.
fn reason_at(
    abc: &Abc,
    body: &MethodBody,
    marks: &[bool],
    table: &[Option<Depths>],
    place: usize,
) -> Option<CodeReason>
    requires marks { AreMarks body.now.code marks.now }
    requires stands { HasInstruction body.now.code place }
    requires depths { AreDepthsOf abc.now body.now table.now }
    ensures { IsReasonAt abc.now body.now place result }
{
    if is_excepted(body, place) {
        return Some(CodeReason::HasExceptions);
    }
    match own_reason(abc, body.code.as_slice(), marks, place) {
        Some(reason) => Some(reason),
        None => late_reason(abc, body, table, place),
    }
}

// The first reason at an instruction that has none of its own.
fn late_reason(
    abc: &Abc,
    body: &MethodBody,
    table: &[Option<Depths>],
    place: usize,
) -> Option<CodeReason>
    requires stands { HasInstruction body.now.code place }
    requires depths { AreDepthsOf abc.now body.now table.now }
    requires before { NoneBelow abc.now body.now 8 place }
    ensures { IsReasonAt abc.now body.now place result }
{
    let ways = path_ends(abc, body, table, place);
    if has_limits_at(body, place) {
        return Some(CodeReason::StackDepth);
    }
    match ways {
        PathEnds::Lacking => Some(CodeReason::StackDepth),
        PathEnds::Leaving => {
            if has_locals_at(abc, body, place) {
                Some(CodeReason::LocalNumber)
            } else {
                Some(CodeReason::FallsOff)
            }
        }
        PathEnds::Fine => {
            if has_locals_at(abc, body, place) {
                Some(CodeReason::LocalNumber)
            } else {
                None
            }
        }
    }
}

fn is_excepted(body: &MethodBody, place: usize) -> bool
    ensures { IsTrue result ↔ ((place ≡ 0) × (0 < length body.now.exceptions)) }
{
    place == 0 && body.exceptions.len() > 0
}

fn has_limits_at(body: &MethodBody, place: usize) -> bool
    ensures { IsTrue result ↔ ((place ≡ 0) × HasWrongLimits body.now) }
{
    place == 0 && has_wrong_limits(body)
}

fn has_locals_at(abc: &Abc, body: &MethodBody, place: usize) -> bool
    requires { HasInstruction body.now.code place }
    ensures { IsTrue result ↔ HasReason abc.now body.now CodeReason.LocalNumber place }
{
    if place == 0 && has_wrong_locals(abc, body) {
        return true;
    }
    uses_wrong_local(abc, body, place)
}

// The reason of an instruction, whatever paths carry.
fn own_reason(abc: &Abc, code: &[u8], marks: &[bool], place: usize) -> Option<CodeReason>
    requires marks { AreMarks code.now marks.now }
    requires inside { place < length code.now }
    ensures { result ≡ own_reason abc.now code.now marks.now place }
{
    match passed(abc, code, place) {
        Ok((instruction, next)) => {
            let successor = effect_of(&instruction, false).successor;
            branch_reason(code, marks, place, successor, next)
        }
        Err(reason) => Some(reason),
    }
}

// The reason of where an instruction branches to.
fn branch_reason(
    code: &[u8],
    marks: &[bool],
    place: usize,
    successor: Successor,
    next: usize,
) -> Option<CodeReason>
    requires { AreMarks code.now marks.now }
    ensures { result ≡ branch_reason code.now marks.now place successor next }
{
    match successor {
        Successor::Next | Successor::Returns => None,
        Successor::Jumps(_) | Successor::Branches(_) => match branch_met(marks, successor, next) {
            None => Some(CodeReason::OffInstruction),
            Some(to) => {
                if to <= place && !is_label(code, to) {
                    Some(CodeReason::BackwardToNoLabel)
                } else {
                    None
                }
            }
        },
    }
}

fn is_label(code: &[u8], place: usize) -> bool
    requires { place < length code.now }
    ensures { result ≡ is_label_read (instruction_at code.now place) }
{
    match instruction_at(code, place) {
        Ok((instruction, _)) => matches!(instruction, Instruction::Label),
        Err(_) => false,
    }
}

// How the paths that come to an instruction end there.
#[derive(Clone, Copy)]
enum PathEnds {
    // They lack what it takes or needs, or pass the limits of the body.
    Lacking,
    // They leave the code behind it.
    Leaving,
    // In neither way.
    Fine,
}

fn path_ends(abc: &Abc, body: &MethodBody, table: &[Option<Depths>], place: usize) -> PathEnds
    requires stands { HasInstruction body.now.code place }
    requires depths { AreDepthsOf abc.now body.now table.now }
    ensures { AreEnds abc.now body.now place result }
{
    let Some(before) = depths_in(table, place) else {
        return PathEnds::Fine;
    };
    let Ok((instruction, next)) = passed(abc, body.code.as_slice(), place) else {
        return PathEnds::Fine;
    };
    if depths_behind(abc, body, &instruction, before).is_none() {
        return PathEnds::Lacking;
    }
    if leaves(&instruction, next, body.code.len()) {
        PathEnds::Leaving
    } else {
        PathEnds::Fine
    }
}

// Whether code may go on from an instruction to the place behind the last one.
fn leaves(instruction: &Instruction, next: usize, end: usize) -> bool
    ensures { IsTrue result ↔ (IsTrue (falls_through (successor instruction.now)) × (next ≡ end)) }
{
    falls_through(effect_of(instruction, false).successor) && next == end
}

// Whether code may go on to the next instruction.
fn falls_through(successor: Successor) -> bool
    ensures { result ≡ falls_through successor }
{
    matches!(successor, Successor::Next | Successor::Branches(_))
}

fn has_wrong_limits(body: &MethodBody) -> bool
    ensures { IsTrue result ↔ HasWrongLimits body.now }
{
    body.max_stack > DEPTH_LIMIT
        || body.max_scope_depth < body.init_scope_depth
        || body.max_scope_depth.saturating_sub(body.init_scope_depth) > DEPTH_LIMIT
}

fn has_wrong_locals(abc: &Abc, body: &MethodBody) -> bool
    ensures { IsTrue result ↔ HasWrongLocals abc.now body.now }
{
    body.local_count > LOCAL_LIMIT || body.local_count as usize <= parameters(abc, body)
}

// The number of parameters of a body's method.
fn parameters(abc: &Abc, body: &MethodBody) -> usize
    ensures { result ≡ parameters (slice_get abc.now.methods body.now.method) }
{
    match abc.methods.get(body.method.number() as usize) {
        Some(method) => method.param_types.len(),
        None => 0,
    }
}

// Whether the instruction at a place uses a local that the body hasn't.
fn uses_wrong_local(abc: &Abc, body: &MethodBody, place: usize) -> bool
    requires { HasInstruction body.now.code place }
    ensures { IsTrue result ↔ IsReadAs body.now.code (λ i next. UsesFrom body.now.local_count (effect abc.now i).local) place }
{
    match instruction_at(body.code.as_slice(), place) {
        Ok((instruction, _)) => is_from(body.local_count, effect(abc, &instruction).local),
        Err(_) => false,
    }
}

fn is_from(count: u32, local: LocalUse) -> bool
    ensures { IsTrue result ↔ UsesFrom count local }
{
    match local {
        LocalUse::Nothing => false,
        LocalUse::Reads(local) => count <= local,
        LocalUse::Writes(local) => count <= local,
    }
}
