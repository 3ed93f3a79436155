// The ways on from an instruction.

ghost use Rattle.std.specs.Prelude.{◌≡◌, ◌≤◌, ◌<◌, ◌+◌, ◌-◌, ⊤, ℕ, length, IfSome, IsSome, MatchOption, Some, pos, ◌+ℤ◌};
ghost use Rattle.avm2_code.specs.Body.{HasInstruction};
ghost use Rattle.avm2_verify.specs.Tables.{AreMarks};
ghost use Rattle.avm2_verify.specs.Ways.{AreWays, branch_met, met, met_at, next_met};
ghost use Rattle.verified_code.specs.Verified.{KeepsDepths, depths_behind, scope_limit};

use crate::operands::{effect, passed};
use abc_format::{Abc, MethodBody};
use avm2_code::{Instruction, Successor};
use verified_code::Depths;

// The depths behind an instruction, and the places where code goes on: the next one, and the one
// that it branches to, each if an instruction stands there.
#[derive(Clone, Copy)]
pub struct Ways {
    pub behind: Depths,
    pub next: Option<usize>,
    pub branch: Option<usize>,
}

// The ways on from an instruction that a path comes to with these depths: none where it ends there.
pub fn ways_on(
    abc: &Abc,
    body: &MethodBody,
    marks: &[bool],
    place: usize,
    before: Depths,
) -> Option<Ways>
    requires marks { AreMarks body.now.code marks.now }
    requires stands { HasInstruction body.now.code place }
    ensures { AreWays abc.now body.now place before result }
{
    let (instruction, next) = passed(abc, body.code.as_slice(), place).ok()?;
    let behind = depths_behind(abc, body, &instruction, before)?;
    let successor = effect(abc, &instruction).successor;
    Some(Ways {
        behind,
        next: next_met(marks, successor, next),
        branch: branch_met(marks, successor, next),
    })
}

// The depths behind an instruction, if it keeps the limits of the body.
pub fn depths_behind(
    abc: &Abc,
    body: &MethodBody,
    instruction: &Instruction,
    before: Depths,
) -> Option<Depths>
    ensures only { IfSome result (λ d. KeepsDepths abc.now body.now instruction.now before × (d ≡ depths_behind abc.now instruction.now before)) }
    ensures all { KeepsDepths abc.now body.now instruction.now before → IsSome result }
{
    let effect = effect(abc, instruction);
    let stack = depth_behind(
        before.stack,
        effect.takes,
        effect.takes,
        effect.leaves,
        body.max_stack,
    )?;
    let scopes = depth_behind(
        before.scopes,
        effect.scopes_needed,
        effect.scopes_taken,
        effect.scopes_left,
        body.max_scope_depth.saturating_sub(body.init_scope_depth),
    )?;
    Some(Depths { stack, scopes })
}

// One depth behind an instruction, if so much is there as it needs, and it stays within a limit.
fn depth_behind(before: u32, needed: u64, taken: u64, left: u64, limit: u32) -> Option<u32>
    ensures { MatchOption result (needed ≤ before → limit < before - taken + left) (λ d. (needed ≤ before) × (d ≡ before - taken + left) × (d ≤ limit)) }
{
    let before = u64::from(before);
    if before < needed {
        return None;
    }
    let behind = before.saturating_sub(taken).checked_add(left)?;
    if behind <= u64::from(limit) {
        Some(behind as u32)
    } else {
        None
    }
}

// A place, if an instruction stands there.
fn met(marks: &[bool], place: usize) -> Option<usize>
    ensures value { result ≡ met marks.now place }
    ensures within { IfSome result (λ to. to < length marks.now) }
{
    match marks.get(place) {
        Some(true) => Some(place),
        _ => None,
    }
}

// The place of the next instruction, if code may go on to it.
fn next_met(marks: &[bool], successor: Successor, next: usize) -> Option<usize>
    ensures { result ≡ next_met marks.now successor next }
{
    match successor {
        Successor::Next | Successor::Branches(_) => met(marks, next),
        Successor::Jumps(_) | Successor::Returns => None,
    }
}

// The place that a branch leads to, if an instruction stands there.
pub fn branch_met(marks: &[bool], successor: Successor, next: usize) -> Option<usize>
    ensures value { result ≡ branch_met marks.now successor next }
    ensures within { IfSome result (λ to. to < length marks.now) }
{
    match successor {
        Successor::Jumps(offset) => met_behind(marks, next, offset),
        Successor::Branches(offset) => met_behind(marks, next, offset),
        Successor::Next | Successor::Returns => None,
    }
}

// The place so many bytes behind another, if an instruction stands there.
fn met_behind(marks: &[bool], next: usize, offset: i32) -> Option<usize>
    ensures value { result ≡ met_at marks.now (Some (pos next +ℤ offset)) }
    ensures within { IfSome result (λ to. to < length marks.now) }
{
    let to = next.checked_add_signed(offset as isize)?;
    met(marks, to)
}
