// What the operands of an instruction name, and what the instruction does.

ghost use Rattle.std.specs.Prelude.{◌≡◌, ◌<◌, ℕ, length, IfOk, Some};
ghost use Rattle.std.specs.List.{list_any};
ghost use Rattle.avm2_code.specs.Writing.{operand_list};
ghost use Rattle.avm2_verify.specs.Ways.{first_is_late, names_late, passed};
ghost use Rattle.verified_code.specs.Operands.{index_rule, is_late, is_missing, is_unplayed, name_at};
ghost use Rattle.verified_code.specs.Verified.{effect};

use abc_format::{Abc, ConstantPool, IndexRule, Multiname};
use avm2_code::{
    CodeReason, Effect, Instruction, OperandForm, Operands, Role, effect_of, instruction_at,
    operands_of, takes_late_name,
};

// The instruction at a place, and the next place, or the first reason that ends paths there.
pub fn passed(abc: &Abc, code: &[u8], place: usize) -> Result<(Instruction, usize), CodeReason>
    requires { place < length code.now }
    ensures read { result ≡ passed abc.now code.now place }
{
    let (instruction, next) = instruction_at(code, place)?;
    let operands = operands_of(&instruction);
    if has_missing(abc, operands) {
        return Err(CodeReason::Index);
    }
    if has_unplayed(&abc.constant_pool, takes_late_name(&instruction), operands) {
        return Err(CodeReason::NotPlayed);
    }
    Ok((instruction, next))
}

fn has_missing(abc: &Abc, operands: Operands) -> bool
    ensures { result ≡ list_any (is_missing abc.now) (operand_list operands) }
{
    match operands {
        Operands::Nothing => false,
        Operands::One(first) => missing(abc, first),
        Operands::Two(first, second) => missing(abc, first) || missing(abc, second),
        Operands::Four(first, second, third, fourth) => {
            missing(abc, first)
                || missing(abc, second)
                || missing(abc, third)
                || missing(abc, fourth)
        }
    }
}

fn missing(abc: &Abc, operand: OperandForm) -> bool
    ensures { result ≡ is_missing abc.now operand }
{
    match operand {
        OperandForm::U30(role, number) => match rule_of(abc, role) {
            Some(rule) => !rule.allows(number),
            None => false,
        },
        _ => false,
    }
}

// What a number may be, by what it says.
fn rule_of(abc: &Abc, role: Role) -> Option<IndexRule>
    ensures { result ≡ index_rule abc.now role }
{
    match role {
        Role::Name => Some(IndexRule::Entry(abc.constant_pool.multinames.len())),
        Role::String => Some(IndexRule::Entry(abc.constant_pool.strings.len())),
        Role::Int => Some(IndexRule::Entry(abc.constant_pool.integers.len())),
        Role::Class => Some(IndexRule::Item(abc.classes.len())),
        _ => None,
    }
}

fn has_unplayed(pool: &ConstantPool, late_name: bool, operands: Operands) -> bool
    ensures { result ≡ list_any (is_unplayed pool.now late_name) (operand_list operands) }
{
    match operands {
        Operands::Nothing => false,
        Operands::One(first) => unplayed(pool, late_name, first),
        Operands::Two(first, second) => {
            unplayed(pool, late_name, first) || unplayed(pool, late_name, second)
        }
        Operands::Four(first, second, third, fourth) => {
            unplayed(pool, late_name, first)
                || unplayed(pool, late_name, second)
                || unplayed(pool, late_name, third)
                || unplayed(pool, late_name, fourth)
        }
    }
}

fn unplayed(pool: &ConstantPool, late_name: bool, operand: OperandForm) -> bool
    ensures { result ≡ is_unplayed pool.now late_name operand }
{
    match operand {
        OperandForm::U30(Role::Name, number) => match name(pool, number) {
            Some(
                Multiname::RtqName { .. }
                | Multiname::RtqNameA { .. }
                | Multiname::RtqNameL
                | Multiname::RtqNameLA,
            ) => true,
            Some(Multiname::MultinameL { .. } | Multiname::MultinameLA { .. }) => !late_name,
            _ => false,
        },
        _ => false,
    }
}

// The name of a number, counted from 1.
fn name(pool: &ConstantPool, number: u32) -> Option<Multiname>
    ensures { result ≡ name_at pool.now number }
{
    if number == 0 {
        return None;
    }
    pool.multinames.get(number as usize - 1).copied()
}

fn late(pool: &ConstantPool, number: u32) -> bool
    ensures { result ≡ is_late pool.now number }
{
    matches!(
        name(pool, number),
        Some(Multiname::MultinameL { .. } | Multiname::MultinameLA { .. })
    )
}

// Whether the first operand is a name of a late kind.
fn first_is_late(pool: &ConstantPool, operands: Operands) -> bool
    ensures { result ≡ first_is_late pool.now (operand_list operands) }
{
    match operands {
        Operands::Nothing => false,
        Operands::One(first) => names_late(pool, first),
        Operands::Two(first, _) => names_late(pool, first),
        Operands::Four(first, _, _, _) => names_late(pool, first),
    }
}

fn names_late(pool: &ConstantPool, operand: OperandForm) -> bool
    ensures { result ≡ names_late pool.now operand }
{
    match operand {
        OperandForm::U30(Role::Name, number) => late(pool, number),
        _ => false,
    }
}

// What an instruction does, where names of late kinds take a value more.
pub fn effect(abc: &Abc, instruction: &Instruction) -> Effect
    ensures { result ≡ effect abc.now instruction.now }
{
    let is_late = first_is_late(&abc.constant_pool, operands_of(instruction));
    effect_of(instruction, is_late)
}
