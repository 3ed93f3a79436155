// The table of instructions: the opcode, the operands and the effect of each.

ghost use Rattle.std.specs.Prelude.{◌≡◌, ℕ, false};
ghost use Rattle.avm2_code.specs.Table.{moves, row, opcode, operands};
ghost use Rattle.avm2_code.specs.Writing.{operand_list};

use crate::instruction::Instruction;

/// What an operand that is a `u30` says.
#[derive(Clone, Copy, PartialEq, Eq, Debug)]
pub enum Role {
    /// A name of the pool.
    Name,
    /// A string of the pool.
    String,
    /// An int of the pool.
    Int,
    /// A class, from 0.
    Class,
    /// A local, from 0.
    Local,
    /// How many arguments or items.
    Count,
    /// Nothing that is looked at.
    Plain,
}

/// An operand, by its form. AVM2 Overview, chapter 5; the sign of `S8` is this project's own
/// reading.
#[derive(Clone, Copy)]
pub enum OperandForm {
    /// A byte.
    U8(u8),
    /// A byte with a sign.
    S8(i8),
    /// A number in one to five bytes, below 2^30.
    U30(Role, u32),
    /// An offset in three bytes with a sign, the low one first.
    S24(i32),
}

/// The operands of an instruction, in their order.
#[derive(Clone, Copy)]
pub enum Operands {
    Nothing,
    One(OperandForm),
    Two(OperandForm, OperandForm),
    Four(OperandForm, OperandForm, OperandForm, OperandForm),
}

/// Where code goes on behind an instruction. An offset is counted from the instruction's end.
#[derive(Clone, Copy, PartialEq, Eq, Debug)]
pub enum Successor {
    /// To the next instruction.
    Next,
    /// Only so many bytes on.
    Jumps(i32),
    /// So many bytes on, or to the next instruction.
    Branches(i32),
    /// Nowhere.
    Returns,
}

/// Which local is read or written.
#[derive(Clone, Copy, PartialEq, Eq, Debug)]
pub enum LocalUse {
    Nothing,
    Reads(u32),
    Writes(u32),
}

/// What an instruction takes off the stack and leaves there, what it does to the scopes, and what
/// it uses. AVM2 Overview, chapter 5.
#[derive(Clone, Copy)]
pub struct Effect {
    /// How many values it takes off the stack.
    pub takes: u64,
    /// How many it then puts there.
    pub leaves: u64,
    /// How many scopes it takes off.
    pub scopes_taken: u64,
    /// How many it then puts there.
    pub scopes_left: u64,
    /// How many scopes must be there.
    pub scopes_needed: u64,
    /// The local that it uses.
    pub local: LocalUse,
    /// Where code goes on.
    pub successor: Successor,
}

impl Effect {
    ghost use Rattle.std.specs.Prelude.{◌≡◌};
    ghost use Rattle.avm2_code.specs.Table.{moves};

    // So many values off the stack, and so many onto it.
    fn moves(takes: u64, leaves: u64) -> Effect
        ensures { result ≡ moves takes leaves }
    {
        Effect {
            takes,
            leaves,
            scopes_taken: 0,
            scopes_left: 0,
            scopes_needed: 0,
            local: LocalUse::Nothing,
            successor: Successor::Next,
        }
    }
}

/// The opcode of an instruction. AVM2 Overview, chapter 5.
pub fn opcode_of(instruction: &Instruction) -> u8
    ensures { result ≡ opcode instruction.now }
{
    match instruction {
        Instruction::Label => 0x09,
        Instruction::Jump { .. } => 0x10,
        Instruction::IfTrue { .. } => 0x11,
        Instruction::IfFalse { .. } => 0x12,
        Instruction::PopScope => 0x1D,
        Instruction::PushNull => 0x20,
        Instruction::PushUndefined => 0x21,
        Instruction::PushByte { .. } => 0x24,
        Instruction::PushTrue => 0x26,
        Instruction::PushFalse => 0x27,
        Instruction::Pop => 0x29,
        Instruction::Dup => 0x2A,
        Instruction::Swap => 0x2B,
        Instruction::PushString { .. } => 0x2C,
        Instruction::PushInt { .. } => 0x2D,
        Instruction::PushScope => 0x30,
        Instruction::CallSuper { .. } => 0x45,
        Instruction::CallProperty { .. } => 0x46,
        Instruction::ReturnVoid => 0x47,
        Instruction::ReturnValue => 0x48,
        Instruction::ConstructSuper { .. } => 0x49,
        Instruction::ConstructProp { .. } => 0x4A,
        Instruction::CallPropVoid { .. } => 0x4F,
        Instruction::NewArray { .. } => 0x56,
        Instruction::NewClass { .. } => 0x58,
        Instruction::FindPropStrict { .. } => 0x5D,
        Instruction::GetLex { .. } => 0x60,
        Instruction::SetProperty { .. } => 0x61,
        Instruction::GetLocal { .. } => 0x62,
        Instruction::SetLocal { .. } => 0x63,
        Instruction::GetScopeObject { .. } => 0x65,
        Instruction::GetProperty { .. } => 0x66,
        Instruction::InitProperty { .. } => 0x68,
        Instruction::ConvertString => 0x70,
        Instruction::ConvertInt => 0x73,
        Instruction::ConvertBoolean => 0x76,
        Instruction::Coerce { .. } => 0x80,
        Instruction::CoerceAny => 0x82,
        Instruction::CoerceString => 0x85,
        Instruction::Negate => 0x90,
        Instruction::Not => 0x96,
        Instruction::Add => 0xA0,
        Instruction::Subtract => 0xA1,
        Instruction::Multiply => 0xA2,
        Instruction::Modulo => 0xA4,
        Instruction::Equals => 0xAB,
        Instruction::StrictEquals => 0xAC,
        Instruction::LessThan => 0xAD,
        Instruction::LessEquals => 0xAE,
        Instruction::GreaterThan => 0xAF,
        Instruction::GetLocal0 => 0xD0,
        Instruction::GetLocal1 => 0xD1,
        Instruction::GetLocal2 => 0xD2,
        Instruction::GetLocal3 => 0xD3,
        Instruction::SetLocal0 => 0xD4,
        Instruction::SetLocal1 => 0xD5,
        Instruction::SetLocal2 => 0xD6,
        Instruction::SetLocal3 => 0xD7,
        Instruction::Debug { .. } => 0xEF,
        Instruction::DebugLine { .. } => 0xF0,
        Instruction::DebugFile { .. } => 0xF1,
    }
}

/// The operands of an instruction.
pub fn operands_of(instruction: &Instruction) -> Operands
    ensures { operand_list result ≡ operands instruction.now }
{
    match *instruction {
        Instruction::Jump { offset }
        | Instruction::IfTrue { offset }
        | Instruction::IfFalse { offset } => Operands::One(OperandForm::S24(offset)),
        Instruction::PushByte { value } => Operands::One(OperandForm::S8(value)),
        Instruction::GetScopeObject { scope } => Operands::One(OperandForm::U8(scope)),
        Instruction::PushString { string } => one(Role::String, string),
        Instruction::PushInt { int } => one(Role::Int, int),
        Instruction::ConstructSuper { count } | Instruction::NewArray { count } => {
            one(Role::Count, count)
        }
        Instruction::NewClass { class } => one(Role::Class, class),
        Instruction::GetLocal { local } | Instruction::SetLocal { local } => {
            one(Role::Local, local)
        }
        Instruction::FindPropStrict { name }
        | Instruction::GetLex { name }
        | Instruction::SetProperty { name }
        | Instruction::GetProperty { name }
        | Instruction::InitProperty { name }
        | Instruction::Coerce { name } => one(Role::Name, name),
        Instruction::DebugLine { line: plain } | Instruction::DebugFile { file: plain } => {
            one(Role::Plain, plain)
        }
        Instruction::CallSuper { name, count }
        | Instruction::CallProperty { name, count }
        | Instruction::ConstructProp { name, count }
        | Instruction::CallPropVoid { name, count } => Operands::Two(
            OperandForm::U30(Role::Name, name),
            OperandForm::U30(Role::Count, count),
        ),
        Instruction::Debug {
            kind,
            name,
            register,
            extra,
        } => Operands::Four(
            OperandForm::U8(kind),
            OperandForm::U30(Role::Plain, name),
            OperandForm::U8(register),
            OperandForm::U30(Role::Plain, extra),
        ),
        _ => Operands::Nothing,
    }
}

// One number.
fn one(role: Role, number: u32) -> Operands
    ensures { result ≡ Operands.One (OperandForm.U30 role number) }
{
    Operands::One(OperandForm::U30(role, number))
}

/// Whether the name of an instruction may be of a late kind, so that its index is a value of the
/// stack.
pub fn takes_late_name(instruction: &Instruction) -> bool
    ensures { result ≡ (row (λ name. false) instruction.now).late_name }
{
    matches!(
        instruction,
        Instruction::SetProperty { .. } | Instruction::GetProperty { .. }
    )
}

/// The effect of an instruction, where its name, if it has one, is of a late kind or isn't.
pub fn effect_of(instruction: &Instruction, is_late: bool) -> Effect
    ensures { result ≡ (row (λ name. is_late) instruction.now).effect }
{
    let index = u64::from(is_late);
    match *instruction {
        Instruction::Label
        | Instruction::Debug { .. }
        | Instruction::DebugLine { .. }
        | Instruction::DebugFile { .. } => Effect::moves(0, 0),
        Instruction::Jump { offset } => goes(0, Successor::Jumps(offset)),
        Instruction::IfTrue { offset } => goes(1, Successor::Branches(offset)),
        Instruction::IfFalse { offset } => goes(1, Successor::Branches(offset)),
        Instruction::ReturnVoid => goes(0, Successor::Returns),
        Instruction::ReturnValue => goes(1, Successor::Returns),
        Instruction::PushScope => scopes(1, 0, 0, 1),
        Instruction::PopScope => scopes(0, 1, 1, 0),
        Instruction::GetScopeObject { scope } => has_scope(u64::from(scope) + 1),
        Instruction::GetLocal { local } => uses(0, 1, LocalUse::Reads(local)),
        Instruction::GetLocal0 => uses(0, 1, LocalUse::Reads(0)),
        Instruction::GetLocal1 => uses(0, 1, LocalUse::Reads(1)),
        Instruction::GetLocal2 => uses(0, 1, LocalUse::Reads(2)),
        Instruction::GetLocal3 => uses(0, 1, LocalUse::Reads(3)),
        Instruction::SetLocal { local } => uses(1, 0, LocalUse::Writes(local)),
        Instruction::SetLocal0 => uses(1, 0, LocalUse::Writes(0)),
        Instruction::SetLocal1 => uses(1, 0, LocalUse::Writes(1)),
        Instruction::SetLocal2 => uses(1, 0, LocalUse::Writes(2)),
        Instruction::SetLocal3 => uses(1, 0, LocalUse::Writes(3)),
        Instruction::PushNull
        | Instruction::PushUndefined
        | Instruction::PushByte { .. }
        | Instruction::PushTrue
        | Instruction::PushFalse
        | Instruction::PushString { .. }
        | Instruction::PushInt { .. }
        | Instruction::FindPropStrict { .. }
        | Instruction::GetLex { .. } => Effect::moves(0, 1),
        Instruction::Pop => Effect::moves(1, 0),
        Instruction::Dup => Effect::moves(1, 2),
        Instruction::Swap => Effect::moves(2, 2),
        Instruction::CallSuper { count, .. }
        | Instruction::CallProperty { count, .. }
        | Instruction::ConstructProp { count, .. } => Effect::moves(u64::from(count) + 1, 1),
        Instruction::ConstructSuper { count } | Instruction::CallPropVoid { count, .. } => {
            Effect::moves(u64::from(count) + 1, 0)
        }
        Instruction::NewArray { count } => Effect::moves(u64::from(count), 1),
        Instruction::SetProperty { .. } => Effect::moves(2 + index, 0),
        Instruction::GetProperty { .. } => Effect::moves(1 + index, 1),
        Instruction::InitProperty { .. } => Effect::moves(2, 0),
        Instruction::NewClass { .. }
        | Instruction::ConvertString
        | Instruction::ConvertInt
        | Instruction::ConvertBoolean
        | Instruction::Coerce { .. }
        | Instruction::CoerceAny
        | Instruction::CoerceString
        | Instruction::Negate
        | Instruction::Not => Effect::moves(1, 1),
        Instruction::Add
        | Instruction::Subtract
        | Instruction::Multiply
        | Instruction::Modulo
        | Instruction::Equals
        | Instruction::StrictEquals
        | Instruction::LessThan
        | Instruction::LessEquals
        | Instruction::GreaterThan => Effect::moves(2, 1),
    }
}

// So many values off the stack, and on from there.
fn goes(takes: u64, successor: Successor) -> Effect
    ensures { result ≡ record (moves takes 0) { successor = successor } }
{
    Effect {
        successor,
        ..Effect::moves(takes, 0)
    }
}

fn uses(takes: u64, leaves: u64, local: LocalUse) -> Effect
    ensures { result ≡ record (moves takes leaves) { local = local } }
{
    Effect {
        local,
        ..Effect::moves(takes, leaves)
    }
}

// One value more, where so many scopes are there.
fn has_scope(needed: u64) -> Effect
    ensures { result ≡ record (moves 0 1) { scopes_needed = needed } }
{
    Effect {
        scopes_needed: needed,
        ..Effect::moves(0, 1)
    }
}

fn scopes(takes: u64, taken: u64, needed: u64, left: u64) -> Effect
    ensures { result ≡ record (moves takes 0) { scopes_taken = taken; scopes_needed = needed; scopes_left = left } }
{
    Effect {
        scopes_taken: taken,
        scopes_needed: needed,
        scopes_left: left,
        ..Effect::moves(takes, 0)
    }
}
