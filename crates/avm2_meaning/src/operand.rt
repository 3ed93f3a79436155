// What stacks, scopes and locals hold.

ghost use Rattle.std.specs.Prelude.{◌≡◌};

use flex_base::Value;
use flex_world::StaticType;
use std::alloc::AllocError;

/// A value, or what stands for a class or a script.
#[derive(Drop)]
pub enum Operand {
    Plain(Value),
    /// A class value; there is none of the types `Any` and `Unnamed`.
    ClassValue(StaticType),
    /// A script value, by the script's number.
    ScriptValue(u32),
    /// The native script value.
    Natives,
}

impl Clone for Operand {
    ghost is_clone = { λ operand copy. copy ≡ operand };

    /// The same operand.
    fn clone(&self) -> Result<Operand, AllocError> {
        match self {
            Operand::Plain(value) => Ok(Operand::Plain(value.clone()?)),
            Operand::ClassValue(kind) => Ok(Operand::ClassValue(*kind)),
            Operand::ScriptValue(script) => Ok(Operand::ScriptValue(*script)),
            Operand::Natives => Ok(Operand::Natives),
        }
    }
}
