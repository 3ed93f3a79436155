//! The machine that plays an ABC, as far as the emitted code needs it.
#![tactic(auto)]

mod catalog;
mod dispatch;
mod execute;
mod frame;
mod machine;
mod names;
mod stack;
mod stage;
mod tables;

pub use catalog::NativeClass;
pub use dispatch::{Call, Dispatch, Sending};
pub use frame::{CodeFrame, Frame, Operand};
pub use machine::{Load, Machine};
pub use stack::Stack;
pub use stage::{Class, Object, PropertyType, Registration, Slot, Stage};
