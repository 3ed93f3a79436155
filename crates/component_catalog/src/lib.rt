//! The catalog: the closed set of native classes of the player, with their properties, events and
//! methods. Flex 4 (`spark.components`, `mx.core`, `mx.states`, `mx.events`) and Flash Player
//! (`flash.events`), in this project's own choice of rows.
//!
//! The calls take no memory. Each finds a row of the class itself or, where it has none of that
//! name, of the nearest of its bases that has one.
#![tactic(auto)]

mod class;
mod event;
mod laws;
mod method;
mod naming;
mod property;
#[cfg(test)]
mod tests;
mod value;

pub use class::{NativeClass, TagPlace};
pub use event::{EventRow, event_of};
pub use laws::laws_of_the_catalog;
pub use method::{MethodRow, NativeMethod, Parameter, method_of};
pub use naming::{class_in, class_of};
pub use property::{PropertyRow, property_names, property_of};
pub use value::{StartValue, ValueType};
