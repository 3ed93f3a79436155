//! The writing of the ABC format, and the pool in which emitted code interns its constants.
#![tactic(auto)]

mod laws;
mod pool;
#[cfg(test)]
mod tests;
mod writing;

pub use laws::{laws_of_pools, laws_of_writing};
pub use pool::Pool;
pub use writing::write_abc;
