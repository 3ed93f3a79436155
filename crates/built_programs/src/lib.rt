//! The checked programs of the sources that are built so far.
#![tactic(auto)]

mod building;
mod children;
mod fine;
mod laws;
#[cfg(test)]
mod tests;

pub use building::source_program;
pub use fine::source_programs_are_fine;
pub use laws::small_documents_mean;
