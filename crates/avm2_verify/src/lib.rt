//! The verifier: whether the code of records keeps the rules on all paths, and the first reason why
//! not.
#![tactic(auto)]

mod body;
mod follow;
mod marks;
mod operands;
mod refusal;
#[cfg(test)]
mod tests;
mod verified;
mod verifier;
mod walk;
mod ways;

pub use refusal::VerifyRefusal;
pub use verified::Verified;
pub use verifier::verify;
