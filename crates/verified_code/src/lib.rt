//! Verified code: what it is, by all paths of each body, and the laws of that definition. Whatever
//! reads code and whatever makes it speaks of it by these. AVM2 Overview, chapters 2 and 5.
#![tactic(auto)]

ghost use Rattle.verified_code.specs.Laws.{HasOneFirstReason};
ghost use Rattle.verified_code.specs.Sound.{VerifiedIsSound, VerifiedListsAreSound};

/// What a path has before an instruction.
#[derive(Clone, Copy, PartialEq, Eq, Debug)]
pub struct Depths {
    /// How many values stand on the stack.
    pub stack: u32,
    /// How many scopes the body has opened.
    pub scopes: u32,
}

/// Records have at most one first reason, and none where their code is verified.
pub fn laws_of_reasons()
    ensures { HasOneFirstReason }
{}

/// Of verified code, each branch meets an instruction, a label where it leads back; what stands
/// behind an instruction of a path that goes on is an instruction; what operands name is there, and
/// locals are below their count; and paths keep the depths of their body.
pub fn laws_of_verified_code()
    ensures sound { VerifiedIsSound }
    ensures listed { VerifiedListsAreSound }
{}
