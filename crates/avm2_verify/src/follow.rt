// The paths of a body, followed by a list of places that wait.

ghost use Rattle.std.specs.Prelude.{◌≡◌, ◌⊎◌, IfOk, MatchBool, MatchOption, Contains};
ghost use Rattle.avm2_verify.specs.Followed.{BodyDiffers, IsFollowed};
ghost use Rattle.avm2_verify.specs.Known.{unfinished};
ghost use Rattle.avm2_verify.specs.Tables.{AreDepthsOf, AreMarks};

use crate::walk::Walk;
use crate::ways::ways_on;
use abc_format::{Abc, MethodBody};
use flex_base::{NoMemory, Sequence};
use std::alloc::Global;
use verified_code::Depths;

// Before the first instruction.
const NO_DEPTHS: Depths = Depths {
    stack: 0,
    scopes: 0,
};

// Of each place the depths of the paths that come to it: none where two paths differ.
pub fn follow(
    alloc: Global,
    abc: &Abc,
    body: &MethodBody,
    marks: &[bool],
) -> Result<Option<Sequence<Option<Depths>>>, NoMemory>
    requires { AreMarks body.now.code marks.now }
    ensures { IfOk result (λ found. MatchOption found (BodyDiffers abc.now body.now) (AreDepthsOf abc.now body.now)) }
{
    let mut walk = Walk::begin(alloc, body.code.len(), NO_DEPTHS)?;
    while let Some(place) = walk.take() {
        if !follow_from(abc, body, marks, place, &mut walk)? {
            return Ok(None);
        }
    }
    Ok(Some(walk.into_table()))
}

// Follows the paths from a place for one instruction. Whether none comes to a place with other
// depths than are known there.
fn follow_from(
    abc: &Abc,
    body: &MethodBody,
    marks: &[bool],
    place: usize,
    walk: &mut Walk,
) -> Result<bool, NoMemory>
    requires marks { AreMarks body.now.code marks.now }
    requires followed { IsFollowed abc.now body.now (λ at. (at ≡ place) ⊎ Contains walk.old.work at) walk.old }
    ensures { IfOk result (λ same. MatchBool same (IsFollowed abc.now body.now (Contains walk.new.work) walk.new × (unfinished walk.new ≡ unfinished walk.old)) (BodyDiffers abc.now body.now)) }
{
    let Some(before) = walk.depths(place) else {
        return Ok(true);
    };
    let Some(ways) = ways_on(abc, body, marks, place, before) else {
        return Ok(true);
    };
    if walk.arrive(ways.next, ways.behind)? {
        walk.arrive(ways.branch, ways.behind)
    } else {
        Ok(false)
    }
}
