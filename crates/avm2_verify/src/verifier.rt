// Whether the code of records is verified.

ghost use Rattle.std.specs.Prelude.{◌≡◌, ◌<◌, ◌^◌, length, IfErr, IfOk};
ghost use Rattle.avm2_verify.specs.Refusals.{IsRefusal};
ghost use Rattle.avm2_verify.specs.Tables.{IsVerifiedBy};
ghost use Rattle.verified_code.specs.Verified.{IsVerified};

use crate::body::{Checked, check};
use crate::refusal::VerifyRefusal;
use crate::verified::Verified;
use abc_format::Abc;
use flex_base::Sequence;
use std::alloc::Global;
use verified_code::Depths;

/// The records, if their code is verified. AVM2 Overview, chapters 2 and 5; which names are played,
/// the limits and the order of the reasons are this project's own.
///
/// # Errors
///
/// `Bad` with the first reason: that of the first body that has one, at the first place of its code,
/// and there the first of the list of `CodeReason`. `NoMemory` where there is too little.
pub fn verify(alloc: Global, abc: Abc) -> Result<Verified, VerifyRefusal>
    requires { length abc.method_bodies < 2 ^ 32 }
    ensures verified { IfOk result (λ v. (v ≡ abc) × IsVerified abc) }
    ensures refused { IfErr result (IsRefusal abc) }
{
    let tables = tables_of(alloc, &abc)?;
    Ok(Verified::new(abc, tables))
}

// Of each place of each body, the depths of the paths that come to it.
fn tables_of(alloc: Global, abc: &Abc) -> Result<Sequence<Sequence<Option<Depths>>>, VerifyRefusal>
    requires { length abc.now.method_bodies < 2 ^ 32 }
    ensures verified { IfOk result (IsVerifiedBy abc.now) }
    ensures refused { IfErr result (IsRefusal abc.now) }
{
    let mut tables = Sequence::new(alloc);
    for body in abc.method_bodies.as_slice() {
        match check(alloc, abc, body)? {
            Checked::Fine { table } => tables.push(table)?,
            Checked::Bad { place, reason } => {
                return Err(VerifyRefusal::Bad {
                    body: tables.len() as u32,
                    place,
                    reason,
                });
            }
        }
    }
    Ok(tables)
}
