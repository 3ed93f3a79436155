// What no contract says: code that is refused and code that is accepted, by hand, where memory is
// there.

ghost use Rattle.std.specs.Prelude.{◌≡◌, IfOk, length};

use crate::refusal::VerifyRefusal;
use crate::verifier::verify;
use abc_format::{
    Abc, ConstantPool, ExceptionInfo, MethodBody, MethodIndex, MethodInfo, Multiname,
    MultinameIndex, NamespaceIndex, NamespaceSetIndex, StringIndex,
};
use avm2_code::CodeReason;
use flex_base::{Bytes, NoMemory, Sequence, Text};
use std::alloc::Global;
use std::test::Fail;
use verified_code::Depths;

// Code, and the place and the reason that are answered of it, if it is refused.
struct Case {
    code: &'static [u8],
    found: Option<(usize, CodeReason)>,
}

// Names 1, 2 and 3 are a QName, an RTQName and a MultinameL; there is one string and no class. A
// body has two values, one scope and two locals.
const CASES: &[Case] = &[
    Case {
        code: b"\x20\x29\x10\xFA\xFF\xFF\x47",
        found: Some((2, CodeReason::BackwardToNoLabel)),
    },
    Case {
        code: b"\x09\x20\x29\x10\xF9\xFF\xFF\x47",
        found: None,
    },
    Case {
        code: b"\x47",
        found: None,
    },
    Case {
        code: b"",
        found: Some((0, CodeReason::FallsOff)),
    },
    Case {
        code: b"\x10\xFF\xFF",
        found: Some((0, CodeReason::Cut)),
    },
    Case {
        code: b"\xA3",
        found: Some((0, CodeReason::UnknownOpcode)),
    },
    Case {
        code: b"\x10\x00\x00\x00\xA3",
        found: Some((4, CodeReason::UnknownOpcode)),
    },
    Case {
        code: b"\x60\x80\x80\x80\x80\x04",
        found: Some((0, CodeReason::Number)),
    },
    Case {
        code: b"\x2C\x01\x48",
        found: None,
    },
    Case {
        code: b"\x2C\x00\x48",
        found: Some((0, CodeReason::Index)),
    },
    Case {
        code: b"\x2C\x02\x48",
        found: Some((0, CodeReason::Index)),
    },
    Case {
        code: b"\x20\x58\x00\x48",
        found: Some((1, CodeReason::Index)),
    },
    Case {
        code: b"\x60\x01\x48",
        found: None,
    },
    Case {
        code: b"\x60\x02\x48",
        found: Some((0, CodeReason::NotPlayed)),
    },
    Case {
        code: b"\x60\x03\x48",
        found: Some((0, CodeReason::NotPlayed)),
    },
    Case {
        code: b"\x20\x20\x66\x03\x48",
        found: None,
    },
    Case {
        code: b"\x20\x66\x03\x48",
        found: Some((1, CodeReason::StackDepth)),
    },
    Case {
        code: b"\x10\x01\x00\x00\x2C\x01\x47",
        found: Some((0, CodeReason::OffInstruction)),
    },
    Case {
        code: b"\x29\x47",
        found: Some((0, CodeReason::StackDepth)),
    },
    Case {
        code: b"\x20\x20\x20\x47",
        found: Some((2, CodeReason::StackDepth)),
    },
    Case {
        code: b"\x26\x12\x01\x00\x00\x20\x47",
        found: Some((0, CodeReason::StackDepth)),
    },
    Case {
        code: b"\x62\x01\x48",
        found: None,
    },
    Case {
        code: b"\x62\x02\x48",
        found: Some((0, CodeReason::LocalNumber)),
    },
    Case {
        code: b"\x47\xD6",
        found: Some((1, CodeReason::LocalNumber)),
    },
    Case {
        code: b"\x47\x29",
        found: None,
    },
    Case {
        code: b"\x09\x26\x11\xFA\xFF\xFF",
        found: Some((2, CodeReason::FallsOff)),
    },
    Case {
        code: b"\x65\x00\x48",
        found: Some((0, CodeReason::StackDepth)),
    },
    Case {
        code: b"\xD0\x30\x65\x00\x29\x1D\x47",
        found: None,
    },
    Case {
        code: b"\xD0\x30\xD0\x30\x47",
        found: Some((3, CodeReason::StackDepth)),
    },
];

fn constants(alloc: Global) -> Result<ConstantPool, NoMemory> {
    let mut strings = Sequence::new(alloc);
    strings.push(Text::make(alloc, "a")?)?;
    let mut multinames = Sequence::new(alloc);
    multinames.push(Multiname::QName {
        namespace: NamespaceIndex::new(0),
        name: StringIndex::new(1),
    })?;
    multinames.push(Multiname::RtqName {
        name: StringIndex::new(1),
    })?;
    multinames.push(Multiname::MultinameL {
        namespace_set: NamespaceSetIndex::new(1),
    })?;
    Ok(ConstantPool {
        integers: Sequence::new(alloc),
        unsigned_integers: Sequence::new(alloc),
        doubles: Sequence::new(alloc),
        strings,
        namespaces: Sequence::new(alloc),
        namespace_sets: Sequence::new(alloc),
        multinames,
    })
}

fn body(alloc: Global, code: &[u8]) -> Result<MethodBody, NoMemory> {
    let mut bytes = Bytes::new(alloc);
    bytes.extend(code)?;
    Ok(MethodBody {
        method: MethodIndex::new(0),
        max_stack: 2,
        local_count: 2,
        init_scope_depth: 3,
        max_scope_depth: 4,
        code: bytes,
        exceptions: Sequence::new(alloc),
        traits: Sequence::new(alloc),
    })
}

// Records with one method of one parameter, and one body.
fn records(alloc: Global, body: MethodBody) -> Result<Abc, NoMemory>
    ensures { IfOk result (λ a. length a.method_bodies ≡ 1) }
{
    let mut param_types = Sequence::new(alloc);
    param_types.push(MultinameIndex::new(0))?;
    let mut methods = Sequence::new(alloc);
    methods.push(MethodInfo {
        return_type: MultinameIndex::new(0),
        param_types,
        name: StringIndex::new(0),
        flags: 0,
        options: Sequence::new(alloc),
        param_names: Sequence::new(alloc),
    })?;
    let mut method_bodies = Sequence::new(alloc);
    method_bodies.push(body)?;
    Ok(Abc {
        constant_pool: constants(alloc)?,
        methods,
        metadata: Sequence::new(alloc),
        instances: Sequence::new(alloc),
        classes: Sequence::new(alloc),
        scripts: Sequence::new(alloc),
        method_bodies,
    })
}

fn found_of(alloc: Global, body: MethodBody) -> Result<Option<(usize, CodeReason)>, NoMemory> {
    match verify(alloc, records(alloc, body)?) {
        Ok(_) => Ok(None),
        Err(VerifyRefusal::Bad { place, reason, .. }) => Ok(Some((place, reason))),
        Err(VerifyRefusal::NoMemory) => Err(NoMemory),
    }
}

fn found_in(alloc: Global, code: &[u8]) -> Result<Option<(usize, CodeReason)>, NoMemory> {
    found_of(alloc, body(alloc, code)?)
}

#[test]
fn code_is_refused_or_accepted(rt: HostRuntime) -> Result<(), Fail> {
    for case in CASES {
        let found = found_in(rt.alloc(), case.code)?;
        assert_eq!(rt; found, case.found);
    }
    Ok(())
}

#[test]
fn limits_of_a_body(rt: HostRuntime) -> Result<(), Fail> {
    let mut deep = body(rt.alloc(), b"\x47")?;
    deep.max_stack = 2_049;
    let found = found_of(rt.alloc(), deep)?;
    assert_eq!(rt; found, Some((0, CodeReason::StackDepth)));
    let mut below = body(rt.alloc(), b"")?;
    below.max_scope_depth = 2;
    let found = found_of(rt.alloc(), below)?;
    assert_eq!(rt; found, Some((0, CodeReason::StackDepth)));
    let mut few = body(rt.alloc(), b"\x47")?;
    few.local_count = 1;
    let found = found_of(rt.alloc(), few)?;
    assert_eq!(rt; found, Some((0, CodeReason::LocalNumber)));
    let mut many = body(rt.alloc(), b"\x47")?;
    many.local_count = 513;
    let found = found_of(rt.alloc(), many)?;
    assert_eq!(rt; found, Some((0, CodeReason::LocalNumber)));
    Ok(())
}

#[test]
fn handlers_of_exceptions(rt: HostRuntime) -> Result<(), Fail> {
    let mut handled = body(rt.alloc(), b"\xA3")?;
    handled.exceptions.push(ExceptionInfo {
        from: 0,
        to: 0,
        target: 0,
        exc_type: MultinameIndex::new(0),
        var_name: MultinameIndex::new(0),
    })?;
    let found = found_of(rt.alloc(), handled)?;
    assert_eq!(rt; found, Some((0, CodeReason::HasExceptions)));
    Ok(())
}

// The depths before the second instruction and behind the last, of code that pushes a value.
#[test]
fn depths_of_verified_code(rt: HostRuntime) -> Result<(), Fail> {
    let code = records(rt.alloc(), body(rt.alloc(), b"\x2C\x01\x48")?)?;
    let verified = verify(rt.alloc(), code)?;
    let one = Depths {
        stack: 1,
        scopes: 0,
    };
    assert_eq!(rt; verified.depths(0, 2), Some(one));
    assert_eq!(rt; verified.depths(0, 1), None);
    assert_eq!(rt; verified.abc().method_bodies.len(), 1);
    let abc = verified.into_abc();
    assert_eq!(rt; abc.methods.len(), 1);
    Ok(())
}
