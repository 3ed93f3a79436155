// Whole files, against bytes that were written out by hand from the format.

use crate::{Pool, write_abc};
use abc_format::{
    Abc, AbcReason, AbcRefusal, ClassIndex, ConstantPool, ExceptionInfo, ItemInfo, MetadataIndex,
    MethodIndex, Multiname, MultinameIndex, Namespace, NamespaceIndex, NamespaceKind,
    NamespaceSetIndex, OptionDetail, StringIndex, Trait, TraitKind, read_abc,
};
use flex_base::{Sequence, Text};
use std::alloc::Global;
use std::test::Fail;

#[test]
fn files_are_written(rt: HostRuntime) -> Result<(), Fail> {
    let alloc = rt.alloc();
    let nothing = write_abc(alloc, &without_anything(alloc))?;
    assert_eq!(rt;
        nothing.as_slice(),
        b"\x10\x00\x2E\x00\0\0\0\0\0\0\0\0\0\0\0\0".as_slice()
    );

    let mut abc = without_anything(alloc);
    abc.constant_pool.integers.push(-1)?;
    let minus_one = write_abc(alloc, &abc)?;
    assert_eq!(rt;
        minus_one.as_slice(),
        b"\x10\x00\x2E\x00\x02\xFF\xFF\xFF\xFF\x0F\0\0\0\0\0\0\0\0\0\0\0".as_slice(),
    );

    Ok(())
}

fn without_anything(alloc: Global) -> Abc {
    Abc {
        constant_pool: ConstantPool {
            integers: Sequence::new(alloc),
            unsigned_integers: Sequence::new(alloc),
            doubles: Sequence::new(alloc),
            strings: Sequence::new(alloc),
            namespaces: Sequence::new(alloc),
            namespace_sets: Sequence::new(alloc),
            multinames: Sequence::new(alloc),
        },
        methods: Sequence::new(alloc),
        metadata: Sequence::new(alloc),
        instances: Sequence::new(alloc),
        classes: Sequence::new(alloc),
        scripts: Sequence::new(alloc),
        method_bodies: Sequence::new(alloc),
    }
}

// An ABC with each kind of record.
const RECORDS: [u8; 159] = [
    // The versions.
    0x10, 0x00, 0x2E, 0x00,
    // An int, an unsigned integer, a double and two strings.
    0x02, 0xFF, 0xFF, 0xFF, 0xFF, 0x0F, 0x02, 0xAC, 0x02, 0x02, 0x00, 0x00, 0x00, 0x00, 0x00, 0x00,
    0xF0, 0x3F, 0x03, 0x01, 0x61, 0x02, 0xC3, 0xA9,
    // A namespace of each kind, and a set of two.
    0x08, 0x08, 0x01, 0x16, 0x02, 0x17, 0x00, 0x18, 0x01, 0x19, 0x01, 0x1A, 0x01, 0x05, 0x00, 0x02,
    0x02, 0x01, 0x00,
    // A multiname of each kind.
    0x0B, 0x07, 0x01, 0x01, 0x0D, 0x02, 0x02, 0x0F, 0x01, 0x10, 0x01, 0x11, 0x12, 0x09, 0x01, 0x01,
    0x0E, 0x02, 0x01, 0x1B, 0x01, 0x1C, 0x01,
    // A method without anything, and one with two parameters, a default value and names.
    0x02, 0x00, 0x00, 0x00, 0x00, 0x02, 0x01, 0x00, 0x01, 0x02, 0x88, 0x01, 0x07, 0x03, 0x01, 0x02,
    // Metadata with one item.
    0x01, 0x01, 0x01, 0x05, 0x06,
    // An instance with a protected namespace, an interface and a trait of each kind.
    0x01, 0x01, 0x00, 0x08, 0x01, 0x01, 0x01, 0x00, 0x07, 0x01, 0x00, 0x00, 0x00, 0x00, 0x02, 0x46,
    0x01, 0x01, 0x01, 0x03, 0x01, 0x00, 0x01, 0x31, 0x05, 0x01, 0x01, 0x02, 0x00, 0x00, 0x01, 0x03,
    0x00, 0x01, 0x01, 0x04, 0x02, 0x00, 0x01, 0x05, 0x00, 0x01,
    // Its class, a script with a slot, and a body with an exception.
    0x01, 0x00, 0x01, 0x00, 0x01, 0x01, 0x00, 0x00, 0x00, 0x00, 0x01, 0x01, 0x02, 0x03, 0x04, 0x05,
    0x02, 0xD0, 0x30, 0x01, 0x00, 0x01, 0x02, 0x03, 0x04, 0x00,
];

fn string(number: u32) -> StringIndex {
    StringIndex::new(number)
}

fn namespace(number: u32) -> NamespaceIndex {
    NamespaceIndex::new(number)
}

fn set(number: u32) -> NamespaceSetIndex {
    NamespaceSetIndex::new(number)
}

fn name(number: u32) -> MultinameIndex {
    MultinameIndex::new(number)
}

fn method_index(number: u32) -> MethodIndex {
    MethodIndex::new(number)
}

#[test]
fn constants_are_read(rt: HostRuntime) -> Result<(), Fail> {
    let pool = read_abc(rt.alloc(), &RECORDS)?.constant_pool;
    assert_eq!(rt; pool.integers.as_slice(), [-1].as_slice());
    assert_eq!(rt; pool.unsigned_integers.as_slice(), [300].as_slice());
    assert_eq!(rt; pool.doubles.as_slice(), [0x3FF0_0000_0000_0000].as_slice());
    assert_eq!(rt; pool.strings.len(), 2);
    assert_eq!(rt; pool.strings.get(1).map(|text| text.as_str()), Some("é"));
    assert_eq!(rt; pool.namespaces.len(), 7);
    assert_eq!(rt;
        pool.namespaces.get(1).copied(),
        Some(Namespace {
            kind: NamespaceKind::PackageNamespace,
            name: string(2)
        }),
    );
    assert_eq!(rt; pool.namespace_sets.get(0).map(|set| set.len()), Some(2));
    assert_eq!(rt;
        pool.multinames.as_slice(),
        [
            Multiname::QName {
                namespace: namespace(1),
                name: string(1)
            },
            Multiname::QNameA {
                namespace: namespace(2),
                name: string(2)
            },
            Multiname::RtqName { name: string(1) },
            Multiname::RtqNameA { name: string(1) },
            Multiname::RtqNameL,
            Multiname::RtqNameLA,
            Multiname::Multiname {
                name: string(1),
                namespace_set: set(1)
            },
            Multiname::MultinameA {
                name: string(2),
                namespace_set: set(1)
            },
            Multiname::MultinameL {
                namespace_set: set(1)
            },
            Multiname::MultinameLA {
                namespace_set: set(1)
            },
        ]
        .as_slice(),
    );
    Ok(())
}

#[test]
fn methods_are_read(rt: HostRuntime) -> Result<(), Fail> {
    let abc = read_abc(rt.alloc(), &RECORDS)?;
    let method = abc.methods.get(1).ok_or("a second method")?;
    assert_eq!(rt;
        (method.return_type, method.name, method.flags),
        (name(1), string(2), 0x88)
    );
    assert_eq!(rt;
        method.param_types.as_slice(),
        [name(0), name(1)].as_slice()
    );
    assert_eq!(rt;
        method.options.as_slice(),
        [OptionDetail { value: 7, kind: 3 }].as_slice()
    );
    assert_eq!(rt;
        method.param_names.as_slice(),
        [string(1), string(2)].as_slice()
    );

    let metadata = abc.metadata.get(0).ok_or("metadata")?;
    assert_eq!(rt;
        metadata.items.as_slice(),
        [ItemInfo {
            key: string(5),
            value: string(6)
        }]
        .as_slice()
    );

    let body = abc.method_bodies.get(0).ok_or("a body")?;
    assert_eq!(rt;
        (body.method, body.max_stack, body.local_count),
        (method_index(1), 2, 3)
    );
    assert_eq!(rt; (body.init_scope_depth, body.max_scope_depth), (4, 5));
    assert_eq!(rt; body.code.as_slice(), b"\xD0\x30".as_slice());
    assert_eq!(rt;
        body.exceptions.as_slice(),
        [ExceptionInfo {
            from: 0,
            to: 1,
            target: 2,
            exc_type: name(3),
            var_name: name(4)
        }]
        .as_slice(),
    );
    Ok(())
}

#[test]
fn classes_are_read(rt: HostRuntime) -> Result<(), Fail> {
    let abc = read_abc(rt.alloc(), &RECORDS)?;
    let instance = abc.instances.get(0).ok_or("an instance")?;
    assert_eq!(rt;
        (instance.name, instance.super_name, instance.flags),
        (name(1), name(0), 8)
    );
    assert_eq!(rt;
        (instance.protected_namespace, instance.iinit),
        (namespace(1), method_index(0))
    );
    assert_eq!(rt; instance.interfaces.as_slice(), [name(1)].as_slice());
    let kinds = [
        TraitKind::Slot {
            slot_id: 0,
            type_name: name(0),
            vindex: 0,
            vkind: 0,
        },
        TraitKind::Const {
            slot_id: 1,
            type_name: name(1),
            vindex: 1,
            vkind: 3,
        },
        TraitKind::Method {
            disp_id: 5,
            method: method_index(1),
        },
        TraitKind::Getter {
            disp_id: 0,
            method: method_index(0),
        },
        TraitKind::Setter {
            disp_id: 0,
            method: method_index(1),
        },
        TraitKind::Class {
            slot_id: 2,
            class: ClassIndex::new(0),
        },
        TraitKind::Function {
            slot_id: 0,
            function: method_index(1),
        },
    ];
    assert_eq!(rt; instance.traits.len(), 7);
    for (n, kind) in kinds.iter().enumerate() {
        assert_eq!(rt; kind_at(&instance.traits, n), Some(*kind));
    }
    let constant = instance.traits.get(1).ok_or("a constant")?;
    assert_eq!(rt; (constant.name, constant.attributes), (name(2), 4));
    assert_eq!(rt;
        constant.metadata.as_slice(),
        [MetadataIndex::new(0)].as_slice()
    );
    assert_eq!(rt;
        abc.classes.get(0).map(|class| class.cinit),
        Some(method_index(1))
    );
    assert_eq!(rt;
        abc.scripts.get(0).map(|script| script.traits.len()),
        Some(1)
    );
    Ok(())
}

fn kind_at(traits: &Sequence<Trait>, n: usize) -> Option<TraitKind> {
    match traits.get(n) {
        None => None,
        Some(found) => Some(found.kind),
    }
}

#[test]
fn what_is_read_is_written(rt: HostRuntime) -> Result<(), Fail> {
    let cases: [(&[u8], &[u8]); 4] = [
        (&RECORDS, &RECORDS),
        (
            b"\x10\0\x2E\0\0\0\0\0\0\0\0\0\0\0\0\0",
            b"\x10\0\x2E\0\0\0\0\0\0\0\0\0\0\0\0\0",
        ),
        // Counts of 1, and an overlong one.
        (
            b"\x10\0\x2E\0\x01\x01\x80\0\x01\0\0\0\0\0\0\0\0",
            b"\x10\0\x2E\0\0\0\0\0\0\0\0\0\0\0\0\0",
        ),
        // A short int is its 32 bits.
        (
            b"\x10\0\x2E\0\x02\x7F\0\0\0\0\0\0\0\0\0\0\0",
            b"\x10\0\x2E\0\x02\xFF\x80\x80\x80\0\0\0\0\0\0\0\0\0\0\0\0",
        ),
    ];
    for (bytes, wanted) in cases {
        let abc = read_abc(rt.alloc(), bytes)?;
        let written = write_abc(rt.alloc(), &abc)?;
        assert_eq!(rt; written.as_slice(), wanted);
    }
    Ok(())
}

// The place of a byte of `RECORDS`, what stands there instead, the place of the fault, and why.
const CHANGES: [(usize, u8, usize, AbcReason); 26] = [
    (0, 0x11, 0, AbcReason::Version),
    (2, 0x2F, 2, AbcReason::Version),
    (27, 0x41, 26, AbcReason::Text),
    (29, 0x09, 29, AbcReason::Kind),
    (30, 0x03, 30, AbcReason::Index),
    (45, 0x08, 45, AbcReason::Index),
    (48, 0x08, 48, AbcReason::Kind),
    (49, 0x08, 49, AbcReason::Index),
    (50, 0x03, 50, AbcReason::Index),
    (62, 0x02, 62, AbcReason::Index),
    (67, 0x00, 67, AbcReason::Index),
    (76, 0x0B, 76, AbcReason::Index),
    (78, 0x0B, 78, AbcReason::Index),
    (84, 0x03, 84, AbcReason::Index),
    (87, 0x03, 87, AbcReason::Index),
    (95, 0x08, 95, AbcReason::Index),
    (97, 0x00, 97, AbcReason::Index),
    (98, 0x02, 98, AbcReason::Index),
    (101, 0x07, 101, AbcReason::Kind),
    (108, 0x0B, 108, AbcReason::Index),
    (112, 0x01, 112, AbcReason::Index),
    (116, 0x02, 116, AbcReason::Index),
    (128, 0x01, 128, AbcReason::Index),
    (133, 0x02, 133, AbcReason::Index),
    (136, 0x02, 136, AbcReason::Index),
    (144, 0x02, 144, AbcReason::Index),
];

#[test]
fn changed_bytes_are_refused(rt: HostRuntime) {
    for (at, byte, place, reason) in CHANGES {
        let mut bytes = RECORDS;
        assert!(rt; at < bytes.len());
        bytes[at] = byte;
        assert_eq!(rt;
            read_abc(rt.alloc(), &bytes).err(),
            Some(AbcRefusal::BadAbc(place, reason))
        );
    }
}

#[test]
fn other_bytes_are_refused(rt: HostRuntime) {
    for size in 0..RECORDS.len() {
        let refusal = read_abc(rt.alloc(), &RECORDS[..size]).err();
        assert!(rt;
            matches!(refusal, Some(AbcRefusal::BadAbc(_, AbcReason::Cut))),
            "{size}"
        );
    }
    let cases: [(&[u8], usize, AbcReason); 5] = [
        (b"\x10\0\x2E\0\0\0\0\0\0\0\0\0\0\0\0", 15, AbcReason::Cut),
        (
            b"\x10\0\x2E\0\0\0\0\0\0\0\0\0\0\0\0\0\0",
            16,
            AbcReason::Trailing,
        ),
        (b"\x10\0\x2E\0\xFF\xFF\xFF\xFF\x04", 4, AbcReason::Number),
        // A count that no entries back.
        (b"\x10\0\x2E\0\xFF\xFF\xFF\xFF\x03", 9, AbcReason::Cut),
        // A string that doesn't fit.
        (b"\x10\0\x2E\0\0\0\0\x02\x05abc", 9, AbcReason::Cut),
    ];
    for (bytes, place, reason) in cases {
        assert_eq!(rt;
            read_abc(rt.alloc(), bytes).err(),
            Some(AbcRefusal::BadAbc(place, reason))
        );
    }
}

#[test]
fn entries_are_interned(rt: HostRuntime) -> Result<(), Fail> {
    let alloc = rt.alloc();
    let space = Text::make(alloc, "spark")?;
    let local = Text::make(alloc, "Button")?;
    let mut pool = Pool::new(alloc);
    assert_eq!(rt; pool.count(), 0);
    assert_eq!(rt; pool.int(7)?.number(), 1);
    let index = pool.name(&space, &local)?;
    assert_eq!(rt; (index, pool.count()), (name(1), 2));
    assert!(rt; pool.count() < 100);
    assert_eq!(rt; pool.text(&local)?, string(2));

    let constants = pool.constant_pool()?;
    assert_eq!(rt; constants.integers.as_slice(), [7].as_slice());
    assert_eq!(rt;
        constants.strings.get(0).map(|text| text.as_str()),
        Some("spark")
    );
    assert_eq!(rt;
        constants.namespaces.as_slice(),
        [Namespace {
            kind: NamespaceKind::Namespace,
            name: string(1)
        }]
        .as_slice(),
    );
    assert_eq!(rt;
        constants.multinames.as_slice(),
        [Multiname::QName {
            namespace: namespace(1),
            name: string(2)
        }]
        .as_slice(),
    );
    Ok(())
}
