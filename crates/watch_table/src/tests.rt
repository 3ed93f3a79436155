// Chains of a document 1, walked in small worlds.

ghost use Rattle.std.specs.Prelude.{◌&&◌, find, option_map};
ghost use Rattle.std.specs.Str.{bytes_eq};
ghost use Rattle.flex_base.specs.Value.{is_object};

use crate::{Fields, Pairs, Steps, Watch};
use flex_base::{Chain, NoMemory, ObjId, Text};
use std::alloc::Global;
use std::process::Abort;
use std::test::Fail;

#[derive(Drop)]
struct Held {
    object: ObjId,
    name: Text,
    value: ObjId,
}

#[derive(Drop)]
struct World {
    fields: Vec<Held>,
}

impl Fields for World {
    ghost use Rattle.std.specs.Prelude.{◌&&◌, find, option_map};
    ghost use Rattle.std.specs.Str.{bytes_eq};
    ghost use Rattle.flex_base.specs.Value.{is_object};

    ghost held = { λ w o name. option_map (λ h. h.value) (find (λ h. is_object h.object o && bytes_eq h.name name) w.fields.items) };

    fn field<L>(&self, object: ObjId, name: &Text, steps: &mut Steps<L>) -> Option<ObjId> {
        steps.raise();
        let held = self.fields.iter().find(|h| h.object.0 == object.0
            && h.name.as_str() == name.as_str())?;
        Some(held.value)
    }
}

fn make_world(alloc: Global, held: &[(u32, &str, u32)]) -> Result<World, NoMemory> {
    let mut fields = Vec::new(alloc);
    for (object, name, value) in held {
        fields.push(Held {
            object: ObjId(*object),
            name: Text::make(alloc, name)?,
            value: ObjId(*value),
        })?;
    }
    Ok(World { fields })
}

fn chain(alloc: Global, names: &[&str]) -> Result<Chain, NoMemory> {
    let mut chain = Chain::new(alloc);
    for name in names {
        chain.push(Text::make(alloc, name)?)?;
    }
    Ok(chain)
}

// The bindings that a change in this world affects, counted anew.
fn affected(
    alloc: Global,
    watch: &Watch,
    object: u32,
    name: &str,
    world: &World,
) -> Result<(Pairs, u64), NoMemory> {
    let mut steps = Steps::new(());
    let property = Text::make(alloc, name)?;
    let pairs = watch.affected(alloc, ObjId(object), &property, world, &mut steps)?;
    Ok((pairs, steps.count()))
}

fn expect_pairs(rt: &impl Abort, pairs: &Pairs, wanted: &[(ObjId, u32)]) {
    assert_eq!(rt; pairs.len(), wanted.len());
    for (n, pair) in wanted.iter().enumerate() {
        assert_eq!(rt; pairs.get(n).copied(), Some(*pair));
    }
}

#[test]
fn replaced_objects_affect_nothing(rt: HostRuntime) -> Result<(), Fail> {
    let alloc = rt.alloc();
    let mut watch = Watch::new(alloc);
    watch.add(ObjId(1), 0, &chain(alloc, &["a", "b", "name"])?)?;
    let before = make_world(alloc, &[(1, "a", 4), (4, "b", 5), (6, "b", 7)])?;
    let (pairs, steps) = affected(alloc, &watch, 5, "name", &before)?;
    expect_pairs(&rt, &pairs, &[(ObjId(1), 0)]);
    assert_eq!(rt; steps, 3);
    let after = make_world(alloc, &[(1, "a", 6), (4, "b", 5), (6, "b", 7)])?;
    let mut steps = Steps::new(());
    watch.changed(ObjId(1), &Text::make(alloc, "a")?, &after, &mut steps)?;
    assert!(rt; affected(alloc, &watch, 5, "name", &after)?.0.is_empty());
    let (pairs, _) = affected(alloc, &watch, 7, "name", &after)?;
    expect_pairs(&rt, &pairs, &[(ObjId(1), 0)]);
    watch.remove(ObjId(1), 1)?;
    watch.remove(ObjId(1), 0)?;
    assert!(rt; affected(alloc, &watch, 7, "name", &after)?.0.is_empty());
    Ok(())
}

#[test]
fn bindings_are_in_order_each_once(rt: HostRuntime) -> Result<(), Fail> {
    let alloc = rt.alloc();
    let mut watch = Watch::new(alloc);
    let ring = chain(alloc, &["x", "next", "next", "v"])?;
    watch.add(ObjId(3), 1, &ring)?;
    watch.add(ObjId(1), 2, &ring)?;
    watch.add(ObjId(1), 0, &ring)?;
    watch.add(ObjId(1), 0, &chain(alloc, &["x", "v"])?)?;
    watch.add(ObjId(1), 5, &chain(alloc, &[])?)?;
    let held = make_world(alloc, &[(1, "x", 4), (3, "x", 4), (4, "next", 4)])?;
    let all = [(ObjId(1), 0), (ObjId(1), 2), (ObjId(3), 1)];
    expect_pairs(&rt, &affected(alloc, &watch, 4, "next", &held)?.0, &all);
    expect_pairs(&rt, &affected(alloc, &watch, 4, "v", &held)?.0, &all);
    let own = [(ObjId(3), 1)];
    expect_pairs(&rt, &affected(alloc, &watch, 3, "x", &held)?.0, &own);
    Ok(())
}
