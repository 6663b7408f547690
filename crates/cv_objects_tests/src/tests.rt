//! Digests are those of `sha1sum`: of `hello` and of `world`, each with a newline.
ghost use Rattle.std.specs.Prelude.{IfOk, OnOk};
ghost use Rattle.cv_base.specs.Objects.{AreNamed};

use cv_base::{Bytes, Kind, Object, ObjectId};
use cv_objects::{Objects, StoreFault};
use cv_ports::Shelf;
use cv_vault::{MemoryVault, Vault};
use std::alloc::Global;
use std::test::Fail;

// Objects in a vault in memory.
type TestObjects = Objects<MemoryVault>;

const HELLO: [u8; 20] = [
    245, 114, 211, 150, 250, 233, 32, 102, 40, 113, 79, 178, 206, 0, 247, 46, 148, 242, 37, 143,
];

const WORLD: [u8; 20] = [
    149, 145, 129, 140, 7, 233, 0, 219, 126, 30, 11, 196, 184, 132, 201, 69, 230, 166, 27, 36,
];

const HELLO_NAME: &str = "data/f5/72d396fae9206628714fb2ce00f72e94f2258f";

const WORLD_NAME: &str = "data/95/91818c07e900db7e1e0bc4b884c945e6a61b24C";

fn hello() -> ObjectId {
    ObjectId {
        hash: HELLO,
        kind: Kind::Plain,
    }
}

fn world() -> ObjectId {
    ObjectId {
        hash: WORLD,
        kind: Kind::Catalogue,
    }
}

// One object more.
fn add(alloc: Global, batch: &mut Vec<Object>, kind: Kind, bytes: &[u8]) -> Result<(), Fail>
    requires { AreNamed batch.old.items }
    ensures { OnOk result (AreNamed batch.new.items) }
{
    let id = ObjectId::of(kind, bytes);
    let bytes = Bytes::from_slice(alloc, bytes)?;
    batch.push(Object { id, bytes })?;
    Ok(())
}

// Three objects, the last of which is the first again, or so many of them.
fn three(alloc: Global, count: u64) -> Result<Vec<Object>, Fail>
    ensures { IfOk result (λ batch. AreNamed batch.items) }
{
    let mut batch = Vec::new(alloc);
    add(alloc, &mut batch, Kind::Catalogue, b"world\n")?;
    if count == 1 {
        return Ok(batch);
    }
    add(alloc, &mut batch, Kind::Plain, b"hello\n")?;
    if count == 2 {
        return Ok(batch);
    }
    add(alloc, &mut batch, Kind::Catalogue, b"world\n")?;
    Ok(batch)
}

// The objects in a vault whose calls of these numbers fail.
fn empty(alloc: Global, failing: Vec<u64>) -> Result<TestObjects, Fail> {
    Ok(Objects::new(MemoryVault::new(alloc, failing)?))
}

// The ids of a batch that are fresh.
fn fresh_of(
    alloc: Global,
    objects: &mut TestObjects,
    batch: &[Object],
) -> Result<Vec<ObjectId>, StoreFault> {
    objects.fresh(alloc, batch)
}

// Those of the three objects.
fn fresh(
    alloc: Global,
    objects: &mut TestObjects,
) -> Result<Result<Vec<ObjectId>, StoreFault>, Fail> {
    let batch = three(alloc, 3)?;
    Ok(fresh_of(alloc, objects, batch.as_slice()))
}

// Stores so many of the three.
fn store(
    alloc: Global,
    objects: &mut TestObjects,
    count: u64,
) -> Result<Result<(), StoreFault>, Fail> {
    let batch = three(alloc, count)?;
    Ok(objects.store(alloc, batch.as_slice()))
}

// Whether a name has these bytes.
fn has(vault: &mut MemoryVault, name: &str, bytes: &[u8]) -> Result<bool, Fail> {
    match vault.read(name)? {
        Some(file) => Ok(file.as_slice() == bytes),
        None => Ok(false),
    }
}

// How many names of objects have a file.
fn name_count(vault: &mut MemoryVault) -> Result<usize, Fail> {
    Ok(vault.list("data/")?.len())
}

// Whether just the three stand under their names.
fn has_three(objects: TestObjects) -> Result<bool, Fail> {
    let mut vault = objects.into_vault();
    let first = has(&mut vault, WORLD_NAME, b"world\n")?;
    let second = has(&mut vault, HELLO_NAME, b"hello\n")?;
    Ok(first && second && name_count(&mut vault)? == 2)
}

// Whether the shelf serves the second of them, and says how many bytes it has.
fn serves(alloc: Global, objects: &mut TestObjects) -> Result<bool, Fail> {
    let served = match objects.fetch(alloc, &hello())? {
        Some(found) => found.as_slice() == b"hello\n".as_slice(),
        None => false,
    };
    Ok(served && objects.length(alloc, &hello())? == Some(6))
}

#[test]
fn stores_a_batch_under_the_names_of_its_ids(rt: HostRuntime) -> Result<(), Fail> {
    let alloc = rt.alloc();
    let mut objects = empty(alloc, Vec::new(alloc))?;
    let ids = fresh(alloc, &mut objects)??;
    assert!(rt; ids.as_slice() == [world(), hello()].as_slice());
    assert_eq!(rt; store(alloc, &mut objects, 3)?, Ok(()));
    assert!(rt; fresh(alloc, &mut objects)??.is_empty());
    assert_eq!(rt; objects.settle(), Ok(()));
    assert!(rt; serves(alloc, &mut objects)?);
    assert!(rt; has_three(objects)?);
    Ok(())
}

// A store whose call of this number fails, and another behind it: whether the first one failed, and all is there.
fn stores_again(alloc: Global, call: u64, made: bool) -> Result<(bool, bool), Fail> {
    let mut failing = vec![in alloc; call]?;
    if made {
        failing.push(call)?;
    }
    let mut objects = empty(alloc, failing)?;
    let failed = store(alloc, &mut objects, 3)? == Err(StoreFault::Failed);
    store(alloc, &mut objects, 3)??;
    Ok((failed, has_three(objects)?))
}

#[test]
fn a_store_goes_on_where_an_earlier_one_failed(rt: HostRuntime) -> Result<(), Fail> {
    let alloc = rt.alloc();
    // Three syncs, two looks at each object, a write of each, and a rename of two.
    for call in 1..15 {
        assert!(rt; stores_again(alloc, call, false)? == (true, true));
        assert!(rt; stores_again(alloc, call, true)? == (true, true));
    }
    assert!(rt; stores_again(alloc, 40, false)? == (false, true));
    Ok(())
}

// Two stores, the second of a batch that the first brought in part: whether it ends well where the call of this number fails.
fn stores_more(alloc: Global, call: u64) -> Result<bool, Fail> {
    let mut objects = empty(alloc, vec![in alloc; call]?)?;
    store(alloc, &mut objects, 1)??;
    Ok(store(alloc, &mut objects, 2)?.is_ok())
}

#[test]
fn a_store_behind_one_that_ended_well_begins_without_a_sync(rt: HostRuntime) -> Result<(), Fail> {
    let alloc = rt.alloc();
    // Behind the seven calls of the first one a look at both objects, twice, a write, a rename and two syncs.
    for call in 8..16 {
        assert!(rt; !stores_more(alloc, call)?);
    }
    assert!(rt; stores_more(alloc, 16)?);
    Ok(())
}

// Objects in whose vault `world` stands under the name of `hello`.
fn damaged(alloc: Global) -> Result<TestObjects, Fail> {
    let mut vault = MemoryVault::new(alloc, Vec::new(alloc))?;
    vault.write(HELLO_NAME, b"world\n")?;
    Ok(Objects::new(vault))
}

// A batch of `hello`, and of `world` under its id.
fn colliding(alloc: Global) -> Result<Vec<Object>, Fail> {
    let mut batch = Vec::new(alloc);
    for text in ["hello\n", "world\n"] {
        let bytes = Bytes::from_slice(alloc, text.as_bytes())?;
        batch.push(Object { id: hello(), bytes })?;
    }
    Ok(batch)
}

#[test]
fn other_bytes_under_an_id_are_refused(rt: HostRuntime) -> Result<(), Fail> {
    let alloc = rt.alloc();
    let mut objects = damaged(alloc)?;
    let fault = StoreFault::Damaged {
        id: hello(),
        found: WORLD,
    };
    assert!(rt; fresh(alloc, &mut objects)?.err() == Some(fault));
    assert_eq!(rt; store(alloc, &mut objects, 3)?, Err(fault));
    let batch = colliding(alloc)?;
    let refused = fresh_of(alloc, &mut objects, batch.as_slice()).err();
    assert!(rt; refused == Some(StoreFault::Collision(hello())));
    assert_eq!(rt; name_count(&mut objects.into_vault())?, 1);
    Ok(())
}
