//! What the contracts can't say: that calls find memory, with lists as Python's have them.

ghost use Rattle.std.specs.Prelude.{◌≡◌, ◌<◌, Some, None, IfSome, IfOk, OnOk, Contains};
ghost use Rattle.cv_links.specs.Arena.{IsLive, IsFree};
ghost use Rattle.cv_links.specs.Chains.{IsChain, list_of};

use cv_base::Steps;
use cv_links::{Arena, Chain, Id, Lane};
use std::alloc::Global;
use std::marker::Brand;
use std::sync::ledger::{Blank, Ledger};
use std::test::Fail;

/// Runs of operations with the list that each leaves, by tools/link_vectors.py.
static RUNS: [(&str, &str); 32] = [
    ("LLfFFF", "2654"),
    ("FLsLFFLL", "165478"),
    ("FLLLsFFL", "176348"),
    ("ssFFLLLf", "4567"),
    ("sLfLsF", "46"),
    ("FfFsFfLF", "587"),
    ("sFfFs", "4"),
    ("LLLfFsfLf", "8"),
    ("LLFL", "1324"),
    ("FfFfFLFF", "5876"),
    ("FFfLFLLf", "5467"),
    ("sFLF", "243"),
    ("LsfLFLFL", "47568"),
    ("sFFL", "234"),
    ("LsLLs", "14"),
    ("fFsL", "24"),
    ("LFFLLL", "132456"),
    ("FfLFFL", "3546"),
    ("Lffs", ""),
    ("sffLF", "45"),
    ("FLLF", "1423"),
    ("sFLfsF", "36"),
    ("sssL", "4"),
    ("FFFFfffL", "28"),
    ("LLsLFf", "54"),
    ("FLLsLFfsf", "5"),
    ("LfFF", "34"),
    ("FLFFLLsFL", "1832569"),
    ("LLsFsFLFs", "167"),
    ("Ffsfsf", ""),
    ("ffFFL", "345"),
    ("LFFLs", "124"),
];

/// A new value in the list, after the first or at the end.
fn put<L: Ledger>(
    arena: &mut Arena<u8>,
    chain: &mut Chain,
    value: u8,
    after: Option<Id>,
    steps: &mut Steps<L>,
) -> Result<(), Fail>
    requires whole { IsChain arena.old chain.old }
    requires stands { IfSome after (λ id. Contains (list_of arena.old chain.old) id) }
    ensures { OnOk result (IsChain arena.new chain.new) }
{
    let id = match arena.add(value) {
        Ok(id) => id,
        Err((_, fault)) => return Err(fault.into()),
    };
    match after {
        Some(place) => arena.link_after(chain, place, id, steps),
        None => arena.link_last(chain, id, steps),
    }
    Ok(())
}

/// Does the operation of a letter.
fn apply<L: Ledger>(
    arena: &mut Arena<u8>,
    chain: &mut Chain,
    letter: u8,
    value: u8,
    steps: &mut Steps<L>,
) -> Result<(), Fail>
    requires { IsChain arena.old chain.old }
    ensures { OnOk result (IsChain arena.new chain.new) }
{
    let first = arena.first(chain);
    match (letter, first) {
        (b'L', _) => put(arena, chain, value, None, steps)?,
        (b'F', _) => put(arena, chain, value, first, steps)?,
        (b'f', Some(id)) => arena.unlink(chain, id, steps),
        (b's', Some(id)) => {
            if let Some(second) = arena.next(chain, id, steps) {
                arena.unlink(chain, second, steps);
            }
        }
        _ => {}
    }
    Ok(())
}

/// The values of a list in its order, the first nine of them.
#[tactic(auto, using(cv_links::proofs::Laws::live_in))]
fn in_order<L: Ledger>(
    alloc: Global,
    arena: &Arena<u8>,
    chain: &Chain,
    steps: &mut Steps<L>,
) -> Result<Vec<u8>, Fail>
    requires { IsChain arena.now chain.now }
{
    let mut values = Vec::new(alloc);
    let mut at = arena.first(chain);
    for _ in 0..9 {
        if let Some(id) = at {
            values.push(*arena.get(id))?;
            at = arena.next(chain, id, steps);
        }
    }
    Ok(values)
}

/// The list that a run of operations leaves.
#[tactic(auto, using(cv_links::proofs::Laws::empty_list))]
fn run<L: Ledger>(alloc: Global, letters: &str, steps: &mut Steps<L>) -> Result<Vec<u8>, Fail> {
    let mut arena = Arena::new(alloc);
    let mut chain = Chain::new(Lane::Tree);
    for (letter, value) in letters.bytes().zip("123456789".bytes()) {
        apply(&mut arena, &mut chain, letter, value, steps)?;
    }
    in_order(alloc, &arena, &chain, steps)
}

/// The lists that all runs leave, one after another, each with a space behind it.
fn all_runs<L: Ledger>(alloc: Global, blank: Blank) -> Result<Vec<u8>, Fail>
    requires { (blank.name ≡ L.name) × (blank.parts ≡ L.parts) × (0 < blank.parts) }
{
    let mut steps: Steps<L> = Steps::new(blank);
    let mut lists = Vec::new(alloc);
    for (letters, _) in &RUNS {
        lists.extend_from_slice(run(alloc, letters, &mut steps)?.as_slice())?;
        lists.push(b' ')?;
    }
    Ok(lists)
}

#[test]
fn lists_are_as_those_of_python(rt: HostRuntime) -> Result<(), Fail> {
    let mut expected = Vec::new(rt.alloc());
    for (_, left) in &RUNS {
        expected.extend_from_slice(left.as_bytes())?;
        expected.push(b' ')?;
    }
    let lists = all_runs::<Brand>(rt.alloc(), Blank::new(1))?;
    assert_eq!(rt; lists.as_slice(), expected.as_slice());
    Ok(())
}

/// What stands at a name of a path: its directory, what stands in it, and the moment at which it goes.
#[derive(Drop)]
struct Place {
    above: Option<Id>,
    below: Chain,
    deadline: u64,
}

/// A new place in the arena.
fn new_place(arena: &mut Arena<Place>, above: Option<Id>, deadline: u64) -> Result<Id, Fail>
    ensures live { IfOk result (λ id. IsLive arena.new id) }
    ensures free { IfOk result (λ id. (lane : _) → IsFree arena.new lane id) }
{
    let below = Chain::new(Lane::Tree);
    match arena.add(Place {
        above,
        below,
        deadline,
    }) {
        Ok(id) => Ok(id),
        Err((_, fault)) => Err(fault.into()),
    }
}

/// The directory of a place, twice: an id is copied wherever it stands.
fn above_twice(arena: &Arena<Place>, id: Id) -> (Option<Id>, Option<Id>)
    requires { IsLive arena.now id }
{
    let above = arena.get(id).above;
    (above, above)
}

/// A place stands in both lanes, leaves one, and changes.
#[tactic(auto, using(cv_links::proofs::Laws::empty_list))]
fn lanes<L: Ledger>(alloc: Global, blank: Blank) -> Result<[u64; 3], Fail>
    requires { (blank.name ≡ L.name) × (blank.parts ≡ L.parts) × (0 < blank.parts) }
{
    let mut counter: Steps<L> = Steps::new(blank);
    let steps = &mut counter;
    let mut arena = Arena::new(alloc);
    let id = new_place(&mut arena, None, 10)?;
    let mut tree = Chain::new(Lane::Tree);
    let mut time = Chain::new(Lane::Time);
    arena.link_last(&mut tree, id, steps);
    arena.link_last(&mut time, id, steps);
    arena.unlink(&mut tree, id, steps);
    let in_tree = u64::from(arena.first(&tree).is_some());
    let in_time = u64::from(arena.first(&time).is_some());
    arena.get_mut(id).deadline = 20;
    let deadline = arena.get(id).deadline;
    Ok([in_tree, in_time, deadline])
}

#[test]
fn lanes_are_apart(rt: HostRuntime) -> Result<(), Fail> {
    let seen = lanes::<Brand>(rt.alloc(), Blank::new(1))?;
    assert_eq!(rt; seen, [0, 1, 20]);
    Ok(())
}

#[test]
fn a_place_names_its_directory(rt: HostRuntime) -> Result<(), Fail> {
    let mut arena = Arena::new(rt.alloc());
    arena.reserve(1)?;
    let root = new_place(&mut arena, None, 10)?;
    let leaf = new_place(&mut arena, Some(root), 20)?;
    assert_eq!(rt; above_twice(&arena, leaf), (Some(root), Some(root)));
    assert_eq!(rt; arena.take(leaf).deadline, 20);
    Ok(())
}
