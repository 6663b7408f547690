//! What holds of any arena and its chains.
ghost use Rattle.std.specs.Prelude.{◌≡◌, [], Contains};
ghost use Rattle.cv_links.specs.declared.chain.Chain.{Chain as TheChain};
ghost use Rattle.cv_links.specs.declared.id.Id.{Id as TheId};
ghost use Rattle.cv_links.specs.Chains.{IsChain, IsEmpty, list_of};

use crate::arena::Arena;

/// An id stands in at most one list of a lane: two chains of a lane that share an id have one list.
pub fn an_id_has_one_list<T>(arena: &Arena<T>)
    ensures { (c d : TheChain) (id : TheId) → IsChain arena.now c → IsChain arena.now d → c.lane ≡ d.lane
        → Contains (list_of arena.now c) id → Contains (list_of arena.now d) id → list_of arena.now c ≡ list_of arena.now d }
{}

/// A new chain is of every arena, and its list is empty.
pub fn a_new_chain_is_empty<T>(arena: &Arena<T>)
    ensures chain { (c : TheChain) → IsEmpty c → IsChain arena.now c }
    ensures list { (c : TheChain) → IsEmpty c → list_of arena.now c ≡ [] }
{}
